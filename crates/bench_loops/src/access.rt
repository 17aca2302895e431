// A matrix as sixteen floats, by rows.
use d3d9_types::{D3DMATRIX, Row};

pub fn matrix_of(s: &[f32; 16]) -> D3DMATRIX {
    let [a, b, c, d, e, f, g, h, i, j, k, l, m, n, o, p] = *s;
    D3DMATRIX {
        r0: row(a, b, c, d),
        r1: row(e, f, g, h),
        r2: row(i, j, k, l),
        r3: row(m, n, o, p),
    }
}

fn row(x: f32, y: f32, z: f32, w: f32) -> Row {
    Row { x, y, z, w }
}

pub fn floats_of(m: D3DMATRIX) -> [f32; 16] {
    [
        m.r0.x, m.r0.y, m.r0.z, m.r0.w, m.r1.x, m.r1.y, m.r1.z, m.r1.w, m.r2.x, m.r2.y, m.r2.z, m
            .r2
            .w, m.r3.x, m.r3.y, m.r3.z, m.r3.w,
    ]
}
