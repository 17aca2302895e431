// Matrices, row by row. Row i, column j is the Rust's m[4 * i + j].
ghost use Rattle.std.specs.Prelude.{◌≡◌};
ghost use Rattle.d3d9_types.specs.Matrix as Matrix;

// Four floats: a row of a matrix, or a packed row.
#[repr(C)]
#[derive(Clone, Copy, Debug, Default, PartialEq)]
pub struct Row {
    pub x: f32,
    pub y: f32,
    pub z: f32,
    pub w: f32,
}

#[repr(C)]
#[derive(Clone, Copy, Debug, PartialEq)]
pub struct D3DMATRIX {
    pub r0: Row,
    pub r1: Row,
    pub r2: Row,
    pub r3: Row,
}

pub const IDENTITY: D3DMATRIX = D3DMATRIX {
    r0: Row {
        x: 1.0,
        y: 0.0,
        z: 0.0,
        w: 0.0,
    },
    r1: Row {
        x: 0.0,
        y: 1.0,
        z: 0.0,
        w: 0.0,
    },
    r2: Row {
        x: 0.0,
        y: 0.0,
        z: 1.0,
        w: 0.0,
    },
    r3: Row {
        x: 0.0,
        y: 0.0,
        z: 0.0,
        w: 1.0,
    },
};

// A constant has no contract: this says what the one above is.
#[tactic(auto, using(crate::proofs::Literals::zero_is, crate::proofs::Literals::one_is), unfolding(crate::specs::Matrix::identity))]
pub fn identity() -> D3DMATRIX
    ensures { result ≡ Matrix.identity }
{
    IDENTITY
}
