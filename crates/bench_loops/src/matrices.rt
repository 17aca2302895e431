// Products, transposes and inverses, of matrices of sixteen floats each.
use crate::access::{floats_of, matrix_of};
use d3d9_types::IDENTITY;

// Each matrix times the next one, of as many as both slices hold.
#[unsafe(no_mangle)]
pub extern "C" fn bench_mat_mul(ms: &[f32], out: &mut [f32]) {
    let (ms, _) = ms.as_chunks::<16>();
    let (out, _) = out.as_chunks_mut::<16>();
    let next = ms.iter().take(out.len()).skip(1);
    for ((a, b), product) in ms.iter().zip(next).zip(out) {
        *product = floats_of(matrix::mat_mul(matrix_of(a), matrix_of(b)));
    }
}

// Each matrix times the first one, as a palette's are multiplied by the view.
#[unsafe(no_mangle)]
pub extern "C" fn bench_mat_mul_by_one(ms: &[f32], out: &mut [f32]) {
    let (ms, _) = ms.as_chunks::<16>();
    let (out, _) = out.as_chunks_mut::<16>();
    let Some(first) = ms.first() else {
        return;
    };
    let view = matrix_of(first);
    for (m, product) in ms.iter().zip(out) {
        *product = floats_of(matrix::mat_mul(matrix_of(m), view));
    }
}

// The product of all, from the left: each waits for the one before.
#[unsafe(no_mangle)]
pub extern "C" fn bench_mat_mul_chain(ms: &[f32], out: &mut [f32]) {
    let (ms, _) = ms.as_chunks::<16>();
    let (out, _) = out.as_chunks_mut::<16>();
    let product = ms
        .iter()
        .fold(IDENTITY, |acc, m| matrix::mat_mul(acc, matrix_of(m)));
    if let Some(first) = out.first_mut() {
        *first = floats_of(product);
    }
}

#[unsafe(no_mangle)]
pub extern "C" fn bench_transpose(ms: &[f32], out: &mut [f32]) {
    let (ms, _) = ms.as_chunks::<16>();
    let (out, _) = out.as_chunks_mut::<16>();
    for (m, transposed) in ms.iter().zip(out) {
        *transposed = floats_of(matrix::transpose(matrix_of(m)));
    }
}

// The inverse of each matrix that has one.
#[unsafe(no_mangle)]
pub extern "C" fn bench_inverse(ms: &[f32], out: &mut [f32]) {
    let (ms, _) = ms.as_chunks::<16>();
    let (out, _) = out.as_chunks_mut::<16>();
    for (m, inverse) in ms.iter().zip(out) {
        if let Some(i) = matrix::inverse(matrix_of(m)) {
            *inverse = floats_of(i);
        }
    }
}
