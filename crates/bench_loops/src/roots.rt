// Square roots.

// The root of each.
#[unsafe(no_mangle)]
pub extern "C" fn bench_sqrt(xs: &[f32], out: &mut [f32]) {
    for (root, x) in out.iter_mut().zip(xs) {
        *root = float32::sqrt(*x);
    }
}

// Each root waits for the one before.
#[unsafe(no_mangle)]
pub extern "C" fn bench_sqrt_chain(xs: &[f32]) -> f32 {
    xs.iter().fold(0.0f32, |acc, x| float32::sqrt(acc + *x))
}
