// What is stored in bytes: a type with its size, its bytes, and what stands in bytes from a place on.
ghost use Rattle.std.specs.Prelude.{◌≡◌, ◌+◌, ◌≤◌, ℕ, List, length};
ghost use Rattle.codec.specs.Put.{put};

pub trait Stored: Copy {
    const SIZE: usize;

    ghost SIZE: { ℕ };

    ghost bytes: { Self → List ℕ };

    ghost at: { List ℕ → ℕ → Self };

    fn read(s: &[u8], from: usize) -> Self
        requires { from + SIZE ≤ length s.now }
        ensures { result ≡ at s.now from };

    fn put(self, dst: &mut [u8], from: usize)
        requires { from + SIZE ≤ length dst.old }
        ensures { dst.new ≡ put from (bytes self) dst.old };

    // A value has as many bytes as its type says.
    ghost wide: { (x : Self) → length (bytes x) ≡ SIZE };
}
