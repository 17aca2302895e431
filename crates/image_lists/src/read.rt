// Items of one type, read one after another.
ghost use Rattle.std.specs.Prelude.{◌≡◌, ◌+◌, ◌*◌, ◌≤◌, length};
ghost use Rattle.image_lists.specs.Lists.{list_at};

use codec::Stored;
use std::array;

pub fn list_at<T: Stored, const N: usize>(s: &[u8], from: usize) -> [T; N]
    requires { from + T.SIZE * N ≤ length s.now }
    ensures { result ≡ list_at T.at T.SIZE N s.now from }
{
    array::from_fn(
        |i|
            requires { from + (T.SIZE * i + T.SIZE) ≤ length s.now }
        { T::read(s, from + T::SIZE * i) },
    )
}
