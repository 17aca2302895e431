// Items of one type, written one after another.
ghost use Rattle.std.specs.Prelude.{◌≡◌, ◌+◌, ◌*◌, ◌≤◌, length};
ghost use Rattle.codec.specs.Put.{put};
ghost use Rattle.image_lists.specs.Lists.{list_bytes};

use codec::Stored;

pub fn put_list<T: Stored>(dst: &mut [u8], from: usize, xs: &[T])
    requires { from + T.SIZE * length xs.now ≤ length dst.old }
    ensures { dst.new ≡ put from (list_bytes T.bytes xs.now) dst.old }
{
    for (i, x) in xs.iter().enumerate() {
        x.put(dst, from + T::SIZE * i);
    }
}
