// Items that lie alone in a slice. A slice that is not as long as its item is refused.
ghost use Rattle.std.specs.Prelude.{◌≡◌};
ghost use Rattle.calls.specs.Answer.{answer, answered, length_number};
ghost use Rattle.calls.specs.Refusal.{code, item_answer};

use crate::refusal::{Refusal, of_length};
use codec::Stored;

#[tactic(auto, unfolding(crate::specs::Refusal::length_answer))]
pub fn item_of<T: Stored>(bytes: &[u8]) -> Result<T, Refusal>
    ensures { result ≡ item_answer T.at T.SIZE bytes.now }
{
    of_length(bytes, T::SIZE)?;
    Ok(T::read(bytes, 0))
}

pub fn put_item<T: Stored>(item: T, out: &mut [u8]) -> Result<(), Refusal>
    ensures { answer (code result) out.new ≡ answered (length_number T.SIZE out.old) (T.bytes item) out.old }
{
    of_length(out, T::SIZE)?;
    item.put(out, 0);
    Ok(())
}
