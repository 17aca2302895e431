// The words of a line, as many as its call takes.
ghost use Rattle.std.specs.Prelude.{◌≡◌};
ghost use Rattle.replay_text.specs.Exactly.{exactly};

use crate::answer::Unanswered;

// A line with other than N words is no call.
pub fn exactly<const N: usize>(words: &[u32]) -> Result<[u32; N], Unanswered>
    ensures { result ≡ exactly N words.now }
{
    words.as_array().copied().ok_or(Unanswered::BadLine)
}
