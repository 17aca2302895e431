// The call of a letter.
ghost use Rattle.std.specs.Prelude.{◌≡◌};
ghost use Rattle.replay_ops.specs.Call.{call};

use crate::op::Op;
use crate::values::{float_words, matrix_at, matrix_words, one_float, one_matrix};
use calls::Refusal;
use replay_text::{Unanswered, Words, exactly};

// Makes the call `letter` on the words. No other letter is a call, nor other counts of words.
pub fn call(letter: u8, words: &[u32]) -> Result<Words, Unanswered>
    ensures { result ≡ call letter words.now }
{
    match Op::try_from(letter)? {
        Op::Sqrt => Ok(float_words(float32::sqrt(one_float(words)?))),
        Op::Cos => Ok(float_words(float32::cos(one_float(words)?))),
        Op::MatMul => {
            let both = exactly::<32>(words)?;
            let product = matrix::mat_mul(matrix_at(&both, 0), matrix_at(&both, 16));
            Ok(matrix_words(product))
        }
        Op::Transpose => Ok(matrix_words(matrix::transpose(one_matrix(words)?))),
        Op::Inverse => {
            let inverse = matrix::inverse(one_matrix(words)?);
            Ok(matrix_words(inverse.ok_or(Unanswered::Refused(u32::from(Refusal::Singular)))?))
        }
    }
}
