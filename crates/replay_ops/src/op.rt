// The letters of arithmetic, which are the format's.
ghost use Rattle.std.specs.Prelude.{◌≡◌};
ghost use Rattle.replay_ops.specs.Call.{op_of};

use replay_text::Unanswered;

#[derive(Clone, Copy, Debug, PartialEq, Eq)]
pub enum Op {
    Sqrt,
    Cos,
    MatMul,
    Transpose,
    Inverse,
}

impl TryFrom<u8> for Op {
    type Error = Unanswered;

    ghost try_from_gives = { λ letter op. op ≡ op_of letter };

    fn try_from(letter: u8) -> Result<Op, Unanswered> {
        match letter {
            b's' => Ok(Op::Sqrt),
            b'c' => Ok(Op::Cos),
            b'm' => Ok(Op::MatMul),
            b't' => Ok(Op::Transpose),
            b'i' => Ok(Op::Inverse),
            _ => Err(Unanswered::BadLine),
        }
    }
}
