// Words as text: eight hexadecimal digits in lower case, the most significant first.
ghost use Rattle.std.specs.Prelude.{Some};
ghost use Rattle.io.specs.Digits.{last_digits};
ghost use Rattle.replay_text.specs.Hex.{IsDigit, IsWord};

use std::fmt;

#[derive(Clone, Copy)]
pub struct Word(pub u32);

impl fmt::Display for Word {
    ghost output = { λ w. Some (last_digits 16 8 w.0) };

    #[tactic(auto, using(crate::proofs::hex::Padded::word_text))]
    fn fmt<W: fmt::Write>(&self, f: &mut fmt::Formatter<W>) -> fmt::Result {
        let w = self.0;
        write!(f, "{w:08x}")
    }
}

// Not `char::to_digit`: it takes upper case too.
fn hex_digit(b: u8) -> Option<u32>
    ensures { IsDigit b result }
{
    match b {
        b'0'..=b'9' => Some(u32::from(b - b'0')),
        b'a'..=b'f' => Some(u32::from(b - b'a') + 10),
        _ => None,
    }
}

// The word that the text is. Not `from_str_radix`: it takes a sign and upper case too.
pub fn word_of(text: &[u8]) -> Option<u32>
    ensures { IsWord text.now result }
{
    if text.len() != 8 {
        return None;
    }
    let mut w = 0;
    for b in text {
        w = w * 16 + hex_digit(*b)?;
    }
    Some(w)
}
