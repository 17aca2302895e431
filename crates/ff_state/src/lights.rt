// What refuses a call on lights, which crates/ff_lights has.
ghost use Rattle.std.specs.Prelude.{Some};
ghost use Rattle.ff_state.specs.Lights.{table_full_text};

use std::error::Error;
use std::fmt;

// 56 other lights from index 8 on are stored.
#[derive(Clone, Copy, Debug, PartialEq, Eq)]
pub struct TableFull;

impl fmt::Display for TableFull {
    ghost output = { λ _. Some table_full_text };

    fn fmt<W: fmt::Write>(&self, f: &mut fmt::Formatter<W>) -> fmt::Result {
        f.write_str("56 other lights from index 8 on are stored")
    }
}

impl Error for TableFull {}
