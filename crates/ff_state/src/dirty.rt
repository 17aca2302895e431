// The dirty bits: marked, and taken.
ghost use Rattle.std.specs.Prelude.{◌≡◌, Some};
ghost use Rattle.ff_state.specs.Changed.{changed, in_place};
ghost use Rattle.ff_state.specs.Dirty.{dirtied, mark_ff_vs_dirty, taken, take_ff_vs_dirty, unknown_bits_text};

use crate::state::FfState;
use std::error::Error;
use std::fmt;

// A bit above the eight.
#[derive(Clone, Copy, Debug, PartialEq, Eq)]
pub struct UnknownBits;

impl fmt::Display for UnknownBits {
    ghost output = { λ _. Some unknown_bits_text };

    fn fmt<W: fmt::Write>(&self, f: &mut fmt::Formatter<W>) -> fmt::Result {
        f.write_str("a dirty bit that is no section's")
    }
}

impl Error for UnknownBits {}

#[derive(Clone, Copy)]
pub struct Taken {
    pub bits: u32,
    pub state: FfState,
}

impl FfState {
    // The bits of `bits` are dirty too.
    #[tactic(auto, unfolding(crate::specs::Dirty::dirtied))]
    pub fn mark_sections(&mut self, bits: u8)
        ensures { self.new ≡ dirtied self.old bits }
    {
        self.ff_vs_dirty |= bits;
    }

    #[tactic(auto, unfolding(crate::specs::Dirty::mark_ff_vs_dirty))]
    pub fn mark_in_place(&mut self, bits: u32) -> Result<(), UnknownBits>
        ensures { in_place result self.new ≡ mark_ff_vs_dirty self.old bits }
    {
        let bits = u8::try_from(bits).map_err(|_| UnknownBits)?;
        self.mark_sections(bits);
        Ok(())
    }

    #[tactic(auto, unfolding(crate::specs::Dirty::mark_ff_vs_dirty, crate::specs::Changed::changed))]
    pub fn mark_ff_vs_dirty(mut self, bits: u32) -> Result<FfState, UnknownBits>
        ensures { changed self result ≡ mark_ff_vs_dirty self bits }
    {
        self.mark_in_place(bits)?;
        Ok(self)
    }

    // Answers the bits, and leaves none.
    #[tactic(auto, unfolding(crate::specs::Dirty::take_ff_vs_dirty))]
    pub fn take_in_place(&mut self) -> u32
        ensures { taken result self.new ≡ take_ff_vs_dirty self.old }
    {
        let bits = u32::from(self.ff_vs_dirty);
        self.ff_vs_dirty = 0;
        bits
    }

    pub fn take_ff_vs_dirty(mut self) -> Taken
        ensures { result ≡ take_ff_vs_dirty self }
    {
        let bits = self.take_in_place();
        Taken { bits, state: self }
    }
}
