// Why a call is refused, with document 01's number for each.
ghost use Rattle.std.specs.Prelude.{◌≡◌, Err, Some};
ghost use Rattle.packing.specs.Pack.{pack_number};
ghost use Rattle.refresh.specs.Answer.{refresh_number};
ghost use Rattle.calls.specs.declared.refusal.Refusal.TheVariants as Refusals;
ghost use Rattle.calls.specs.Refusal.{refusal_number, refusal_text, code, value_or, length_answer};

use ff_state::{TableFull, UnknownBits, UnknownState};
use image::{NotAnImage, WrongLength};
use packing::PackError;
use refresh::RefreshError;
use std::error::Error;
use std::fmt;

// In the order of their numbers.
#[derive(Clone, Copy, Debug, PartialEq, Eq)]
pub enum Refusal {
    UnknownState,
    UndefinedLight,
    TableFull,
    WrongLength,
    WrongMask,
    Singular,
    UnknownBits,
    HasRhw,
    NotAnImage,
}

impl From<Refusal> for u32 {
    ghost from_gives = { λ r n. n ≡ refusal_number r };

    fn from(r: Refusal) -> u32 {
        match r {
            Refusal::UnknownState => 1,
            Refusal::UndefinedLight => 2,
            Refusal::TableFull => 3,
            Refusal::WrongLength => 4,
            Refusal::WrongMask => 5,
            Refusal::Singular => 6,
            Refusal::UnknownBits => 7,
            Refusal::HasRhw => 8,
            Refusal::NotAnImage => 9,
        }
    }
}

impl fmt::Display for Refusal {
    ghost output = { λ r. Some (refusal_text r) };

    fn fmt<W: fmt::Write>(&self, f: &mut fmt::Formatter<W>) -> fmt::Result {
        match self {
            Refusal::UnknownState => UnknownState.fmt(f),
            Refusal::UndefinedLight => f.write_str("no light is defined at this index"),
            Refusal::TableFull => TableFull.fmt(f),
            Refusal::WrongLength => f.write_str("a slice is not as long as its item"),
            Refusal::WrongMask => RefreshError::WrongMask.fmt(f),
            Refusal::Singular => f.write_str("the matrix has no inverse"),
            Refusal::UnknownBits => UnknownBits.fmt(f),
            Refusal::HasRhw => RefreshError::HasRhw.fmt(f),
            Refusal::NotAnImage => NotAnImage.fmt(f),
        }
    }
}

impl Error for Refusal {}

impl From<UnknownState> for Refusal {
    ghost from_gives = { λ _ r. r ≡ Refusals.UnknownState };

    fn from(_e: UnknownState) -> Refusal {
        Refusal::UnknownState
    }
}

impl From<TableFull> for Refusal {
    ghost from_gives = { λ _ r. r ≡ Refusals.TableFull };

    fn from(_e: TableFull) -> Refusal {
        Refusal::TableFull
    }
}

impl From<UnknownBits> for Refusal {
    ghost from_gives = { λ _ r. r ≡ Refusals.UnknownBits };

    fn from(_e: UnknownBits) -> Refusal {
        Refusal::UnknownBits
    }
}

impl From<NotAnImage> for Refusal {
    ghost from_gives = { λ _ r. r ≡ Refusals.NotAnImage };

    fn from(_e: NotAnImage) -> Refusal {
        Refusal::NotAnImage
    }
}

impl From<WrongLength> for Refusal {
    ghost from_gives = { λ _ r. r ≡ Refusals.WrongLength };

    fn from(_e: WrongLength) -> Refusal {
        Refusal::WrongLength
    }
}

impl From<PackError> for Refusal {
    ghost from_gives = { λ e r. refusal_number r ≡ pack_number (Err e) };

    #[tactic(auto, unfolding(packing::specs::Pack::pack_number))]
    fn from(e: PackError) -> Refusal {
        match e {
            PackError::WrongLength => Refusal::WrongLength,
            PackError::WrongMask => Refusal::WrongMask,
        }
    }
}

impl From<RefreshError> for Refusal {
    ghost from_gives = { λ e r. refusal_number r ≡ refresh_number (Err e) };

    #[tactic(auto, unfolding(refresh::specs::Answer::refresh_number))]
    fn from(e: RefreshError) -> Refusal {
        match e {
            RefreshError::WrongLength => Refusal::WrongLength,
            RefreshError::HasRhw => Refusal::HasRhw,
            RefreshError::WrongMask => Refusal::WrongMask,
        }
    }
}

// What C is told: 0, or the refusal's number.
pub fn number(answer: Result<(), Refusal>) -> u32
    ensures { result ≡ code answer }
{
    match answer {
        Ok(()) => 0,
        Err(refusal) => u32::from(refusal),
    }
}

// The same of a call that answers a number, which goes to `out`; a refusal leaves `out` as it was.
pub fn put_number(answer: Result<u32, Refusal>, out: &mut u32) -> u32
    ensures code { result ≡ code answer }
    ensures out { out.new ≡ value_or out.old answer }
{
    match answer {
        Ok(n) => {
            *out = n;
            0
        }
        Err(refusal) => u32::from(refusal), // the place stays
    }
}

// A slice is as long as its item, or is refused.
pub fn of_length(bytes: &[u8], n: usize) -> Result<(), Refusal>
    ensures { result ≡ length_answer n bytes.now }
{
    if bytes.len() == n {
        return Ok(());
    }
    Err(Refusal::WrongLength)
}
