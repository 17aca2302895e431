// The reasons to refuse an image. Document 01, 'State image'; document 02, T-05.
ghost use Rattle.std.specs.Prelude.{◌≡◌, ◌≤◌};
ghost use Rattle.image_reasons.specs.Reasons.{count_of, numbers_refused, entries_refused, slots_refused, another_nan, refused};

use crate::tests::{
    all_zero, bits_defined, entries_ascending, flags_ok, nan_free, records_nan_free, slots_default,
};
use codec::Stored;

const ENTRIES_END: usize = 24_204;

// Behind the entries: the fog's three floats, the ambient colour and the texture mask.
pub const TAIL_LENGTH: usize = 20;

pub const IMAGE_LENGTH: usize = ENTRIES_END + TAIL_LENGTH;

// `|` of tests that are made: an image that is accepted is looked at whole, and the tests are one expression.
fn numbers_refused(s: &[u8; IMAGE_LENGTH]) -> bool
    ensures { result ≡ numbers_refused s.now }
{
    let mask = 255 < u32::read(s, 24_220);
    let zero = u8::read(s, 17_927) != 0;
    let index = 255 < u16::read(s, 17_928);
    let count = 56 < u16::read(s, 17_930);
    mask | zero | index | count
}

// Both tests of entries take bytes and cut them into entries themselves: `flags` and `ascends` of specs/Tests are of bytes, and so would not
// state a test of entries that were cut once.
fn entries_refused(s: &[u8; IMAGE_LENGTH]) -> bool
    requires { count_of s.now ≤ 56 }
    ensures { result ≡ entries_refused s.now }
{
    let n = usize::from(u16::read(s, 17_930));
    let end = 17_932 + 112 * n;
    let in_use = &s[17_932..end];
    !entries_ascending(in_use) | !flags_ok(in_use) | !all_zero(&s[end..ENTRIES_END])
}

fn slots_refused(s: &[u8; IMAGE_LENGTH]) -> bool
    ensures { result ≡ slots_refused s.now }
{
    let enabled = u8::read(s, 17_924);
    let defined = u8::read(s, 17_925);
    !bits_defined(enabled, defined) || !slots_default(s, defined)
}

fn another_nan(s: &[u8; IMAGE_LENGTH]) -> bool
    ensures { result ≡ another_nan s.now }
{
    let (lights, _) = s[17_092..17_924].as_chunks::<104>();
    let (entries, _) = s[17_932..ENTRIES_END].as_chunks::<112>();
    !(nan_free(&s[..17_092])
        & records_nan_free(lights, 4)
        & records_nan_free(entries, 12)
        & nan_free(&s[ENTRIES_END..24_216]))
}

// Whether some reason for 9 holds.
#[tactic(auto, using(crate::proofs::Numbers::few_entries), unfolding(crate::specs::Reasons::refused))]
pub fn image_refused(s: &[u8]) -> bool
    ensures { result ≡ refused s.now }
{
    let Some(image) = s.as_array::<IMAGE_LENGTH>() else {
        return true;
    };
    numbers_refused(image) || entries_refused(image) || slots_refused(image) || another_nan(image)
}
