// Tests of parts of an image. Document 01, 'State image'.
ghost use Rattle.std.specs.Prelude.{◌≡◌, ◌/◌, ◌≤◌, length};
ghost use Rattle.std.specs.List.{list_all};
ghost use Rattle.image_reasons.specs.Tests.{plain_word, nan_free, plain_record, zeros, ascends, flags, default_at, slots_default, bits_defined};

use crate::reasons::IMAGE_LENGTH;
use codec::Stored;
use d3d9_types::D3DLIGHT9;
use words::has_bit;

#[tactic(auto, unfolding(crate::specs::Tests::plain_word))]
fn plain_word(n: u32) -> bool
    ensures { result ≡ plain_word n }
{
    n % 0x8000_0000 <= 0x7F80_0000 || n == 0x7FC0_0000
}

// `fold` looks at all, several in one instruction, and so does that of `all_zero`: a fresh state's image is read in 9.7 µs, by `all` in 16.2.
pub fn nan_free(floats: &[u8]) -> bool
    ensures { result ≡ nan_free (length floats.now / 4) floats.now 0 }
{
    let (words, _) = floats.as_chunks::<4>();
    words
        .iter()
        .fold(true, |all, word| all & plain_word(u32::read(word, 0)))
}

// The floats behind the first `from` bytes of each record.
pub fn records_nan_free<const SIZE: usize>(records: &[[u8; SIZE]], from: usize) -> bool
    requires { from ≤ SIZE }
    ensures { result ≡ list_all (plain_record from SIZE) records.now }
{
    records.iter().all(
        |record|
            requires { from ≤ SIZE }
            ensures { result ≡ plain_record from SIZE record.now }
        { nan_free(&record.as_slice()[from..]) },
    )
}

pub fn all_zero(bytes: &[u8]) -> bool
    ensures { result ≡ zeros (length bytes.now) bytes.now 0 }
{
    bytes.iter().fold(true, |all, b| all & (*b == 0))
}

pub fn flags_ok(entries: &[u8]) -> bool
    ensures { result ≡ flags (length entries.now / 112) entries.now 0 }
{
    let (entries, _) = entries.as_chunks::<112>();
    entries.iter().all(|entry| u32::read(entry, 4) <= 1)
}

// A loop, since each index is compared with the one before: `from` is one above that, which may be the largest u32.
pub fn entries_ascending(entries: &[u8]) -> bool
    ensures { result ≡ ascends (length entries.now / 112) entries.now 0 }
{
    let (entries, _) = entries.as_chunks::<112>();
    let mut from = 8u64;
    for entry in entries {
        let index = u64::from(u32::read(entry, 0));
        if index < from {
            return false;
        }
        from = index + 1;
    }
    true
}

fn is_default(light: &[u8; 104]) -> bool
    ensures { result ≡ default_at light.now 0 }
{
    let mut d = [0u8; 104];
    D3DLIGHT9::default().put(&mut d, 0);
    *light == d
}

pub fn slots_default(s: &[u8; IMAGE_LENGTH], defined: u8) -> bool
    ensures { result ≡ slots_default defined s.now 17_092 }
{
    let (lights, _) = s[17_092..17_924].as_chunks::<104>();
    (0..8u32)
        .zip(lights)
        .all(|(i, light)| has_bit(defined, i) || is_default(light))
}

pub fn bits_defined(enabled: u8, defined: u8) -> bool
    ensures { result ≡ bits_defined enabled defined }
{
    (0..8).all(|i| !has_bit(enabled, i) || has_bit(defined, i))
}
