// Overflow entries, 112 bytes.
ghost use Rattle.codec.specs.Entry.{entry_at, entry_bytes, length-entry_bytes};

use crate::storage::Stored;
use d3d9_types::D3DLIGHT9;
use light_table::OverflowLight;

impl Stored for OverflowLight {
    const SIZE: usize = 112;

    ghost SIZE = { 112 };

    ghost bytes = { entry_bytes };

    ghost at = { entry_at };

    ghost wide = { length-entry_bytes };

    #[tactic(auto, unfolding(crate::specs::Entry::entry_at))]
    fn read(s: &[u8], from: usize) -> OverflowLight {
        OverflowLight {
            index: u32::read(s, from),
            enabled: u32::read(s, from + 4),
            light: D3DLIGHT9::read(s, from + 8),
        }
    }

    #[tactic(auto)]
    fn put(self, dst: &mut [u8], from: usize) {
        self.index.put(dst, from);
        self.enabled.put(dst, from + 4);
        self.light.put(dst, from + 8);
    }
}
