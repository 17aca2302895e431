// Numbers of one, two and four bytes.
ghost use Rattle.codec.specs.Little.{little_bytes, number_at};
ghost use Rattle.codec.specs.Sizes.{length-little_bytes};

use crate::storage::Stored;

impl Stored for u8 {
    const SIZE: usize = 1;

    ghost SIZE = { 1 };

    ghost bytes = { little_bytes 1 };

    ghost at = { number_at 1 };

    ghost wide = { length-little_bytes 1 };

    #[tactic(auto, using(crate::proofs::Laws::Little::number_at_one))]
    fn read(s: &[u8], from: usize) -> u8 {
        s[from]
    }

    #[tactic(auto, using(crate::proofs::Put::one_store), unfolding(crate::specs::Little::little_bytes))]
    fn put(self, dst: &mut [u8], from: usize) {
        dst[from] = self;
    }
}

impl Stored for u16 {
    const SIZE: usize = 2;

    ghost SIZE = { 2 };

    ghost bytes = { little_bytes 2 };

    ghost at = { number_at 2 };

    ghost wide = { length-little_bytes 2 };

    #[tactic(auto, using(crate::proofs::Laws::Little::number_of_two))]
    fn read(s: &[u8], from: usize) -> u16 {
        let two = &s[from..from + 2];
        u16::from_le_bytes([two[0], two[1]])
    }

    #[tactic(auto, using(crate::proofs::Put::put_back, crate::proofs::Laws::Little::bytes_of_two))]
    fn put(self, dst: &mut [u8], from: usize) {
        dst[from..from + 2].copy_from_slice(&self.to_le_bytes());
    }
}

impl Stored for u32 {
    const SIZE: usize = 4;

    ghost SIZE = { 4 };

    ghost bytes = { little_bytes 4 };

    ghost at = { number_at 4 };

    ghost wide = { length-little_bytes 4 };

    #[tactic(auto, using(crate::proofs::Laws::Little::number_of_four))]
    fn read(s: &[u8], from: usize) -> u32 {
        let four = &s[from..from + 4];
        u32::from_le_bytes([four[0], four[1], four[2], four[3]])
    }

    #[tactic(auto, using(crate::proofs::Put::put_back, crate::proofs::Laws::Little::bytes_of_four))]
    fn put(self, dst: &mut [u8], from: usize) {
        dst[from..from + 4].copy_from_slice(&self.to_le_bytes());
    }
}
