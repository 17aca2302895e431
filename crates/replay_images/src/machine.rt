// The running image, item, key and mirror.
ghost use Rattle.std.specs.Prelude.{◌≡◌};
ghost use Rattle.replay_images.specs.Machine.{digest, done, first_machine, put_image, put_item, put_key, put_mirror, told};

use calls::Refusal;
use codec::Stored;
use image_lists::put_list;
use image_reasons::IMAGE_LENGTH;
use replay_text::{Unanswered, Words};
use sections::MIRROR_FLOATS;

// More than the longest item has, a light's 104.
const ITEM_LENGTH: usize = 128;

const MIRROR_LENGTH: usize = 4 * MIRROR_FLOATS;

#[derive(Drop)]
pub struct Machine {
    pub image: [u8; IMAGE_LENGTH],
    pub item: [u8; ITEM_LENGTH],
    pub key: [u8; 8],
    pub mirror: [u8; MIRROR_LENGTH],
}

impl Machine {
    // All are zeros at first.
    pub fn new() -> Machine
        ensures { result ≡ first_machine }
    {
        Machine {
            image: [0; IMAGE_LENGTH],
            item: [0; ITEM_LENGTH],
            key: [0; 8],
            mirror: [0; MIRROR_LENGTH],
        }
    }

    // The words over the first 104 bytes of the item.
    pub fn put_item(&mut self, words: &[u32; 26])
        ensures { self.new ≡ put_item self.old words.now }
    {
        put_list(&mut self.item, 0, words);
    }

    // The two words over the key.
    pub fn put_key(&mut self, low: u32, high: u32)
        ensures { self.new ≡ put_key self.old low high }
    {
        put_list(&mut self.key, 0, &[low, high]);
    }

    // The word over four bytes of the mirror.
    pub fn put_mirror(&mut self, at: u32, w: u32) -> Result<(), Unanswered>
        ensures { done result self.new ≡ put_mirror self.old at w }
    {
        let at = at as usize;
        if at >= MIRROR_FLOATS {
            return Err(Unanswered::BadLine);
        }
        w.put(&mut self.mirror, 4 * at);
        Ok(())
    }

    // The byte over one of the image's: refused past its end, as a slice that is too short.
    pub fn put_image(&mut self, at: u32, b: u32) -> Result<(), Unanswered>
        ensures { done result self.new ≡ put_image self.old at b }
    {
        let at = at as usize;
        if at >= IMAGE_LENGTH {
            return Err(Unanswered::Refused(u32::from(Refusal::WrongLength)));
        }
        self.image[at] = (b % 256) as u8;
        Ok(())
    }

    // The number that an accepted call was lent, and the three digests.
    pub fn told(&self, number: u32) -> Words
        ensures { result ≡ told self.now number }
    {
        Words::Told([
            number,
            digest(&self.item),
            digest(&self.image),
            digest(&self.mirror),
        ])
    }
}

// A number that all the bytes make.
fn digest(s: &[u8]) -> u32
    ensures { result ≡ digest s.now }
{
    s.iter().fold(0u32, |h, b| {
        h.wrapping_add(u32::from(*b))
            .wrapping_add(1)
            .wrapping_mul(0x0100_0193)
    })
}
