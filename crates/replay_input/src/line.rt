// A line, read as a letter and words.
ghost use Rattle.std.specs.Prelude.{◌≡◌, ◌≤◌, take};

// A letter, and the words that follow it: the first `count` of the array. Not a vector of them, which is no `Copy` type.
#[derive(Clone, Copy)]
pub struct Line {
    pub letter: u8,
    pub words: [u32; 32],
    pub count: usize,
    ghost within: { count ≤ 32 },
}

impl Line {
    pub fn words(&self) -> &[u32]
        ensures { result.now ≡ take self.now.count self.now.words }
    {
        &self.words[..self.count]
    }
}
