// The hash of words, and of bytes as words.
ghost use Rattle.std.specs.Prelude.{◌≡◌, ℕ, map};
ghost use Rattle.run_cases.specs.Hash.{hash_with, hash_from, hash_of};

// What lent memory is made of: words, or bytes, which are hashed as words.
pub trait Word: Copy {
    // What it holds before a call.
    const FILL: Self;

    ghost word: { Self → ℕ };

    fn word(self) -> u32
        ensures { result ≡ word self };
}

impl Word for u32 {
    const FILL: u32 = 0xA5A5A5A5;

    ghost word = { λ w. w };

    fn word(self) -> u32 {
        self
    }
}

impl Word for u8 {
    const FILL: u8 = 0xA5;

    ghost word = { λ b. b };

    fn word(self) -> u32 {
        u32::from(self)
    }
}

// The hash of no words.
pub const NONE: u32 = 2166136261;

// The hash of the words before and this one.
pub fn with(sum: u32, word: u32) -> u32
    ensures { result ≡ hash_with sum word }
{
    ((sum as u64 * 16777619 + word as u64) % 4294967296) as u32
}

// The hash of the words before and these.
pub fn with_all<T: Word>(sum: u32, words: &[T]) -> u32
    ensures { result ≡ hash_from sum (map T.word words.now) }
{
    words.iter().map(|word| word.word()).fold(sum, with)
}

pub fn of<T: Word>(words: &[T]) -> u32
    ensures { result ≡ hash_of (map T.word words.now) }
{
    with_all(NONE, words)
}
