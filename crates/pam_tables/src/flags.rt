//! A flag for each of many indices, in the bits of words.

ghost use Rattle.std.specs.Prelude.{◌≡◌, ◌<◌, ◌==◌, ◌||◌, ℕ, false, length};
ghost use Rattle.pam_tables.specs.inner.Flags.{is_set};

/// The number of flags.
pub(crate) const FLAGS: usize = 160_000;

const WORDS: usize = FLAGS / 64;

/// Flags for the indices below `FLAGS`.
#[derive(Drop)]
pub(crate) struct Flags {
    pub(crate) words: [u64; WORDS],
    ghost long: { length words ≡ 2500 },
}

impl Flags {
    pub(crate) fn none() -> Flags
        ensures { (index : ℕ) → is_set result.words index ≡ false }
    {
        Flags { words: [0; WORDS] }
    }

    /// Sets the flag of an index.
    pub(crate) fn set(&mut self, index: usize)
        requires { index < 160000 }
        ensures { (k : ℕ) → is_set self.new.words k ≡ (k == index || is_set self.old.words k) }
    {
        self.words[index / 64] |= 1 << (index % 64);
    }

    /// Whether the flag of an index is set.
    pub(crate) fn has(&self, index: usize) -> bool
        requires { index < 160000 }
        ensures { result ≡ is_set self.now.words index }
    {
        (self.words[index / 64] >> (index % 64)) & 1 == 1
    }
}
