//! Words of pools.

/// The free frames of a module: bit j says that frame j is free.
#[derive(Clone, Copy, Debug, PartialEq, Eq)]
pub struct PoolWord {
    pub free: u64,
}

impl PoolWord {
    ghost use Rattle.std.specs.Prelude.{◌≡◌, Some};

    /// The word that keeps these.
    pub fn encode(self) -> u64
        ensures { result ≡ self.free }
    {
        self.free
    }

    /// What a word keeps. Every word is that of a pool.
    pub fn decode(word: u64) -> Option<PoolWord>
        ensures { result ≡ Some (record { free = word }) }
    {
        Some(PoolWord { free: word })
    }
}
