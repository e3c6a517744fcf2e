//! Words of frames.
use crate::parts::bits;

/// A word of a frame: its value, and how often it was written.
#[derive(Clone, Copy, Debug, PartialEq, Eq)]
pub struct DataWord {
    pub value: u32,
    pub version: u32,
}

impl DataWord {
    ghost use Rattle.std.specs.Prelude.{◌≡◌, Some, IfSome, IsSomeAnd};
    ghost use Rattle.plat_words.specs.declared.data_words.DataWord.{DataWord};
    ghost use Rattle.plat_words.specs.Encodings.{data_encoded, IsDataRead, IsDataWord};

    /// The word that keeps these.
    pub fn encode(self) -> u64
        ensures { result ≡ data_encoded self }
    {
        u64::from(self.value) + (u64::from(self.version) << 32)
    }

    /// What a word keeps. Every word is that of a value with a version.
    pub fn decode(word: u64) -> Option<DataWord>
        ensures read { IsSomeAnd result (IsDataRead word) }
        ensures back { IfSome result (λ x. data_encoded x ≡ word) }
        ensures exact { (x : DataWord) → IsDataWord x → data_encoded x ≡ word → result ≡ Some x }
    {
        Some(DataWord {
            value: bits(word, 0, 32) as u32,
            version: bits(word, 32, 32) as u32,
        })
    }
}
