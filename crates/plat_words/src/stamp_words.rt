//! Words of stamps.
ghost use Rattle.std.specs.Prelude.{◌<◌, ◌^◌};
ghost use Rattle.plat_events.specs.Words.{last_number};

use crate::parts::bits;

/// The stamp of a page: the tick of its last invalidation, if any, which is below 4,294,967,295, and its number of changes.
#[derive(Clone, Copy, Debug, PartialEq, Eq)]
pub struct StampWord {
    pub last: Option<u32>,
    pub seq: u32,
    pub ghost within: { last_number last < 2 ^ 32 },
}

impl StampWord {
    ghost use Rattle.std.specs.Prelude.{◌≡◌, Some, IfSome, IsSomeAnd};
    ghost use Rattle.plat_words.specs.declared.stamp_words.StampWord.{StampWord};
    ghost use Rattle.plat_words.specs.Encodings.{stamp_encoded, IsStampRead};

    /// The word that keeps these.
    pub fn encode(self) -> u64
        ensures { result ≡ stamp_encoded self }
    {
        let last = match self.last {
            None => 0,
            Some(tick) => u64::from(tick) + 1,
        };
        last + (u64::from(self.seq) << 32)
    }

    /// What a word keeps. Every word is that of a stamp.
    pub fn decode(word: u64) -> Option<StampWord>
        ensures read { IsSomeAnd result (IsStampRead word) }
        ensures back { IfSome result (λ x. stamp_encoded x ≡ word) }
        ensures exact { (x : StampWord) → x.seq < 2 ^ 32 → stamp_encoded x ≡ word → result ≡ Some x }
    {
        let last = bits(word, 0, 32) as u32;
        Some(StampWord {
            last: last.checked_sub(1),
            seq: bits(word, 32, 32) as u32,
        })
    }
}
