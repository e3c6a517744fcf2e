//! Words of masks.
ghost use Rattle.std.specs.Prelude.{◌<◌, ◌^◌};
ghost use Rattle.plat_events.specs.Words.{most_nodes};

use crate::parts::bits;
use plat_base::limits::MODULES;

/// The mask of an entry (Cox and Fowler 1989), with one bit for each processor, that of processor 0 being the lowest: who
/// has a reference, and for whom an invalidate or a restrict waits.
#[derive(Clone, Copy, Debug, PartialEq, Eq)]
pub struct CmapWord {
    pub reference: u32,
    pub invalidate: u32,
    pub restrict: u32,
    pub ghost references: { reference < 2 ^ most_nodes },
    pub ghost invalidates: { invalidate < 2 ^ most_nodes },
    pub ghost restricts: { restrict < 2 ^ most_nodes },
}

impl CmapWord {
    ghost use Rattle.std.specs.Prelude.{◌≡◌, Some, IfSome};
    ghost use Rattle.plat_words.specs.declared.cmap_words.CmapWord.{CmapWord};
    ghost use Rattle.plat_words.specs.Encodings.{cmap_encoded, IsCmapRead};

    /// The word that keeps these.
    pub fn encode(self) -> u64
        ensures { result ≡ cmap_encoded self }
    {
        u64::from(self.reference)
            + (u64::from(self.invalidate) << MODULES)
            + (u64::from(self.restrict) << (2 * MODULES))
    }

    /// What a word keeps; None where it has a bit above these.
    pub fn decode(word: u64) -> Option<CmapWord>
        ensures read { IfSome result (IsCmapRead word) }
        ensures back { IfSome result (λ x. cmap_encoded x ≡ word) }
        ensures exact { (x : CmapWord) → cmap_encoded x ≡ word → result ≡ Some x }
    {
        if word < 1 << (3 * MODULES) {
            Some(CmapWord {
                reference: bits(word, 0, MODULES) as u32,
                invalidate: bits(word, MODULES, MODULES) as u32,
                restrict: bits(word, 2 * MODULES, MODULES) as u32,
            })
        } else {
            None
        }
    }
}
