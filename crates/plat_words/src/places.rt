//! Places of shared words.
ghost use Rattle.std.specs.Prelude.{◌≡◌, ◌<◌, IsTrue};
ghost use Rattle.plat_base.specs.Seen.{machine};
ghost use Rattle.plat_base.specs.declared.words.WordName.{WordName};
ghost use Rattle.plat_events.specs.Places.{place_of, is_name, word_count};

use plat_base::{Config, WordName};

/// The place of a shared word of the machine, from 0. Words of one kind stand side by side.
#[tactic(auto, using(plat_base::proofs::EntryLimits::entries_most_of))]
pub fn place(cfg: &Config, name: WordName) -> usize
    requires { IsTrue (is_name (machine cfg.now) name) }
    ensures at { result ≡ place_of (machine cfg.now) name }
    ensures within { result < word_count (machine cfg.now) }
    ensures apart { (other : WordName) → IsTrue (is_name (machine cfg.now) other) →
        place_of (machine cfg.now) other ≡ result → other ≡ name }
{
    let nodes = cfg.nodes as usize;
    let pages = cfg.pages as usize;
    let entries = cfg.entries.len();
    match name {
        WordName::Time => 0,
        WordName::Live => 1,
        WordName::Act(q) => 2 + q as usize,
        WordName::Intr(q) => 2 + nodes + q as usize,
        WordName::Dir(p) => 2 + 2 * nodes + p as usize,
        WordName::Stamp(p) => 2 + 2 * nodes + pages + p as usize,
        WordName::Cmap(e) => 2 + 2 * nodes + 2 * pages + e as usize,
        WordName::Pool(m) => 2 + 2 * nodes + 2 * pages + entries + m as usize,
        WordName::Memory {
            module,
            number,
            word,
        } => {
            let frame = module as usize * cfg.frames as usize + number as usize;
            2 + 3 * nodes + 2 * pages + entries + frame * cfg.words as usize + word as usize
        }
    }
}
