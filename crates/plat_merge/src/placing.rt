//! One item more is placed.
ghost use Rattle.std.specs.Prelude.{◌≡◌, ◌<◌, length};
ghost use Rattle.plat_merge.specs.Placing.{loads_found as loads_found_of, CanPlace, words_then, pages_placed};

use crate::counts::Counts;
use crate::totals::Totals;
use plat_base::{Access, Item};

/// How many loads find what an access wrote.
fn loads_found(counts: &Counts, totals: &Totals, access: &Access) -> u32
    requires page { access.now.page < length counts.now.pages.items }
    requires word { access.now.word < counts.now.page_words }
    ensures { result ≡ loads_found_of counts.now.page_words totals.now access.now }
{
    if access.kind.is_write() {
        totals.loads.how_many(counts.cell(access), access.version)
    } else {
        0
    }
}

/// Keeps count of an item that is placed next.
pub fn place(counts: &mut Counts, totals: &Totals, item: &Item)
    requires { CanPlace counts.old totals.now item.now }
    ensures words { counts.new.words.items ≡ words_then counts.old totals.now item.now }
    ensures pages { counts.new.pages.items ≡ pages_placed totals.now counts.old.pages.items item.now }
    ensures same { counts.new.page_words ≡ counts.old.page_words }
{
    match item {
        Item::Access(access) => {
            let loads = loads_found(counts, totals, access);
            counts.place_access(access, loads);
        }
        Item::Change(change) => {
            let page = change.page as usize;
            let uses = totals.uses.how_many(page, change.seq);
            let writes = totals.writes.how_many(page, change.seq);
            counts.place_change(change, uses, writes);
        }
        Item::Applied(_) | Item::Switch(_) => {}
    }
}
