//! Lists of given items.
ghost use Rattle.std.specs.Prelude.{◌≡◌, IfOk};

use plat_base::{List, OutOfMemory};
use std::alloc::Global;

/// The list of these items.
pub fn listed<T: Copy>(alloc: Global, items: &[T]) -> Result<List<T>, OutOfMemory>
    ensures { IfOk result (λ list. list.items ≡ items.now) }
{
    let mut list = List::with_room(alloc, items.len())?;
    for item in items {
        list.push(*item);
    }
    Ok(list)
}
