//! Marks: of each actor, how far its accesses are known.
ghost use Rattle.std.specs.Prelude.{◌≡◌, ◌<◌, ◌≤◌, ℕ, true, false, max, slice_index, slice_set, slice_index_or, [], length};
ghost use Rattle.plat_race.specs.Marks.{AreJoined, AreNoneAbove, IsOneAbove};
ghost use Rattle.plat_race.specs.Tabled.{row_at, with_mark};

use plat_base::MODULES;

/// The number of marks in a row: one for each node that a machine can have.
pub(crate) const NODES: usize = MODULES as usize;

/// One mark for each actor: a number that stands above the places of some accesses of that actor, and of no others.
pub(crate) type Marks = [u32; NODES];

/// Of each actor the higher of two marks.
pub(crate) fn joined(some: &Marks, others: &Marks) -> Marks
    ensures { AreJoined some.now others.now result }
{
    let mut all = *some;
    for b in 0..NODES {
        all[b] = all[b].max(others[b]);
    }
    all
}

/// Whether a mark of the first is above that of the second for the same actor.
pub(crate) fn is_above(some: &Marks, others: &Marks) -> bool
    ensures above { result ≡ true → IsOneAbove some.now others.now }
    ensures below { result ≡ false → AreNoneAbove some.now others.now }
{
    some.iter().zip(others).any(|(mark, other)| mark > other)
}

/// Sets the mark of an actor in one row of a table.
pub(crate) fn set_mark(rows: &mut Vec<Marks>, row: usize, actor: usize, mark: u32)
    requires row { row < length rows.old.items }
    requires actor { actor < MODULES }
    ensures length { length (row_at rows.old.items row) ≡ MODULES }
    ensures set { rows.new.items ≡ with_mark rows.old.items row actor mark }
{
    rows[row][actor] = mark;
}
