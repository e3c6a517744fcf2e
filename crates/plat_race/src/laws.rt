//! The law of before.
ghost use Rattle.std.specs.Prelude.{◌↔◌, ℕ, List as Many, IsTrue};
ghost use Rattle.plat_base.specs.declared.items.Item.{Item as AnyItem};
ghost use Rattle.plat_race.specs.Races.{is_before, IsBefore};

/// Does nothing; its contract is the law that the computed test of before is the relation, the transitive closure of what
/// is directly before what.
pub fn before_is_closure()
    ensures { (items : Many AnyItem) (i j : ℕ) → IsTrue (is_before items i j) ↔ IsBefore items i j }
{}
