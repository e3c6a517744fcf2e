//! The law of merging.
ghost use Rattle.plat_base.specs.Machine.{Machine};
ghost use Rattle.plat_base.specs.Verdicts.{Answer};
ghost use Rattle.plat_merge_laws.specs.Merging.{MergesAreGood};

/// Does nothing; its contract is the law of merging: where the journals of the actors are those of a good history, their
/// merge places each item of that history, each actor's in order, and is good with the same ends, on any machine and
/// under any policy.
pub fn good_journals_merge()
    ensures { (m : Machine) (answer : Answer) → MergesAreGood m answer }
{}
