//! The law of best plans.
ghost use Rattle.std.specs.Prelude.{◌<◌, ℕ, List as Many};
ghost use Rattle.plat_base.specs.Machine.{Machine};
ghost use Rattle.plat_cost.specs.BestPlans.{best_plan};
ghost use Rattle.plat_cost.specs.Plans.{HasOneBestPlan, IsBestPlan};

/// Does nothing; its contract is the law that the same actors have one best plan, which is the first one of the list of all
/// plans that costs least.
pub fn one_best_plan()
    ensures one { (m : Machine) (actors : Many ℕ) → HasOneBestPlan m actors }
    ensures best { (m : Machine) (actors : Many ℕ) → 0 < m.nodes → IsBestPlan m actors (best_plan m actors) }
{}
