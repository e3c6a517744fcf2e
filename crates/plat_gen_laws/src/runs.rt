//! The runs of the generated machines.
ghost use Rattle.std.specs.Prelude.{◌≡◌, ◌<◌, ℕ, false, replicate};
ghost use Rattle.plat_base.specs.Schedule.{coarse_run};
ghost use Rattle.plat_base.specs.Statuses.{status_of};
ghost use Rattle.plat_base.specs.declared.statuses.Status.TheVariants as statuses;
ghost use Rattle.plat_gen.specs.Generated.{generated};
ghost use Rattle.plat_gen_laws.specs.Halts.{HaltsIn, halted_in};

use plat_base::Policy;

/// Does nothing; its contract is the law of the generated machines: each guest halts in its turn 40,008, whatever its loads
/// and fetch-and-adds get, and so does each processor of the coarse run, under every policy. Then the run's status is Done.
pub fn generated_run<P: Policy>(n: u32, policy: &P)
    ensures guests { (q : ℕ) → q < 8 → HaltsIn (generated n) q 40008 8000 }
    ensures ends { (coarse_run (generated n) (P.answer policy.now)).ends ≡ replicate 8 (halted_in 40008) }
    ensures done { status_of (coarse_run (generated n) (P.answer policy.now)).ends false ≡ statuses.Done }
{}
