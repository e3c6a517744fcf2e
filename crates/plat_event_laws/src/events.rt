//! Runs of single operations, whichever actor makes which operation.
ghost use Rattle.std.specs.Prelude.{◌≡◌, ◌<◌, ℕ, List, false};
ghost use Rattle.plat_base.specs.Seen.{machine};
ghost use Rattle.plat_base.specs.Rules.{Good, HasEnoughFrames};
ghost use Rattle.plat_base.specs.Statuses.{ends_as};
ghost use Rattle.plat_base.specs.declared.endings.End.TheVariants.{NoFrames};
ghost use Rattle.plat_events.specs.Privates.{actor_count};
ghost use Rattle.plat_events.specs.Runs.{Fine, fine_start, event, run, ends_of, AllLive, most_events, fine_run};
ghost use Rattle.plat_events.specs.Shown.{Shows};
ghost use Rattle.plat_event_laws.specs.Scheduled.{IsRunWithin};

use plat_base::{Config, Policy};

/// Does nothing. Its contract is the law of single operations, over the definitions and for every policy: each event of each
/// actor keeps the invariant of the shared state, with sessions in flight, half-made copies and messages that wait. So every
/// run of live actors has it, in whatever order they come, and its history is good with the ends so far; with a frame for
/// each page on each module no processor ends for want of one. The simulated run, by the schedule of the machine, is such a
/// run of at most `most_events` events, and of exactly so many where an actor is still live or a processor has not ended.
pub fn any_policy_events<P: Policy>(cfg: &Config, policy: &P)
    ensures event { (s : Fine) (a : ℕ) → Shows (machine cfg.now) (P.answer policy.now) s
        → a < actor_count (machine cfg.now)
        → Shows (machine cfg.now) (P.answer policy.now) (event (machine cfg.now) (P.answer policy.now) s a) }
    ensures run { (who : List ℕ)
        → AllLive (machine cfg.now) (P.answer policy.now) (fine_start (machine cfg.now)) who
        → Shows (machine cfg.now) (P.answer policy.now) (run (machine cfg.now) (P.answer policy.now) who) }
    ensures good { let m = machine cfg.now in let answer = P.answer policy.now in (who : List ℕ)
        → AllLive m answer (fine_start m) who
        → Good m answer (run m answer who).history (ends_of m (run m answer who).privates) }
    ensures enough { let m = machine cfg.now in let answer = P.answer policy.now in HasEnoughFrames m
        → (who : List ℕ) → AllLive m answer (fine_start m) who
        → ends_as NoFrames (ends_of m (run m answer who).privates) ≡ false }
    ensures scheduled { let m = machine cfg.now in let answer = P.answer policy.now
        in IsRunWithin m answer most_events (fine_run m answer) }
    ensures good_scheduled { let m = machine cfg.now in let answer = P.answer policy.now
        in Good m answer (fine_run m answer).history (ends_of m (fine_run m answer).privates) }
{}
