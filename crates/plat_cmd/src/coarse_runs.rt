//! The coarse run of a machine by its schedule.
ghost use Rattle.std.specs.Prelude.{◌≡◌, false, None, IfOk};
ghost use Rattle.plat_base.specs.Schedule.{choose, coarse_run, live_processors, schedule_start, scheduled, scheduled_turn};
ghost use Rattle.plat_base.specs.Seen.{machine};
ghost use Rattle.plat_sched.specs.Actors.{actors_of};
ghost use Rattle.plat_cmd.specs.Steps.{standing};
ghost use Rattle.plat_cmd.specs.Works.{history_of, ends_of};
ghost use Rattle.plat_cmd.specs.declared.words.Grain.TheVariants as grains;

use plat_base::{Config, Finished, OutOfMemory, Policy};
use plat_coarse::{Coarse, Turned, most_turns};
use plat_sched::Schedule;
use std::alloc::Global;

/// The live processors, as the bits of a word.
fn live_word<P: Policy>(coarse: &Coarse<P>) -> u32
    ensures { actors_of result ≡ live_processors coarse.now.machine coarse.now.run }
{
    let mut live = 0u32;
    for q in 0..coarse.config().nodes {
        if coarse.live(q) {
            live |= 1 << q;
        }
    }
    live
}

/// The turn of the processor that the schedule has next, and whether there was one. Where nobody is live, nothing changes. The
/// word of the live processors is made anew only where the processor ended.
fn next_turn<P: Policy>(coarse: &mut Coarse<P>, schedule: &mut Schedule, live: &mut u32) -> bool
    requires plan { schedule.old.turns ≡ coarse.old.machine.schedule }
    requires live { actors_of live.old ≡ live_processors coarse.old.machine coarse.old.run }
    ensures machine { coarse.new.machine ≡ coarse.old.machine }
    ensures policy { coarse.new.policy ≡ coarse.old.policy }
    ensures plan { schedule.new.turns ≡ schedule.old.turns }
    ensures live { actors_of live.new ≡ live_processors coarse.new.machine coarse.new.run }
    ensures turn { standing coarse.new schedule.new
        ≡ scheduled_turn coarse.old.machine (P.answer coarse.old.policy) (standing coarse.old schedule.old) }
    ensures over { let live = live_processors coarse.old.machine coarse.old.run
        in result ≡ false → choose coarse.old.machine.schedule live schedule.old.chooser ≡ None }
{
    match schedule.next(*live) {
        Some(q) => {
            match coarse.turn(q) {
                Turned::Ran => {}
                Turned::Ended(_) => *live = live_word(coarse),
            }
            true
        }
        None => false,
    }
}

/// Makes so many turns of a run that has made none, or all of them where it is over before.
fn make_turns<P: Policy>(coarse: &mut Coarse<P>, schedule: &mut Schedule, turns: u32)
    requires plan { schedule.old.turns ≡ coarse.old.machine.schedule }
    requires start { standing coarse.old schedule.old ≡ schedule_start coarse.old.machine }
    ensures machine { coarse.new.machine ≡ coarse.old.machine }
    ensures turns { standing coarse.new schedule.new
        ≡ scheduled coarse.old.machine (P.answer coarse.old.policy) turns }
{
    let mut live = live_word(coarse);
    for _turn in 0..turns {
        if !next_turn(coarse, schedule, &mut live) {
            return;
        }
    }
}

/// The coarse run of a machine by its schedule, under the policy of its text.
pub fn run_coarse(alloc: Global, cfg: Config) -> Result<Finished, OutOfMemory>
    ensures machine { IfOk result (λ finished. machine finished.cfg ≡ machine cfg) }
    ensures items { IfOk result (λ finished. finished.items.items ≡ history_of grains.Coarse (machine cfg)) }
    ensures ends { IfOk result (λ finished. finished.ends.items ≡ ends_of grains.Coarse (machine cfg)) }
{
    let policy = cfg.policy;
    run_coarse_under(alloc, cfg, policy)
}

/// The coarse run of a machine by its schedule, under a policy. It takes memory before the first turn alone.
pub fn run_coarse_under<P: Policy + Drop>(
    alloc: Global,
    cfg: Config,
    policy: P,
) -> Result<Finished, OutOfMemory>
    ensures machine { IfOk result (λ finished. machine finished.cfg ≡ machine cfg) }
    ensures items { let run = coarse_run (machine cfg) (P.answer policy)
        in IfOk result (λ finished. finished.items.items ≡ run.history) }
    ensures ends { let run = coarse_run (machine cfg) (P.answer policy)
        in IfOk result (λ finished. finished.ends.items ≡ run.ends) }
{
    let turns = most_turns(&cfg);
    let mut schedule = Schedule::new(alloc, &cfg.schedule)?;
    let mut coarse = Coarse::under(alloc, cfg, policy)?;
    make_turns(&mut coarse, &mut schedule, turns);
    Ok(coarse.finish())
}
