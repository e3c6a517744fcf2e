//! The run of single operations of a machine, by its schedule.
ghost use Rattle.std.specs.Prelude.{◌≡◌, false, None, IfOk, length};
ghost use Rattle.plat_base.specs.Schedule.{choose};
ghost use Rattle.plat_base.specs.Seen.{machine};
ghost use Rattle.plat_events.specs.Privates.{actor_count};
ghost use Rattle.plat_events.specs.Runs.{fine_schedule_start, live_actors, most_events};
ghost use Rattle.plat_sched.specs.Actors.{actors_of};
ghost use Rattle.plat_cmd.specs.Steps.{standing_fine, own_event, after_events};
ghost use Rattle.plat_cmd.specs.Works.{history_of, ends_of};
ghost use Rattle.plat_cmd.specs.declared.words.Grain.TheVariants as grains;

use plat_base::{Config, Finished, OutOfMemory};
use plat_fine::Fine;
use plat_sched::Schedule;
use std::alloc::Global;

/// The most events of a run.
fn most_events() -> u32
    ensures { result ≡ most_events }
{
    4_194_304
}

/// The live actors, the daemon among them, as the bits of a word.
fn live_word(fine: &Fine) -> u32
    requires { length fine.now.fine.privates ≡ actor_count fine.now.machine }
    ensures { actors_of result ≡ live_actors fine.now.fine.privates }
{
    let mut live = 0u32;
    for actor in 0..fine.config().nodes + 1 {
        if fine.live(actor) {
            live |= 1 << actor;
        }
    }
    live
}

/// The event of the actor that the schedule has next, and whether there was one. Where nobody is live, nothing changes. The
/// word of the live actors is made anew only where the actor ended.
fn next_event(fine: &mut Fine, schedule: &mut Schedule, live: &mut u32) -> bool
    requires plan { schedule.old.turns ≡ fine.old.machine.schedule }
    requires actors { length fine.old.fine.privates ≡ actor_count fine.old.machine }
    requires live { actors_of live.old ≡ live_actors fine.old.fine.privates }
    ensures machine { fine.new.machine ≡ fine.old.machine }
    ensures plan { schedule.new.turns ≡ schedule.old.turns }
    ensures live { actors_of live.new ≡ live_actors fine.new.fine.privates }
    ensures event { standing_fine fine.new schedule.new
        ≡ own_event fine.old.machine (standing_fine fine.old schedule.old) }
    ensures over { let live = live_actors fine.old.fine.privates
        in result ≡ false → choose fine.old.machine.schedule live schedule.old.chooser ≡ None }
{
    match schedule.next(*live) {
        Some(actor) => {
            fine.event(actor);
            if !fine.live(actor) {
                *live = live_word(fine);
            }
            true
        }
        None => false,
    }
}

/// Makes so many events of a run that has made none, or all of them where it is over before.
fn make_events(fine: &mut Fine, schedule: &mut Schedule, events: u32)
    requires plan { schedule.old.turns ≡ fine.old.machine.schedule }
    requires start { standing_fine fine.old schedule.old ≡ fine_schedule_start fine.old.machine }
    ensures machine { fine.new.machine ≡ fine.old.machine }
    ensures events { standing_fine fine.new schedule.new ≡ after_events fine.old.machine events }
{
    let mut live = live_word(fine);
    for _event in 0..events {
        if !next_event(fine, schedule, &mut live) {
            return;
        }
    }
}

/// The run of single operations of a machine by its schedule: it ends where every actor has ended, or after the most events.
/// It takes memory before the first event alone.
pub fn run_fine(alloc: Global, cfg: Config) -> Result<Finished, OutOfMemory>
    ensures machine { IfOk result (λ finished. machine finished.cfg ≡ machine cfg) }
    ensures items { IfOk result (λ finished. finished.items.items ≡ history_of grains.Fine (machine cfg)) }
    ensures ends { IfOk result (λ finished. finished.ends.items ≡ ends_of grains.Fine (machine cfg)) }
{
    let events = most_events();
    let mut schedule = Schedule::new(alloc, &cfg.schedule)?;
    let mut fine = Fine::new(alloc, cfg)?;
    make_events(&mut fine, &mut schedule, events);
    Ok(fine.finish())
}
