//! A schedule of turns.
ghost use Rattle.std.specs.Prelude.{◌≡◌, ◌↔◌, IfOk, IfSome, IfNone, IsNone, IsTrue};
ghost use Rattle.plat_base.specs.Machine.{turns_of};
ghost use Rattle.plat_sched.specs.Actors.{is_actor};
ghost use Rattle.plat_sched.specs.ScheduleSeen.{new_schedule, choice, actor_chosen, after_choice};

use crate::sources::Source;
use plat_base::{OutOfMemory, Plan};
use std::alloc::Global;
use std::marker::Model;

/// A schedule of turns among actors 0 to 31. Contracts see the plan, and where the schedule stands.
#[derive(Debug, Drop)]
pub struct Schedule {
    source: Source,
    last: Option<u32>,
}

impl Model for Schedule {
    ghost use Rattle.plat_sched.specs.ScheduleSeen.{ScheduleSeen};
    ghost use Rattle.plat_sched.specs.Sources.{schedule_seen, IsSchedule};

    ghost Value = { ScheduleSeen };

    ghost view = { λ it. schedule_seen it.source it.last };

    ghost invariant = { λ it. IsSchedule it.source it.last };
}

impl Schedule {
    /// A schedule that has chosen nobody. It keeps a list of its own.
    pub fn new(alloc: Global, plan: &Plan) -> Result<Schedule, OutOfMemory>
        ensures { IfOk result (λ schedule. schedule ≡ new_schedule (turns_of plan.now)) }
    {
        Ok(Schedule {
            source: Source::new(alloc, plan)?,
            last: None,
        })
    }

    /// The next actor. Bit q of `live` says that actor q is live. A random schedule draws one word for each choice, also
    /// where one actor is live.
    pub fn next(&mut self, live: u32) -> Option<u32>
        ensures chosen { result ≡ actor_chosen (choice self.old live) }
        ensures after { self.new ≡ after_choice self.old (choice self.old live) }
        ensures none { IsNone result ↔ (live ≡ 0) }
        ensures same { IfNone result (self.new ≡ self.old) }
        ensures live { IfSome result (λ actor. IsTrue (is_actor live actor)) }
    {
        if live == 0 {
            return None;
        }
        let chosen = self.source.next(self.last, live);
        self.last = chosen;
        chosen
    }
}
