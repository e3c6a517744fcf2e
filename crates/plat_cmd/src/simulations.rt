//! Simulations: the run of a machine, and its report.
ghost use Rattle.std.specs.Prelude.{◌≡◌, ◌⊎◌, [], Ok, IfOk};
ghost use Rattle.plat_base.specs.Machine.{Machine};
ghost use Rattle.plat_base.specs.Rules.{Good};
ghost use Rattle.plat_base.specs.Seen.{machine};
ghost use Rattle.plat_base.specs.Verdicts.{Answer, policy_answer};
ghost use Rattle.plat_base.specs.declared.statuses.Status.TheVariants as statuses;
ghost use Rattle.plat_flat.specs.FlatSeen.{IsFlatOf};
ghost use Rattle.plat_cmd.specs.Works.{HasRun, history_of, ends_of};
ghost use Rattle.plat_cmd.specs.Steps.{HasShown, HasStopped};
ghost use Rattle.plat_cmd.specs.declared.outcomes.Stop.TheVariants as stops;
ghost use Rattle.plat_cmd.specs.declared.words.Output.TheVariants as outputs;

use crate::outcomes::{Outcome, status_after, status_of, without_run};
use crate::runs::run;
use crate::words::Grain;
use plat_base::{Config, Finished, OutOfMemory, Status};
use plat_io::Sink;
use plat_report::{Tally, report};
use std::alloc::Global;

/// A run that is over, and what its report needs.
#[derive(Drop)]
pub struct Made {
    pub finished: Finished,
    pub tally: Tally,
}

/// The run of a machine. All memory that the report takes is taken before it.
pub fn make(alloc: Global, grain: Grain, cfg: Config) -> Result<Made, OutOfMemory>
    ensures machine { IfOk result (λ made. machine made.finished.cfg ≡ machine cfg) }
    ensures items { IfOk result (λ made. made.finished.items.items ≡ history_of grain (machine cfg)) }
    ensures ends { IfOk result (λ made. made.finished.ends.items ≡ ends_of grain (machine cfg)) }
    ensures tally { IfOk result (λ made. IsFlatOf (machine cfg) [] made.tally) }
{
    let tally = Tally::new(alloc, &cfg)?;
    let finished = run(alloc, grain, cfg)?;
    Ok(Made { finished, tally })
}

/// Writes the report of a run that is good under some policy.
pub fn reported<K: Sink>(grain: Grain, made: Made, sink: &mut K) -> Outcome
    requires good { let m = machine made.finished.cfg
        in (answer : Answer) × Good m answer made.finished.items.items made.finished.ends.items }
    requires tally { IsFlatOf (machine made.finished.cfg) [] made.tally }
    ensures { let m = machine made.finished.cfg
        in HasShown grain outputs.Report K.Sink m made.finished.items.items made.finished.ends.items
        sink.old sink.new result.status result.kept.items result.ran }
{
    let Made { finished, tally } = made;
    let written = report(
        tally,
        &finished.cfg,
        finished.items.as_slice(),
        finished.ends.as_slice(),
        sink,
    );
    let complete = status_of(finished.ends.as_slice(), grain.is_limited());
    Outcome {
        status: status_after(complete, written),
        kept: finished.items,
        ran: None,
    }
}

/// Makes the run of a machine and writes its report.
pub fn simulate<K: Sink>(alloc: Global, grain: Grain, cfg: Config, sink: &mut K) -> Outcome
    ensures { HasRun (policy_answer (machine cfg).policy) grain outputs.Report K.Sink (machine cfg)
        sink.old sink.new result.status result.kept.items result.ran
        ⊎ HasStopped stops.OutOfMemory sink.old sink.new result }
{
    match make(alloc, grain, cfg) {
        Ok(made) => reported(grain, made, sink),
        Err(_) => without_run(alloc, Status::OutOfMemory),
    }
}
