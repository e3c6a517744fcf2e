//! Traces: the run of a machine, and its history text.
ghost use Rattle.std.specs.Prelude.{◌≡◌, ◌⊎◌};
ghost use Rattle.plat_base.specs.Seen.{machine};
ghost use Rattle.plat_base.specs.Verdicts.{policy_answer};
ghost use Rattle.plat_cmd.specs.Works.{HasRun};
ghost use Rattle.plat_cmd.specs.Steps.{HasShown, HasStopped};
ghost use Rattle.plat_cmd.specs.declared.outcomes.Stop.TheVariants as stops;
ghost use Rattle.plat_cmd.specs.declared.words.Output.TheVariants as outputs;

use crate::outcomes::{Outcome, status_after, status_of, without_run};
use crate::runs::run;
use crate::words::Grain;
use plat_base::{Config, Finished, Status};
use plat_history::print_items;
use plat_io::Sink;
use std::alloc::Global;

/// Writes the history text of a run.
pub fn traced<K: Sink>(grain: Grain, finished: Finished, sink: &mut K) -> Outcome
    ensures { let m = machine finished.cfg
        in HasShown grain outputs.Trace K.Sink m finished.items.items finished.ends.items
        sink.old sink.new result.status result.kept.items result.ran }
{
    let written = print_items(
        &finished.cfg,
        finished.items.as_slice(),
        finished.ends.as_slice(),
        sink,
    );
    let complete = status_of(finished.ends.as_slice(), grain.is_limited());
    Outcome {
        status: status_after(complete, written),
        kept: finished.items,
        ran: None,
    }
}

/// Makes the run of a machine and writes its history text.
pub fn trace<K: Sink>(alloc: Global, grain: Grain, cfg: Config, sink: &mut K) -> Outcome
    ensures { HasRun (policy_answer (machine cfg).policy) grain outputs.Trace K.Sink (machine cfg)
        sink.old sink.new result.status result.kept.items result.ran
        ⊎ HasStopped stops.OutOfMemory sink.old sink.new result }
{
    match run(alloc, grain, cfg) {
        Ok(finished) => traced(grain, finished, sink),
        Err(_) => without_run(alloc, Status::OutOfMemory),
    }
}
