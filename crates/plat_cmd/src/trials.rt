//! Trials: the coarse run of a machine under a policy that is given, whatever policy its text names.
ghost use Rattle.std.specs.Prelude.{◌≡◌, ◌⊎◌, [], IfOk};
ghost use Rattle.plat_base.specs.Seen.{machine};
ghost use Rattle.plat_flat.specs.FlatSeen.{IsFlatOf};
ghost use Rattle.plat_cmd.specs.Steps.{HasStopped};
ghost use Rattle.plat_cmd.specs.Trials.{PromisesUnder};
ghost use Rattle.plat_cmd.specs.Works.{HasRun, history_under, ends_under};
ghost use Rattle.plat_cmd.specs.declared.outcomes.Stop.TheVariants as stops;
ghost use Rattle.plat_cmd.specs.declared.words.Grain.TheVariants as grains;
ghost use Rattle.plat_cmd.specs.declared.words.Output.TheVariants as outputs;

use crate::coarse_runs::run_coarse_under;
use crate::outcomes::{Outcome, stop_status, without_run};
use crate::readings::read_machine;
use crate::simulations::{Made, reported};
use crate::traces::traced;
use crate::words::{Grain, Output};
use plat_base::{Config, OutOfMemory, Policy, Status};
use plat_io::{Sink, Source};
use plat_report::Tally;
use std::alloc::Global;

/// The coarse run of a machine under a policy. All memory that the report takes is taken before it.
fn make_under<P: Policy + Drop>(alloc: Global, policy: P, cfg: Config) -> Result<Made, OutOfMemory>
    ensures machine { IfOk result (λ made. machine made.finished.cfg ≡ machine cfg) }
    ensures items { let items = history_under grains.Coarse (machine cfg) (P.answer policy)
        in IfOk result (λ made. made.finished.items.items ≡ items) }
    ensures ends { let ends = ends_under grains.Coarse (machine cfg) (P.answer policy)
        in IfOk result (λ made. made.finished.ends.items ≡ ends) }
    ensures tally { IfOk result (λ made. IsFlatOf (machine cfg) [] made.tally) }
{
    let tally = Tally::new(alloc, &cfg)?;
    let finished = run_coarse_under(alloc, cfg, policy)?;
    Ok(Made { finished, tally })
}

/// Makes the coarse run of a machine under a policy and writes its report.
fn simulate_under<P: Policy + Drop, K: Sink>(
    alloc: Global,
    policy: P,
    cfg: Config,
    sink: &mut K,
) -> Outcome
    ensures { HasRun (P.answer policy) grains.Coarse outputs.Report K.Sink (machine cfg)
        sink.old sink.new result.status result.kept.items result.ran
        ⊎ HasStopped stops.OutOfMemory sink.old sink.new result }
{
    match make_under(alloc, policy, cfg) {
        Ok(made) => reported(Grain::Coarse, made, sink),
        Err(_) => without_run(alloc, Status::OutOfMemory),
    }
}

/// Makes the coarse run of a machine under a policy and writes its history text.
fn trace_under<P: Policy + Drop, K: Sink>(
    alloc: Global,
    policy: P,
    cfg: Config,
    sink: &mut K,
) -> Outcome
    ensures { HasRun (P.answer policy) grains.Coarse outputs.Trace K.Sink (machine cfg)
        sink.old sink.new result.status result.kept.items result.ran
        ⊎ HasStopped stops.OutOfMemory sink.old sink.new result }
{
    match run_coarse_under(alloc, cfg, policy) {
        Ok(finished) => traced(Grain::Coarse, finished, sink),
        Err(_) => without_run(alloc, Status::OutOfMemory),
    }
}

/// `sim coarse` under a policy that is given: reads a machine text, makes its coarse run by its schedule, and writes its report or
/// its history text. The policy that the text names is not asked; it says only whether there is a daemon, and with which period.
pub fn sim_under<P: Policy + Drop, S: Source, K: Sink>(
    alloc: Global,
    policy: P,
    output: Output,
    source: &mut S,
    sink: &mut K,
) -> Outcome
    ensures { PromisesUnder (P.answer policy) output S.Source K.Sink source.old source.new sink.old sink.new
        result }
{
    match read_machine(alloc, source) {
        Ok(cfg) => match output {
            Output::Report => simulate_under(alloc, policy, cfg, sink),
            Output::Trace => trace_under(alloc, policy, cfg, sink),
        },
        Err(stop) => without_run(alloc, stop_status(stop)),
    }
}
