//! The commands, and the top call.
ghost use Rattle.std.specs.Prelude.{IfOk, IfErr};
ghost use Rattle.plat_cmd.specs.Arguments.{texts_of};
ghost use Rattle.plat_cmd.specs.Commands.{read_of};
ghost use Rattle.plat_cmd.specs.Promises.{IsBadWords, Promises};
ghost use Rattle.plat_cmd.specs.declared.words.Command.TheVariants as commands;

use crate::checks::print;
use crate::costs::costed;
use crate::generated::{print_nth, sum_nth};
use crate::judgings::read_judged;
use crate::outcomes::{Outcome, stop_status, without_run};
use crate::races::raced;
use crate::readings::read_machine;
use crate::replays::reported;
use crate::simulations::simulate;
use crate::thread_runs::{run_reported, run_traced};
use crate::traces::trace;
use crate::words::{Command, Grain, Output, WordsFault, read_words};
use plat_base::{Config, Status};
use plat_cost::Placer;
use plat_io::{Sink, Source};
use plat_race::Racer;
use plat_report::Tally;
use plat_table::Gate;
use std::alloc::Global;
use std::sync::Wait;
use std::thread::Threads;

/// `check`: reads a machine text, and writes its canonical text.
pub fn check<S: Source, K: Sink>(alloc: Global, source: &mut S, sink: &mut K) -> Outcome
    ensures { Promises commands.Check S.Source K.Sink source.old source.new sink.old sink.new result }
{
    match read_machine(alloc, source) {
        Ok(cfg) => print(alloc, &cfg, sink),
        Err(stop) => without_run(alloc, stop_status(stop)),
    }
}

/// `sim`: reads a machine text, makes its run by its schedule, of whole instructions or of single operations, and writes its report or
/// its history text. What comes after the run is the status of its ends: EventLimit where a run of single operations made 4,194,304
/// events and some processor had not ended, else NoFrames where some processor found no frame, else Spent where some processor spent
/// its budget, else Done.
pub fn sim<S: Source, K: Sink>(
    alloc: Global,
    grain: Grain,
    output: Output,
    source: &mut S,
    sink: &mut K,
) -> Outcome
    ensures { Promises (commands.Sim grain output) S.Source K.Sink source.old source.new sink.old sink.new
        result }
{
    match read_machine(alloc, source) {
        Ok(cfg) => match output {
            Output::Report => simulate(alloc, grain, cfg, sink),
            Output::Trace => trace(alloc, grain, cfg, sink),
        },
        Err(stop) => without_run(alloc, stop_status(stop)),
    }
}

/// `run`: reads a machine text, runs each of its processors and the daemon on a thread of its own, merges what they did into one
/// history, and writes its report or its history text. All memory is taken before the first thread. The status is that of the
/// ends: NoFrames where some processor found no frame, else Spent where some processor spent its budget, else Done. Two runs of
/// one machine may differ; each is a run of single operations, and its history breaks no rule.
///
/// That it returns is promised only where each live thread gets its turn again and again.
pub fn run<R: Threads + Wait + Sync, S: Source, K: Sink, G: Gate + Sync>(
    rt: &R,
    alloc: Global,
    output: Output,
    source: &mut S,
    sink: &mut K,
    gate: &G,
) -> Outcome
    ensures { Promises (commands.Run output) S.Source K.Sink source.old source.new sink.old sink.new result }
{
    match read_machine(alloc, source) {
        Ok(cfg) => match output {
            Output::Report => run_reported(rt, alloc, cfg, sink, gate),
            Output::Trace => run_traced(rt, alloc, cfg, sink, gate),
        },
        Err(stop) => without_run(alloc, stop_status(stop)),
    }
}

/// `replay`: reads a history text, judges it, and writes its report. HistoryBad names the first item that breaks a rule, and
/// then nothing is written. Where none does, the status is that of the ends that were read, as after a run.
pub fn replay<S: Source, K: Sink>(alloc: Global, source: &mut S, sink: &mut K) -> Outcome
    ensures { Promises commands.Replay S.Source K.Sink source.old source.new sink.old sink.new result }
{
    match read_judged(alloc, source, |cfg: &Config| Tally::new(alloc, cfg)) {
        Ok(judged) => reported(judged, sink),
        Err(status) => without_run(alloc, status),
    }
}

/// `race`: reads a history text, judges it, and writes the numbers of the first two items that race, or that none do. HistoryBad
/// names the first item that breaks a rule, and then nothing is written. Where none does, the status is Done, whatever the ends.
pub fn race<S: Source, K: Sink>(alloc: Global, source: &mut S, sink: &mut K) -> Outcome
    ensures { Promises commands.Race S.Source K.Sink source.old source.new sink.old sink.new result }
{
    match read_judged(alloc, source, |cfg: &Config| Racer::new(alloc, cfg)) {
        Ok(judged) => raced(alloc, judged, sink),
        Err(status) => without_run(alloc, status),
    }
}

/// `cost`: reads a history text, judges it, and writes what its pages cost, and what they would cost with a single copy that moves
/// best. HistoryBad names the first item that breaks a rule, and then nothing is written. Where none does, the status is Done,
/// whatever the ends.
pub fn cost<S: Source, K: Sink>(alloc: Global, source: &mut S, sink: &mut K) -> Outcome
    ensures { Promises commands.Cost S.Source K.Sink source.old source.new sink.old sink.new result }
{
    match read_judged(alloc, source, |cfg: &Config| Placer::new(alloc, cfg)) {
        Ok(judged) => costed(alloc, judged, sink),
        Err(status) => without_run(alloc, status),
    }
}

/// The program: the command that these words name, the program's name not among them. Only `run` makes threads, and passes the
/// gate.
pub fn platinum<R: Threads + Wait + Sync, S: Source, K: Sink, G: Gate + Sync>(
    rt: &R,
    alloc: Global,
    words: &[&str],
    source: &mut S,
    sink: &mut K,
    gate: &G,
) -> Outcome
    // What the command that the words name promises of its own call.
    ensures named { IfOk (read_of (texts_of words.now))
        (λ c. Promises c S.Source K.Sink source.old source.new sink.old sink.new result) }
    // Other words are BadWords, and nothing is read, written or kept.
    ensures bad_words { IfErr (read_of (texts_of words.now))
        (λ _. IsBadWords source.old source.new sink.old sink.new result) }
{
    match read_words(alloc, words) {
        Ok(Command::Check) => check(alloc, source, sink),
        Ok(Command::Sim { grain, output }) => sim(alloc, grain, output, source, sink),
        Ok(Command::Run(output)) => run(rt, alloc, output, source, sink, gate),
        Ok(Command::Replay) => replay(alloc, source, sink),
        Ok(Command::Race) => race(alloc, source, sink),
        Ok(Command::Cost) => cost(alloc, source, sink),
        Ok(Command::Gen(n)) => print_nth(alloc, n, sink),
        Ok(Command::Big(n)) => sum_nth(alloc, n, sink),
        Err(WordsFault::BadWords) => without_run(alloc, Status::BadWords),
        Err(WordsFault::OutOfMemory) => without_run(alloc, Status::OutOfMemory),
    }
}
