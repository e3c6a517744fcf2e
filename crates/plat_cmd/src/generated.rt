//! Commands on generated machines.
ghost use Rattle.std.specs.Prelude.{◌≡◌, ◌⊎◌, [], false};
ghost use Rattle.plat_base.specs.Seen.{machine};
ghost use Rattle.plat_base.specs.Statuses.{is_silent};
ghost use Rattle.plat_flat.specs.FlatSeen.{IsFlatOf};
ghost use Rattle.plat_gen.specs.Generated.{generated};
ghost use Rattle.plat_cmd.specs.Promises.{IsComplete, IsEnded, IsQuiet};
ghost use Rattle.plat_cmd.specs.Steps.{HasStopped};
ghost use Rattle.plat_cmd.specs.Works.{HasPrinted, HasSummed, ends_of, history_of};
ghost use Rattle.plat_cmd.specs.declared.outcomes.Stop.TheVariants as stops;
ghost use Rattle.plat_cmd.specs.declared.words.Command.TheVariants as commands;
ghost use Rattle.plat_cmd.specs.declared.words.Grain.TheVariants as grains;

use crate::checks::print;
use crate::outcomes::{Outcome, status_after, without_run};
use crate::simulations::{Made, make};
use crate::words::Grain;
use plat_base::Status;
use plat_gen::generate;
use plat_io::Sink;
use plat_report::summary;
use std::alloc::Global;

/// Writes the summary of the run of the `n`-th generated machine.
fn summed<K: Sink>(made: Made, n: u32, sink: &mut K) -> Outcome
    requires number { machine made.finished.cfg ≡ generated n }
    requires items { made.finished.items.items ≡ history_of grains.Coarse (machine made.finished.cfg) }
    requires ends { made.finished.ends.items ≡ ends_of grains.Coarse (machine made.finished.cfg) }
    requires tally { IsFlatOf (machine made.finished.cfg) [] made.tally }
    ensures { let m = machine made.finished.cfg
        in HasSummed n K.Sink m sink.old sink.new result.status result.kept.items result.ran }
{
    let Made { finished, tally } = made;
    let written = summary(
        tally,
        &finished.cfg,
        finished.items.as_slice(),
        finished.ends.as_slice(),
        n,
        sink,
    );
    Outcome {
        status: status_after(Status::Done, written),
        kept: finished.items,
        ran: None,
    }
}

/// Makes the `n`-th machine and writes its canonical text.
pub fn print_nth<K: Sink>(alloc: Global, n: u32, sink: &mut K) -> Outcome
    ensures { HasPrinted K.Sink (generated n) sink.old sink.new result.status result.kept.items result.ran
        ⊎ HasStopped stops.OutOfMemory sink.old sink.new result }
{
    match generate(alloc, n) {
        Ok(cfg) => print(alloc, &cfg, sink),
        Err(_) => without_run(alloc, Status::OutOfMemory),
    }
}

/// Makes the coarse run of the `n`-th machine and writes its summary.
pub fn sum_nth<K: Sink>(alloc: Global, n: u32, sink: &mut K) -> Outcome
    ensures { HasSummed n K.Sink (generated n) sink.old sink.new result.status result.kept.items result.ran
        ⊎ HasStopped stops.OutOfMemory sink.old sink.new result }
{
    let cfg = match generate(alloc, n) {
        Ok(cfg) => cfg,
        Err(_) => return without_run(alloc, Status::OutOfMemory),
    };
    match make(alloc, Grain::Coarse, cfg) {
        Ok(made) => summed(made, n, sink),
        Err(_) => without_run(alloc, Status::OutOfMemory),
    }
}

/// `gen`: writes the canonical text of the `n`-th generated machine. It reads nothing.
pub fn print_generated<K: Sink>(alloc: Global, n: u32, sink: &mut K) -> Outcome
    // With a status that lets it write, it wrote the text, or a part of it.
    ensures done { is_silent result.status ≡ false
        → HasPrinted K.Sink (generated n) sink.old sink.new result.status result.kept.items result.ran }
    // Where no write fails it is done, with its whole output, but for want of memory.
    ensures complete { IsQuiet (K.faults sink.old) (K.faults sink.new)
        → IsComplete (commands.Gen n) (tt {0}) K.Sink sink.old sink.new result }
    ensures ended { IsEnded (commands.Gen n) K.Sink sink.old sink.new result }
{
    print_nth(alloc, n, sink)
}

/// `big`: makes the coarse run of the `n`-th generated machine, 320,064 turns, and writes its summary. It reads nothing.
pub fn big<K: Sink>(alloc: Global, n: u32, sink: &mut K) -> Outcome
    // With a status that lets it write, it made and kept the run, and wrote its summary, or a part of it.
    ensures done { is_silent result.status ≡ false
        → HasSummed n K.Sink (generated n) sink.old sink.new result.status result.kept.items result.ran }
    // Where no write fails it is done, with its whole output, but for want of memory.
    ensures complete { IsQuiet (K.faults sink.old) (K.faults sink.new)
        → IsComplete (commands.Big n) (tt {0}) K.Sink sink.old sink.new result }
    ensures ended { IsEnded (commands.Big n) K.Sink sink.old sink.new result }
{
    sum_nth(alloc, n, sink)
}
