//! The lines of what a guest printed.
ghost use Rattle.std.specs.Prelude.{◌≡◌, ◌<◌, ◌∷◌, [], map};
ghost use Rattle.std.specs.List.{list_any};
ghost use Rattle.plat_base.specs.Seen.{machine};
ghost use Rattle.plat_base.specs.Done.{values_of};
ghost use Rattle.plat_base.specs.GuestRun.{guest_run};
ghost use Rattle.plat_base.specs.Report.{print_line};
ghost use Rattle.plat_io.specs.Lines.{AddsLines};
ghost use Rattle.plat_report.specs.Runs.{prints_from};
ghost use Rattle.plat_report.specs.Silent.{is_print as is_print_of};

use crate::runs::Run;
use crate::turns::Turn;
use plat_base::{Config, Instr, Item};
use plat_io::lines::{Word, write_line};
use plat_io::{Sink, WriteFault};

/// Whether an instruction prints.
fn is_print(instr: &Instr) -> bool
    ensures { result ≡ is_print_of instr.now }
{
    matches!(instr, Instr::Print(_))
}

/// Whether a program has an instruction that prints.
fn has_print(code: &[Instr]) -> bool
    ensures { result ≡ list_any is_print_of code.now }
{
    code.iter().any(is_print)
}

/// Writes a line for each value that guest `q` prints on its first turns, on the values that these items give it. The items
/// are gone over only where the guest's program has an instruction that prints.
#[tactic(auto, using(crate::proofs::RunLemmas::prints_from_start))]
pub(crate) fn write_prints<K: Sink>(
    cfg: &Config,
    q: u32,
    items: &[Item],
    turns: u32,
    sink: &mut K,
) -> Result<(), WriteFault>
    requires { q < cfg.now.nodes }
    ensures { AddsLines K.Sink sink.old sink.new result
        (map (print_line q) (guest_run (machine cfg.now) q (values_of q items.now) turns).prints) }
{
    let program = &cfg.guests.as_slice()[q as usize];
    if !has_print(program.code.as_slice()) {
        return Ok(());
    }
    write_run(cfg, q, Run::new(cfg, q, items), turns, sink)
}

/// Writes a line for each value that a run of guest `q` prints on its next turns.
fn write_run<K: Sink>(
    cfg: &Config,
    q: u32,
    mut run: Run<'_>,
    turns: u32,
    sink: &mut K,
) -> Result<(), WriteFault>
    requires node { run.guest.node < cfg.now.nodes }
    ensures { AddsLines K.Sink sink.old sink.new result
        (map (print_line q) (prints_from (machine cfg.now) run.entry turns)) }
{
    for made in 0..turns {
        match run.turn(cfg) {
            Turn::Stops => return Ok(()),
            Turn::Quiet => {}
            Turn::Prints(value) => write_print(q, value, sink)?,
        }
    }
    Ok(())
}

fn write_print<K: Sink>(q: u32, value: u32, sink: &mut K) -> Result<(), WriteFault>
    ensures { AddsLines K.Sink sink.old sink.new result (print_line q value ∷ []) }
{
    write_line(
        sink,
        &[Word::Text(b"print"), Word::Number(q), Word::Number(value)],
    )
}
