//! The lines of processors: how each ended, and what its guest printed.
ghost use Rattle.std.specs.Prelude.{◌≡◌, ◌<◌, ◌∷◌, [], length};
ghost use Rattle.std.specs.List.{flat_map};
ghost use Rattle.plat_base.specs.Seen.{machine};
ghost use Rattle.plat_base.specs.Pages.{numbers};
ghost use Rattle.plat_base.specs.Report.{end_word, processor_line, processor_lines};
ghost use Rattle.plat_io.specs.Lines.{AddsLines};

use crate::prints::write_prints;
use plat_base::{Config, End, Ended, Item};
use plat_io::lines::{Word, write_line};
use plat_io::{Sink, WriteFault};

/// The word of an end.
fn end_word(end: End) -> &'static [u8]
    ensures { result.now ≡ end_word end }
{
    match end {
        End::Halted => b"halted",
        End::Trapped => b"trapped",
        End::Spent => b"spent",
        End::NoFrames => b"noframes",
        End::Cut => b"cut",
    }
}

/// Writes how a processor ended.
pub(crate) fn write_processor<K: Sink>(
    ends: &[Ended],
    q: u32,
    sink: &mut K,
) -> Result<(), WriteFault>
    requires { q < length ends.now }
    ensures { AddsLines K.Sink sink.old sink.new result (processor_line ends.now q ∷ []) }
{
    let ended = ends[q as usize];
    write_line(
        sink,
        &[
            Word::Text(b"processor"),
            Word::Number(q),
            Word::Text(end_word(ended.end)),
            Word::Number(ended.turns),
        ],
    )
}

/// Writes how a processor ended, and what its guest printed.
#[tactic(auto, using(plat_io::proofs::LineLemmas::lines))]
fn write_processor_and_prints<K: Sink>(
    cfg: &Config,
    items: &[Item],
    ends: &[Ended],
    q: u32,
    sink: &mut K,
) -> Result<(), WriteFault>
    requires node { q < cfg.now.nodes }
    requires ends { length ends.now ≡ cfg.now.nodes }
    ensures { AddsLines K.Sink sink.old sink.new result
        (processor_lines (machine cfg.now) items.now ends.now q) }
{
    write_processor(ends, q, sink)?;
    write_prints(cfg, q, items, ends[q as usize].turns, sink)
}

/// Writes how each processor ended, and what its guest printed.
pub(crate) fn write_processors<K: Sink>(
    cfg: &Config,
    items: &[Item],
    ends: &[Ended],
    sink: &mut K,
) -> Result<(), WriteFault>
    requires { length ends.now ≡ cfg.now.nodes }
    ensures { AddsLines K.Sink sink.old sink.new result
        (flat_map (processor_lines (machine cfg.now) items.now ends.now) (numbers cfg.now.nodes)) }
{
    for q in 0..cfg.nodes {
        write_processor_and_prints(cfg, items, ends, q, sink)?;
    }
    Ok(())
}

/// Writes how each processor ended.
pub(crate) fn write_ends<K: Sink>(
    nodes: u32,
    ends: &[Ended],
    sink: &mut K,
) -> Result<(), WriteFault>
    requires { length ends.now ≡ nodes }
    ensures { AddsLines K.Sink sink.old sink.new result
        (flat_map (λ q. processor_line ends.now q ∷ []) (numbers nodes)) }
{
    for q in 0..nodes {
        write_processor(ends, q, sink)?;
    }
    Ok(())
}
