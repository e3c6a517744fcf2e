//! Checks of machine texts.
ghost use Rattle.plat_base.specs.Seen.{machine};
ghost use Rattle.plat_cmd.specs.Works.{HasPrinted};

use crate::outcomes::{Outcome, status_after, without_run};
use plat_base::{Config, Status};
use plat_io::Sink;
use plat_machine::print_machine;
use std::alloc::Global;

/// Writes the canonical text of a machine.
pub fn print<K: Sink>(alloc: Global, cfg: &Config, sink: &mut K) -> Outcome
    ensures { HasPrinted K.Sink (machine cfg.now) sink.old sink.new
        result.status result.kept.items result.ran }
{
    let written = print_machine(cfg, sink);
    without_run(alloc, status_after(Status::Done, written))
}
