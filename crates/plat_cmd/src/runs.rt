//! The run of a machine by its schedule, of whole instructions or of single operations.
ghost use Rattle.std.specs.Prelude.{◌≡◌, IfOk};
ghost use Rattle.plat_base.specs.Seen.{machine};
ghost use Rattle.plat_cmd.specs.Works.{history_of, ends_of};

use crate::coarse_runs::run_coarse;
use crate::fine_runs::run_fine;
use crate::words::Grain;
use plat_base::{Config, Finished, OutOfMemory};
use std::alloc::Global;

/// The run of a machine of this grain. It takes memory before its first turn or event alone.
pub fn run(alloc: Global, grain: Grain, cfg: Config) -> Result<Finished, OutOfMemory>
    ensures machine { IfOk result (λ finished. machine finished.cfg ≡ machine cfg) }
    ensures items { IfOk result (λ finished. finished.items.items ≡ history_of grain (machine cfg)) }
    ensures ends { IfOk result (λ finished. finished.ends.items ≡ ends_of grain (machine cfg)) }
{
    match grain {
        Grain::Coarse => run_coarse(alloc, cfg),
        Grain::Fine => run_fine(alloc, cfg),
    }
}
