//! Costs: what a history that breaks no rule costs, page by page, beside the least cost of a single copy.
ghost use Rattle.std.specs.Prelude.{◌≡◌, None};
ghost use Rattle.plat_base.specs.Seen.{machine};
ghost use Rattle.plat_cost.specs.Placements.{IsFor};
ghost use Rattle.plat_history.specs.Shown.{seen};
ghost use Rattle.plat_cmd.specs.Works.{HasCosted, first_bad_of};

use crate::judgings::Judged;
use crate::outcomes::{Outcome, status_after, without_run};
use plat_base::Status;
use plat_cost::{Placer, print_costs};
use plat_io::Sink;
use std::alloc::Global;

/// Writes the costs of a good history.
pub fn costed<K: Sink>(alloc: Global, judged: Judged<Placer>, sink: &mut K) -> Outcome
    requires placer { IsFor (machine judged.history.cfg) judged.memory }
    requires good { first_bad_of (seen judged.history) ≡ None }
    ensures { HasCosted K.Sink (seen judged.history) sink.old sink.new
        result.status result.kept.items result.ran }
{
    let Judged { history, memory } = judged;
    let mut placer = memory;
    let written = print_costs(&history.cfg, history.items.as_slice(), &mut placer, sink);
    without_run(alloc, status_after(Status::Done, written))
}
