//! Replays: the report of a history that breaks no rule.
ghost use Rattle.std.specs.Prelude.{◌≡◌, [], None};
ghost use Rattle.plat_base.specs.Seen.{machine};
ghost use Rattle.plat_flat.specs.FlatSeen.{IsFlatOf};
ghost use Rattle.plat_history.specs.Shown.{seen};
ghost use Rattle.plat_cmd.specs.Works.{HasReplayed, first_bad_of};

use crate::judgings::Judged;
use crate::outcomes::{Outcome, status_after, status_of};
use plat_history::History;
use plat_io::Sink;
use plat_report::{Tally, report};

/// Writes the report of a good history.
pub fn reported<K: Sink>(judged: Judged<Tally>, sink: &mut K) -> Outcome
    requires tally { IsFlatOf (machine judged.history.cfg) [] judged.memory }
    requires good { first_bad_of (seen judged.history) ≡ None }
    ensures { HasReplayed K.Sink (seen judged.history) sink.old sink.new
        result.status result.kept.items result.ran }
{
    let Judged { history, memory } = judged;
    let History { cfg, items, ends } = history;
    let written = report(memory, &cfg, items.as_slice(), ends.as_slice(), sink);
    let complete = status_of(ends.as_slice(), false);
    Outcome {
        status: status_after(complete, written),
        kept: items,
        ran: None,
    }
}
