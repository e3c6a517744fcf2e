//! The counts of a whole history: its changes and its applied messages.
ghost use Rattle.plat_base.specs.declared.limits.TheConstants.{MOST_ITEMS};
ghost use Rattle.std.specs.Prelude.{◌≡◌, ◌≤◌, [], length};
ghost use Rattle.plat_report.specs.Counts.{totals_of, with_total, TotalRoom};

use crate::counts::{AppliedCounts, ChangeCounts};
use plat_base::Item;

/// The counts of the changes and of the applied messages.
#[derive(Clone, Copy, Debug, PartialEq, Eq)]
pub(crate) struct Totals {
    pub changes: ChangeCounts,
    pub applied: AppliedCounts,
}

impl Totals {
    /// The counts of no items.
    pub(crate) fn none() -> Totals
        ensures { result ≡ totals_of [] }
    {
        Totals {
            changes: ChangeCounts::none(),
            applied: AppliedCounts::none(),
        }
    }

    /// The counts of these items, in one pass.
    pub(crate) fn of(items: &[Item]) -> Totals
        requires { length items.now ≤ MOST_ITEMS }
        ensures { result ≡ totals_of items.now }
    {
        let mut totals = Totals::none();
        for item in items {
            totals.count(item);
        }
        totals
    }

    /// Counts one more item.
    pub(crate) fn count(&mut self, item: &Item)
        requires { TotalRoom self.old }
        ensures { self.new ≡ with_total self.old item.now }
    {
        self.changes.count(item);
        self.applied.count(item);
    }
}
