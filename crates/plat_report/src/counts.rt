//! How many accesses, changes and applied messages of each kind a history has.
ghost use Rattle.std.specs.Prelude.{◌≡◌, ℕ, []};
ghost use Rattle.plat_report.specs.Counts.{access_counts, change_counts, applied_counts, with_access, with_change, with_applied};
ghost use Rattle.plat_report.specs.Counts.{AccessRoom, ChangeRoom, AppliedRoom};

use plat_base::{Action, Change, Item, Kind, Moment};

/// The accesses of one processor.
#[derive(Clone, Copy, Debug, PartialEq, Eq)]
pub(crate) struct AccessCounts {
    pub loads: u32,
    pub stores: u32,
    pub adds: u32,
    pub local: u32,
    pub remote: u32,
}

/// The changes of pages, by what they do, and those that freeze their page.
#[derive(Clone, Copy, Debug, PartialEq, Eq)]
pub(crate) struct ChangeCounts {
    pub fills: u32,
    pub local_maps: u32,
    pub remote_maps: u32,
    pub replications: u32,
    pub migrations: u32,
    pub collapses: u32,
    pub thaws: u32,
    pub freezes: u32,
}

/// The applied messages, by when they were applied.
#[derive(Clone, Copy, Debug, PartialEq, Eq)]
pub(crate) struct AppliedCounts {
    pub at_interrupt: u32,
    pub at_activation: u32,
}

impl AccessCounts {
    /// The counts of no items.
    pub(crate) fn none() -> AccessCounts
        ensures { (q : ℕ) → result ≡ access_counts q [] }
    {
        AccessCounts {
            loads: 0,
            stores: 0,
            adds: 0,
            local: 0,
            remote: 0,
        }
    }

    /// Counts an item, if it is an access of processor `q`.
    pub(crate) fn count(&mut self, q: u32, item: &Item)
        requires { AccessRoom self.old }
        ensures { self.new ≡ with_access q self.old item.now }
    {
        let Item::Access(access) = item else {
            return;
        };
        if access.actor != q {
            return;
        }
        match access.kind {
            Kind::Load => self.loads += 1,
            Kind::Store => self.stores += 1,
            Kind::Add => self.adds += 1,
        }
        if access.frame.module == q {
            self.local += 1;
        } else {
            self.remote += 1;
        }
    }
}

impl ChangeCounts {
    /// The counts of no items.
    pub(crate) fn none() -> ChangeCounts
        ensures { result ≡ change_counts [] }
    {
        ChangeCounts {
            fills: 0,
            local_maps: 0,
            remote_maps: 0,
            replications: 0,
            migrations: 0,
            collapses: 0,
            thaws: 0,
            freezes: 0,
        }
    }

    /// Counts an item, if it is a change.
    pub(crate) fn count(&mut self, item: &Item)
        requires { ChangeRoom self.old }
        ensures { self.new ≡ with_change self.old item.now }
    {
        let Item::Change(change) = item else {
            return;
        };
        match change.action {
            Action::Fill => self.fills += 1,
            Action::MapLocal => self.local_maps += 1,
            Action::MapRemote => self.remote_maps += 1,
            Action::Replicate => self.replications += 1,
            Action::Migrate => self.migrations += 1,
            Action::Collapse => self.collapses += 1,
            Action::Thaw => self.thaws += 1,
        }
        if change.after.frozen && !change.before.frozen {
            self.freezes += 1;
        }
    }
}

impl AppliedCounts {
    /// The counts of no items.
    pub(crate) fn none() -> AppliedCounts
        ensures { result ≡ applied_counts [] }
    {
        AppliedCounts {
            at_interrupt: 0,
            at_activation: 0,
        }
    }

    /// Counts an item, if it is an applied message.
    pub(crate) fn count(&mut self, item: &Item)
        requires { AppliedRoom self.old }
        ensures { self.new ≡ with_applied self.old item.now }
    {
        let Item::Applied(applied) = item else {
            return;
        };
        match applied.moment {
            Moment::Interrupt => self.at_interrupt += 1,
            Moment::Activation => self.at_activation += 1,
        }
    }
}
