//! A history with its present: what is asked of it costs the same however long it is.
ghost use Rattle.std.specs.Prelude.{◌≡◌, ◌<◌, ◌≤◌, true, [], ◌∷◌, length, IfOk, IfSome};
ghost use Rattle.plat_base.specs.Seen.{machine};
ghost use Rattle.plat_base.specs.Messages.{by_other};
ghost use Rattle.plat_base.specs.Directories.{dir_of, seq_of, last_of};
ghost use Rattle.plat_base.specs.Flat.{flat_value, flat_writes};
ghost use Rattle.plat_base.specs.Held.{held, active, removes_all, removes_writes};
ghost use Rattle.plat_base.specs.Rules.{is_legal};
ghost use Rattle.plat_base.specs.declared.items.Item.TheVariants as item;
ghost use Rattle.plat_base.specs.declared.limits.TheConstants.{MOST_ITEMS};
ghost use Rattle.plat_chronicle.specs.Chronicle.{HasAdded, HasRoom};

use crate::present::Present;
use plat_base::{
    Access, Applied, Change, Config, Dir, Item, List, OutOfMemory, Switch, Translation,
};
use std::alloc::Global;
use std::marker::Model;

/// A machine's history so far. One method for each kind of item adds it and keeps up the present, so that a question
/// costs the same however long the history is. `new` takes all the memory, for as many items as it is given room.
#[derive(Debug, Drop)]
pub struct Chronicle {
    cfg: Config,
    items: List<Item>,
    present: Present,
}

impl Model for Chronicle {
    ghost use Rattle.plat_base.specs.Seen.{machine};
    ghost use Rattle.plat_chronicle.specs.Chronicle.{Chronicled, Follows};

    ghost Value = { Chronicled };

    ghost view = { λ it. record { machine = machine it.cfg; items = it.items.items; spare = it.items.spare } };

    ghost invariant = { λ it. Follows (machine it.cfg) it.items.items it.present };
}

impl Chronicle {
    /// An empty history with room for `room` items.
    pub fn new(alloc: Global, cfg: Config, room: usize) -> Result<Chronicle, OutOfMemory>
        ensures machine { IfOk result (λ it. it.machine ≡ machine cfg) }
        ensures empty { IfOk result (λ it. it.items ≡ []) }
        ensures room { IfOk result (λ it. room ≤ it.spare) }
    {
        let items = List::with_room(alloc, room)?;
        let present = Present::new(alloc, &cfg)?;
        Ok(Chronicle {
            cfg,
            items,
            present,
        })
    }

    /// The machine.
    pub fn config(&self) -> &Config
        ensures { machine result.now ≡ self.now.machine }
    {
        &self.cfg
    }

    /// The items.
    pub fn items(&self) -> &[Item]
        ensures items { result.now ≡ self.now.items }
        ensures few { length self.now.items ≤ MOST_ITEMS }
    {
        self.items.as_slice()
    }

    /// The directory of a page.
    pub fn dir(&self, page: u32) -> Dir
        requires { page < self.now.machine.pages }
        ensures { result ≡ dir_of self.now.items page }
    {
        self.present.dir(page)
    }

    /// The number of a page's changes.
    pub fn seq(&self, page: u32) -> u32
        requires { page < self.now.machine.pages }
        ensures { result ≡ seq_of self.now.items page }
    {
        self.present.seq(page)
    }

    /// The tick of a page's last invalidation by the protocol.
    pub fn last(&self, page: u32) -> Option<u32>
        requires { page < self.now.machine.pages }
        ensures { result ≡ last_of self.now.items page }
    {
        self.present.last(page)
    }

    /// The value of a word in flat memory.
    pub fn value(&self, page: u32, word: u32) -> u32
        requires page { page < self.now.machine.pages }
        requires word { word < self.now.machine.words }
        ensures { result ≡ flat_value self.now.machine self.now.items page word }
    {
        self.present.value(page, word)
    }

    /// How often a word was written.
    pub fn version(&self, page: u32, word: u32) -> u32
        requires page { page < self.now.machine.pages }
        requires word { word < self.now.machine.words }
        ensures value { result ≡ flat_writes self.now.items page word }
        ensures few { result ≤ MOST_ITEMS }
    {
        self.present.version(page, word)
    }

    /// The translation of an entry that processor `q` holds.
    pub fn held(&self, q: u32, entry: u32) -> Option<Translation>
        requires processor { q < self.now.machine.nodes }
        requires entry { entry < length self.now.machine.entries }
        ensures { result ≡ held self.now.machine self.now.items q entry }
    {
        self.present.held(q, entry)
    }

    /// The space that processor `q` is active in.
    pub fn active(&self, q: u32) -> u32
        requires { q < length self.now.machine.guests }
        ensures { result ≡ active self.now.machine self.now.items q }
    {
        self.present.active(q)
    }

    /// Whether a change of the page above `seq`, by another actor than `q`, removed all.
    pub fn removed_all(&self, q: u32, page: u32, seq: u32) -> bool
        ensures { result ≡ by_other removes_all self.now.items q page seq }
    {
        self.present.removed_all(q, page, seq)
    }

    /// Whether a change of the page above `seq`, by another actor than `q`, removed the right to write.
    pub fn removed_writes(&self, q: u32, page: u32, seq: u32) -> bool
        ensures { result ≡ by_other removes_writes self.now.items q page seq }
    {
        self.present.removed_writes(q, page, seq)
    }

    /// Adds an access, which is the next one of flat memory.
    pub fn add_access(&mut self, access: Access)
        requires legal { is_legal self.old.machine self.old.items access ≡ true }
        requires room { HasRoom self.old (item.Access access ∷ []) }
        ensures { HasAdded self.old self.new (item.Access access ∷ []) }
    {
        self.present.access(&access);
        self.items.push(Item::Access(access));
    }

    /// Adds a change.
    pub fn add_change(&mut self, change: Change)
        requires page { change.page < self.old.machine.pages }
        requires actor { change.actor ≤ self.old.machine.nodes }
        requires grant { IfSome change.granted (λ grant. grant.entry < length self.old.machine.entries) }
        requires room { HasRoom self.old (item.Change change ∷ []) }
        ensures { HasAdded self.old self.new (item.Change change ∷ []) }
    {
        self.present.change(&self.cfg, &change);
        self.items.push(Item::Change(change));
    }

    /// Adds an applied message.
    pub fn add_applied(&mut self, applied: Applied)
        requires processor { applied.actor < self.old.machine.nodes }
        requires entry { applied.entry < length self.old.machine.entries }
        requires room { HasRoom self.old (item.Applied applied ∷ []) }
        ensures { HasAdded self.old self.new (item.Applied applied ∷ []) }
    {
        self.present.applied(applied);
        self.items.push(Item::Applied(applied));
    }

    /// Adds a switch.
    pub fn add_switch(&mut self, switch: Switch)
        requires processor { switch.actor < self.old.machine.nodes }
        requires room { HasRoom self.old (item.Switch switch ∷ []) }
        ensures { HasAdded self.old self.new (item.Switch switch ∷ []) }
    {
        self.present.switch(switch);
        self.items.push(Item::Switch(switch));
    }

    /// Hands out the machine and the history.
    pub fn finish(self) -> (Config, List<Item>)
        ensures machine { machine result.0 ≡ self.machine }
        ensures items { result.1.items ≡ self.items }
        ensures few { length self.items ≤ MOST_ITEMS }
    {
        (self.cfg, self.items)
    }
}
