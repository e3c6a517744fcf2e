//! A fault under way: its handler's operations, and what they take of the processor's own translations and give to them.
ghost use Rattle.std.specs.Prelude.{◌≡◌, ◌<◌, if◌then◌else◌, IsTrue, length, map, Some, IfSome};
ghost use Rattle.plat_base.specs.Cache.{without_page};
ghost use Rattle.plat_base.specs.Messages.{removes_some};
ghost use Rattle.plat_base.specs.Seen.{machine};
ghost use Rattle.plat_handler.specs.HandlerSeen.{HandlesOn, asked, is_word_asked, stage_told};
ghost use Rattle.plat_local_laws.specs.Faults.{WantsAccess};
ghost use Rattle.plat_pmap.specs.Slots.{places};
ghost use Rattle.plat_ports.specs.Ports.{AreWords, IsServed};
ghost use Rattle.plat_proc.specs.Fits.{Fits, IsHandling};
ghost use Rattle.plat_proc.specs.Cached.{slots_told, without_slot_of};
ghost use Rattle.plat_proc.specs.Followed.{HasStepped, next_placed, told_to};
ghost use Rattle.plat_proc.specs.Granted.{GrantAgrees, granted_to, slots_granted};
ghost use Rattle.plat_proc.specs.Owned.{IsGrantOf, IsOwnOf, given_up, installed, pmap_told};
ghost use Rattle.plat_proc.specs.Places.{is_faulting};

use crate::places::{Onward, Place};
use crate::procs::Proc;
use plat_base::{Change, Config, End, Item, Op, Removed, Translation};
use plat_handler::{Ask, Handler, Own};
use plat_pmap::{Atc, Pmap};
use plat_ports::WordPort;

/// Drops or lowers the own translation that a post was made for.
fn give_up(pmap: &mut Pmap, own: Own)
    requires { IsOwnOf (length pmap.old) own }
    ensures { pmap.new ≡ given_up own pmap.old }
{
    match own {
        Own::Nothing => {}
        Own::Dropped(entry) => pmap.drop_entry(entry),
        Own::Lowered(entry) => pmap.lower(entry),
    }
}

/// Puts the translation that the session granted into its place.
fn install(pmap: &mut Pmap, granted: Option<Translation>)
    requires { IsGrantOf (length pmap.old) granted }
    ensures { pmap.new ≡ installed granted pmap.old }
{
    if let Some(translation) = granted {
        pmap.install(translation.grant, translation.seq);
    }
}

/// Takes in what the handler's operation found, with what that takes of the own translations and what its session grants, and
/// says whether the handler asks for another operation.
fn went_on(cfg: &Config, handler: &mut Handler, pmap: &mut Pmap, found: u64) -> bool
    requires processor { handler.old.actor < cfg.now.nodes }
    requires handles { HandlesOn (machine cfg.now) handler.old }
    requires word { IsTrue (is_word_asked (asked (machine cfg.now) handler.old)) }
    requires entries { length pmap.old ≡ length cfg.now.entries.items }
    ensures asks { result ≡ is_word_asked (asked (machine cfg.now) handler.new) }
    ensures pmap { pmap.new ≡ pmap_told (machine cfg.now) handler.old found pmap.old }
    ensures stage { handler.new.stage ≡ stage_told (machine cfg.now) handler.old found }
    ensures actor { handler.new.actor ≡ handler.old.actor }
    ensures now { handler.new.now ≡ handler.old.now }
    ensures handles { HandlesOn (machine cfg.now) handler.new }
{
    give_up(pmap, handler.after(cfg, found));
    let asks = handler.asks_word();
    if asks {
        install(pmap, handler.installed(cfg));
    }
    asks
}

/// Empties the places of the cache that keep entries of a page.
fn forget_page(cfg: &Config, atc: &mut Atc, page: u32)
    requires { page < cfg.now.pages }
    ensures { atc.new ≡ map (without_slot_of (machine cfg.now) page) atc.old }
{
    for entry in cfg.entries_of_page(page) {
        atc.forget(*entry);
    }
}

/// The cache forgets a page of which translations were removed.
fn forget_removed(cfg: &Config, atc: &mut Atc, page: u32, removed: Removed)
    requires { page < cfg.now.pages }
    ensures slots { atc.new
        ≡ (if removes_some removed then map (without_slot_of (machine cfg.now) page) atc.old else atc.old) }
    ensures places { places atc.new
        ≡ (if removes_some removed then map (without_page (machine cfg.now) page) (places atc.old)
        else places atc.old) }
{
    if removed.is_some() {
        forget_page(cfg, atc, page);
    }
}

impl Proc {
    /// Makes the next operation of the fault's handler.
    pub(crate) fn handle<P: WordPort>(&mut self, cfg: &Config, port: &mut P)
        requires faulting { IsTrue (is_faulting self.old.state.place) }
        requires fits { Fits (machine cfg.now) self.old }
        requires words { AreWords (machine cfg.now) (P.words port.old) }
        requires serves { IsServed (machine cfg.now) self.old.actor self.old.state (P.serves port.old) }
        ensures event { HasStepped (machine cfg.now) self.old self.new (P.words port.old) (P.words port.new) }
        ensures actor { self.new.actor ≡ self.old.actor }
        ensures fits { Fits (machine cfg.now) self.new }
        ensures serves { IsServed (machine cfg.now) self.new.actor self.new.state (P.serves port.new) }
        ensures stays { P.stays port.old port.new }
    {
        let (at, op) = self.asked(cfg);
        let found = port.apply(at, op);
        self.told(cfg, found);
    }

    /// The operation that the handler asks for.
    fn asked(&self, cfg: &Config) -> (usize, Op)
        requires faulting { IsTrue (is_faulting self.now.state.place) }
        requires fits { Fits (machine cfg.now) self.now }
        ensures { next_placed (machine cfg.now) self.now ≡ Some result }
    {
        let Some(handler) = &self.handler else {
            unreachable!()
        };
        match handler.next(cfg) {
            Ask::Word { at, op } => (at, op),
            _ => unreachable!(),
        }
    }

    /// Takes in what the handler's operation found, and goes on with what it asks next, or with how its session ended.
    fn told(&mut self, cfg: &Config, found: u64)
        requires faulting { IsTrue (is_faulting self.old.state.place) }
        requires fits { Fits (machine cfg.now) self.old }
        ensures state { self.new.state ≡ told_to (machine cfg.now) self.old found }
        ensures actor { self.new.actor ≡ self.old.actor }
        ensures room { self.new.room ≡ self.old.room }
        ensures slots { self.new.slots ≡ slots_told (machine cfg.now) self.old found }
        ensures handling { IfSome self.new.handler
            (IsHandling (machine cfg.now) self.new.actor self.new.state) }
    {
        let Some(handler) = &mut self.handler else {
            unreachable!()
        };
        if went_on(cfg, handler, &mut self.pmap, found) {
            return;
        }
        match handler.next(cfg) {
            Ask::Poll => self.place = Place::Polling(Onward::Fault),
            Ask::Granted(change) => self.granted(cfg, change),
            Ask::NoFrames => {
                self.handler = None;
                self.place = Place::Leaving(End::NoFrames);
            }
            Ask::Word { .. } | Ask::Thawed(_) | Ask::NotFrozen => unreachable!(),
        }
    }

    /// The page was unlocked with its change: the cache forgets it where translations were removed, and the processor looks up
    /// its access again.
    fn granted(&mut self, cfg: &Config, change: Change)
        requires processor { self.old.actor < cfg.now.nodes }
        requires now { self.old.state.now < 4294967295 }
        requires wants { WantsAccess (machine cfg.now) self.old.actor self.old.state }
        requires entries { length self.old.state.pmap ≡ length cfg.now.entries.items }
        requires page { change.page < cfg.now.pages }
        requires room { length self.old.state.journal < self.old.room }
        requires agrees { GrantAgrees (machine cfg.now) self.old change }
        ensures state { self.new.state
            ≡ granted_to (machine cfg.now) self.old.actor change self.old.state }
        ensures slots { self.new.slots
            ≡ slots_granted (machine cfg.now) self.old.actor self.old.state change self.old.slots }
        ensures actor { self.new.actor ≡ self.old.actor }
        ensures room { self.new.room ≡ self.old.room }
        ensures handling { IfSome self.new.handler
            (IsHandling (machine cfg.now) self.new.actor self.new.state) }
    {
        let page = change.page;
        let removed = change.removed;
        self.journal.push(Item::Change(change));
        forget_removed(cfg, &mut self.atc, page, removed);
        let reach = self.reach(cfg);
        self.look_up(cfg, &reach);
    }
}
