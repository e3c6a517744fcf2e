//! The operations of a turn: polls and scans, the tick, accesses, switches, and the end.
ghost use Rattle.std.specs.Prelude.{◌≡◌, ◌≢◌, ℕ, ◌+◌, ◌*◌, ◌<◌, ◌≤◌, false, true, IsTrue, IfSome, IsSome, None, Some, length, map};
ghost use Rattle.plat_base.specs.Flat.{is_write};
ghost use Rattle.plat_base.specs.GuestRun.{want_of};
ghost use Rattle.plat_base.specs.Machine.{Machine};
ghost use Rattle.plat_base.specs.Pages.{entries_of_space};
ghost use Rattle.plat_base.specs.Seen.{machine};
ghost use Rattle.plat_events.specs.Events.{apply_message, at, guest_moved, is_followed, look_up, memory_now, reach_now};
ghost use Rattle.plat_events.specs.Places.{is_name};
ghost use Rattle.plat_events.specs.Privates as events;
ghost use Rattle.plat_events.specs.Privates.{is_over, translation_at};
ghost use Rattle.plat_events.specs.Scans.{entry_scanned, turn_over};
ghost use Rattle.plat_events.specs.Words.{version_read};
ghost use Rattle.plat_local_laws.specs.Faults.{WantsAccess};
ghost use Rattle.plat_pmap.specs.Slots.{Agrees, without_slot};
ghost use Rattle.plat_ports.specs.Ports.{AreWords, IsServed};
ghost use Rattle.plat_proc.specs.Cached.{slots_followed, slots_looked};
ghost use Rattle.plat_proc.specs.Fits.{Fits, IsHandling};
ghost use Rattle.plat_proc.specs.Followed.{HasRoomFor, HasStepped, accessed, followed_next, is_told, next_named, noted};
ghost use Rattle.plat_proc.specs.Onwards.{MayGo, handler_at};
ghost use Rattle.plat_proc.specs.Places.{WaitsWell, is_access, is_faulting, onward_seen, place_seen};
ghost use Rattle.plat_proc.specs.Reached.{GoesBy, IsReach, MayAccess, fault_reached, reach_seen};

use crate::accesses::{Reached, access_of, memory_of, reach_of, word_after};
use crate::entries::entry_of_space;
use crate::messages::{bits_kept, may_apply};
use crate::places::{Onward, Place};
use crate::procs::Proc;
use crate::scans::{looked, polled, scan_from, turn_over};
use plat_base::{
    Applied, Config, End, Item, Message, Moment, Op, Switch, Translation, Want, WordName,
};
use plat_handler::{Fault, Handler};
use plat_ports::WordPort;
use plat_words::{DataWord, is_word, place};

/// Whether an operation found what the machine may have. A store finds nothing, and is always followed.
fn is_followed(cfg: &Config, name: WordName, op: Op, found: u64) -> bool
    ensures { result ≡ is_followed (machine cfg.now) (Some (name, op)) found }
{
    match op {
        Op::Store(_) => true,
        _ => is_word(cfg, name, found),
    }
}

/// Leaves no handler. One is large, so that nothing is written where there is none already.
fn clear(handler: &mut Option<Handler>)
    ensures { handler.new ≡ None }
{
    if handler.is_some() {
        *handler = None;
    }
}

impl Proc {
    /// Makes the next operation of the turn, where it is neither that of an access nor that of a fault's handler.
    pub(crate) fn act<P: WordPort>(&mut self, cfg: &Config, port: &mut P)
        requires live { is_over self.old.state.place ≡ false }
        requires own { is_faulting self.old.state.place ≡ false }
        requires turn { is_access self.old.state.place ≡ false }
        requires fits { Fits (machine cfg.now) self.old }
        requires words { AreWords (machine cfg.now) (P.words port.old) }
        requires serves { IsServed (machine cfg.now) self.old.actor self.old.state (P.serves port.old) }
        ensures event { HasStepped (machine cfg.now) self.old self.new (P.words port.old) (P.words port.new) }
        ensures actor { self.new.actor ≡ self.old.actor }
        ensures fits { Fits (machine cfg.now) self.new }
        ensures serves { IsServed (machine cfg.now) self.new.actor self.new.state (P.serves port.new) }
        ensures stays { P.stays port.old port.new }
    {
        let (name, op) = self.next(cfg);
        let found = port.apply(place(cfg, name), op);
        if is_followed(cfg, name, op, found) {
            self.follow(cfg, found);
        }
    }

    /// The word of the next operation, and the operation.
    fn next(&self, cfg: &Config) -> (WordName, Op)
        requires live { is_over self.now.state.place ≡ false }
        requires own { is_faulting self.now.state.place ≡ false }
        requires turn { is_access self.now.state.place ≡ false }
        requires fits { Fits (machine cfg.now) self.now }
        ensures next { next_named (machine cfg.now) self.now ≡ Some result }
        ensures named { IsTrue (is_name (machine cfg.now) result.0) }
    {
        let q = self.q;
        match self.place {
            Place::Polling(_) => (WordName::Intr(q), Op::Swap(0)),
            Place::Looking { i, .. } => (WordName::Cmap(self.scanned(cfg, i)), Op::Load),
            Place::Applying { i, message, .. } => (
                WordName::Cmap(self.scanned(cfg, i)),
                Op::And(bits_kept(message, q)),
            ),
            Place::Ticking => (WordName::Time, Op::Add(1)),
            Place::Switching(space) => (WordName::Act(q), Op::Swap(u64::from(space) + 1)),
            Place::Leaving(_) => (WordName::Act(q), Op::Swap(0)),
            Place::Lessening(_) => (WordName::Live, Op::Sub(1)),
            Place::Loading | Place::Expecting | Place::Exchanging(_) => unreachable!(),
            Place::Faulting | Place::Gone(_) => unreachable!(),
        }
    }

    /// The entry of the active space that a scan looks at.
    fn scanned(&self, cfg: &Config, i: u32) -> u32
        requires { i < length (entries_of_space (machine cfg.now) self.now.state.guest.space) }
        ensures entry { result ≡ entry_scanned (machine cfg.now) self.now.state i }
        ensures within { result < length cfg.now.entries.items }
    {
        entry_of_space(cfg, self.guest.space(), i)
    }

    /// The access that the guest wants.
    pub(crate) fn reach(&self, cfg: &Config) -> Reached
        requires processor { self.now.actor < cfg.now.nodes }
        requires wants { WantsAccess (machine cfg.now) self.now.actor self.now.state }
        ensures reach { reach_seen result ≡ reach_now (machine cfg.now) self.now.actor self.now.state }
        ensures leads { IsReach (machine cfg.now) result }
    {
        let Want::Access {
            kind,
            space,
            addr,
            operand,
        } = self.guest.next(cfg)
        else {
            unreachable!()
        };
        let Some(entry) = cfg.entry_at(space, addr / cfg.words) else {
            unreachable!()
        };
        reach_of(cfg, entry, kind, space, addr, operand)
    }

    /// The translation that the access goes by.
    fn translation(&self, reach: &Reached) -> Translation
        requires entry { reach.now.entry < length self.now.state.pmap }
        requires there { IsSome (translation_at self.now.state reach.now.entry) }
        ensures { translation_at self.now.state reach.now.entry ≡ Some result }
    {
        let Some(translation) = self.pmap.find(reach.entry) else {
            unreachable!()
        };
        translation
    }

    /// Takes in what its operation found.
    fn follow(&mut self, cfg: &Config, found: u64)
        requires own { is_faulting self.old.state.place ≡ false }
        requires turn { is_access self.old.state.place ≡ false }
        requires fits { Fits (machine cfg.now) self.old }
        requires followed { is_told (machine cfg.now) self.old found ≡ true }
        ensures state { self.new.state ≡ followed_next (machine cfg.now) self.old found }
        ensures actor { self.new.actor ≡ self.old.actor }
        ensures room { self.new.room ≡ self.old.room }
        ensures slots { self.new.slots ≡ slots_followed (machine cfg.now) self.old }
        ensures handling { IfSome self.new.handler
            (IsHandling (machine cfg.now) self.new.actor self.new.state) }
    {
        match self.place {
            Place::Polling(onward) => self.poll(cfg, onward, found),
            Place::Looking { i, moment, onward } => self.look(cfg, i, moment, onward, found),
            Place::Applying {
                i,
                message,
                moment,
                onward,
            } => self.apply(cfg, i, message, moment, onward),
            Place::Ticking => self.tick(cfg, found),
            Place::Switching(space) => self.switch(cfg, space),
            Place::Leaving(end) => self.place = Place::Lessening(end),
            Place::Lessening(end) => self.place = Place::Gone(end),
            Place::Loading | Place::Expecting | Place::Exchanging(_) => {}
            Place::Faulting | Place::Gone(_) => {}
        }
    }

    /// After a poll.
    fn poll(&mut self, cfg: &Config, onward: Onward, found: u64)
        requires at { self.old.state.place ≡ events.Polling (onward_seen self.old.handler onward) }
        requires waits { WaitsWell self.old.handler onward }
        requires fits { Fits (machine cfg.now) self.old }
        ensures state { self.new.state ≡ followed_next (machine cfg.now) self.old found }
        ensures actor { self.new.actor ≡ self.old.actor }
        ensures room { self.new.room ≡ self.old.room }
        ensures slots { self.new.slots ≡ slots_followed (machine cfg.now) self.old }
        ensures handling { IfSome self.new.handler
            (IsHandling (machine cfg.now) self.new.actor self.new.state) }
    {
        let space = self.guest.space();
        self.go(polled(cfg, self.turns, space, onward, found));
    }

    /// After a look at a mask.
    fn look(&mut self, cfg: &Config, i: u32, moment: Moment, onward: Onward, found: u64)
        requires at { self.old.state.place ≡ events.Looking i moment (onward_seen self.old.handler onward) }
        requires waits { WaitsWell self.old.handler onward }
        requires fits { Fits (machine cfg.now) self.old }
        ensures state { self.new.state ≡ followed_next (machine cfg.now) self.old found }
        ensures actor { self.new.actor ≡ self.old.actor }
        ensures room { self.new.room ≡ self.old.room }
        ensures slots { self.new.slots ≡ slots_followed (machine cfg.now) self.old }
        ensures handling { IfSome self.new.handler
            (IsHandling (machine cfg.now) self.new.actor self.new.state) }
    {
        let space = self.guest.space();
        self.go(looked(cfg, self.q, self.turns, space, i, moment, onward, found));
    }

    /// Goes to a place; a fault's handler that waited for the poll goes on.
    fn go(&mut self, place: Place)
        requires { MayGo self.old.handler place }
        ensures state { self.new.state
            ≡ at self.old.state (place_seen (handler_at self.old.handler place) place) }
        ensures actor { self.new.actor ≡ self.old.actor }
        ensures room { self.new.room ≡ self.old.room }
        ensures slots { self.new.slots ≡ self.old.slots }
        ensures handling { (m : Machine)
            → IfSome self.old.handler (IsHandling m self.old.actor self.old.state)
            → IfSome self.new.handler (IsHandling m self.new.actor self.new.state) }
    {
        if place == Place::Faulting {
            if let Some(handler) = &mut self.handler {
                handler.polled();
            }
        }
        self.place = place;
    }

    /// Applies a message to the translation of the entry that the scan looks at.
    fn apply(&mut self, cfg: &Config, i: u32, message: Message, moment: Moment, onward: Onward)
        requires at { self.old.state.place
            ≡ events.Applying i message moment (onward_seen self.old.handler onward) }
        requires waits { WaitsWell self.old.handler onward }
        requires fits { Fits (machine cfg.now) self.old }
        requires room { HasRoomFor self.old (entry_scanned (machine cfg.now) self.old.state i) message }
        ensures state { (n : ℕ) → self.new.state ≡ followed_next (machine cfg.now) self.old n }
        ensures actor { self.new.actor ≡ self.old.actor }
        ensures room { self.new.room ≡ self.old.room }
        ensures slots { self.new.slots ≡ slots_followed (machine cfg.now) self.old }
        ensures handling { IfSome self.new.handler
            (IsHandling (machine cfg.now) self.new.actor self.new.state) }
    {
        let entry = self.scanned(cfg, i);
        self.note(entry, message, moment);
        self.receive(entry, message);
        let space = self.guest.space();
        self.go(scan_from(cfg, self.turns, space, i + 1, moment, onward));
    }

    /// Notes a message, where it finds a translation that it can be applied to.
    fn note(&mut self, entry: u32, message: Message, moment: Moment)
        requires entry { entry < length self.old.state.pmap }
        requires room { HasRoomFor self.old entry message }
        ensures state { self.new.state ≡ noted self.old.actor self.old.state entry message moment }
        ensures actor { self.new.actor ≡ self.old.actor }
        ensures room { self.new.room ≡ self.old.room }
        ensures slots { self.new.slots ≡ self.old.slots }
        ensures handler { self.new.handler ≡ self.old.handler }
    {
        if may_apply(message, self.pmap.find(entry)) {
            self.journal.push(Item::Applied(Applied {
                actor: self.q,
                entry,
                message,
                moment,
            }));
        }
    }

    /// Drops or lowers the translation of an entry, as a message says.
    fn receive(&mut self, entry: u32, message: Message)
        requires { entry < length self.old.state.pmap }
        ensures state { self.new.state ≡ apply_message self.old.state entry message }
        ensures actor { self.new.actor ≡ self.old.actor }
        ensures room { self.new.room ≡ self.old.room }
        ensures slots { self.new.slots ≡ map (without_slot entry) self.old.slots }
        ensures handler { self.new.handler ≡ self.old.handler }
    {
        match message {
            Message::Invalidate => self.pmap.drop_entry(entry),
            Message::Restrict => self.pmap.restrict(entry),
        }
        self.atc.forget(entry);
    }

    /// After the tick of a turn: a local or print instruction is done, and an access is looked up.
    fn tick(&mut self, cfg: &Config, found: u64)
        requires at { self.old.state.place ≡ events.Ticking }
        requires handler { self.old.handler ≡ None }
        requires fits { Fits (machine cfg.now) self.old }
        requires found { found ≤ cfg.now.nodes * cfg.now.budget }
        ensures state { self.new.state ≡ followed_next (machine cfg.now) self.old found }
        ensures actor { self.new.actor ≡ self.old.actor }
        ensures room { self.new.room ≡ self.old.room }
        ensures slots { self.new.slots ≡ slots_followed (machine cfg.now) self.old }
        ensures handling { IfSome self.new.handler
            (IsHandling (machine cfg.now) self.new.actor self.new.state) }
    {
        self.turns += 1;
        self.tick = found as u32 + 1;
        match self.guest.next(cfg) {
            Want::Local | Want::Print(_) => self.over(cfg, 0),
            Want::Switch(space) => self.place = Place::Switching(space),
            Want::Halted => self.place = Place::Leaving(End::Halted),
            Want::Trap => self.place = Place::Leaving(End::Trapped),
            Want::Access { .. } => {
                let reach = self.reach(cfg);
                self.look_up(cfg, &reach);
            }
        }
    }

    /// Looks an access up: its operations are next, or the fault where no translation has enough right.
    pub(crate) fn look_up(&mut self, cfg: &Config, reach: &Reached)
        requires processor { self.old.actor < cfg.now.nodes }
        requires now { self.old.state.now < 4294967295 }
        requires leads { IsReach (machine cfg.now) reach.now }
        requires entry { reach.now.entry < length self.old.state.pmap }
        requires agrees { Agrees self.old.slots self.old.state.pmap reach.now.entry reach.now.vpage
            (is_write reach.now.kind) }
        ensures state { self.new.state ≡ look_up (machine cfg.now) (reach_seen reach.now) self.old.state }
        ensures slots { self.new.slots
            ≡ slots_looked (machine cfg.now) self.old.state (reach_seen reach.now) self.old.slots }
        ensures actor { self.new.actor ≡ self.old.actor }
        ensures room { self.new.room ≡ self.old.room }
        ensures handling { IfSome self.new.handler
            (IsHandling (machine cfg.now) self.new.actor self.new.state) }
    {
        let look = self
            .atc
            .find(&self.pmap, reach.entry, reach.vpage, reach.kind);
        if look.found.is_some() {
            clear(&mut self.handler);
            self.place = if reach.kind.is_write() {
                Place::Expecting
            } else {
                Place::Loading
            };
        } else {
            self.begin_fault(cfg, reach);
        }
    }

    /// Begins the fault of an access that no translation serves: its first operation is the lock. A handler is large, so that
    /// an access which is served is kept free of it.
    fn begin_fault(&mut self, cfg: &Config, reach: &Reached)
        requires processor { self.old.actor < cfg.now.nodes }
        requires now { self.old.state.now < 4294967295 }
        requires leads { IsReach (machine cfg.now) reach.now }
        ensures state { self.new.state
            ≡ at self.old.state (events.Locking (fault_reached (machine cfg.now) (reach_seen reach.now))) }
        ensures actor { self.new.actor ≡ self.old.actor }
        ensures room { self.new.room ≡ self.old.room }
        ensures slots { self.new.slots ≡ self.old.slots }
        ensures handling { IfSome self.new.handler
            (IsHandling (machine cfg.now) self.new.actor self.new.state) }
    {
        let fault = Fault {
            entry: Some(reach.entry),
            page: reach.page,
            cause: reach.kind.cause(),
        };
        self.handler = Some(Handler::start(cfg, self.q, fault, self.tick));
        self.place = Place::Faulting;
    }

    /// The instruction is done, with what its load or fetch-and-add found, and the turn is over.
    fn over(&mut self, cfg: &Config, value: u32)
        requires processor { self.old.actor < cfg.now.nodes }
        requires handler { self.old.handler ≡ None }
        requires not_halted { want_of (machine cfg.now) self.old.actor self.old.state.guest ≢ Want.Halted }
        requires not_trapped { want_of (machine cfg.now) self.old.actor self.old.state.guest ≢ Want.Trap }
        ensures state { self.new.state
            ≡ at (guest_moved (machine cfg.now) self.old.actor value self.old.state)
            (turn_over (machine cfg.now) self.old.state.turns) }
        ensures actor { self.new.actor ≡ self.old.actor }
        ensures room { self.new.room ≡ self.old.room }
        ensures slots { self.new.slots ≡ self.old.slots }
        ensures handler { self.new.handler ≡ None }
    {
        self.guest.after(cfg, value);
        self.place = turn_over(cfg, self.turns);
    }

    /// Makes the next operation of the access that the guest wants.
    pub(crate) fn access<P: WordPort>(&mut self, cfg: &Config, port: &mut P)
        requires accesses { IsTrue (is_access self.old.state.place) }
        requires may { MayAccess (machine cfg.now) self.old }
        requires fits { Fits (machine cfg.now) self.old }
        requires words { AreWords (machine cfg.now) (P.words port.old) }
        requires serves { IsServed (machine cfg.now) self.old.actor self.old.state (P.serves port.old) }
        ensures event { HasStepped (machine cfg.now) self.old self.new (P.words port.old) (P.words port.new) }
        ensures actor { self.new.actor ≡ self.old.actor }
        ensures fits { Fits (machine cfg.now) self.new }
        ensures serves { IsServed (machine cfg.now) self.new.actor self.new.state (P.serves port.new) }
        ensures stays { P.stays port.old port.new }
    {
        let reach = self.reach(cfg);
        let translation = self.translation(&reach);
        let name = memory_of(&reach, translation);
        let op = self.access_op(&reach);
        let found = port.apply(place(cfg, name), op);
        if is_followed(cfg, name, op, found) {
            self.follow_access(cfg, &reach, translation, found);
        }
    }

    /// The operation of an access on its word: a load, or the write, where the word is as seen.
    fn access_op(&self, reach: &Reached) -> Op
        requires accesses { IsTrue (is_access self.now.state.place) }
        requires version { (n : ℕ) → self.now.state.place ≡ events.Exchanging n → version_read n < 4294967295 }
        ensures { (m : Machine) → reach_seen reach.now ≡ reach_now m self.now.actor self.now.state
            → next_named m self.now ≡ Some (memory_now m self.now.actor self.now.state, result) }
    {
        match self.place {
            Place::Loading | Place::Expecting => Op::Load,
            Place::Exchanging(seen) => Op::Exchange {
                old: seen,
                new: word_after(reach, seen),
            },
            _ => unreachable!(),
        }
    }

    /// Takes in what the operation of an access found.
    fn follow_access(&mut self, cfg: &Config, reach: &Reached, translation: Translation, found: u64)
        requires accesses { IsTrue (is_access self.old.state.place) }
        requires may { MayAccess (machine cfg.now) self.old }
        requires goes { GoesBy (machine cfg.now) self.old reach.now translation }
        requires fits { Fits (machine cfg.now) self.old }
        requires followed { is_told (machine cfg.now) self.old found ≡ true }
        ensures state { self.new.state ≡ followed_next (machine cfg.now) self.old found }
        ensures actor { self.new.actor ≡ self.old.actor }
        ensures room { self.new.room ≡ self.old.room }
        ensures slots { self.new.slots ≡ slots_followed (machine cfg.now) self.old }
        ensures handler { self.new.handler ≡ None }
    {
        match self.place {
            Place::Loading => self.end_access(cfg, reach, translation, found),
            Place::Exchanging(seen) => self.write(cfg, reach, translation, seen, found),
            _ => self.place = Place::Exchanging(found),
        }
    }

    /// The access found its word, and is over.
    fn end_access(&mut self, cfg: &Config, reach: &Reached, translation: Translation, found: u64)
        requires handler { self.old.handler ≡ None }
        requires may { MayAccess (machine cfg.now) self.old }
        requires goes { GoesBy (machine cfg.now) self.old reach.now translation }
        requires version { version_read found < 4294967295 }
        requires room { length self.old.state.journal < self.old.room }
        ensures state { self.new.state ≡ accessed (machine cfg.now) self.old found }
        ensures actor { self.new.actor ≡ self.old.actor }
        ensures room { self.new.room ≡ self.old.room }
        ensures slots { self.new.slots ≡ self.old.slots }
        ensures handler { self.new.handler ≡ None }
    {
        let access = access_of(self.q, reach, translation, found);
        self.journal.push(Item::Access(access));
        self.over(cfg, access.old);
    }

    /// The write was made where the word was as seen; else it is tried again.
    fn write(
        &mut self,
        cfg: &Config,
        reach: &Reached,
        translation: Translation,
        seen: u64,
        found: u64,
    )
        requires at { self.old.state.place ≡ events.Exchanging seen }
        requires handler { self.old.handler ≡ None }
        requires may { MayAccess (machine cfg.now) self.old }
        requires goes { GoesBy (machine cfg.now) self.old reach.now translation }
        requires version { version_read found < 4294967295 }
        requires room { found ≡ seen → length self.old.state.journal < self.old.room }
        ensures state { self.new.state ≡ followed_next (machine cfg.now) self.old found }
        ensures actor { self.new.actor ≡ self.old.actor }
        ensures room { self.new.room ≡ self.old.room }
        ensures slots { self.new.slots ≡ self.old.slots }
        ensures handler { self.new.handler ≡ None }
    {
        if found == seen {
            self.end_access(cfg, reach, translation, found);
        } else {
            self.place = Place::Exchanging(found);
        }
    }

    /// Becomes active in a space, whose entries it looks at first.
    fn switch(&mut self, cfg: &Config, space: u32)
        requires at { self.old.state.place ≡ events.Switching space }
        requires handler { self.old.handler ≡ None }
        requires fits { Fits (machine cfg.now) self.old }
        requires room { length self.old.state.journal < self.old.room }
        ensures state { (n : ℕ) → self.new.state ≡ followed_next (machine cfg.now) self.old n }
        ensures actor { self.new.actor ≡ self.old.actor }
        ensures room { self.new.room ≡ self.old.room }
        ensures slots { self.new.slots ≡ slots_followed (machine cfg.now) self.old }
        ensures handling { IfSome self.new.handler
            (IsHandling (machine cfg.now) self.new.actor self.new.state) }
    {
        self.journal.push(Item::Switch(Switch {
            actor: self.q,
            space,
        }));
        self.guest.after(cfg, 0);
        self.atc.flush();
        let moment = Moment::Activation;
        self.place = scan_from(cfg, self.turns, space, 0, moment, Onward::TurnOver);
    }
}
