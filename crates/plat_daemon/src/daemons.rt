//! The daemon.
ghost use Rattle.std.specs.Prelude.{◌≡◌, ◌==◌, if◌then◌else◌, ◌*◌, ◌<◌, ◌≤◌, ◌++◌, ◌∷◌, [], length, false, not, IsTrue, IsSome, IfOk};
ghost use Rattle.std.specs.Prelude.{IfSome, Some, None};
ghost use Rattle.plat_base.specs.Rules.{has_daemon};
ghost use Rattle.plat_base.specs.Seen.{machine};
ghost use Rattle.plat_base.specs.declared.items.Item.TheVariants as item;
ghost use Rattle.plat_events.specs.Events.{at, page_done, thaw_of};
ghost use Rattle.plat_events.specs.Places.{word_count};
ghost use Rattle.plat_events.specs.Privates.{LiveLooking, Locking, Over, TimeLooking, first_private, is_over, period};
ghost use Rattle.plat_ports.specs.Ports.{AreWords, IsServed};
ghost use Rattle.plat_daemon.specs.Places.{place_seen};
ghost use Rattle.plat_daemon.specs.DaemonSeen.{state_of, went_to};
ghost use Rattle.plat_daemon.specs.Fits.{Fits, HasStepped, IsSweeping, next_at, told_to};

use plat_base::{Cause, Change, Config, Item, List, Op, OutOfMemory, PolicyKind, WordName};
use plat_handler::{Ask, Fault, Handler};
use plat_ports::WordPort;
use plat_words::{is_word, place};
use std::alloc::Global;
use std::marker::Model;

/// How an operation left its actor: it goes on, or it has ended.
#[derive(Clone, Copy, Debug, PartialEq, Eq)]
pub enum Went {
    More,
    Ended,
}

/// The operation that the daemon makes next.
#[derive(Clone, Copy, Debug, PartialEq, Eq)]
pub enum Place {
    /// The load of the number of live processors.
    LiveLooking,
    /// The load of the time.
    TimeLooking,
    /// What the handler of a page asks for.
    Sweeping,
    /// It has ended.
    Over,
}

/// The daemon between two operations. Contracts see the time of its pass, when the next pass is due, where it stands, its
/// items, how many it may have, the page that it has come to, and that page's handler.
#[derive(Debug, Drop)]
pub struct Daemon {
    /// The time of the pass.
    tick: u32,
    due: u32,
    page: u32,
    place: Place,
    handler: Option<Handler>,
    journal: List<Item>,
}

impl Model for Daemon {
    ghost use Rattle.std.specs.Prelude.{◌+◌, length};
    ghost use Rattle.plat_daemon.specs.Places.{place_seen, HandlesWell};
    ghost use Rattle.plat_daemon.specs.DaemonSeen.{DaemonSeen};

    ghost Value = { DaemonSeen };

    ghost view = { λ it. record {
      now = it.tick;
      due = it.due;
      place = place_seen it.handler it.place;
      journal = it.journal.items;
      room = length it.journal.items + it.journal.spare;
      page = it.page;
      handler = it.handler;
    } };

    ghost invariant = { λ it. HandlesWell it.handler it.place };
}

/// The daemon's period.
fn period(cfg: &Config) -> u32
    ensures { result ≡ period cfg.now.policy }
{
    match cfg.policy {
        PolicyKind::Place | PolicyKind::Replicate => 0,
        PolicyKind::Platinum { t2, .. } => t2,
    }
}

/// Where the daemon stands once it found so many live processors.
fn after_live(live: u64) -> Place
    ensures { place_seen None result ≡ (if live == 0 then Over else TimeLooking) }
{
    if live == 0 {
        Place::Over
    } else {
        Place::TimeLooking
    }
}

impl Daemon {
    /// The daemon before its first operation. It takes all memory that the daemon ever uses: room for a thaw of each page at
    /// each pass.
    pub fn new(alloc: Global, cfg: &Config) -> Result<Daemon, OutOfMemory>
        requires { IsTrue (has_daemon cfg.now.policy) }
        ensures start { IfOk result (λ it. state_of (machine cfg.now) it
            ≡ first_private (machine cfg.now) cfg.now.nodes) }
        ensures fits { IfOk result (Fits (machine cfg.now)) }
    {
        let due = period(cfg);
        let passes = (cfg.nodes * cfg.budget / due) as usize;
        Ok(Daemon {
            tick: 0,
            due,
            page: 0,
            place: Place::LiveLooking,
            handler: None,
            journal: List::with_room(alloc, passes * cfg.pages as usize)?,
        })
    }

    /// Makes the daemon's next operation, one and no more, and takes in the word that it found. A word that its kind cannot
    /// be changes nothing.
    pub fn step<P: WordPort>(&mut self, cfg: &Config, port: &mut P) -> Went
        requires live { is_over self.old.place ≡ false }
        requires fits { Fits (machine cfg.now) self.old }
        requires words { AreWords (machine cfg.now) (P.words port.old) }
        requires serves { IsServed (machine cfg.now) cfg.now.nodes (state_of (machine cfg.now) self.old)
            (P.serves port.old) }
        ensures event { HasStepped (machine cfg.now) self.old self.new (P.words port.old) (P.words port.new) }
        ensures fits { Fits (machine cfg.now) self.new }
        ensures words { AreWords (machine cfg.now) (P.words port.new) }
        ensures serves { IsServed (machine cfg.now) cfg.now.nodes (state_of (machine cfg.now) self.new)
            (P.serves port.new) }
        ensures stays { P.stays port.old port.new }
        ensures went { result ≡ went_to (not (is_over self.new.place)) }
    {
        let (at, op) = self.next(cfg);
        let found = port.apply(at, op);
        self.after(cfg, found);
        if self.is_over() {
            Went::Ended
        } else {
            Went::More
        }
    }

    /// Its items so far.
    pub fn journal(&self) -> &[Item]
        ensures { result.now ≡ self.now.journal }
    {
        self.journal.as_slice()
    }

    /// Whether it makes no further operation: it has found that no processor is live.
    pub fn is_over(&self) -> bool
        ensures { result ≡ is_over self.now.place }
    {
        self.place == Place::Over
    }

    /// Hands out its items. It takes no memory.
    pub fn finish(self) -> List<Item>
        ensures { result.items ≡ self.journal }
    {
        self.journal
    }

    /// The place of the word of the next operation, and the operation.
    fn next(&self, cfg: &Config) -> (usize, Op)
        requires live { is_over self.now.place ≡ false }
        requires fits { Fits (machine cfg.now) self.now }
        ensures next { next_at (machine cfg.now) self.now ≡ Some result }
        ensures within { result.0 < word_count (machine cfg.now) }
    {
        match self.place {
            Place::LiveLooking => (place(cfg, WordName::Live), Op::Load),
            Place::TimeLooking => (place(cfg, WordName::Time), Op::Load),
            Place::Sweeping => self.asked(cfg),
            Place::Over => unreachable!(),
        }
    }

    /// The operation that the page's handler asks for.
    fn asked(&self, cfg: &Config) -> (usize, Op)
        requires handler { IsSome self.now.handler }
        requires fits { Fits (machine cfg.now) self.now }
        ensures next { next_at (machine cfg.now) self.now ≡ Some result }
        ensures within { result.0 < word_count (machine cfg.now) }
    {
        let Some(handler) = &self.handler else {
            unreachable!()
        };
        match handler.next(cfg) {
            Ask::Word { at, op } => (at, op),
            _ => unreachable!(),
        }
    }

    /// Takes in what its operation found.
    fn after(&mut self, cfg: &Config, found: u64)
        requires fits { Fits (machine cfg.now) self.old }
        requires live { is_over self.old.place ≡ false }
        ensures state { state_of (machine cfg.now) self.new ≡ told_to (machine cfg.now) self.old found }
        ensures fits { Fits (machine cfg.now) self.new }
    {
        match self.place {
            Place::LiveLooking => self.lived(cfg, found),
            Place::TimeLooking => self.timed(cfg, found),
            Place::Sweeping => self.told(cfg, found),
            Place::Over => {}
        }
    }

    /// The number of live processors was found.
    fn lived(&mut self, cfg: &Config, found: u64)
        requires place { self.old.place ≡ LiveLooking }
        requires handler { self.old.handler ≡ None }
        ensures state { state_of (machine cfg.now) self.new ≡ told_to (machine cfg.now) self.old found }
        ensures room { self.new.room ≡ self.old.room }
        ensures sweeping { IfSome self.new.handler (IsSweeping (machine cfg.now) self.new) }
    {
        if is_word(cfg, WordName::Live, found) {
            self.place = after_live(found);
        }
    }

    /// The time was found: a pass begins where it is due.
    fn timed(&mut self, cfg: &Config, found: u64)
        requires place { self.old.place ≡ TimeLooking }
        requires handler { self.old.handler ≡ None }
        ensures state { state_of (machine cfg.now) self.new ≡ told_to (machine cfg.now) self.old found }
        ensures room { self.new.room ≡ self.old.room }
        ensures sweeping { IfSome self.new.handler (IsSweeping (machine cfg.now) self.new) }
    {
        if !is_word(cfg, WordName::Time, found) {
            return;
        }
        if found < u64::from(self.due) {
            self.place = Place::LiveLooking;
        } else {
            self.tick = found as u32;
            self.sweep(cfg, 0);
        }
    }

    /// Comes to a page.
    fn sweep(&mut self, cfg: &Config, page: u32)
        requires page { page < cfg.now.pages }
        requires now { self.old.now < 4294967295 }
        ensures state { state_of (machine cfg.now) self.new
            ≡ at (state_of (machine cfg.now) self.old) (Locking (thaw_of page)) }
        ensures room { self.new.room ≡ self.old.room }
        ensures sweeping { IfSome self.new.handler (IsSweeping (machine cfg.now) self.new) }
    {
        let fault = Fault {
            entry: None,
            page,
            cause: Cause::Thaw,
        };
        self.page = page;
        self.handler = Some(Handler::start(cfg, cfg.nodes, fault, self.tick));
        self.place = Place::Sweeping;
    }

    /// Takes in what the handler's operation found, and goes on with what it asks next, or with the next page.
    fn told(&mut self, cfg: &Config, found: u64)
        requires handler { IsSome self.old.handler }
        requires fits { Fits (machine cfg.now) self.old }
        ensures state { state_of (machine cfg.now) self.new ≡ told_to (machine cfg.now) self.old found }
        ensures room { self.new.room ≡ self.old.room }
        ensures sweeping { IfSome self.new.handler (IsSweeping (machine cfg.now) self.new) }
    {
        let Some(handler) = &mut self.handler else {
            unreachable!()
        };
        handler.after(cfg, found);
        if handler.asks_word() {
            return;
        }
        match handler.next(cfg) {
            Ask::Thawed(change) => {
                self.note(change);
                self.page_done(cfg);
            }
            Ask::NotFrozen => self.page_done(cfg),
            Ask::Word { .. } | Ask::Poll | Ask::Granted(_) | Ask::NoFrames => unreachable!(),
        }
    }

    /// Notes a thaw.
    fn note(&mut self, change: Change)
        requires { length self.old.journal < self.old.room }
        ensures { self.new ≡ record self.old { journal = self.old.journal ++ item.Change change ∷ [] } }
    {
        self.journal.push(Item::Change(change));
    }

    /// Goes to the next page, and after the last one sets the time of its next pass.
    fn page_done(&mut self, cfg: &Config)
        requires there { IsTrue (has_daemon cfg.now.policy) }
        requires page { self.old.page < cfg.now.pages }
        requires now { self.old.now ≤ cfg.now.nodes * cfg.now.budget }
        ensures state { state_of (machine cfg.now) self.new
            ≡ page_done (machine cfg.now) (state_of (machine cfg.now) self.old) self.old.page }
        ensures room { self.new.room ≡ self.old.room }
        ensures sweeping { IfSome self.new.handler (IsSweeping (machine cfg.now) self.new) }
    {
        if self.page + 1 < cfg.pages {
            self.sweep(cfg, self.page + 1);
        } else {
            let period = period(cfg);
            self.due = (self.tick / period + 1) * period;
            self.handler = None;
            self.place = Place::LiveLooking;
        }
    }
}
