//! What one turn does to the history and to the ends.
ghost use Rattle.std.specs.Prelude.{◌≡◌, ◌≢◌, ℕ, ◌+◌, ◌/◌, ◌<◌, ◌≤◌, ◌++◌, None, length, true, slice_set};
ghost use Rattle.plat_base.specs.Ends.{ended_of};
ghost use Rattle.plat_base.specs.Decide.{is_dir};
ghost use Rattle.plat_base.specs.Directories.{dir_of};
ghost use Rattle.plat_base.specs.Pages.{entry_at};
ghost use Rattle.plat_laws.specs.Guests.{IsWithinLimits};
ghost use Rattle.plat_coarse_laws.specs.Sound.{Sound};
ghost use Rattle.plat_coarse.specs.Acted.{value_found, IsReachable, made_through, end_within, wants_more};
ghost use Rattle.plat_coarse.specs.Advanced.{no_guest, guests_after};
ghost use Rattle.plat_guest.specs.GuestSeen.{wanted_by};
ghost use Rattle.plat_base.specs.Seen.{machine};
ghost use Rattle.plat_base.specs.declared.limits.TheConstants.{MOST_ITEMS};
ghost use Rattle.std.specs.Prelude.{slice_index_or};
ghost use Rattle.plat_chronicle.specs.Chronicle.{HasAdded, HasRoom};
ghost use Rattle.plat_coarse.specs.Running.{state_of, made_now, daemon_now};

use crate::accesses::{Reached, access_of, reach_of};
use crate::faults::{fault, thaw};
use crate::messages::switch;
use plat_base::{Config, End, Ended, Kind, Policy, PolicyKind, Want};
use plat_chronicle::{Chronicle, has_right};
use plat_guest::Guest;

/// What a turn did to its processor: how it ended, Cut where it did not, and the word that a load or fetch-and-add found.
#[derive(Clone, Copy, Debug)]
pub struct Acted {
    pub end: End,
    pub value: u32,
}

/// An access through an entry: by the translation that is held, or else after a fault.
fn access_through<P: Policy>(
    chronicle: &mut Chronicle,
    policy: &P,
    ends: &[Ended],
    q: u32,
    now: u32,
    entry: u32,
    reach: &Reached,
) -> End
    requires processor { q < chronicle.old.machine.nodes }
    requires entry { entry < length chronicle.old.machine.entries }
    requires page { reach.now.page < chronicle.old.machine.pages }
    requires word { reach.now.word < chronicle.old.machine.words }
    requires dirs { is_dir chronicle.old.machine (dir_of chronicle.old.items reach.now.page) ≡ true }
    requires room { HasRoom chronicle.old
        (made_through chronicle.old (P.answer policy.now) ends.now q now entry reach.now).items }
    ensures end { result ≡ (made_through chronicle.old (P.answer policy.now) ends.now q now entry
        reach.now).end }
    ensures added { HasAdded chronicle.old chronicle.new
        (made_through chronicle.old (P.answer policy.now) ends.now q now entry reach.now).items }
{
    let held = chronicle.held(q, entry);
    match held {
        Some(translation) if has_right(reach.kind, held) => {
            let access = access_of(
                chronicle,
                q,
                reach,
                translation.grant.frame,
                translation.seq,
            );
            chronicle.add_access(access);
            End::Cut
        }
        _ => fault(chronicle, policy, ends, q, now, entry, reach),
    }
}

/// An access that a guest wants of an address that has an entry.
fn access<P: Policy>(
    chronicle: &mut Chronicle,
    policy: &P,
    ends: &[Ended],
    q: u32,
    now: u32,
    kind: Kind,
    space: u32,
    addr: u32,
    operand: u32,
) -> Acted
    requires processor { q < chronicle.old.machine.nodes }
    requires dirs { (p : ℕ) → p < chronicle.old.machine.pages →
        is_dir chronicle.old.machine (dir_of chronicle.old.items p) ≡ true }
    requires reached { entry_at chronicle.old.machine space (addr / chronicle.old.machine.words) ≢ None }
    requires room { let want = Want.Access kind space addr operand
        in HasRoom chronicle.old (made_now chronicle.old (P.answer policy.now) ends.now q now want).items }
    ensures end { let want = Want.Access kind space addr operand
        in result.end ≡ (made_now chronicle.old (P.answer policy.now) ends.now q now want).end }
    ensures value { result.value ≡ value_found chronicle.old.machine chronicle.old.items
        (Want.Access kind space addr operand) }
    ensures added { let want = Want.Access kind space addr operand
        in HasAdded chronicle.old chronicle.new
        (made_now chronicle.old (P.answer policy.now) ends.now q now want).items }
{
    let cfg = chronicle.config();
    let Some(entry) = cfg.entry_at(space, addr / cfg.words) else {
        unreachable!();
    };
    let reach = reach_of(cfg, entry, kind, space, addr, operand);
    let value = match kind {
        Kind::Store => 0,
        Kind::Load | Kind::Add => chronicle.value(reach.page, reach.word),
    };
    let end = access_through(chronicle, policy, ends, q, now, entry, &reach);
    Acted { end, value }
}

/// What the turn of processor `q` at tick `now` adds, where its guest wants this.
pub fn act<P: Policy>(
    chronicle: &mut Chronicle,
    policy: &P,
    ends: &[Ended],
    q: u32,
    now: u32,
    want: Want,
) -> Acted
    requires processor { q < chronicle.old.machine.nodes }
    requires dirs { (p : ℕ) → p < chronicle.old.machine.pages →
        is_dir chronicle.old.machine (dir_of chronicle.old.items p) ≡ true }
    requires reached { IsReachable chronicle.old.machine want }
    requires room { HasRoom chronicle.old
        (made_now chronicle.old (P.answer policy.now) ends.now q now want).items }
    ensures end { result.end ≡ (made_now chronicle.old (P.answer policy.now) ends.now q now want).end }
    ensures value { result.value ≡ value_found chronicle.old.machine chronicle.old.items want }
    ensures added { HasAdded chronicle.old chronicle.new
        (made_now chronicle.old (P.answer policy.now) ends.now q now want).items }
{
    match want {
        Want::Access {
            kind,
            space,
            addr,
            operand,
        } => access(chronicle, policy, ends, q, now, kind, space, addr, operand),
        Want::Switch(space) => {
            switch(chronicle, q, space);
            still(End::Cut)
        }
        Want::Local | Want::Print(_) => still(End::Cut),
        Want::Halted => still(End::Halted),
        Want::Trap => still(End::Trapped),
    }
}

/// A turn that looked for no word.
fn still(end: End) -> Acted
    ensures end { result.end ≡ end }
    ensures value { result.value ≡ 0 }
{
    Acted { end, value: 0 }
}

/// Executes the guest's instruction, if it goes on.
pub fn advance(guests: &mut Vec<Guest>, cfg: &Config, q: u32, acted: Acted)
    requires processor { q < length guests.old.items }
    requires node { (slice_index_or guests.old.items q no_guest).node < cfg.now.nodes }
    requires goes { acted.end ≡ End.Cut →
        wants_more (wanted_by (machine cfg.now) (slice_index_or guests.old.items q no_guest)) ≡ true }
    ensures { guests.new.items ≡ guests_after (machine cfg.now) guests.old.items q acted }
{
    if acted.end == End::Cut {
        let guest = &mut guests[q as usize];
        guest.after(cfg, acted.value);
    }
}

/// Counts the turn of processor `q`, and notes its end: it is spent where its guest goes on and has made the budget.
pub fn settle(ends: &mut Vec<Ended>, q: u32, end: End, budget: u32) -> End
    requires processor { q < length ends.old.items }
    requires turns { (ended_of ends.old.items q).turns < 4294967295 }
    requires budget { (ended_of ends.old.items q).turns < budget }
    ensures end { result ≡ end_within budget ((ended_of ends.old.items q).turns + 1) end }
    ensures ends { ends.new.items ≡ slice_set ends.old.items q
        (record { end = result; turns = (ended_of ends.old.items q).turns + 1 }) }
{
    let ended = &mut ends[q as usize];
    ended.turns += 1;
    ended.end = if end == End::Cut && ended.turns == budget {
        End::Spent
    } else {
        end
    };
    ended.end
}

/// The daemon's pass after the turn of tick `now`, where that tick is a multiple of its period: each frozen page is thawed,
/// in rising number.
pub fn daemon<P: Policy>(chronicle: &mut Chronicle, policy: &P, ends: &[Ended], now: u32)
    requires machine { IsWithinLimits chronicle.old.machine }
    requires sound { Sound chronicle.old.machine (P.answer policy.now) (state_of chronicle.old ends.now) }
    requires spare { length (daemon_now chronicle.old (P.answer policy.now) ends.now now).history
        ≤ length chronicle.old.items + chronicle.old.spare }
    requires few { length (daemon_now chronicle.old (P.answer policy.now) ends.now now).history ≤ MOST_ITEMS }
    ensures machine { chronicle.new.machine ≡ chronicle.old.machine }
    ensures items { state_of chronicle.new ends.now
        ≡ daemon_now chronicle.old (P.answer policy.now) ends.now now }
    ensures spare { chronicle.new.spare + length chronicle.new.items
        ≡ chronicle.old.spare + length chronicle.old.items }
{
    let PolicyKind::Platinum { t2, .. } = chronicle.config().policy else {
        return;
    };
    if now % t2 != 0 {
        return;
    }
    for page in 0..chronicle.config().pages {
        thaw(chronicle, policy, ends, page, now);
    }
}
