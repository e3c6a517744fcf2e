//! The run of a guest, on the values that a history gives its loads and fetch-and-adds.
ghost use Rattle.std.specs.Prelude.{◌≡◌, ◌<◌, [], ◌∷◌, ◌≢◌, MatchOption, slice_get};
ghost use Rattle.plat_base.specs.Seen.{machine};
ghost use Rattle.plat_base.specs.Done.{values_of, value_of};
ghost use Rattle.plat_guest.specs.GuestSeen.{new_guest, wanted_by};
ghost use Rattle.plat_report.specs.Runs.{turn_of, gone, turn_with, gone_with};

use crate::turns::Turn;
use plat_base::{Config, Item, Kind, Want};
use plat_guest::Guest;
use std::marker::Model;

/// A guest between two turns, and the items in which its next values stand. Contracts see the guest, and those values.
#[derive(Drop)]
pub(crate) struct Run<'a> {
    node: u32,
    guest: Guest,
    items: &'a [Item],
}

impl<'a> Model for Run<'a> {
    ghost use Rattle.std.specs.Prelude.{◌≡◌};
    ghost use Rattle.plat_base.specs.Done.{values_of};
    ghost use Rattle.plat_report.specs.Runs.{RunSeen};

    ghost Value = { RunSeen };

    ghost view = { λ it. record { guest = it.guest; values = values_of it.node it.items.now } };

    ghost invariant = { λ it. it.guest.node ≡ it.node };
}

/// The value that an item gives to processor `q`, if it gives one.
fn value_of(q: u32, item: &Item) -> Option<u32>
    ensures { result ≡ value_of q item.now }
{
    match item {
        Item::Access(access) if access.actor == q && access.kind != Kind::Store => Some(access.old),
        _ => None,
    }
}

/// The first value that these items give to processor `q`, and the items after it.
fn next_value(q: u32, items: &[Item]) -> Option<(u32, &[Item])>
    ensures { MatchOption result (values_of q items.now ≡ []) (λ found. values_of q items.now
        ≡ found.0 ∷ values_of q found.1.now) }
{
    for i in 0..items.len() {
        if let Some(value) = value_of(q, &items[i]) {
            return Some((value, &items[i + 1..]));
        }
    }
    None
}

impl<'a> Run<'a> {
    /// The guest of node `q` before its first turn, and the values that these items give it.
    pub(crate) fn new(cfg: &Config, q: u32, items: &'a [Item]) -> Run<'a>
        requires { q < cfg.now.nodes }
        ensures guest { result.guest ≡ new_guest (machine cfg.now) q }
        ensures values { result.values ≡ values_of q items.now }
    {
        Run {
            node: q,
            guest: Guest::new(cfg, q),
            items,
        }
    }

    /// Makes the next turn.
    pub(crate) fn turn(&mut self, cfg: &Config) -> Turn
        requires { self.old.guest.node < cfg.now.nodes }
        ensures turn { result ≡ turn_of (machine cfg.now) self.old }
        ensures gone { self.new ≡ gone (machine cfg.now) self.old }
    {
        match self.guest.next(cfg) {
            Want::Halted | Want::Trap => Turn::Stops,
            Want::Access {
                kind: Kind::Load | Kind::Add,
                ..
            } => self.read(cfg),
            Want::Print(value) => {
                self.guest.after(cfg, 0);
                Turn::Prints(value)
            }
            Want::Local | Want::Switch(_) | Want::Access { .. } => {
                self.guest.after(cfg, 0);
                Turn::Quiet
            }
        }
    }

    /// Makes a turn that reads a word, if its value is there.
    fn read(&mut self, cfg: &Config) -> Turn
        requires node { self.old.guest.node < cfg.now.nodes }
        requires not_halted { wanted_by (machine cfg.now) self.old.guest ≢ Want.Halted }
        requires not_trapped { wanted_by (machine cfg.now) self.old.guest ≢ Want.Trap }
        ensures turn { result ≡ turn_with (slice_get self.old.values 0) }
        ensures gone { self.new ≡ gone_with (machine cfg.now) self.old Kind.Load
            (slice_get self.old.values 0) }
    {
        match next_value(self.node, self.items) {
            None => Turn::Stops,
            Some((value, rest)) => {
                self.items = rest;
                self.guest.after(cfg, value);
                Turn::Quiet
            }
        }
    }
}
