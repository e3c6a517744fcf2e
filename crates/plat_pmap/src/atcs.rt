//! The cache of translations of a processor.
ghost use Rattle.std.specs.Prelude.{◌≡◌, ◌<◌, if◌then◌else◌, IsTrue, IsSome, length, map, slice_set};
ghost use Rattle.plat_base.specs.Cache.{Cache, accessed, no_places, serves_access, without_entry};
ghost use Rattle.plat_base.specs.Flat.{is_write};
ghost use Rattle.plat_base.specs.declared.limits.TheConstants.{VIRTUAL_PAGES};
ghost use Rattle.plat_pmap.specs.Slots.{Agrees, no_slots, slot_of, kept, place_of, places, filled, counted, without_slot, is_usable};
ghost use Rattle.plat_pmap.specs.Translations.{translation_of, usable};

use crate::pmaps::Pmap;
use arrayvec::ArrayVec;
use plat_base::{Kind, Right, Translation};
use std::marker::Model;

/// The number of places. Virtual page v uses the place v modulo this number.
const PLACES: usize = 8;

/// What a place of the cache keeps: an entry, the entry's translation, and whether a write filled the place.
#[derive(Clone, Copy, Debug, PartialEq, Eq)]
pub struct Slot {
    pub entry: u32,
    pub translation: Translation,
    pub written: bool,
}

/// What an access finds: the translation that it can use, if there is one, and whether the cache had it.
#[derive(Clone, Copy, Debug, PartialEq, Eq)]
pub struct Look {
    pub found: Option<Translation>,
    pub hit: bool,
}

/// The address translation cache of a processor: eight places in front of its Pmap. It takes no memory.
#[derive(Debug, Drop)]
pub struct Atc {
    slots: ArrayVec<Option<Slot>, PLACES>,
}

impl Model for Atc {
    ghost use Rattle.std.specs.Prelude.{List, Option};
    ghost use Rattle.plat_pmap.specs.declared.atcs.Slot.{Slot};
    ghost use Rattle.plat_pmap.specs.Slots.{AreSlots};

    ghost Value = { List (Option Slot) };

    ghost view = { λ it. it.slots.items };

    ghost invariant = { λ it. AreSlots it.slots.items };
}

impl Atc {
    /// Eight empty places.
    pub fn new() -> Atc
        ensures slots { result ≡ no_slots }
        ensures places { places result ≡ no_places }
    {
        Atc {
            slots: ArrayVec::from([None; PLACES]),
        }
    }

    /// Looks an entry up for an access at virtual page `vpage`, which is the entry's. A hit answers what the place keeps;
    /// a miss looks in the Pmap, and fills the place where that has a translation with enough right.
    pub fn find(&mut self, pmap: &Pmap, entry: u32, vpage: u32, kind: Kind) -> Look
        requires entry { entry < length pmap.now }
        requires vpage { vpage < VIRTUAL_PAGES }
        requires agrees { Agrees self.old pmap.now entry vpage (is_write kind) }
        ensures found { result.found ≡ usable kind (translation_of pmap.now entry) }
        ensures hit { result.hit ≡ serves_access entry (is_write kind) (place_of (slot_of self.old vpage)) }
        ensures slots { self.new ≡ filled entry vpage (is_write kind) result.found self.old }
        ensures counted { IsSome result.found → (c : Cache) → c.places ≡ places self.old
            → accessed entry vpage (is_write kind) c ≡ counted result.hit (places self.new) c }
    {
        let at = vpage as usize % PLACES;
        if let Some(translation) = served(self.slots[at], entry, kind) {
            return Look {
                found: Some(translation),
                hit: true,
            };
        }
        let found = usable(kind, pmap.find(entry));
        if let Some(translation) = found {
            let slot = Slot {
                entry,
                translation,
                written: is_write(kind),
            };
            self.fill(at, slot);
        }
        Look { found, hit: false }
    }

    /// Fills a place.
    fn fill(&mut self, at: usize, slot: Slot)
        requires at { at < 8 }
        requires usable { IsTrue (is_usable (Some slot)) }
        ensures { self.new ≡ slice_set self.old at (Some slot) }
    {
        self.slots[at] = Some(slot);
    }

    /// Empties the place that keeps the entry, if one does, and no other.
    pub fn forget(&mut self, entry: u32)
        ensures slots { self.new ≡ map (without_slot entry) self.old }
        ensures places { places self.new ≡ map (without_entry entry) (places self.old) }
    {
        empty_those_of(self.slots.as_mut_slice(), entry);
    }

    /// Empties all places.
    pub fn flush(&mut self)
        ensures slots { self.new ≡ no_slots }
        ensures places { places self.new ≡ no_places }
    {
        *self = Atc::new();
    }
}

/// Empties the places that keep the entry.
fn empty_those_of(slots: &mut [Option<Slot>], entry: u32)
    ensures { slots.new ≡ map (without_slot entry) slots.old }
{
    for slot in slots.iter_mut() {
        *slot = without(*slot, entry);
    }
}

/// What the place keeps, unless that is of the entry.
fn without(slot: Option<Slot>, entry: u32) -> Option<Slot>
    ensures { result ≡ without_slot entry slot }
{
    slot.filter(|it| it.entry != entry)
}

/// What a place answers to an access: the entry's translation, if it keeps it and the access is a load or a write filled
/// the place.
fn served(slot: Option<Slot>, entry: u32, kind: Kind) -> Option<Translation>
    ensures { result ≡ (if serves_access entry (is_write kind) (place_of slot) then kept slot else None) }
{
    slot.filter(|it| it.entry == entry && (!is_write(kind) || it.written))
        .map(|it| it.translation)
}

/// The translation, if it has enough right for the access.
fn usable(kind: Kind, translation: Option<Translation>) -> Option<Translation>
    ensures { result ≡ usable kind translation }
{
    translation.filter(|it| !is_write(kind) || it.grant.right == Right::Write)
}

/// Whether the access writes.
fn is_write(kind: Kind) -> bool
    ensures { result ≡ is_write kind }
{
    kind != Kind::Load
}
