//! The translations that a processor holds.
ghost use Rattle.std.specs.Prelude.{◌≡◌, ◌<◌, length, slice_set, replicate, IfOk, false};
ghost use Rattle.plat_base.specs.Held.{to_read, lowered, restricted};
ghost use Rattle.plat_pmap.specs.Translations.{translation_of};

use plat_base::{Config, Grant, OutOfMemory, Right, Translation};
use std::alloc::Global;
use std::marker::Model;

/// The physical map of a processor: a place for each entry of the machine, with the entry's translation, if it has one.
/// After `new` no call takes memory.
#[derive(Debug, Drop)]
pub struct Pmap {
    translations: Vec<Option<Translation>>,
}

impl Model for Pmap {
    ghost use Rattle.std.specs.Prelude.{List, Option};
    ghost use Rattle.plat_base.specs.declared.items.Translation.{Translation};

    ghost Value = { List (Option Translation) };

    ghost view = { λ it. it.translations.items };
}

impl Pmap {
    /// No translation of any entry.
    pub fn new(alloc: Global, cfg: &Config) -> Result<Pmap, OutOfMemory>
        ensures { IfOk result (λ pmap. pmap ≡ replicate (length cfg.now.entries.items) None) }
    {
        match vec![in alloc; None; cfg.entries.len()] {
            Ok(translations) => Ok(Pmap { translations }),
            Err(_) => Err(OutOfMemory),
        }
    }

    /// The entry's translation, if it has one.
    pub fn find(&self, entry: u32) -> Option<Translation>
        requires { entry < length self.now }
        ensures { result ≡ translation_of self.now entry }
    {
        self.translations[entry as usize]
    }

    /// Puts the translation that the change `seq` granted in its entry's place.
    pub fn install(&mut self, grant: Grant, seq: u32)
        requires { grant.entry < length self.old }
        ensures { self.new ≡ slice_set self.old grant.entry
            (Some (record { grant = grant; seq = seq; restricted = false })) }
    {
        self.translations[grant.entry as usize] = Some(Translation {
            grant,
            seq,
            restricted: false,
        });
    }

    /// Drops the entry's translation, if it has one.
    pub fn drop_entry(&mut self, entry: u32)
        requires { entry < length self.old }
        ensures { self.new ≡ slice_set self.old entry None }
    {
        self.translations[entry as usize] = None;
    }

    /// Lowers the entry's translation, if it has one, to read; its mark stays.
    pub fn lower(&mut self, entry: u32)
        requires { entry < length self.old }
        ensures { self.new ≡ slice_set self.old entry (lowered (translation_of self.old entry)) }
    {
        if let Some(translation) = self.find(entry) {
            self.translations[entry as usize] = Some(to_read(translation, translation.restricted));
        }
    }

    /// Lowers the entry's translation, if it has one, to read, and marks it restricted.
    pub fn restrict(&mut self, entry: u32)
        requires { entry < length self.old }
        ensures { self.new ≡ slice_set self.old entry (restricted (translation_of self.old entry)) }
    {
        if let Some(translation) = self.find(entry) {
            self.translations[entry as usize] = Some(to_read(translation, true));
        }
    }
}

/// The same translation with the right to read, and with this mark.
fn to_read(translation: Translation, restricted: bool) -> Translation
    ensures { result ≡ record {
      grant = to_read translation.grant;
      seq = translation.seq;
      restricted = restricted;
    } }
{
    Translation {
        grant: Grant {
            right: Right::Read,
            ..translation.grant
        },
        seq: translation.seq,
        restricted,
    }
}
