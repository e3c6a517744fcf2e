//! The flat memory of a history, one item after another.
ghost use Rattle.std.specs.Prelude.{◌≡◌, ℕ, ◌<◌, true, false, List as Many, [], ◌∷◌, ◌++◌, IfOk};
ghost use Rattle.plat_base.specs.Machine.{Machine};
ghost use Rattle.plat_base.specs.Seen.{machine};
ghost use Rattle.plat_base.specs.declared.items.Item.{Item as AnyItem};
ghost use Rattle.std.specs.Prelude.{slice_index};
ghost use Rattle.plat_base.specs.Rules.{is_legal};
ghost use Rattle.plat_base.specs.Accesses.{writes_made as writes_of};
ghost use Rattle.plat_base.specs.declared.items.Item.TheVariants as item;
ghost use Rattle.plat_flat.specs.FlatSeen.{IsFlatOf, is_legal_item, place};

use plat_base::{Access, Config, Item, Kind, OutOfMemory};
use std::alloc::Global;
use std::marker::Model;

/// The flat memory of a history: of each word its value and the number of writes to it. Contracts see the words of all
/// pages one page after another.
#[derive(Debug, Drop)]
pub struct Flat {
    pages: u32,
    words: u32,
    values: Vec<u32>,
    versions: Vec<u32>,
}

impl Model for Flat {
    ghost use Rattle.std.specs.Prelude.{◌≡◌, ◌*◌, ◌≤◌, length};
    ghost use Rattle.plat_flat.specs.FlatSeen.{FlatSeen, FitsPages};

    ghost Value = { FlatSeen };

    ghost view = { λ it. record {
      pages = it.pages;
      words = it.words;
      values = it.values.items;
      versions = it.versions.items;
    } };

    ghost invariant = { λ it. FitsPages it.pages it.words it.values.items it.versions.items };
}

/// How much an access adds to the version of its word.
fn writes_made(kind: Kind) -> u32
    ensures { result ≡ writes_of kind }
{
    match kind {
        Kind::Load => 0,
        Kind::Store | Kind::Add => 1,
    }
}

impl Flat {
    /// The flat memory of no items: the starting values of the machine text, and 0 elsewhere. It fails only for want of
    /// memory, and is the one call here that takes any.
    pub fn new(alloc: Global, cfg: &Config) -> Result<Flat, OutOfMemory>
        ensures { IfOk result (λ flat. IsFlatOf (machine cfg.now) [] flat) }
    {
        let cells = (cfg.pages * cfg.words) as usize;
        let (Ok(mut values), Ok(versions)) = (vec![in alloc; 0; cells], vec![in alloc; 0; cells])
        else {
            return Err(OutOfMemory);
        };
        for init in cfg.inits.as_slice().iter().rev() {
            values[(init.page * cfg.words + init.word) as usize] = init.value;
        }
        Ok(Flat {
            pages: cfg.pages,
            words: cfg.words,
            values,
            versions,
        })
    }

    /// The value of a word.
    pub fn value(&self, page: u32, word: u32) -> u32
        requires page { page < self.now.pages }
        requires word { word < self.now.words }
        ensures { result ≡ slice_index self.now.values (place self.now.words page word) }
    {
        self.values[(page * self.words + word) as usize]
    }

    /// How often a word was written.
    pub fn version(&self, page: u32, word: u32) -> u32
        requires page { page < self.now.pages }
        requires word { word < self.now.words }
        ensures { result ≡ slice_index self.now.versions (place self.now.words page word) }
    {
        self.versions[(page * self.words + word) as usize]
    }

    /// Takes an item in. It answers false exactly where the item is an access that is not the next one of flat memory,
    /// and then changes nothing.
    pub fn apply(&mut self, item: &Item) -> bool
        ensures answer { (m : Machine) (items : Many AnyItem) → IsFlatOf m items self.old →
            result ≡ is_legal_item m items item.now }
        ensures applied { (m : Machine) (items : Many AnyItem) → IsFlatOf m items self.old → result ≡ true →
            IsFlatOf m (items ++ item.now ∷ []) self.new }
        ensures refused { result ≡ false → self.new ≡ self.old }
        ensures pages { self.new.pages ≡ self.old.pages }
        ensures words { self.new.words ≡ self.old.words }
    {
        match item {
            Item::Access(access) => self.apply_access(access),
            Item::Change(_) | Item::Applied(_) | Item::Switch(_) => true,
        }
    }

    /// Takes an access in, if it is the next one of flat memory.
    fn apply_access(&mut self, access: &Access) -> bool
        ensures answer { (m : Machine) (items : Many AnyItem) → IsFlatOf m items self.old →
            result ≡ is_legal m items access.now }
        ensures applied { (m : Machine) (items : Many AnyItem) → IsFlatOf m items self.old → result ≡ true →
            IsFlatOf m (items ++ item.Access access.now ∷ []) self.new }
        ensures refused { result ≡ false → self.new ≡ self.old }
        ensures pages { self.new.pages ≡ self.old.pages }
        ensures words { self.new.words ≡ self.old.words }
    {
        if access.page >= self.pages || access.word >= self.words {
            return false;
        }
        let at = (access.page * self.words + access.word) as usize;
        let version = u64::from(self.versions[at]) + u64::from(writes_made(access.kind));
        if access.old != self.values[at] || u64::from(access.version) != version {
            return false;
        }
        if access.kind != Kind::Load {
            self.values[at] = access.new;
            self.versions[at] = access.version;
        }
        true
    }
}
