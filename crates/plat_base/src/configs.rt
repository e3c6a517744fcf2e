//! Machines: all that a machine text says, within its limits.
ghost use Rattle.std.specs.Prelude.{IsTrue};
ghost use Rattle.plat_base.specs.Machine.{machine_of, is_machine};
ghost use Rattle.plat_base.specs.Canon.{is_short};

use crate::entries::Entries;
use crate::guests::GuestText;
use crate::lists::List;
use crate::policies::PolicyKind;

/// The schedule of a simulated run: which live actor makes each turn or event. A run by threads does not use it.
#[derive(Debug, Drop)]
pub enum Plan {
    /// The next actor in rising number, and the lowest after the highest.
    Robin,
    /// The words of a random generator with seed `a` and stream `b`, each modulo the number of live actors.
    Random { a: u32, b: u32 },
    /// 1 to 4,096 actors, each at most the number of nodes. Those that are not live are passed over, and after the last
    /// the schedule goes on as round robin.
    Listed(List<u32>),
}

/// The distance `d`, 1 to 1,000, from node `a` to another node `b`, in that direction alone. It has no unit: distances
/// are compared and nothing else. Where none is given it is 1, and from a node to itself 0.
#[derive(Clone, Copy, Debug, PartialEq, Eq)]
pub struct Distance {
    pub a: u32,
    pub b: u32,
    pub d: u32,
}

/// One entry of the address maps (Cox and Fowler 1989): the virtual page `vpage`, 0 to 63, of the space `space`, 0 to 7,
/// leads to the page `page`. Several entries may lead to one page.
#[derive(Clone, Copy, Debug, PartialEq, Eq)]
pub struct Entry {
    pub space: u32,
    pub vpage: u32,
    pub page: u32,
}

/// The starting value of one word of a page. Words without one start as 0.
#[derive(Clone, Copy, Debug, PartialEq, Eq)]
pub struct Init {
    pub page: u32,
    pub word: u32,
    pub value: u32,
}

/// A machine, as its text gives it, with its lists in the order of the text; that order numbers the entries from 0. The
/// type keeps every limit of `docs/FORMATS.md`, and that the canonical text has at most 1,048,576 bytes.
#[derive(Debug, Drop)]
pub struct Config {
    /// 1 to 8 nodes, each of one processor and one memory module.
    pub nodes: u32,
    /// 1 to 64 frames on each module.
    pub frames: u32,
    /// 4, 8, 16, 32 or 64 words in each page and frame.
    pub words: u32,
    /// 1 to 64 coherent pages.
    pub pages: u32,
    pub policy: PolicyKind,
    /// 1 to 65,536 turns that a processor may make.
    pub budget: u32,
    pub schedule: Plan,
    pub distances: List<Distance>,
    pub entries: Entries,
    pub inits: List<Init>,
    /// One guest for each node.
    pub guests: List<GuestText>,
    pub ghost limits: { IsTrue (is_machine (machine_of nodes frames words pages policy budget schedule distances
        entries inits guests)) },
    pub ghost short: { IsTrue
        (is_short (machine_of nodes frames words pages policy budget schedule distances entries inits guests)) },
}
