//! The limits of machines, texts and runs. Contracts and definitions cite them by name.

/// The most nodes of a machine, and so the most memory modules and processors.
pub const MODULES: u32 = 8;
/// The most actors of a run: a processor on each node, and the defrost daemon, whose number is that of the nodes.
pub const ACTORS: u32 = MODULES + 1;
/// The most frames of a module.
pub const FRAMES: u32 = 64;
/// The most coherent pages.
pub const PAGES: u32 = 64;
/// The most words of a page; its size is a power of two from 4 on.
pub const PAGE_WORDS: u32 = 64;
/// The most words of memory.
pub const WORDS: u32 = PAGES * PAGE_WORDS;
/// The number of address spaces; they are numbered from 0.
pub const SPACES: u32 = 8;
/// The number of virtual pages in a space; they are numbered from 0.
pub const VIRTUAL_PAGES: u32 = 64;
/// The most entries of the address maps: one for each virtual page of each space.
pub const ENTRIES: u32 = SPACES * VIRTUAL_PAGES;
/// The number of registers of a processor.
pub const REGISTERS: u32 = 16;
/// The most turns that a processor may be given.
pub const BUDGET: u32 = 65_536;
/// The most instructions of a guest.
pub const INSTRUCTIONS: u32 = 4_096;
/// The most labels of a guest.
pub const LABELS: u32 = 256;
/// The most numbers of a schedule's list.
pub const LISTED: u32 = 4_096;
/// The most turns of a run: the budget of each processor.
pub const MOST_TURNS: u32 = 524_288;
/// The most items that a history can have: four for each turn of eight processors, and one for each page at each pass of
/// the daemon.
pub const MOST_ITEMS: usize = 2_621_440;
