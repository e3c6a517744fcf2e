//! The entries of the address maps that belong to a space.
ghost use Rattle.std.specs.Prelude.{◌≡◌, ◌<◌, ◌≤◌, length, slice_index};
ghost use Rattle.plat_base.specs.Pages.{entries_of_space};
ghost use Rattle.plat_base.specs.Seen.{machine};
ghost use Rattle.plat_base.specs.declared.limits.TheConstants.{ENTRIES};

use plat_base::Config;

/// The number of entries that belong to a space.
#[tactic(auto, using(plat_base::proofs::EntryLists::space_entries_few))]
pub fn count_of_space(cfg: &Config, space: u32) -> u32
    ensures count { result ≡ length (entries_of_space (machine cfg.now) space) }
    ensures most { result ≤ ENTRIES }
{
    cfg.entries_of_space(space).len() as u32
}

/// The entry that stands at a place among those that belong to a space.
pub fn entry_of_space(cfg: &Config, space: u32, at: u32) -> u32
    requires { at < length (entries_of_space (machine cfg.now) space) }
    ensures entry { result ≡ slice_index (entries_of_space (machine cfg.now) space) at }
    ensures within { result < length cfg.now.entries.items }
{
    cfg.entries_of_space(space)[at as usize]
}
