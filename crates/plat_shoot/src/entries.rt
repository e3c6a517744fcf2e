//! The entries of the address maps that lead to a page.
ghost use Rattle.std.specs.Prelude.{◌≡◌, ◌<◌, length, slice_index};
ghost use Rattle.plat_base.specs.Pages.{entries_of_page};
ghost use Rattle.plat_base.specs.Seen.{machine};

use plat_base::Config;

/// The number of entries that lead to a page.
pub fn count_of_page(cfg: &Config, page: u32) -> usize
    ensures { result ≡ length (entries_of_page (machine cfg.now) page) }
{
    cfg.entries_of_page(page).len()
}

/// The entry that stands at place `at` among those that lead to a page.
pub fn entry_of_page(cfg: &Config, page: u32, at: usize) -> u32
    requires { at < length (entries_of_page (machine cfg.now) page) }
    ensures entry { result ≡ slice_index (entries_of_page (machine cfg.now) page) at }
    ensures within { result < length cfg.now.entries.items }
{
    cfg.entries_of_page(page)[at]
}
