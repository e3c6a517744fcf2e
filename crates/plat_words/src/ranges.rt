//! Which numbers a shared word of the machine may be.
ghost use Rattle.std.specs.Prelude.{◌≡◌, ◌*◌, nat_lt, ◌^◌};
ghost use Rattle.plat_base.specs.Seen.{machine};
ghost use Rattle.plat_events.specs.Places.{is_word, is_dir_word, is_mask_word, is_stamp_word, is_data_word};

use crate::dir_words::DirWord;
use crate::parts::bits;
use plat_base::limits::{MODULES, MOST_ITEMS, SPACES};
use plat_base::{Config, Dir, WordName};
use plat_policy::is_dir;

/// Whether this word of the machine may be this number: it is one that a word of its kind is written as, and what it keeps
/// is within the machine. No actor goes by another number.
pub fn is_word(cfg: &Config, name: WordName, word: u64) -> bool
    ensures { result ≡ is_word (machine cfg.now) name word }
{
    match name {
        WordName::Time => word <= most_turns(cfg),
        WordName::Live => word <= u64::from(cfg.nodes),
        WordName::Act(_) => word <= u64::from(SPACES),
        WordName::Intr(_) => word < 1 << SPACES,
        WordName::Dir(_) => is_dir_word(cfg, word),
        WordName::Stamp(_) => is_stamp_word(cfg, word),
        WordName::Cmap(_) => is_mask_word(cfg, word),
        WordName::Pool(_) => is_pool_word(cfg, word),
        WordName::Memory { .. } => is_data_word(cfg, word),
    }
}

/// The most turns that all processors make together.
fn most_turns(cfg: &Config) -> u64
    ensures { result ≡ cfg.now.nodes * cfg.now.budget }
{
    u64::from(cfg.nodes) * u64::from(cfg.budget)
}

/// Whether the number is that of a directory that the machine can have.
fn is_dir_word(cfg: &Config, word: u64) -> bool
    ensures { result ≡ is_dir_word (machine cfg.now) word }
{
    match DirWord::decode(word) {
        None => false,
        Some(found) => {
            let dir = Dir {
                state: found.state,
                frozen: found.frozen,
                copies: found.copies,
            };
            is_dir(cfg, &dir)
        }
    }
}

/// Whether the number is a mask that names processors of the machine alone.
fn is_mask_word(cfg: &Config, word: u64) -> bool
    ensures { result ≡ is_mask_word (machine cfg.now) word }
{
    let processors = 1 << cfg.nodes;
    word < 1 << (3 * MODULES)
        && bits(word, 0, MODULES) < processors
        && bits(word, MODULES, MODULES) < processors
        && bits(word, 2 * MODULES, MODULES) < processors
}

/// Whether the number is a stamp whose tick and number of changes a run of the machine can come to.
fn is_stamp_word(cfg: &Config, word: u64) -> bool
    ensures { result ≡ is_stamp_word (machine cfg.now) word }
{
    bits(word, 0, 32) <= most_turns(cfg) + 1 && bits(word, 32, 32) <= MOST_ITEMS as u64
}

/// Whether the number names frames of a module alone.
fn is_pool_word(cfg: &Config, word: u64) -> bool
    ensures { result ≡ nat_lt word (2 ^ cfg.now.frames) }
{
    cfg.frames >= u64::BITS || word < 1 << cfg.frames
}

/// Whether the number is a word of a frame with a version that a run of the machine can come to.
fn is_data_word(cfg: &Config, word: u64) -> bool
    ensures { result ≡ is_data_word (machine cfg.now) word }
{
    bits(word, 32, 32) <= most_turns(cfg)
}
