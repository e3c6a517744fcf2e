//! The bits of a mask that a processor looks at, and those that it clears.
ghost use Rattle.std.specs.Prelude.{◌≡◌, ◌<◌};
ghost use Rattle.plat_base.specs.Rules.{may_apply};
ghost use Rattle.plat_base.specs.declared.limits.TheConstants.{MODULES};
ghost use Rattle.plat_events.specs.Words.{all_but, bits_applied, has_invalidate, has_restrict};

use plat_base::{MODULES, Message, Translation};
use plat_words::{CmapWord, bit};

/// Whether an invalidate waits for processor `q`.
pub fn has_invalidate(mask: u64, q: u32) -> bool
    requires { q < MODULES }
    ensures { result ≡ has_invalidate mask q }
{
    bit(mask, MODULES + q)
}

/// Whether a restrict waits for processor `q`.
pub fn has_restrict(mask: u64, q: u32) -> bool
    requires { q < MODULES }
    ensures { result ≡ has_restrict mask q }
{
    bit(mask, 2 * MODULES + q)
}

/// The bits that stay when processor `q` applies a message: an invalidate clears all of its own, a restrict that of the
/// restrict alone.
pub fn bits_kept(message: Message, q: u32) -> u64
    requires { q < MODULES }
    ensures { result ≡ all_but (bits_applied message q) }
{
    let own = 1 << q;
    let cleared = match message {
        Message::Invalidate => CmapWord {
            reference: own,
            invalidate: own,
            restrict: own,
        },
        Message::Restrict => CmapWord {
            reference: 0,
            invalidate: 0,
            restrict: own,
        },
    };
    u64::MAX - cleared.encode()
}

/// Whether a message finds a translation that it can be applied to.
pub fn may_apply(message: Message, held: Option<Translation>) -> bool
    ensures { result ≡ may_apply message held }
{
    match message {
        Message::Invalidate => held.is_some(),
        Message::Restrict => held.is_some_and(|translation| !translation.restricted),
    }
}
