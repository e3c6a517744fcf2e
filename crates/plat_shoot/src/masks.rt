//! The masks of entries: what they say of a processor, and what a post makes of them.
ghost use Rattle.std.specs.Prelude.{◌≡◌, ℕ, ◌<◌, ◌≤◌, ◌^◌, ◌&&◌, not};
ghost use Rattle.plat_events.specs.Words.{has_bit, has_reference, has_references, has_message, posted_mask};
ghost use Rattle.plat_shoot.specs.Parts.{parts_word};
ghost use Rattle.plat_base.specs.declared.limits.TheConstants.{MODULES};

use plat_base::Removed;
use plat_base::limits::MODULES;
use plat_words::{CmapWord, bit, bits};

/// Whether some processor has a reference.
pub fn has_references(mask: u64) -> bool
    ensures { result ≡ has_references mask }
{
    bits(mask, 0, MODULES) != 0
}

/// Whether processor `q` has a reference.
pub fn has_reference(mask: u64, q: u32) -> bool
    requires { q ≤ MODULES }
    ensures { result ≡ has_reference mask q }
{
    bit(mask, q)
}

/// Whether a message waits for processor `q`.
pub fn has_message(mask: u64, q: u32) -> bool
    requires { q ≤ MODULES }
    ensures { result ≡ has_message mask q }
{
    bit(mask, MODULES + q) || bit(mask, 2 * MODULES + q)
}

/// The bits of `set` that are not in `gone`.
fn without(set: u32, gone: u32) -> u32
    ensures bits { (i : ℕ) → i < 32 → has_bit result i ≡ (has_bit set i && not (has_bit gone i)) }
    ensures less { result ≤ set }
{
    set & !gone
}

/// The mask after a post of `actor`. To remove all sends an invalidate to each other processor with a reference, and clears
/// the actor's own bits; to remove writes sends a restrict to each other one for which no invalidate waits.
pub fn posted_mask(removed: Removed, actor: u32, mask: u64) -> u64
    requires actor { actor ≤ MODULES }
    requires mask { mask < 2 ^ 24 }
    ensures { result ≡ posted_mask removed actor mask }
{
    let Some(found) = CmapWord::decode(mask) else {
        unreachable!()
    };
    match removed {
        Removed::Nothing => mask,
        Removed::Writes => writes_posted(found, actor).encode(),
        Removed::All => all_posted(found, actor).encode(),
    }
}

/// A restrict for each other reference without an invalidate.
fn writes_posted(mask: CmapWord, actor: u32) -> CmapWord
    requires { actor ≤ MODULES }
    ensures { parts_word result.reference result.invalidate result.restrict
        ≡ posted_mask Removed.Writes actor (parts_word mask.reference mask.invalidate mask.restrict) }
{
    let others = without(mask.reference, 1 << actor);
    CmapWord {
        reference: mask.reference,
        invalidate: mask.invalidate,
        restrict: mask.restrict | without(others, mask.invalidate),
    }
}

/// An invalidate for each other reference, and no bit of the actor's own.
fn all_posted(mask: CmapWord, actor: u32) -> CmapWord
    requires { actor ≤ MODULES }
    ensures { parts_word result.reference result.invalidate result.restrict
        ≡ posted_mask Removed.All actor (parts_word mask.reference mask.invalidate mask.restrict) }
{
    let own = 1 << actor;
    CmapWord {
        reference: without(mask.reference, own),
        invalidate: without(mask.invalidate | mask.reference, own),
        restrict: without(mask.restrict, own),
    }
}
