//! Whether a translation that is held, or none, allows an access.
ghost use Rattle.std.specs.Prelude.{◌≡◌};
ghost use Rattle.plat_base.specs.Held.{has_right as has_right_of};

use plat_base::{Kind, Translation};

/// Whether a translation is there with enough right for an access.
pub fn has_right(kind: Kind, translation: Option<Translation>) -> bool
    ensures { result ≡ has_right_of kind translation }
{
    translation.is_some_and(|held| held.grant.right.serves(kind))
}
