//! What a page is locked for.
use plat_base::Cause;

/// What a page is locked for: a fault through one of its entries, or the daemon's look at it, which has no entry and the
/// cause `Thaw`.
#[derive(Clone, Copy, Debug, PartialEq, Eq)]
pub struct Fault {
    pub entry: Option<u32>,
    pub page: u32,
    pub cause: Cause,
}
