//! What a turn of a guest does, as its report sees it.

/// A turn that is not made, or is the last; one that prints nothing; or one that prints a value.
#[derive(Clone, Copy, Debug, PartialEq, Eq)]
pub(crate) enum Turn {
    Stops,
    Quiet,
    Prints(u32),
}
