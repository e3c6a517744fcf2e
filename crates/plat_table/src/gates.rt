//! Gates, which a processor passes at the first operation of each turn.

/// What a board calls at the first operation of each turn of a processor, with the processor's number and the turn's, counted
/// from 1. It has no meaning for the run, and cannot refuse; a test can see by it that turns overlap in time.
pub trait Gate {
    /// The processor begins a turn.
    fn pass(&self, actor: u32, turn: u32);
}

/// A gate that is always open.
#[derive(Clone, Copy, Debug, Drop)]
pub struct FreeGate;

impl Gate for FreeGate {
    fn pass(&self, _actor: u32, _turn: u32) {}
}
