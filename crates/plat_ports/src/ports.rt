//! What a port to shared words is.
ghost use Rattle.std.specs.Prelude.{◌≡◌, ℕ, ◌<◌, length, slice_index, IfSome};
ghost use Rattle.plat_events.specs.Operations.{told};
ghost use Rattle.plat_ports.specs.Ports.{IsItsOperation, told_after, words_after};

use plat_base::Op;

/// A port to shared words. Contracts see its words, where it tells them, and the actor that it serves with that actor's
/// private state, where it tells these. Which of them it tells never changes, nor does the number of its words.
pub trait WordPort {
    ghost use Rattle.std.specs.Prelude.{ℕ, List, Option};
    ghost use Rattle.plat_ports.specs.Ports.{Told};

    /// The words.
    ghost words: { Self → Option (List ℕ) };

    /// The actor that the port serves, and where it stands.
    ghost serves: { Self → Option Told };

    /// What else one operation keeps or does, as which words the port belongs to.
    ghost stays: { Self → Self → Type 0 } = { λ _ _. Unit {0} };

    /// Makes one operation on the word at a place, and gives the word that it found, or 0 for a store. An exchange took
    /// effect exactly where the answer is its old word. Of an actor that the port serves it makes the next operation.
    fn apply(&mut self, at: usize, op: Op) -> u64
        requires within { IfSome (words self.old) (λ ws. at < length ws) }
        requires its_own { IfSome (serves self.old) (λ t. IsItsOperation t at op) }
        ensures words { words self.new ≡ words_after at op (words self.old) }
        ensures found { IfSome (words self.old) (λ ws. result ≡ told op (slice_index ws at)) }
        ensures says { (n : ℕ) × (result ≡ told op n) }
        ensures serves { serves self.new ≡ told_after result (serves self.old) }
        ensures stays { stays self.old self.new };
}
