//! Single bits and runs of bits of a word.
ghost use Rattle.std.specs.Prelude.{◌≡◌, ◌<◌, IsTrue};
ghost use Rattle.plat_events.specs.Words.{has_bit, bits_from};

/// The bit of a word at a place.
#[tactic(auto, using(std::proofs::lemmas::Nat::Bits::shr_and_one))]
pub fn bit(word: u64, place: u32) -> bool
    requires { place < 64 }
    ensures { result ≡ has_bit word place }
{
    (word >> place) & 1 == 1
}

/// The `width` bits of a word from a place on.
#[tactic(auto, using(crate::proofs::Fields::one_shifted))]
pub fn bits(word: u64, place: u32, width: u32) -> u64
    requires place { place < 64 }
    requires width { width < 64 }
    ensures { result ≡ bits_from word place width }
{
    (word >> place) % (1 << width)
}
