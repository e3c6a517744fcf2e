//! The live actors of a word of bits, in rising number.
ghost use Rattle.std.specs.Prelude.{◌≡◌, ◌<◌, nat_lt, find, length, slice_get};
ghost use Rattle.plat_sched.specs.Actors.{is_actor, actors_of};

/// Whether an actor is live.
pub(crate) fn is_live(live: u32, actor: u32) -> bool
    ensures { result ≡ is_actor live actor }
{
    actor < u32::BITS && (live >> actor) & 1 == 1
}

/// The number of live actors.
pub(crate) fn count(live: u32) -> u32
    ensures { result ≡ length (actors_of live) }
{
    live.count_ones()
}

/// The live actor at a place among them.
pub(crate) fn nth(live: u32, place: usize) -> Option<u32>
    ensures { result ≡ slice_get (actors_of live) place }
{
    (0..u32::BITS)
        .filter(|actor| is_live(live, *actor))
        .nth(place)
}

/// The lowest live actor above another.
pub(crate) fn next_above(live: u32, actor: u32) -> Option<u32>
    requires { actor < 32 }
    ensures { result ≡ find (λ a. nat_lt actor a) (actors_of live) }
{
    let above = live >> actor >> 1;
    if above == 0 {
        None
    } else {
        Some(actor + 1 + above.trailing_zeros())
    }
}
