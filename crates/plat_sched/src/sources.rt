//! What the choices of a schedule come from: robin, the words of a random generator, or a list.
ghost use Rattle.std.specs.Prelude.{◌≡◌, ◌≢◌, ◌+◌, ◌*◌, ◌%◌, ◌^◌, ◌<◌, ◌≤◌, length, drop, slice_get, IfOk, IfNone};
ghost use Rattle.std.specs.Option.{ForSome, option_map};
ghost use Rattle.plat_base.specs.Machine.{turns_of};
ghost use Rattle.plat_base.specs.Schedule.{robin_choice, listed_choice, random_word, multiplier, two_64};
ghost use Rattle.plat_sched.specs.Actors.{actors_of};
ghost use Rattle.plat_sched.specs.ScheduleSeen.{new_schedule, choice};
ghost use Rattle.plat_sched.specs.Sources.{schedule_seen, with_place, IsSource};

use crate::actors;
use plat_base::{List, OutOfMemory, Plan};
use rand_pcg::Lcg64Xsh32;
use rand_pcg::rand_core::utils::NextWord;
use std::alloc::Global;

/// What the choices come from. A list knows how many of its numbers were used.
#[derive(Debug, Drop)]
pub(crate) enum Source {
    Robin,
    Random { a: u32, b: u32, words: Lcg64Xsh32 },
    Listed { actors: List<u32>, used: usize },
}

impl Source {
    /// The source of a plan's choices. It keeps a list of its own.
    pub(crate) fn new(alloc: Global, plan: &Plan) -> Result<Source, OutOfMemory>
        ensures seen { IfOk result (λ source. schedule_seen source None ≡ new_schedule (turns_of plan.now)) }
        ensures source { IfOk result IsSource }
    {
        match plan {
            Plan::Robin => Ok(Source::Robin),
            Plan::Random { a, b } => Ok(Source::Random {
                a: *a,
                b: *b,
                words: Lcg64Xsh32::new(u64::from(*a), u64::from(*b)),
            }),
            Plan::Listed(actors) => Ok(Source::Listed {
                actors: copied(alloc, actors.as_slice())?,
                used: 0,
            }),
        }
    }

    /// The next actor, where `last` was chosen last and somebody is live.
    pub(crate) fn next(&mut self, last: Option<u32>, live: u32) -> Option<u32>
        requires live { live ≢ 0 }
        requires source { IsSource self.old }
        requires last { ForSome last (λ a. a < 32) }
        ensures chosen { choice (schedule_seen self.old last) live ≡ with_place self.new result }
        ensures turns { (schedule_seen self.new result).turns ≡ (schedule_seen self.old last).turns }
        ensures source { IsSource self.new }
    {
        match self {
            Source::Robin => robin(last, live),
            Source::Random { words, .. } => random(words, live),
            Source::Listed { actors, used } => match listed(actors.as_slice(), used, live) {
                Some(actor) => Some(actor),
                None => robin(last, live),
            },
        }
    }
}

fn copied(alloc: Global, items: &[u32]) -> Result<List<u32>, OutOfMemory>
    ensures { IfOk result (λ list. list.items ≡ items.now) }
{
    let mut list = List::with_room(alloc, items.len())?;
    for item in items {
        list.push(*item);
    }
    Ok(list)
}

// The lowest live actor above the last one chosen, else the lowest.
fn robin(last: Option<u32>, live: u32) -> Option<u32>
    requires { ForSome last (λ a. a < 32) }
    ensures { result ≡ robin_choice last (actors_of live) }
{
    match last {
        Some(last) => actors::next_above(live, last).or_else(|| actors::nth(live, 0)),
        None => actors::nth(live, 0),
    }
}

// The next word, as a place among the live actors.
fn random(words: &mut Lcg64Xsh32, live: u32) -> Option<u32>
    requires live { live ≢ 0 }
    requires state { words.old.state < 2 ^ 64 }
    ensures chosen { result ≡ slice_get (actors_of live)
        (random_word words.old.state % length (actors_of live)) }
    ensures state { words.new.state ≡ (words.old.state * multiplier + words.old.increment) % two_64 }
    ensures stream { words.new.increment ≡ words.old.increment }
{
    let word = words.next_word();
    actors::nth(live, (word % actors::count(live)) as usize)
}

// The next number of a list that is a live actor; used counts the numbers up to it.
fn listed(actors: &[u32], used: &mut usize, live: u32) -> Option<u32>
    requires { used.old ≤ length actors.now }
    ensures chosen { listed_choice (actors_of live) (drop used.old actors.now)
        ≡ option_map (λ a. (a, drop used.new actors.now)) result }
    ensures used { used.new ≤ length actors.now }
    ensures all { IfNone result (used.new ≡ length actors.now) }
{
    while *used < actors.len() {
        let actor = actors[*used];
        *used += 1;
        if actors::is_live(live, actor) {
            return Some(actor);
        }
    }
    None
}
