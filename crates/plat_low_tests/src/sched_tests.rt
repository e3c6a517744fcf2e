//! Choices that were worked out by hand, and the words of the generator's reference.
use plat_base::{List, OutOfMemory, Plan};
use plat_sched::Schedule;
use rand_pcg::Lcg64Xsh32;
use rand_pcg::rand_core::utils::NextWord;
use std::alloc::Global;
use std::test::Fail;

// Whether a plan chooses so among these live actors, one after another.
fn chooses(
    alloc: Global,
    plan: &Plan,
    lives: &[u32],
    chosen: &[Option<u32>],
) -> Result<bool, OutOfMemory> {
    let mut schedule = Schedule::new(alloc, plan)?;
    let mut so_far = lives.len() == chosen.len();
    for (live, wanted) in lives.iter().zip(chosen) {
        so_far = schedule.next(*live) == *wanted && so_far;
    }
    Ok(so_far)
}

#[test]
fn draws_the_reference_words(rt: HostRuntime) {
    let mut words = Lcg64Xsh32::new(42, 54);
    for word in [
        0xa15c_02b7,
        0x7b47_f409,
        0xba1d_3330,
        0x83d2_f293,
        0xbfa4_784b,
    ] {
        assert_eq!(rt; words.next_word(), word);
    }
}

#[test]
fn draws_a_word_for_each_choice(rt: HostRuntime) -> Result<(), Fail> {
    let plan = Plan::Random { a: 42, b: 54 };
    let first = [Some(1), Some(1), Some(0), Some(1), Some(1)];
    assert!(rt; chooses(rt.alloc(), &plan, &[0b11; 5], &first)?);
    let lives = [0b11, 0b01, 0, 0b11, 0b11];
    let others = [Some(1), Some(0), None, Some(0), Some(1)];
    assert!(rt; chooses(rt.alloc(), &plan, &lives, &others)?);
    Ok(())
}

#[test]
fn goes_round(rt: HostRuntime) -> Result<(), Fail> {
    let lives = [0b1011, 0b1011, 0b1011, 0b1011, 0b0010, 0b1001, 0, 0b1001];
    let chosen = [
        Some(0),
        Some(1),
        Some(3),
        Some(0),
        Some(1),
        Some(3),
        None,
        Some(0),
    ];
    assert!(rt; chooses(rt.alloc(), &Plan::Robin, &lives, &chosen)?);
    Ok(())
}

#[test]
fn passes_over_the_dead(rt: HostRuntime) -> Result<(), Fail> {
    let alloc = rt.alloc();
    let mut actors = List::with_room(alloc, 5)?;
    actors.push(2);
    actors.push(1);
    actors.push(40);
    actors.push(0);
    actors.push(2);
    let plan = Plan::Listed(actors);
    let chosen = [Some(1), Some(0), Some(1), Some(3), Some(0)];
    assert!(rt; chooses(alloc, &plan, &[0b1011; 5], &chosen)?);
    Ok(())
}
