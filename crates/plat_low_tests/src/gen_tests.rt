//! Generated machines, by hand.
use plat_base::{Config, Instr};
use plat_gen::generate;
use std::test::Fail;

/// Whether guest `q` begins with register 0 at `n`.
fn begins(cfg: &Config, q: usize, n: u32) -> bool {
    match cfg.guests.as_slice().get(q) {
        Some(guest) => guest.code.as_slice().first() == Some(&Instr::Set { d: 0, n }),
        None => false,
    }
}

/// Whether a machine has eight nodes with forty frames of sixteen words, and an entry for each of its 33 pages.
fn has_sizes(cfg: &Config) -> bool {
    let frames = (cfg.nodes, cfg.frames, cfg.words) == (8, 40, 16);
    frames && cfg.pages == 33 && cfg.entries.len() == 33 && cfg.budget == 41_000
}

#[test]
fn guests_start_from_numbers_7919_apart(rt: HostRuntime) -> Result<(), Fail> {
    let cfg = generate(rt.alloc(), 7)?;
    assert!(rt; has_sizes(&cfg) && begins(&cfg, 0, 7) && begins(&cfg, 7, 55_440));
    Ok(())
}

#[test]
fn numbers_wrap_at_32_bits(rt: HostRuntime) -> Result<(), Fail> {
    let cfg = generate(rt.alloc(), 4_294_967_295)?;
    assert!(rt; begins(&cfg, 0, 4_294_967_295) && begins(&cfg, 1, 7918));
    Ok(())
}
