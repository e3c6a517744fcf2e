//! A port to words that it holds itself.
ghost use Rattle.std.specs.Prelude.{◌≡◌, ◌+◌, ◌-◌, ◌^◌, ◌<◌, ◌≤◌, ◌++◌, length, replicate, IfOk, vec_len, vec_capacity};
ghost use Rattle.plat_base.specs.Pages.{program_of};
ghost use Rattle.plat_base.specs.Seen.{machine};
ghost use Rattle.plat_events.specs.Places.{first_words, word_count};
ghost use Rattle.plat_events.specs.Operations.{written};
ghost use Rattle.plat_ports.specs.Starts.{first_actives};

use crate::ports::WordPort;
use plat_base::{Config, Op, OutOfMemory};
use plat_guest::Guest;
use std::alloc::Global;
use std::marker::Model;

/// All shared words of a machine, in the order of their places. It tells its words, and serves any actor.
#[derive(Debug, Drop)]
pub struct VecPort {
    words: Vec<u64>,
}

impl Model for VecPort {
    ghost use Rattle.std.specs.Prelude.{List, ℕ};

    ghost Value = { List ℕ };

    ghost view = { λ it. it.words.items };
}

impl VecPort {
    /// The words at the start.
    pub fn new(alloc: Global, cfg: &Config) -> Result<VecPort, OutOfMemory>
        ensures words { IfOk result (λ port. port ≡ first_words (machine cfg.now)) }
        ensures count { IfOk result (λ port. length port ≡ word_count (machine cfg.now)) }
    {
        let nodes = cfg.nodes as usize;
        let data = nodes * cfg.frames as usize * cfg.words as usize;
        let Ok(mut words) = Vec::with_capacity(alloc, count(cfg)) else {
            return Err(OutOfMemory);
        };
        words.push_reserved(0);
        words.push_reserved(u64::from(cfg.nodes));
        add_spaces(&mut words, cfg);
        add_copies(&mut words, nodes, 0);
        add_copies(&mut words, cfg.pages as usize, 0);
        add_copies(&mut words, cfg.pages as usize, 0);
        add_copies(&mut words, cfg.entries.len(), 0);
        add_copies(&mut words, nodes, all_free(cfg));
        add_copies(&mut words, data, 0);
        Ok(VecPort { words })
    }

    /// The words.
    pub fn words(&self) -> &[u64]
        ensures { result.now ≡ self.now }
    {
        self.words.as_slice()
    }
}

impl WordPort for VecPort {
    ghost use Rattle.std.specs.Prelude.{Some, None};

    ghost words = { λ port. Some port };

    ghost serves = { λ _. None };

    fn apply(&mut self, at: usize, op: Op) -> u64 {
        let found = self.words[at];
        self.words[at] = written(op, found);
        match op {
            Op::Store(_) => 0,
            _ => found,
        }
    }
}

/// The number of words of a machine.
#[tactic(auto, using(plat_base::proofs::EntryLimits::entries_most_of, crate::proofs::WordLemmas::data_most))]
fn count(cfg: &Config) -> usize
    ensures { result ≡ word_count (machine cfg.now) }
{
    let nodes = cfg.nodes as usize;
    let data = nodes * cfg.frames as usize * cfg.words as usize;
    2 + 3 * nodes + 2 * cfg.pages as usize + cfg.entries.len() + data
}

/// The word of a module whose frames are all free.
fn all_free(cfg: &Config) -> u64
    ensures { result ≡ 2 ^ cfg.now.frames - 1 }
{
    if cfg.frames == 64 {
        u64::MAX
    } else {
        (1 << cfg.frames) - 1
    }
}

/// The word of the space that the guest of processor `q` starts in.
fn first_active(cfg: &Config, q: u32) -> u64
    requires { q < cfg.now.nodes }
    ensures { result ≡ (program_of (machine cfg.now) q).space + 1 }
{
    u64::from(Guest::new(cfg, q).space()) + 1
}

/// Adds for each processor the space that its guest starts in, plus 1.
fn add_spaces(words: &mut Vec<u64>, cfg: &Config)
    requires { vec_len words.old + cfg.now.nodes ≤ vec_capacity words.old }
    ensures items { words.new.items ≡ words.old.items ++ first_actives (machine cfg.now) cfg.now.nodes }
    ensures long { vec_len words.new ≡ vec_len words.old + cfg.now.nodes }
    ensures room { vec_capacity words.new ≡ vec_capacity words.old }
{
    for q in 0..cfg.nodes {
        words.push_reserved(first_active(cfg, q));
    }
}

/// Adds one word so many times.
#[tactic(auto, using(std::proofs::lemmas::List::replicate_more))]
fn add_copies(words: &mut Vec<u64>, times: usize, word: u64)
    requires { vec_len words.old + times ≤ vec_capacity words.old }
    ensures items { words.new.items ≡ words.old.items ++ replicate times word }
    ensures long { vec_len words.new ≡ vec_len words.old + times }
    ensures room { vec_capacity words.new ≡ vec_capacity words.old }
{
    for _ in 0..times {
        words.push_reserved(word);
    }
}

/// The word after an operation.
fn written(op: Op, found: u64) -> u64
    ensures { result ≡ written op found }
{
    match op {
        Op::Load => found,
        Op::Store(value) | Op::Swap(value) => value,
        Op::Add(k) => found.wrapping_add(k),
        Op::Sub(k) => found.wrapping_sub(k),
        Op::And(k) => found & k,
        Op::Or(k) => found | k,
        Op::Exchange { old, new } => { if found == old { new } else { found } }
    }
}
