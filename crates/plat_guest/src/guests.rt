//! A guest: what it wants of its next turn, and how an instruction changes it.
ghost use Rattle.std.specs.Prelude.{◌≡◌, ◌≢◌, ◌+◌, ◌%◌, ◌<◌, IsTrue, length, if◌then◌else◌};
ghost use Rattle.plat_base.specs.Machine.{program_seen, is_register, is_index, is_instr};
ghost use Rattle.plat_base.specs.Seen.{machine};
ghost use Rattle.plat_base.specs.GuestRun.{register, address, put, passed, gone, target, executed, access_or_trap};
ghost use Rattle.plat_base.specs.declared.limits.TheConstants.{INSTRUCTIONS};
ghost use Rattle.plat_guest.specs.GuestSeen.{new_guest, wanted_by, stepped, in_state};

use crate::programs;
use plat_base::{Config, GuestText, Instr, Kind, REGISTERS, Want};
use std::marker::Model;

/// A guest between two turns. Contracts see the node that it runs on, and its registers, position and active space.
#[derive(Clone, Copy, Debug)]
pub struct Guest {
    node: u32,
    registers: [u32; REGISTERS as usize],
    at: usize,
    space: u32,
}

impl Model for Guest {
    ghost use Rattle.plat_guest.specs.GuestSeen.{GuestSeen};

    ghost Value = { GuestSeen };

    ghost view = { λ it. record {
      node = it.node;
      state = record { registers = it.registers; at = it.at; space = it.space };
    } };

    ghost inverse = { λ g. record {
      node = g.node;
      registers = g.state.registers;
      at = g.state.at;
      space = g.state.space;
    } };
}

impl Guest {
    /// The guest of node `q` before its first turn.
    pub fn new(cfg: &Config, q: u32) -> Guest
        requires { q < cfg.now.nodes }
        ensures { result ≡ new_guest (machine cfg.now) q }
    {
        Guest {
            node: q,
            registers: [0; REGISTERS as usize],
            at: 0,
            space: programs::program(cfg, q).space,
        }
    }

    /// The active space.
    pub fn space(&self) -> u32
        ensures { result ≡ self.now.state.space }
    {
        self.space
    }

    /// What the guest wants of its next turn. Past its last instruction it halts.
    pub fn next(&self, cfg: &Config) -> Want
        requires { self.now.node < cfg.now.nodes }
        ensures { result ≡ wanted_by (machine cfg.now) self.now }
    {
        let program = programs::program(cfg, self.node);
        match programs::instruction(program, self.at) {
            Some(Instr::Load { k, i, .. }) => self.access(cfg, Kind::Load, self.address(k, i), 0),
            Some(Instr::Store { s, k, i }) => {
                self.access(cfg, Kind::Store, self.address(k, i), self.register(s))
            }
            Some(Instr::Fadd { s, k, i, .. }) => {
                self.access(cfg, Kind::Add, self.address(k, i), self.register(s))
            }
            Some(Instr::Switch(space)) => Want::Switch(space),
            Some(Instr::Print(s)) => Want::Print(self.register(s)),
            Some(Instr::Halt) | None => Want::Halted,
            Some(_) => Want::Local,
        }
    }

    /// Executes the next instruction. `value` is what a load or fetch-and-add found, and is not looked at otherwise.
    pub fn after(&mut self, cfg: &Config, value: u32)
        requires node { self.old.node < cfg.now.nodes }
        requires not_halted { wanted_by (machine cfg.now) self.old ≢ Want.Halted }
        requires not_trapped { wanted_by (machine cfg.now) self.old ≢ Want.Trap }
        ensures { self.new ≡ stepped (machine cfg.now) self.old value }
    {
        let program = programs::program(cfg, self.node);
        if let Some(instr) = programs::instruction(program, self.at) {
            self.execute(program, instr, value);
        }
    }

    fn execute(&mut self, program: &GuestText, instr: Instr, value: u32)
        requires within { IsTrue (is_instr (length program.now.labels.items) instr) }
        requires more { self.old.state.at < INSTRUCTIONS }
        ensures { self.new
            ≡ in_state self.old (executed (program_seen program.now) instr self.old.state value) }
    {
        match instr {
            Instr::Set { d, n } => self.put(d, n),
            Instr::Move { d, a } => self.put(d, self.register(a)),
            Instr::Add { d, a, b } => self.put(d, self.register(a).wrapping_add(self.register(b))),
            Instr::Sub { d, a, b } => self.put(d, self.register(a).wrapping_sub(self.register(b))),
            Instr::Mul { d, a, b } => self.put(d, self.register(a).wrapping_mul(self.register(b))),
            Instr::And { d, a, b } => self.put(d, self.register(a) & self.register(b)),
            Instr::Shr { d, a, b } => self.put(d, self.register(a) >> (self.register(b) % 32)),
            Instr::Load { d, .. } | Instr::Fadd { d, .. } => self.put(d, value),
            Instr::Store { .. } | Instr::Print(_) => self.pass(),
            Instr::Switch(space) => {
                self.space = space;
                self.pass();
            }
            Instr::Jump { label } => self.at = programs::position(program, label),
            Instr::Zero { a, label } => self.branch(program, label, self.register(a) == 0),
            Instr::Less { a, b, label } => {
                self.branch(program, label, self.register(a) < self.register(b))
            }
            Instr::Halt => {}
        }
    }

    fn register(&self, r: u32) -> u32
        requires { IsTrue (is_register r) }
        ensures { result ≡ register self.now.state r }
    {
        self.registers[r as usize]
    }

    fn address(&self, k: u32, i: Option<u32>) -> u32
        requires { IsTrue (is_index i) }
        ensures { result ≡ address self.now.state k i }
    {
        match i {
            Some(r) => k.wrapping_add(self.register(r)),
            None => k,
        }
    }

    // An access, or a trap where the address has no entry in the active space.
    fn access(&self, cfg: &Config, kind: Kind, addr: u32, operand: u32) -> Want
        ensures { result ≡ access_or_trap (machine cfg.now) kind self.now.state.space addr operand }
    {
        match cfg.entry_at(self.space, addr / cfg.words) {
            Some(_) => Want::Access {
                kind,
                space: self.space,
                addr,
                operand,
            },
            None => Want::Trap,
        }
    }

    // Register d becomes the value, and the next instruction follows.
    fn put(&mut self, d: u32, value: u32)
        requires register { IsTrue (is_register d) }
        requires more { self.old.state.at < INSTRUCTIONS }
        ensures { self.new ≡ in_state self.old (put self.old.state d value) }
    {
        self.registers[d as usize] = value;
        self.at += 1;
    }

    // The next instruction follows.
    fn pass(&mut self)
        requires { self.old.state.at < INSTRUCTIONS }
        ensures { self.new ≡ in_state self.old (passed self.old.state) }
    {
        self.at += 1;
    }

    // Goes to the label where the test holds; else the next instruction follows.
    fn branch(&mut self, program: &GuestText, label: u32, goes: bool)
        requires label { label < length program.now.labels.items }
        requires more { self.old.state.at < INSTRUCTIONS }
        ensures { let there = gone self.old.state (target (program_seen program.now) label) in
            self.new ≡ in_state self.old (if goes then there else passed self.old.state) }
    {
        if goes {
            self.at = programs::position(program, label);
        } else {
            self.pass();
        }
    }
}
