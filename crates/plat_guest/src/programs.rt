//! What a step reads of a guest's program.
ghost use Rattle.std.specs.Prelude.{◌≡◌, ◌<◌, length, slice_get, IsTrue, IfSome};
ghost use Rattle.plat_base.specs.Machine.{program_seen, is_program, is_instr};
ghost use Rattle.plat_base.specs.Seen.{machine};
ghost use Rattle.plat_base.specs.Pages.{program_of};
ghost use Rattle.plat_base.specs.GuestRun.{target};
ghost use Rattle.plat_base.specs.declared.limits.TheConstants.{INSTRUCTIONS};

use plat_base::{Config, GuestText, Instr};

/// The program of a node's guest.
pub(crate) fn program(cfg: &Config, node: u32) -> &GuestText
    requires { node < cfg.now.nodes }
    ensures program { program_seen result.now ≡ program_of (machine cfg.now) node }
    ensures within { IsTrue (is_program (program_seen result.now)) }
{
    &cfg.guests.as_slice()[node as usize]
}

/// The instruction at a position, if there is one.
pub(crate) fn instruction(program: &GuestText, at: usize) -> Option<Instr>
    requires { IsTrue (is_program (program_seen program.now)) }
    ensures instr { result ≡ slice_get program.now.code.items at }
    ensures within { IfSome result (λ i. IsTrue (is_instr (length program.now.labels.items) i)) }
    ensures below { IfSome result (λ _. at < INSTRUCTIONS) }
{
    program.code.as_slice().get(at).copied()
}

/// The position that a label names.
pub(crate) fn position(program: &GuestText, label: u32) -> usize
    requires { label < length program.now.labels.items }
    ensures { result ≡ target (program_seen program.now) label }
{
    program.labels.as_slice()[label as usize].at as usize
}
