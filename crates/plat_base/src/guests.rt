//! Guest programs: instructions, labels, and what a guest wants of its next turn.
use crate::items::Kind;
use crate::lists::List;
use crate::names::Name;

/// One guest instruction, by the names of `docs/FORMATS.md`. `d`, `s`, `a`, `b` and `i` are register numbers, 0 to 15. An
/// address counts words; it is the number `k`, or the wrapping sum of `k` and register `i`. `label` is the label's place
/// in the guest's list. `Switch` holds its space, 0 to 7, and `Print` its register.
#[derive(Clone, Copy, Debug, PartialEq, Eq)]
pub enum Instr {
    Set {
        d: u32,
        n: u32,
    },
    Move {
        d: u32,
        a: u32,
    },
    Add {
        d: u32,
        a: u32,
        b: u32,
    },
    Sub {
        d: u32,
        a: u32,
        b: u32,
    },
    Mul {
        d: u32,
        a: u32,
        b: u32,
    },
    And {
        d: u32,
        a: u32,
        b: u32,
    },
    Shr {
        d: u32,
        a: u32,
        b: u32,
    },
    Load {
        d: u32,
        k: u32,
        i: Option<u32>,
    },
    Store {
        s: u32,
        k: u32,
        i: Option<u32>,
    },
    Fadd {
        d: u32,
        s: u32,
        k: u32,
        i: Option<u32>,
    },
    Switch(u32),
    Print(u32),
    Jump {
        label: u32,
    },
    Zero {
        a: u32,
        label: u32,
    },
    Less {
        a: u32,
        b: u32,
        label: u32,
    },
    Halt,
}

/// A label: its name, and the position of the instruction that it stands before. A label after the last instruction has
/// their number as its position.
#[derive(Debug, Drop)]
pub struct Label {
    pub name: Name,
    pub at: u32,
}

/// A guest: the space that it starts in (0 to 7), at most 4,096 instructions, and at most 256 labels in the order of their
/// positions.
#[derive(Debug, Drop)]
pub struct GuestText {
    pub space: u32,
    pub code: List<Instr>,
    pub labels: List<Label>,
}

/// What a guest wants of its next turn.
#[derive(Clone, Copy, Debug, PartialEq, Eq)]
pub enum Want {
    /// A turn that touches nothing but the guest's own registers and position.
    Local,
    /// The operand is the stored or added value, and 0 for a load.
    Access {
        kind: Kind,
        space: u32,
        addr: u32,
        operand: u32,
    },
    /// To become active in this space, which may be the one that it is active in.
    Switch(u32),
    /// To print this value.
    Print(u32),
    /// Its next instruction is to halt, or it is past the last one.
    Halted,
    /// It wants an address that has no entry in its active space.
    Trap,
}
