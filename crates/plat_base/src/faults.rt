//! Why a call refuses: want of memory, and the reasons for refusing a text.
ghost use Rattle.std.specs.Prelude.{◌≡◌};
ghost use Rattle.plat_base.specs.declared.faults.TextFault.TheVariants as fault;

use std::alloc::{AllocError, AllocFailed};

/// An allocation was refused. It says nothing of how much memory was asked for.
#[derive(Clone, Copy, Debug, PartialEq, Eq)]
pub struct OutOfMemory;

/// The reason for refusing a text. `docs/FORMATS.md` says where each one stands.
#[derive(Clone, Copy, Debug, PartialEq, Eq)]
pub enum Why {
    TooLong,
    Unended,
    BadByte,
    Missing,
    Expected,
    Extra,
    NotNumber,
    TooLarge,
    OutOfRange,
    PageWords,
    UnknownPolicy,
    UnknownSchedule,
    SelfDistance,
    Duplicate,
    UnknownInstruction,
    BadRegister,
    BadLabel,
    UnknownLabel,
    TooMany,
}

/// Where and why a text is refused. Lines and columns count from 1, a column counts bytes; both are 0 where the whole
/// text is too long.
#[derive(Clone, Copy, Debug, PartialEq, Eq)]
pub struct Refused {
    pub line: u32,
    pub column: u32,
    pub why: Why,
}

/// What a reader of texts answers in place of a value.
#[derive(Clone, Copy, Debug, PartialEq, Eq)]
pub enum TextFault {
    Refused(Refused),
    OutOfMemory,
}

impl From<Refused> for TextFault {
    ghost from_gives = { λ r e. e ≡ fault.Refused r };

    fn from(refused: Refused) -> TextFault {
        TextFault::Refused(refused)
    }
}

impl From<OutOfMemory> for TextFault {
    ghost from_gives = { λ _ e. e ≡ fault.OutOfMemory };

    fn from(_fault: OutOfMemory) -> TextFault {
        TextFault::OutOfMemory
    }
}

impl From<AllocError> for TextFault {
    ghost from_gives = { λ _ e. e ≡ fault.OutOfMemory };

    fn from(_fault: AllocError) -> TextFault {
        TextFault::OutOfMemory
    }
}

impl<T: Drop> From<AllocFailed<T>> for TextFault {
    ghost from_gives = { λ _ e. e ≡ fault.OutOfMemory };

    fn from(_fault: AllocFailed<T>) -> TextFault {
        TextFault::OutOfMemory
    }
}
