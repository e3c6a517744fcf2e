//! Why a reading or a writing stops.
ghost use Rattle.std.specs.Prelude.{◌≡◌};
ghost use Rattle.plat_io.specs.declared.faults.ReadStop.TheVariants as stop;

use plat_base::faults as base;

/// A call of a source or a sink failed.
#[derive(Clone, Copy, Debug, PartialEq, Eq)]
pub struct Failed;

/// A text was not written whole, since its sink failed.
#[derive(Clone, Copy, Debug, PartialEq, Eq)]
pub struct WriteFault;

impl From<Failed> for WriteFault {
    fn from(_failed: Failed) -> WriteFault {
        WriteFault
    }
}

/// Why `read_all` gives no bytes.
#[derive(Clone, Copy, Debug, PartialEq, Eq)]
pub enum ReadStop {
    ReadFault,
    TooLong,
    OutOfMemory,
}

impl From<Failed> for ReadStop {
    ghost from_gives = { λ _ fault. fault ≡ stop.ReadFault };

    fn from(_failed: Failed) -> ReadStop {
        ReadStop::ReadFault
    }
}

impl From<base::OutOfMemory> for ReadStop {
    ghost from_gives = { λ _ fault. fault ≡ stop.OutOfMemory };

    fn from(_want: base::OutOfMemory) -> ReadStop {
        ReadStop::OutOfMemory
    }
}
