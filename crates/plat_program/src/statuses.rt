//! The statuses that come from the command line and from the buffer of standard output.
ghost use Rattle.std.specs.Prelude.{◌≡◌, ◌≢◌, true, false, IsOk, IsErr};
ghost use Rattle.plat_base.specs.Statuses.{is_silent};

use plat_base::Status;
use std::io::{self, ErrorKind};

/// The status where the words cannot be had: they are none of ours where one of them is no text.
pub fn status_of_words(error: ErrorKind) -> Status
    ensures words { error ≡ ErrorKind.InvalidData → result ≡ Status.BadWords }
    ensures memory { error ≢ ErrorKind.InvalidData → result ≡ Status.OutOfMemory }
{
    match error {
        ErrorKind::InvalidData => Status::BadWords,
        _ => Status::OutOfMemory,
    }
}

/// The status once the buffer was written too: a fault takes the place of a status with which something was written.
pub fn status_after(status: Status, flushed: io::Result<()>) -> Status
    // Where all was written, and where nothing is, the status stays.
    ensures written { IsOk flushed → result ≡ status }
    ensures silent { is_silent status ≡ true → result ≡ status }
    ensures fault { IsErr flushed → is_silent status ≡ false → result ≡ Status.WriteFault }
{
    let has_written = matches!(
        status,
        Status::Done | Status::NoFrames | Status::Spent | Status::EventLimit
    );
    if has_written && flushed.is_err() {
        Status::WriteFault
    } else {
        status
    }
}
