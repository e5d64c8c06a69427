//! The exit statuses of the program.

ghost use Rattle.std.specs.Prelude.{◌≡◌};
ghost use Rattle.ada_serve.specs.Exits.{exit_of, fault_exit};

use crate::serve::{ServeFault, Status};

/// The exit status where the words on the command line are no command, or name a pool that the program lacks.
pub const USAGE: u8 = 4;
/// The exit status where memory ran out.
pub const NO_MEMORY: u8 = 6;

/// The exit status after a whole answer.
pub fn code_of(status: Status) -> u8
    ensures { result ≡ exit_of status }
{
    match status {
        Status::Accepted | Status::Finished => 0,
        Status::Refused => 1,
        Status::Unhandled => 2,
        Status::Stopped | Status::Erroneous => 3,
    }
}

/// The exit status where the answer is not whole.
pub fn fault_code(fault: ServeFault) -> u8
    ensures { result ≡ fault_exit fault }
{
    match fault {
        ServeFault::BadInput { place: _ }
        | ServeFault::InputTooLong
        | ServeFault::ReadFailed
        | ServeFault::WriteFailed => 5,
        ServeFault::NoSuchPool => USAGE,
        ServeFault::NoMemory => NO_MEMORY,
    }
}
