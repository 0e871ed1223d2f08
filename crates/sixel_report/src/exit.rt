//! The exit status.

ghost use Rattle.std.specs.Prelude.{◌≡◌};
ghost use Rattle.sixel_report.specs.Exits.{exit_code, exit_for_answer};

use crate::fault::RunFault;
use crate::task::Status;

/// The exit status.
#[derive(Clone, Copy, Debug, PartialEq, Eq)]
pub enum Exit {
    Done,
    /// A rule is broken, a string of a stream isn't portable, or terminals show something else.
    Broken,
    /// The input was refused, or an allocation, a read or a write failed.
    Refused,
    /// A usage error.
    Usage,
}

/// The exit status as a number.
pub fn code_of(exit: Exit) -> u8
    ensures { result ≡ exit_code exit }
{
    match exit {
        Exit::Done => 0,
        Exit::Broken => 1,
        Exit::Refused => 2,
        Exit::Usage => 3,
    }
}

/// The exit status after a run.
pub fn exit_of(answer: Result<Status, RunFault>) -> Exit
    ensures { result ≡ exit_for_answer answer }
{
    match answer {
        Ok(Status::Done | Status::Noted(_)) => Exit::Done,
        Ok(
            Status::Broken(_)
            | Status::Asked(_)
            | Status::Surveyed { .. }
            | Status::Unfit { .. }
            | Status::Differing,
        ) => Exit::Broken,
        Err(_) => Exit::Refused,
    }
}
