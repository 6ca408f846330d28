//! How it is told as a status why a run stops.

ghost use Rattle.std.specs.Prelude.{◌≡◌};
ghost use Rattle.desk_run.specs.Named.{status_of_words};
ghost use Rattle.desk_run.specs.Stops.{status_of_stop, status_of_halt};

use desk_batches::{Moved, Stop};
use desk_intake::Halt;
use desk_report::Status;
use desk_words::RootsFault;

/// How a stop of the writing is told, where so many files were done before.
pub(crate) fn status_of_stop(why: Stop, done: u32) -> Status
    ensures { result ≡ status_of_stop why done }
{
    match why {
        Stop::Memory => Status::Memory,
        Stop::Folders => Status::FolderFault { done },
        Stop::Ledger => Status::LedgerFault { done },
        Stop::Moved(
            Moved {
                path,
                first,
                second,
            },
        ) => Status::Moved {
            path,
            first,
            second,
        },
    }
}

/// How a fault of words is told.
pub(crate) fn status_of_words(fault: RootsFault) -> Status
    ensures { result ≡ status_of_words fault }
{
    match fault {
        RootsFault::Usage => Status::Usage,
        RootsFault::Nested { first, second } => Status::NestedRoots { first, second },
        RootsFault::Memory => Status::Memory,
    }
}

/// How a stop before the first file is told.
pub(crate) fn status_of_halt(halt: Halt) -> Status
    ensures { result ≡ status_of_halt halt }
{
    match halt {
        Halt::Memory => Status::Memory,
        Halt::Folders => Status::FolderFault { done: 0 },
        Halt::Ledger => Status::LedgerFault { done: 0 },
        Halt::Answer(status) => status,
    }
}
