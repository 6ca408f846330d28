//! Which status the program ends with, where the desk says none, and how it tells a status.

ghost use Rattle.std.specs.Prelude.{◌≡◌, ◌≢◌};
ghost use Rattle.std.specs.Process.{exit_status};
ghost use Rattle.desk_report.specs.Texts.{code_of};

use desk_places::RootName;
use desk_report::Status;
use std::io::ErrorKind;
use std::process::ExitCode;

/// How a program ends whose words can't be read: for want of memory, or as words that mean no task.
pub fn unread(kind: ErrorKind) -> Status
    ensures memory { kind ≡ ErrorKind.OutOfMemory → result ≡ Status.Memory }
    ensures other { kind ≢ ErrorKind.OutOfMemory → result ≡ Status.Usage }
{
    match kind {
        ErrorKind::OutOfMemory => Status::Memory,
        _ => Status::Usage,
    }
}

/// The status of a root whose place isn't told.
pub fn unplaced(name: RootName) -> Status
    ensures ledger { name ≡ RootName.Ledger → result ≡ Status.LedgerFault 0 }
    ensures folder { name ≢ RootName.Ledger → result ≡ Status.FolderFault 0 }
{
    match name {
        RootName::Ledger => Status::LedgerFault { done: 0 },
        _ => Status::FolderFault { done: 0 },
    }
}

/// The exit status that tells a status.
pub fn exit_of(status: &Status) -> ExitCode
    ensures { exit_status result ≡ code_of status.now }
{
    ExitCode::from(status.code())
}
