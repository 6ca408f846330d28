//! Why a run stops before its first file is written.

ghost use Rattle.std.specs.Prelude.{◌≡◌};
ghost use Rattle.desk_intake.specs.Faults.{halt_of_folders, halt_of_keeper, halt_of_note};

use desk_base::{Memory, Text};
use desk_folders::FolderFault;
use desk_graph::GraphFault;
use desk_ledger::KeeperFault;
use desk_readings::NoteFault;
use desk_report::{LimitKind, Status};
use std::alloc::{AllocError, AllocFailed};

/// Why a run stops before its first file is written.
#[derive(Debug, Drop)]
pub enum Halt {
    /// Memory ran out (status 10).
    Memory,
    /// A call on the folders failed (status 11).
    Folders,
    /// A call on the ledger failed (status 12).
    Ledger,
    /// The folders or the ledger stand against the run.
    Answer(Status),
}

impl From<Memory> for Halt {
    ghost use Rattle.std.specs.Prelude.{◌≡◌};
    ghost use Rattle.desk_intake.specs.declared.halts.Halt.TheVariants as halt;

    ghost from_gives = { λ _ it. it ≡ halt.Memory };

    fn from(_: Memory) -> Halt {
        Halt::Memory
    }
}

impl From<AllocError> for Halt {
    ghost use Rattle.std.specs.Prelude.{◌≡◌};
    ghost use Rattle.desk_intake.specs.declared.halts.Halt.TheVariants as halt;

    ghost from_gives = { λ _ it. it ≡ halt.Memory };

    fn from(_: AllocError) -> Halt {
        Halt::Memory
    }
}

impl<T: Drop> From<AllocFailed<T>> for Halt {
    ghost use Rattle.std.specs.Prelude.{◌≡◌};
    ghost use Rattle.desk_intake.specs.declared.halts.Halt.TheVariants as halt;

    ghost from_gives = { λ _ it. it ≡ halt.Memory };

    fn from(_: AllocFailed<T>) -> Halt {
        Halt::Memory
    }
}

impl From<FolderFault> for Halt {
    ghost from_gives = { λ fault halt. halt ≡ halt_of_folders fault };

    fn from(fault: FolderFault) -> Halt {
        match fault {
            FolderFault::Failed => Halt::Folders,
            FolderFault::Memory => Halt::Memory,
        }
    }
}

impl From<NoteFault> for Halt {
    ghost from_gives = { λ fault halt. halt ≡ halt_of_note fault };

    fn from(fault: NoteFault) -> Halt {
        match fault {
            NoteFault::Memory => Halt::Memory,
            NoteFault::Folders => Halt::Folders,
            NoteFault::TooLarge { path } => limit(LimitKind::FileSize, path),
        }
    }
}

impl From<KeeperFault> for Halt {
    ghost from_gives = { λ fault halt. halt ≡ halt_of_keeper fault };

    fn from(fault: KeeperFault) -> Halt {
        match fault {
            KeeperFault::Failed => Halt::Ledger,
            KeeperFault::Memory => Halt::Memory,
        }
    }
}

impl From<GraphFault> for Halt {
    ghost use Rattle.desk_intake.specs.Faults.{halt_of_graph};

    ghost from_gives = { λ fault halt. halt ≡ halt_of_graph fault };

    fn from(fault: GraphFault) -> Halt {
        match fault {
            GraphFault::NameClash {
                defined,
                other,
                image,
            } => Halt::Answer(Status::NameClash {
                defined,
                other,
                image,
            }),
            GraphFault::Stranded { path, name } => Halt::Answer(Status::Stranded { path, name }),
            GraphFault::Memory => Halt::Memory,
        }
    }
}

/// The answer that a path passes a limit.
pub fn limit(kind: LimitKind, path: Text) -> Halt
    ensures { result ≡ Halt.Answer (Status.Limit kind path) }
{
    Halt::Answer(Status::Limit { kind, path })
}
