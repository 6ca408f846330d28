//! The trait of sinks.

ghost use Rattle.std.specs.Prelude.{◌≡◌, ◌≤◌, ℕ, List, Option, OnOk, OnErr};
ghost use Rattle.desk_base.specs.Counts.{Rose};
ghost use Rattle.desk_report.specs.Written.{writing, WritesFront};

use thiserror::Error;

/// Why a write failed.
#[derive(Clone, Copy, Debug, PartialEq, Eq, Error)]
pub enum SinkFault {
    /// The outside refused; the count of faults rose in this call.
    #[error("the output failed")]
    Failed,
}

/// Where a report goes. It may tell the bytes that were written, and it counts its faults. The count
/// never falls, and rises in each call that fails, unless it stands at 18,446,744,073,709,551,615.
pub trait Sink {
    /// What it tells of the bytes that were written.
    ghost told: { Self → Option (List ℕ) };

    /// How many faults there were.
    ghost faults: { Self → ℕ };

    /// Writes bytes behind those that were written. After an error a front of them was written. It takes
    /// no memory.
    fn write(&mut self, bytes: &[u8]) -> Result<(), SinkFault>
        ensures ok { OnOk result (told self.new ≡ writing bytes.now (told self.old)) }
        ensures err { OnErr result (WritesFront bytes.now (told self.old) (told self.new)) }
        ensures counts { faults self.old ≤ faults self.new }
        ensures failed { OnErr result (Rose (faults self.old) (faults self.new)) };
}
