//! A sink in memory.

ghost use Rattle.std.specs.Prelude.{◌≡◌, ◌≤◌, ◌+◌, ◌++◌, [], ◌↔◌, IsOk, length, take, Some, IfOk, OnOk, OnErr};
ghost use Rattle.desk_base.specs.Counts.{Rose, counted};
ghost use Rattle.desk_report.specs.Written.{writing, WritesFront};

use crate::{Sink, SinkFault};
use desk_base::Memory;
use std::alloc::Global;
use std::marker::Model;

/// A sink that keeps what is written in memory, up to its room. Contracts see the bytes written, the
/// room in bytes and the count of faults.
#[derive(Drop)]
pub struct MemorySink {
    bytes: Vec<u8>,
    room: usize,
    faults: u64,
}

impl Model for MemorySink {
    ghost use Rattle.std.specs.Prelude.{◌≤◌, vec_len, vec_capacity};
    ghost use Rattle.desk_report.specs.InMemory.{InMemory};

    ghost Value = { InMemory };

    ghost view = { λ s. record { written = s.bytes.items; room = s.room; faults = s.faults } };

    ghost invariant = { λ s. (vec_len s.bytes ≤ s.room) × (s.room ≤ vec_capacity s.bytes) };
}

impl MemorySink {
    /// A sink with room for so many bytes, which it takes now. The only error is want of memory.
    pub fn with_room(alloc: Global, room: u32) -> Result<MemorySink, Memory>
        ensures { IfOk result (λ sink. sink ≡ record { written = []; room = room; faults = 0 }) }
    {
        let room = room as usize;
        let bytes = Vec::with_capacity(alloc, room)?;
        Ok(MemorySink {
            bytes,
            room,
            faults: 0,
        })
    }

    /// The bytes that were written so far. It takes no memory.
    pub fn written(&self) -> &[u8]
        ensures { result.now ≡ self.now.written }
    {
        self.bytes.as_slice()
    }
}

impl Sink for MemorySink {
    ghost told = { λ s. Some s.written };

    ghost faults = { λ s. s.faults };

    /// Writes what fits. Where that isn't all, it counts a fault and fails.
    fn write(&mut self, bytes: &[u8]) -> Result<(), SinkFault>
        ensures fits { IsOk result ↔ (length self.old.written + length bytes.now ≤ self.old.room) }
        ensures written { self.new.written ≡ take self.old.room (self.old.written ++ bytes.now) }
        ensures room { self.new.room ≡ self.old.room }
        ensures unhurt { OnOk result (self.new.faults ≡ self.old.faults) }
        ensures counted { OnErr result (self.new.faults ≡ counted self.old.faults) }
        ensures ok { OnOk result (Some self.new.written ≡ writing bytes.now (Some self.old.written)) }
        ensures err { OnErr result (WritesFront bytes.now (Some self.old.written) (Some self.new.written)) }
        ensures counts { self.old.faults ≤ self.new.faults }
        ensures failed { OnErr result (Rose self.old.faults self.new.faults) }
    {
        let left = self.room - self.bytes.len();
        let front = &bytes[..bytes.len().min(left)];
        let _ = self.bytes.extend_from_slice(front);
        if front.len() < bytes.len() {
            self.faults = self.faults.saturating_add(1);
            return Err(SinkFault::Failed);
        }
        Ok(())
    }
}
