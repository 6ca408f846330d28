//! Why an entry isn't read.

ghost use Rattle.std.specs.Prelude.{◌≡◌};

use desk_base::Memory;

/// Which part of an entry of a rule file hasn't the form that the file wants.
#[derive(Clone, Copy, Debug, PartialEq, Eq)]
pub enum EntryFault {
    /// The key hasn't the form of a key of its rule file.
    Key,
    /// The key has its form, and the value hasn't that of its rule file.
    Value,
}

/// Why an entry isn't read: its first fault, or want of memory.
#[derive(Clone, Copy, Debug, PartialEq, Eq)]
pub enum EntryError {
    /// The entry hasn't its form.
    Fault(EntryFault),
    /// Memory ran out.
    Memory,
}

impl From<EntryFault> for EntryError {
    ghost use Rattle.desk_entries.specs.declared.faults.EntryError.TheVariants as error;

    ghost from_gives = { λ fault it. it ≡ error.Fault fault };

    fn from(fault: EntryFault) -> EntryError {
        EntryError::Fault(fault)
    }
}

impl From<Memory> for EntryError {
    ghost use Rattle.desk_entries.specs.declared.faults.EntryError.TheVariants as error;

    ghost from_gives = { λ _ it. it ≡ error.Memory };

    fn from(_: Memory) -> EntryError {
        EntryError::Memory
    }
}
