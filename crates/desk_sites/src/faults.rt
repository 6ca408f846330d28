//! Why the code of a class doesn't read, by places in the file.

ghost use Rattle.std.specs.Prelude.{◌≡◌, ◌+◌, ◌<◌};
ghost use Rattle.desk_code.specs.Faults.{place_of};
ghost use Rattle.desk_sites.specs.Faults.{moved_fault, fault_name};

use desk_base::CodeFault;

/// A fault whose place is counted from the first byte of a code array, counted from as many bytes before that.
pub fn moved_fault(by: u32, fault: CodeFault) -> CodeFault
    requires { by + place_of fault < 4294967296 }
    ensures { result ≡ moved_fault by fault }
{
    match fault {
        CodeFault::Opcode { at } => CodeFault::Opcode { at: by + at },
        CodeFault::UnexpectedEnd { at } => CodeFault::UnexpectedEnd { at: by + at },
        CodeFault::Switch { at } => CodeFault::Switch { at: by + at },
        CodeFault::Operand { at } => CodeFault::Operand { at: by + at },
    }
}

/// The place of a fault.
pub fn place_of(fault: CodeFault) -> u32
    ensures { result ≡ place_of fault }
{
    match fault {
        CodeFault::Opcode { at }
        | CodeFault::UnexpectedEnd { at }
        | CodeFault::Switch { at }
        | CodeFault::Operand { at } => at,
    }
}

/// The name of a fault, as it is written.
pub fn fault_name(fault: CodeFault) -> &'static [u8]
    ensures { result.now ≡ fault_name fault }
{
    match fault {
        CodeFault::Opcode { .. } => b"opcode",
        CodeFault::UnexpectedEnd { .. } => b"short",
        CodeFault::Switch { .. } => b"switch",
        CodeFault::Operand { .. } => b"operand",
    }
}
