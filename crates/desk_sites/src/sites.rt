//! The call sites of a class.

ghost use Rattle.std.specs.Prelude.{◌≡◌, ◌++◌, ◌≤◌, [], length, take, drop, map, None, Some, OnOk, IfOk, IfErr};
ghost use Rattle.desk_base.specs.Limits.{file_size};
ghost use Rattle.desk_sites.specs.Sites.{names_member, is_site, sites_of_code, sites_of_codes, read_code, first_fault};
ghost use Rattle.desk_sites.specs.Stops.{Stops};

use crate::faults::moved_fault;
use crate::members::member_class;
use crate::packages::is_in_package;
use desk_base::{CodeFault, Memory, Text};
use desk_code::{CodeAt, CodeReader, Instruction};
use desk_pool::Pool;
use std::alloc::Global;

/// A call site: an instruction that names a member, and the code array in which it stands.
#[derive(Clone, Copy)]
pub(crate) struct Site {
    /// The code array, with its method.
    pub code: CodeAt,
    /// The instruction.
    pub instruction: Instruction,
}

/// Why the call sites of a class weren't found.
#[derive(Clone, Copy)]
pub(crate) enum SiteStop {
    /// The first code array that doesn't read, by its fault. The place is an offset from the start of the file, in bytes.
    Fault(CodeFault),
    /// Memory ran out.
    Memory,
}

/// Whether an opcode is one of those that name a member: `getstatic` to `invokeinterface` (JVMS 6.5).
fn names_member(opcode: u8) -> bool
    ensures { result ≡ names_member opcode }
{
    matches!(opcode, 0xB2..=0xB9)
}

/// Whether an instruction names a member of a class that lies in a package or below it.
fn is_site(pool: &Pool<'_>, scope: &[Text], instruction: &Instruction) -> bool
    ensures { result ≡ is_site pool.now.entries scope.now instruction.now }
{
    if !names_member(instruction.opcode) {
        return false;
    }
    match instruction.index {
        Some(index) => is_in_package(scope, member_class(pool, index)),
        None => false,
    }
}

/// Adds the sites of one code array, by its instructions. A fault's place is an offset from the first code byte.
#[tactic(auto, using(desk_code::proofs::Nexts::next_some, desk_code::proofs::Nexts::next_none, desk_code::proofs::Nexts::next_fault, desk_code::proofs::Nexts::same_fault, crate::proofs::Found::sites_more, crate::proofs::Found::sites_same, crate::proofs::Found::sites_done))]
fn add_sites(
    pool: &Pool<'_>,
    scope: &[Text],
    bytes: &[u8],
    code: &CodeAt,
    sites: &mut Vec<Site>,
) -> Result<(), SiteStop>
    requires { length bytes.now ≤ file_size }
    ensures sites { OnOk result (sites.new.items ≡ sites.old.items ++ sites_of_code pool.now.entries scope.now bytes.now code.now) }
    ensures reads { OnOk result ((read_code pool.now.entries bytes.now code.now).fault ≡ None) }
    ensures stop { IfErr result (λ stop. Stops stop (read_code pool.now.entries bytes.now code.now).fault) }
{
    let mut reader = CodeReader::new(code.bytes(bytes), pool);
    loop {
        let instruction = match reader.next() {
            Ok(Some(instruction)) => instruction,
            Ok(None) => return Ok(()),
            Err(fault) => return Err(SiteStop::Fault(fault)),
        };
        if is_site(pool, scope, &instruction) {
            let site = Site {
                code: *code,
                instruction,
            };
            if sites.push(site).is_err() {
                return Err(SiteStop::Memory);
            }
        }
    }
}

/// The sites of code arrays, one behind the other; or the fault of the first that doesn't read.
#[tactic(auto, using(desk_base::proofs::Lists::texts_more, crate::proofs::Found::fault_here, crate::proofs::Found::fault_later, crate::proofs::Found::fault_never, crate::proofs::Found::fault_in_file))]
pub(crate) fn sites_of_codes(
    alloc: Global,
    pool: &Pool<'_>,
    scope: &[Text],
    bytes: &[u8],
    codes: &[CodeAt],
) -> Result<Vec<Site>, SiteStop>
    requires { length bytes.now ≤ file_size }
    ensures sites { IfOk result (λ sites. sites.items ≡ sites_of_codes pool.now.entries scope.now bytes.now codes.now) }
    ensures reads { OnOk result (first_fault pool.now.entries bytes.now codes.now ≡ None) }
    ensures stop { IfErr result (λ stop. Stops stop (first_fault pool.now.entries bytes.now codes.now)) }
{
    let mut sites = Vec::new(alloc);
    for code in codes {
        match add_sites(pool, scope, bytes, code, &mut sites) {
            Ok(()) => {}
            Err(SiteStop::Fault(fault)) => {
                return Err(SiteStop::Fault(moved_fault(code.at, fault)));
            }
            Err(SiteStop::Memory) => return Err(SiteStop::Memory),
        }
    }
    Ok(sites)
}
