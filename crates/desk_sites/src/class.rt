//! What one class gives.

ghost use Rattle.std.specs.Prelude.{◌≡◌, ◌≤◌, IfOk, length, None};
ghost use Rattle.desk_base.specs.Limits.{file_size};
ghost use Rattle.desk_format.specs.Classes.{class_fault};
ghost use Rattle.desk_sites.specs.Answers.{class_sites, malformed, sites_of_class, code_refused};

use crate::faults::{fault_name, place_of};
use crate::lines::{append_refusal, append_sites};
use crate::sites::{SiteStop, sites_of_codes};
use desk_base::{CodeFault, Malformed, Memory, ReadFault, Text, TextList};
use desk_class::ClassView;
use desk_code::codes;
use desk_report::kind_name;
use std::alloc::Global;

/// What one class file gives.
#[derive(Debug, Drop)]
pub struct ClassSites {
    /// Its lines, each with LF at its end: one for each site, by place; or the one line of a class that isn't well-formed, or of
    /// which a code array doesn't read.
    pub lines: Text,
    /// How many sites there are lines of.
    pub sites: u64,
    /// Whether the class was refused: it isn't well-formed, or a code array of it doesn't read.
    pub refused: bool,
}

/// A class that isn't well-formed.
fn malformed(alloc: Global, path: &[u8], fault: Malformed) -> Result<ClassSites, Memory>
    ensures { IfOk result (λ answer. answer ≡ malformed path.now fault) }
{
    let mut lines = Text::empty(alloc);
    append_refusal(
        &mut lines,
        path,
        b" malformed ",
        kind_name(fault.kind),
        fault.at,
    )?;
    Ok(ClassSites {
        lines,
        sites: 0,
        refused: true,
    })
}

/// A class of which a code array doesn't read.
fn code_refused(alloc: Global, path: &[u8], fault: CodeFault) -> Result<ClassSites, Memory>
    ensures { IfOk result (λ answer. answer ≡ code_refused path.now fault) }
{
    let mut lines = Text::empty(alloc);
    append_refusal(
        &mut lines,
        path,
        b" code ",
        fault_name(fault),
        place_of(fault),
    )?;
    Ok(ClassSites {
        lines,
        sites: 0,
        refused: true,
    })
}

/// A well-formed class.
fn sites_of_class<'a>(
    alloc: Global,
    scope: &[Text],
    path: &'a [u8],
    class: &ClassView<'a>,
) -> Result<ClassSites, Memory>
    ensures { IfOk result (λ answer. answer ≡ sites_of_class scope.now path.now class.now) }
{
    let bytes = class.bytes();
    let pool = class.pool();
    let codes = codes(alloc, class)?;
    match sites_of_codes(alloc, pool, scope, bytes, codes.as_slice()) {
        Ok(sites) => {
            let mut lines = Text::empty(alloc);
            append_sites(&mut lines, path, pool, sites.as_slice())?;
            Ok(ClassSites {
                lines,
                sites: sites.len() as u64,
                refused: false,
            })
        }
        Err(SiteStop::Fault(fault)) => code_refused(alloc, path, fault),
        Err(SiteStop::Memory) => Err(Memory),
    }
}

/// What the class file of some bytes gives, by its path: a line for each of its instructions that names a member of a class in a
/// package or below it, by place; of an array the element class counts. The scope is that package, by its segments. Where the class
/// isn't well-formed, and where a code array of it doesn't read, it is one line that says why. It takes the memory of these
/// lines, of the class as it is read, and 32 bytes a site; the only error is want of memory.
pub fn class_sites<'a>(
    alloc: Global,
    scope: &TextList,
    path: &'a Text,
    bytes: &'a [u8],
) -> Result<ClassSites, Memory>
    requires { length bytes.now ≤ file_size }
    ensures { IfOk result (λ answer. answer ≡ class_sites scope.now path.now bytes.now) }
{
    match ClassView::read(alloc, bytes) {
        Ok(class) => sites_of_class(alloc, scope.as_slice(), path.as_bytes(), &class),
        Err(ReadFault::Malformed(fault)) => malformed(alloc, path.as_bytes(), fault),
        Err(ReadFault::Memory) => Err(Memory),
    }
}
