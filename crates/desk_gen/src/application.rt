//! The files of a generated application.

ghost use Rattle.std.specs.Prelude.{◌≡◌, ◌<◌, false, true, Err, IfOk};
ghost use Rattle.std.specs.List.{list_all};
ghost use Rattle.desk_base.specs.Paths.{is_relative_path};
ghost use Rattle.desk_gen.specs.Application.{class_at, classes, generated, is_count, neighbour, rule_file, service_file};

use crate::class::class_file;
use crate::names::class_name;
use desk_base::{Memory, Text};
use desk_folders::GenFile;
use std::alloc::Global;

/// How many classes an application has at most.
const MOST: u32 = 20_000;

/// Why no application was generated.
#[derive(Clone, Copy, Debug, PartialEq, Eq)]
pub enum GenFault {
    /// The count is 0, or above 20,000.
    Limit,
    /// Memory ran out.
    Memory,
}

impl From<Memory> for GenFault {
    ghost use Rattle.std.specs.Prelude.{◌≡◌};
    ghost use Rattle.desk_gen.specs.declared.application.GenFault.TheVariants as fault;

    ghost from_gives = { λ _ it. it ≡ fault.Memory };

    fn from(_: Memory) -> GenFault {
        GenFault::Memory
    }
}

/// The number of the class that the class of a number names.
fn neighbour_of(count: u32, number: u32) -> u32
    requires count { 0 < count }
    requires below { number < 20000 }
    ensures { result ≡ neighbour count number }
{
    (7 * number + 3) % count
}

/// The file of the class of a number, among so many classes.
fn class_at(alloc: Global, count: u32, number: u32) -> Result<GenFile, Memory>
    requires count { 0 < count }
    requires below { number < 20000 }
    ensures { IfOk result (λ file. file ≡ class_at count number) }
{
    let mut path = class_name(alloc, number)?;
    path.append(b".class")?;
    let content = class_file(alloc, number, neighbour_of(count, number))?;
    Ok(GenFile { path, content })
}

/// A service file, which names one of the classes.
fn service_file(alloc: Global) -> Result<GenFile, Memory>
    ensures { IfOk result (λ file. file ≡ service_file) }
{
    let path = Text::from_bytes(alloc, b"META-INF/services/javax.gen.p0.C0")?;
    let content = Text::from_bytes(alloc, b"javax.gen.p1.C1\n")?;
    Ok(GenFile { path, content })
}

/// The classes of an application, in the order of their numbers.
fn classes(alloc: Global, count: u32) -> Result<Vec<GenFile>, Memory>
    requires { is_count count ≡ true }
    ensures { IfOk result (λ files. files.items ≡ classes count) }
{
    let mut files = Vec::new(alloc);
    for number in 0..count {
        files.push(class_at(alloc, count, number)?)?;
    }
    Ok(files)
}

/// The classes, and the service file.
fn application(alloc: Global, count: u32) -> Result<Vec<GenFile>, Memory>
    requires { is_count count ≡ true }
    ensures { IfOk result (λ files. files.items ≡ generated count) }
{
    let mut files = classes(alloc, count)?;
    files.push(service_file(alloc)?)?;
    Ok(files)
}

/// The files of an application of so many classes, from 1 to 20,000: the classes in the order of their
/// numbers, and a service file. Each class names another as a class, in a string, and as the type of a
/// field, and its own name in a string.
///
/// The errors: `Limit` exactly where the count is 0 or above 20,000; `Memory`.
pub fn generate(alloc: Global, count: u32) -> Result<Vec<GenFile>, GenFault>
    ensures files { IfOk result (λ files. files.items ≡ generated count) }
    ensures relative { IfOk result (λ files. list_all (λ file. is_relative_path file.path) files.items ≡ true) }
    ensures within { IfOk result (λ _. is_count count ≡ true) }
    ensures limit { result ≡ Err GenFault.Limit → is_count count ≡ false }
{
    if count == 0 || count > MOST {
        return Err(GenFault::Limit);
    }
    Ok(application(alloc, count)?)
}

/// The rule file of each generated application: it renames the packages of its classes. The only error is
/// want of memory.
pub fn rule_file(alloc: Global) -> Result<GenFile, Memory>
    ensures { IfOk result (λ file. file ≡ rule_file) }
{
    let path = Text::from_bytes(alloc, b"renames.properties")?;
    let content = Text::from_bytes(alloc, b"javax.gen.*=jakarta.gen\n")?;
    Ok(GenFile { path, content })
}
