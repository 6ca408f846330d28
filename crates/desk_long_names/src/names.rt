//! Names that leave no room for those of a log and a journal beside them, and the short names in place of them.

ghost use Rattle.std.specs.Prelude.{◌≡◌, ◌↔◌, ◌<◌, length, string_bytes, IfOk, IsTrue};
ghost use Rattle.desk_long_names.specs.LongNames.{folder_of, name_of, short_of, short_path_of};

use crate::databases::fault_of;
use desk_faults::{Cause, Refusal};
use desk_ledger::digest_of;
use std::alloc::{AllocError, Global};
use std::fs;
use std::io::ErrorKind;

/// The most bytes of a name that leaves room: those beside it are longer by up to eight, and 255 is the most.
const MOST: usize = 247;

/// The folder of a path, and the name in it.
fn cut(path: &str) -> (&str, &str)
    ensures folder { result.0.now ≡ folder_of path.now }
    ensures name { result.1.now ≡ name_of path.now }
{
    match path.rsplit_once('/') {
        Some(cut) => cut,
        None => (".", path),
    }
}

/// Whether a name leaves no room for those beside it.
fn leaves_no_room(name: &str) -> bool
    ensures { IsTrue result ↔ (247 < length name.now) }
{
    name.len() > MOST
}

/// Whether the name at the end of a path leaves no room for those of a log and a journal beside it: it has more than
/// 247 bytes.
pub fn is_long(path: &str) -> bool
    ensures { IsTrue result ↔ (247 < length (name_of path.now)) }
{
    let (_, name) = cut(path);
    leaves_no_room(name)
}

/// The name under which a file of a long name is opened: as different as the digests of the names.
fn short_name(alloc: Global, name: &str) -> Result<String, AllocError>
    ensures name { IfOk result (λ short. string_bytes short ≡ short_of name.now) }
    ensures room { IfOk result (λ short. length (string_bytes short) ≡ 41) }
{
    let digest = digest_of(name.as_bytes()).0;
    let digits = hex::encode(alloc, &digest[..16])?;
    let mut short = String::new(alloc);
    short.push_str(".migrate-")?;
    short.push_str(digits.as_str())?;
    Ok(short)
}

/// The path at which a file of a long name is opened: in its folder, under its short name, which is made of the first 16
/// bytes of the name's SHA-256. The only error is want of memory.
pub fn short_path(alloc: Global, path: &str) -> Result<String, AllocError>
    ensures { IfOk result (λ short. string_bytes short ≡ short_path_of path.now) }
{
    let (folder, name) = cut(path);
    let mut short = String::new(alloc);
    short.push_str(folder)?;
    short.push_str("/")?;
    short.push_str(short_name(alloc, name)?.as_str())?;
    Ok(short)
}

/// Whether a link stands at a path.
fn is_link(rt: &HostRuntime, path: &str) -> bool {
    match fs::symlink_metadata(rt, path) {
        Ok(found) => found.is_symlink(),
        Err(_) => false,
    }
}

/// The path of a file that is missing, with no link in its folder. A link that leads nowhere is refused.
fn missing_path(rt: &HostRuntime, path: &str) -> Result<String, Refusal> {
    if is_link(rt, path) {
        return Err(Refusal::Failed(Cause::Unopened));
    }
    let (folder, name) = cut(path);
    let Ok(folder) = format!(in rt.alloc(); "{folder}/") else {
        return Err(Refusal::Memory);
    };
    let real = fs::canonicalize(rt, folder.as_str()).map_err(fault_of)?;
    format!(in rt.alloc(); "{}/{name}", real.as_str()).map_err(|_| Refusal::Memory)
}

/// The path of the file to which a path leads, with no link in it. The file may be missing. The errors are want of memory,
/// what the system says of the path or its folder, and `Unopened` where a link leads nowhere.
pub fn real_path(rt: &HostRuntime, path: &str) -> Result<String, Refusal> {
    match fs::canonicalize(rt, path) {
        Ok(real) => Ok(real.into_string()),
        Err(error) if error.kind() == ErrorKind::NotFound => missing_path(rt, path),
        Err(error) => Err(fault_of(error)),
    }
}
