//! Renames with source and target exchanged, and their file.

ghost use Rattle.std.specs.Prelude.{◌≡◌, ◌++◌, IfOk, OnOk, map};
ghost use Rattle.std.specs.List.{filter};
ghost use Rattle.std.specs.List.Sorted.{IsPermutation, IsSortedByKey};
ghost use Rattle.std.specs.Cmp.Lexicographic.{slice_cmp};
ghost use Rattle.std.specs.Ordering.{nat_cmp};
ghost use Rattle.desk_packages.specs.Renames.{changes, key_of};
ghost use Rattle.desk_packages.specs.Keys.{IsTable};
ghost use Rattle.desk_invert.specs.Inverse.{flipped};
ghost use Rattle.desk_invert.specs.Files.{file_of, line_of};
ghost use Rattle.desk_invert.specs.Exchanged.{ends_with_key, AreExchanged, IsParted};

use desk_base::{Memory, Text, TextList};
use desk_packages::{Keyed, PackageRename, Reach};
use std::alloc::Global;

/// The changing renames of a table, each with source and target exchanged.
#[derive(Debug, Drop)]
pub(crate) struct Exchanged {
    /// One for each key, in byte order of the keys.
    pub(crate) once: Vec<PackageRename>,
    /// One for each key that several have, in byte order of the keys.
    pub(crate) repeated: Vec<PackageRename>,
}

/// These texts. The only error is want of memory.
fn copied(alloc: Global, texts: &[Text]) -> Result<TextList, Memory>
    ensures { IfOk result (λ list. list ≡ texts.now) }
{
    let mut list = TextList::empty(alloc);
    for text in texts {
        list.push(Text::from_bytes(alloc, text.as_bytes())?)?;
    }
    Ok(list)
}

/// A rename with source and target exchanged. The only error is want of memory.
fn flipped(alloc: Global, rename: &PackageRename) -> Result<PackageRename, Memory>
    ensures { IfOk result (λ back. back ≡ flipped rename.now) }
{
    rename.recall_form();
    let reach = if rename.is_below() {
        Reach::Below
    } else {
        Reach::Exact
    };
    let source = copied(alloc, rename.target_segments())?;
    let target = copied(alloc, rename.source())?;
    PackageRename::new(alloc, source, target, reach)
}

/// The changing renames, each with source and target exchanged, in their order. The only error is want of memory.
fn all_flipped(alloc: Global, renames: &[PackageRename]) -> Result<Vec<PackageRename>, Memory>
    ensures { IfOk result (λ backs. backs.items ≡ map flipped (filter changes renames.now)) }
{
    let mut backs = Vec::new(alloc);
    for rename in renames {
        if rename.changes() {
            backs.push(flipped(alloc, rename)?)?;
        }
    }
    Ok(backs)
}

/// Puts renames in byte order of their keys. After want of memory, the only error, they are as they were.
fn sort(renames: &mut Vec<PackageRename>) -> Result<(), Memory>
    ensures permutation { IsPermutation renames.old.items renames.new.items }
    ensures sorted { OnOk result (IsSortedByKey key_of (slice_cmp nat_cmp) renames.new.items) }
{
    renames.sort_by(|first, second| first.key().cmp(&second.key()))?;
    Ok(())
}

/// Whether the last of some renames has a key.
fn ends_with_key(renames: &[PackageRename], key: &[u8]) -> bool
    ensures { result ≡ ends_with_key renames.now key.now }
{
    match renames.last() {
        Some(last) => last.key() == key,
        None => false,
    }
}

/// Of renames in byte order of their keys, one for each key, and one for each key that several have. The only error is want of
/// memory.
fn parted(alloc: Global, renames: Vec<PackageRename>) -> Result<Exchanged, Memory>
    requires { IsSortedByKey key_of (slice_cmp nat_cmp) renames.items }
    ensures { IfOk result (λ parts. IsParted renames.items parts.once.items parts.repeated.items) }
{
    let mut once = Vec::new(alloc);
    let mut repeated = Vec::new(alloc);
    for rename in renames {
        if !ends_with_key(&once, rename.key()) {
            once.push(rename)?;
        } else if !ends_with_key(&repeated, rename.key()) {
            repeated.push(rename)?;
        }
    }
    Ok(Exchanged { once, repeated })
}

/// The changing renames, each with source and target exchanged. The only error is want of memory.
pub(crate) fn exchange_all(alloc: Global, renames: &[PackageRename]) -> Result<Exchanged, Memory>
    requires { IsTable renames.now }
    ensures { IfOk result (λ backs. AreExchanged renames.now backs.once.items backs.repeated.items) }
{
    let mut backs = all_flipped(alloc, renames)?;
    sort(&mut backs)?;
    parted(alloc, backs)
}

/// The line of a rename behind a text. The only error is want of memory.
fn with_line(mut text: Text, rename: &PackageRename) -> Result<Text, Memory>
    ensures { IfOk result (λ longer. longer ≡ text ++ line_of rename.now) }
{
    text.append(rename.key())?;
    text.push(b'=')?;
    text.append(rename.dotted_target())?;
    text.push(b'\n')?;
    Ok(text)
}

/// The file of renames: a line `KEY=PACKAGE` for each. The only error is want of memory.
pub(crate) fn file_of(alloc: Global, renames: &[PackageRename]) -> Result<Text, Memory>
    ensures { IfOk result (λ text. text ≡ file_of renames.now) }
{
    let mut text = Text::empty(alloc);
    for rename in renames {
        text = with_line(text, rename)?;
    }
    Ok(text)
}
