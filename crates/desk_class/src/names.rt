//! The class names that texts hold.

ghost use Rattle.std.specs.Prelude.{◌≡◌, ◌⊎◌, ◌<◌, ◌-◌, ◌^◌, ◌∷◌, [], true, false, length, min, Some, OnOk, IfOk, IfSome, MatchOption};
ghost use Rattle.std.specs.List.Sorted.{IsStrictlySortedBy};
ghost use Rattle.std.specs.Ordering.{nat_cmp};
ghost use Rattle.std.specs.Cmp.Lexicographic.{slice_cmp};
ghost use Rattle.desk_base.specs.Descriptors.{as_is};
ghost use Rattle.desk_names.specs.Pieces.{names_in, joined};
ghost use Rattle.desk_names.specs.SignatureScan.{wanted_signature};
ghost use Rattle.desk_class.specs.Formed.{IsFormed, AreFormed};
ghost use Rattle.desk_class.specs.Standing.{standing_in};
ghost use Rattle.desk_class.specs.Found.{spelled};
ghost use Rattle.desk_class.specs.Answers.{answer_at};
ghost use Rattle.desk_class.specs.Noted.{Notes, HoldsNone};
ghost use Rattle.desk_class.specs.Held.{found_all, each_once, ascending, signature_names, names_of, held_by};

use crate::answers::TextAnswers;
use crate::found::FoundNames;
use crate::held::HeldNames;
use crate::numbers::text_at;
use desk_base::{Memory, PoolView, Role, Text, TextList, Used};
use desk_names::{ClassName, Part, SigParts, Which, read_signature};
use desk_pool::Pool;
use memchr::memchr;
use std::alloc::Global;
use std::collections::BTreeSet;

/// The first class name of a descriptor, which stands between an `L` and the next `;`, and what is left behind it.
fn first_name(text: &[u8]) -> Option<(&[u8], &[u8])>
    ensures name { MatchOption result (standing_in text.now ≡ []) (λ found. standing_in text.now ≡ found.0.now ∷ standing_in found.1.now) }
    ensures shorter { IfSome result (λ found. length found.1.now < length text.now) }
{
    let Some(start) = memchr(b'L', text) else {
        return None;
    };
    let (_, behind) = text.split_at(start + 1);
    match memchr(b';', behind) {
        Some(end) => Some(behind.split_at(end)),
        None => None,
    }
}

/// Adds the class names of a text that is a descriptor.
fn add_descriptor<'a>(names: &mut FoundNames<'a>, text: &'a [u8]) -> Result<(), Memory>
    ensures { OnOk result (names.new ≡ found_all names.old (standing_in text.now)) }
{
    let mut rest = text;
    while let Some((name, behind)) = first_name(rest) {
        names.add(name)?;
        rest = behind;
    }
    Ok(())
}

/// How many bytes a class name has, with the `/` in front of its simple name; 2^64 - 1 where they are more.
fn length_of(name: &ClassName<'_>) -> usize
    ensures { result ≡ min (length (spelled name.now)) (2 ^ 64 - 1) }
{
    if name.package.is_empty() {
        name.simple.len()
    } else {
        let package = name.package.len().saturating_add(1);
        package.saturating_add(name.simple.len())
    }
}

/// Adds the class names among the parts of a signature, as they stand in its text.
fn add_parts<'a>(
    names: &mut FoundNames<'a>,
    text: &'a [u8],
    parts: SigParts<'a>,
) -> Result<(), Memory>
    requires { joined as_is parts ≡ text.now }
    ensures { OnOk result (names.new ≡ found_all names.old (names_in parts.entry)) }
{
    let mut rest = text;
    for part in parts {
        match part {
            Part::Other(other) => {
                let (_, behind) = rest.split_at(other.len());
                rest = behind;
            }
            Part::Class(name) => {
                let (whole, behind) = rest.split_at(length_of(&name));
                names.add(whole)?;
                rest = behind;
            }
        }
    }
    Ok(())
}

/// Adds the class names of a signature.
fn add_signature<'a>(names: &mut FoundNames<'a>, text: &'a [u8], which: Which) -> Result<(), Memory>
    ensures { OnOk result (names.new ≡ found_all names.old (signature_names (wanted_signature which) text.now)) }
{
    match read_signature(text, which) {
        Some(parts) => add_parts(names, text, parts),
        None => Ok(()),
    }
}

/// Adds the class names of a text that is used in a role, in which it has its form.
#[tactic(auto, unfolding(crate::specs::Held::names_of))]
fn add_names<'a>(names: &mut FoundNames<'a>, role: Role, text: &'a [u8]) -> Result<(), Memory>
    requires { IsFormed role text.now }
    ensures { OnOk result (names.new ≡ found_all names.old (names_of role text.now)) }
{
    match role {
        Role::Class => {
            if text.starts_with(b"[") {
                add_descriptor(names, text)
            } else {
                names.add(text)
            }
        }
        Role::Descriptor => add_descriptor(names, text),
        Role::ClassSig => add_signature(names, text, Which::Class),
        Role::MethodSig => add_signature(names, text, Which::Method),
        Role::FieldSig => add_signature(names, text, Which::Field),
        Role::Package | Role::Module | Role::Str | Role::Plain | Role::AttrName => Ok(()),
    }
}

/// Notes that a text is looked at in the role in which it is used. The answer is whether it wasn't before.
fn note(noted: &mut TextAnswers, used: &Used) -> bool
    ensures noted { Notes noted.new noted.old used.now }
    ensures again { result ≡ false → answer_at noted.old used.now.index used.now.role ≡ Some true }
{
    if noted.get(used.index, used.role) == Some(true) {
        return false;
    }
    noted.keep(used.index, used.role, true);
    true
}

/// Whether a text that is used is looked at. One whose role holds no class names isn't, nor is a descriptor or a signature
/// that was looked at in this role.
fn is_looked_at(noted: &mut TextAnswers, used: &Used) -> bool
    ensures noted { Notes noted.new noted.old used.now }
    ensures again { result ≡ false → (answer_at noted.old used.now.index used.now.role ≡ Some true) ⊎ HoldsNone used.now.role }
{
    match used.role {
        Role::Class => true,
        Role::Descriptor | Role::ClassSig | Role::MethodSig | Role::FieldSig => note(noted, used),
        Role::Package | Role::Module | Role::Str | Role::Plain | Role::AttrName => false,
    }
}

/// The class names of the texts that are used, each once, in the order in which they first stand.
pub fn held_names(alloc: Global, pool: &Pool<'_>, uses: &[Used]) -> Result<HeldNames, Memory>
    requires { AreFormed pool.now.entries uses.now }
    ensures { IfOk result (λ names. names ≡ each_once (held_by pool.now.entries uses.now)) }
{
    let mut names = FoundNames::new(alloc)?;
    let mut noted = TextAnswers::none(alloc, pool.count())?;
    for used in uses {
        if is_looked_at(&mut noted, used) {
            add_names(&mut names, used.role, text_at(pool, used.index))?;
        }
    }
    names.pack(alloc)
}

/// The names of a set, in byte order.
fn list_of(alloc: Global, names: BTreeSet<Text>) -> Result<TextList, Memory>
    ensures all { IfOk result (λ list. list ≡ names.keys) }
    ensures once { IfOk result (IsStrictlySortedBy (slice_cmp nat_cmp)) }
{
    let mut list = TextList::empty(alloc);
    for name in names {
        list.push(name)?;
    }
    Ok(list)
}

/// The names that a class holds, in byte order, each once. The only error is want of memory.
pub fn in_order(alloc: Global, names: &HeldNames) -> Result<TextList, Memory>
    ensures { IfOk result (λ list. list ≡ ascending names.now) }
{
    let mut set = BTreeSet::new(alloc);
    for place in 0..names.len() {
        set.insert(Text::from_bytes(alloc, names.get(place))?)?;
    }
    list_of(alloc, set)
}
