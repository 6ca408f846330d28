//! The first fault of a pool with one, by two passes over its entries: each index names an entry of a fitting tag, and leads to
//! a text of its form.

ghost use Rattle.std.specs.Prelude.{◌≡◌, ◌+◌, ◌≤◌, false, length, Some};
ghost use Rattle.desk_base.specs.Limits.{file_size};
ghost use Rattle.desk_base.specs.Referents.{links};
ghost use Rattle.desk_format.specs.PoolBytes.{size, print_slots};
ghost use Rattle.desk_base.specs.Misfits.{or_else};
ghost use Rattle.desk_format.specs.PoolReading.{first_among, first_fault, names_wrong, leads_wrong};
ghost use Rattle.desk_pool.specs.Seen.{entry_of, seen, link_of, listed, check_of};
ghost use Rattle.desk_pool.specs.Fits.{slots_fit};

use crate::constant::Constant;
use crate::links::{Link, links_of};
use crate::lookup::{wrong_entry, wrong_text};
use desk_base::{FaultKind, Malformed};

/// What a pass looks at: the tags of what indices name, or the texts that they lead to.
#[derive(Clone, Copy)]
pub enum Pass {
    /// The tags of the entries that indices name.
    Names,
    /// The forms of the texts that indices lead to.
    Texts,
}

/// What a pass says of an index.
fn fault_of(slots: &[Option<Constant<'_>>], pass: Pass, link: Link) -> Option<FaultKind>
    ensures { result ≡ check_of pass (seen slots.now) (link_of link) }
{
    match pass {
        Pass::Names => wrong_entry(slots, link.referent, link.index),
        Pass::Texts => wrong_text(slots, link.referent, link.index),
    }
}

/// What a pass says of an index, with the offset of the index, where the tag of its entry stands at the offset `at`.
fn fault_at(
    slots: &[Option<Constant<'_>>],
    pass: Pass,
    link: Option<Link>,
    at: u32,
) -> Option<Malformed>
    requires { at ≤ file_size }
    ensures { result ≡ first_among (check_of pass (seen slots.now)) at (listed link) }
{
    let link = link?;
    let kind = fault_of(slots, pass, link)?;
    Some(Malformed {
        kind,
        at: at + u32::from(link.behind),
    })
}

/// The first fault of the indices of an entry, whose tag stands at a place.
fn first_among(
    slots: &[Option<Constant<'_>>],
    pass: Pass,
    constant: &Constant<'_>,
    at: u32,
) -> Option<Malformed>
    requires { at ≤ file_size }
    ensures { result ≡ first_among (check_of pass (seen slots.now)) at (links (entry_of constant.now)) }
{
    let links = links_of(constant);
    match fault_at(slots, pass, links.first, at) {
        Some(fault) => Some(fault),
        None => fault_at(slots, pass, links.second, at),
    }
}

/// How many bytes an entry takes in the file, its tag included.
pub fn size_of(constant: &Constant<'_>) -> u32
    requires { size (entry_of constant.now) ≤ file_size }
    ensures { result ≡ size (entry_of constant.now) }
{
    match *constant {
        Constant::Utf8(text) => text.bytes.len() as u32 + 3,
        Constant::Integer(bytes)
        | Constant::Float(bytes)
        | Constant::Long(bytes)
        | Constant::Double(bytes) => bytes.len() as u32 + 1,
        Constant::Class(_)
        | Constant::String(_)
        | Constant::MethodType(_)
        | Constant::Module(_)
        | Constant::Package(_) => 3,
        Constant::MethodHandle(_, _) => 4,
        Constant::Fieldref(_, _)
        | Constant::Methodref(_, _)
        | Constant::InterfaceMethodref(_, _)
        | Constant::NameAndType(_, _)
        | Constant::Dynamic(_, _)
        | Constant::InvokeDynamic(_, _) => 5,
    }
}

/// The first fault that a pass finds in the entries, the first of which stands at a place.
fn first_fault(slots: &[Option<Constant<'_>>], pass: Pass, start: u32) -> Option<Malformed>
    requires { start + length (print_slots (seen slots.now)) ≤ file_size }
    ensures { result ≡ first_fault (check_of pass (seen slots.now)) start (seen slots.now) }
{
    let mut at = start;
    for slot in slots {
        if let Some(constant) = slot {
            if let Some(fault) = first_among(slots, pass, constant, at) {
                return Some(fault);
            }
            at += size_of(constant);
        }
    }
    None
}

/// The first fault of entries, the first of which stands at a place: one of what their indices name, or else one of the forms
/// of the texts that they lead to.
pub fn first_misfit(slots: &[Option<Constant<'_>>], start: u32) -> Malformed
    requires size { start + length (print_slots (seen slots.now)) ≤ file_size }
    requires misfit { slots_fit (seen slots.now) (seen slots.now) ≡ false }
    ensures { or_else (first_fault (names_wrong (seen slots.now)) start (seen slots.now)) (first_fault (leads_wrong (seen slots.now)) start (seen slots.now)) ≡ Some result }
{
    if let Some(fault) = first_fault(slots, Pass::Names, start) {
        return fault;
    }
    match first_fault(slots, Pass::Texts, start) {
        Some(fault) => fault,
        None => unreachable!(),
    }
}
