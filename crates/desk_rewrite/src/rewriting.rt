//! The new class, or why there is none.

ghost use Rattle.std.specs.Prelude.{◌≡◌, ◌<◌, ◌^◌, false, All, IfOk, IfErr, OnOk, None, Ok, map, count_by, length};
ghost use Rattle.desk_format.specs.Classes.{Class, class_uses, read_class};
ghost use Rattle.desk_format.specs.NewClass.{new_bytes, new_class, refusal};
ghost use Rattle.desk_laws.specs.Classes.{IsRenamedClass, IsUnchangedClass};
ghost use Rattle.desk_format.specs.NewPool.{added};
ghost use Rattle.desk_format.specs.Resolved.{Images};
ghost use Rattle.desk_format.specs.Laws.{IsBytes};
ghost use Rattle.desk_format.specs.Members.{members};
ghost use Rattle.desk_format.specs.Classes.{uses_in};
ghost use Rattle.desk_class.specs.Parts.{pool_in};
ghost use Rattle.desk_new_pool.specs.Wants.{IsWanted};
ghost use Rattle.desk_rewrite.specs.Counts.{renamed_count, odd_count};
ghost use Rattle.desk_rewrite.specs.Refused.{Refuses};
ghost use Rattle.desk_follow.specs.Follow.{HasImagesOfNames};
ghost use Rattle.desk_follow.specs.RuleImages.{images_of};
ghost use Rattle.desk_rewrite.specs.Tables.{HasDescriptors};
ghost use Rattle.desk_rewrite.specs.Wanting.{used_in, IsWantedUnder, AreWanted};
ghost use Rattle.desk_laws.specs.Sound.{IsShaped};

use crate::counts::{odd_uses, renamed_uses};
use crate::images::tell_settled;
use crate::members::numbered_members;
use crate::printing::{bytes_of, new_bytes};
use crate::table::{ImageTable, all_images};
use crate::wants::wanted_texts;
use desk_base::{Memory, Text};
use desk_class::ClassView;
use desk_new_pool::{NewPoolFault, TwinPlaces, WantedTexts, first_twins, split};
use desk_rename::Images;
use desk_rules::RuleSet;
use std::alloc::Global;

/// A class that was rewritten, with what its line in the report counts.
#[derive(Debug, Drop)]
pub struct Rewritten {
    /// The whole of the new class file.
    pub bytes: Text,
    /// How many uses of texts have an image that differs from their text.
    pub renamed: u32,
    /// How many texts were added to the constant pool.
    pub added: u32,
    /// How many uses as a signature have a text that is no signature of their kind, or one whose type arguments nest more
    /// than 64 deep.
    pub odd: u32,
}

/// Why a class isn't rewritten.
#[derive(Clone, Copy, Debug, PartialEq, Eq)]
pub enum RewriteFault {
    /// A text of the new class would have more than 65,535 bytes (JVMS 4.4.7).
    Overlong {
        /// The least index whose uses want such a text.
        index: u16,
        /// The greatest length of a text that the uses of this index want, in bytes.
        length: u64,
    },
    /// The new constant pool would have more than 65,535 as its count (JVMS 4.1).
    PoolFull {
        /// `constant_pool_count` of the old class (JVMS 4.1).
        count: u16,
        /// How many texts would be added.
        needed: u32,
    },
    /// Two fields or two methods of the new class would share name and descriptor (JVMS 4.5, 4.6).
    Twins {
        /// The offset of the first in the old class, in bytes.
        first: u32,
        /// The offset of the second in the old class, in bytes. No member before it is one of twins with a lesser second.
        second: u32,
    },
    /// Memory ran out.
    Memory,
}

impl From<Memory> for RewriteFault {
    ghost use Rattle.desk_rewrite.specs.declared.rewriting.RewriteFault.TheVariants as rewrite_faults;

    ghost from_gives = { λ _ fault. fault ≡ rewrite_faults.Memory };

    fn from(_: Memory) -> RewriteFault {
        RewriteFault::Memory
    }
}

impl From<NewPoolFault> for RewriteFault {
    ghost use Rattle.desk_rewrite.specs.Refused.{fault_of};

    ghost from_gives = { λ split fault. fault ≡ fault_of split };

    fn from(split: NewPoolFault) -> RewriteFault {
        match split {
            NewPoolFault::Overlong { index, length } => RewriteFault::Overlong { index, length },
            NewPoolFault::PoolFull { count, needed } => RewriteFault::PoolFull { count, needed },
            NewPoolFault::Memory => RewriteFault::Memory,
        }
    }
}

/// The bytes of the new class, and how many texts were added. What the uses want is let go before the bytes are made.
fn new_class(
    alloc: Global,
    view: &ClassView<'_>,
    table: &ImageTable,
    wants: WantedTexts<'_>,
) -> Result<(Text, u32), RewriteFault>
    requires shaped { IsShaped false (pool_in view.now) }
    requires few { length (uses_in view.now) < 2 ^ 32 }
    requires wants { All (IsWanted (pool_in view.now)) wants }
    requires images { (im : Images) × All (IsWantedUnder im (pool_in view.now)) wants }
    requires used { map used_in wants ≡ uses_in view.now }
    ensures bytes { IfOk result (λ new. (im : Images) (c : Class) → read_class view.now ≡ Ok c → AreWanted im c wants.entry → new.0 ≡ new_bytes im view.now c) }
    ensures added { IfOk result (λ new. (im : Images) (c : Class) → read_class view.now ≡ Ok c → AreWanted im c wants.entry → new.1 ≡ length (added im c.pool (class_uses c))) }
    ensures accepted { OnOk result ((im : Images) (c : Class) → read_class view.now ≡ Ok c → AreWanted im c wants.entry → HasDescriptors im c.pool table.now (members c.body) → refusal im c ≡ None) }
    ensures refused { IfErr result (λ fault. (im : Images) (c : Class) → read_class view.now ≡ Ok c → AreWanted im c wants.entry → HasDescriptors im c.pool table.now (members c.body) → Refuses fault (refusal im c)) }
{
    let pool = view.pool();
    let count = pool.count();
    let new = split(alloc, pool, count, &wants)?;
    drop(wants);
    let members = numbered_members(alloc, pool, table, view.members())?;
    if let Some(TwinPlaces { first, second }) = first_twins(alloc, &members)? {
        return Err(RewriteFault::Twins { first, second });
    }
    let added = (new.texts.len() - count as usize) as u32;
    let bytes = new_bytes(alloc, view, &new)?;
    Ok((bytes, added))
}

/// The bytes of a text, each of them below 256.
fn bytes_in(text: &Text) -> &[u8]
    ensures bytes { result.now ≡ text.now }
    ensures each { IsBytes text.now }
{
    let bytes = text.as_bytes();
    bytes
}

/// The new class of a class under a rule set: its bytes, and how many of its uses changed. Each use of a text gets the
/// image of that text by its role, and all other bytes stay. A class name is looked up in `images` first. A class in which
/// nothing changes is copied.
///
/// The new class is well-formed, its resolved tree is the renamed one, its constant pool keeps each old index with its tag,
/// the class names that it holds are the images of those that the class holds, and rewriting it again changes nothing.
///
/// The errors are, in this order, a text of more than 65,535 bytes, a constant pool whose count would be above 65,535, two
/// members that become one, and want of memory.
pub fn rewrite<I: Images>(
    alloc: Global,
    rules: &RuleSet,
    images: &I,
    view: &ClassView<'_>,
) -> Result<Rewritten, RewriteFault>
    requires { I.renames images.now ≡ rules.now.renames }
    ensures bytes { IfOk result (λ new. (c : Class) → read_class view.now ≡ Ok c → new.bytes ≡ new_bytes (images_of rules.now) view.now c) }
    ensures each { IfOk result (λ new. IsBytes new.bytes) }
    ensures renamed { IfOk result (λ new. (c : Class) → read_class view.now ≡ Ok c → new.renamed ≡ renamed_count (images_of rules.now) c) }
    ensures added { IfOk result (λ new. (c : Class) → read_class view.now ≡ Ok c → new.added ≡ length (added (images_of rules.now) c.pool (class_uses c))) }
    ensures odd { IfOk result (λ new. (c : Class) → read_class view.now ≡ Ok c → new.odd ≡ odd_count c) }
    ensures accepted { OnOk result ((c : Class) → read_class view.now ≡ Ok c → refusal (images_of rules.now) c ≡ None) }
    ensures refused { IfErr result (λ fault. (c : Class) → read_class view.now ≡ Ok c → Refuses fault (refusal (images_of rules.now) c)) }
    ensures isomorphic { OnOk result ((c : Class) → read_class view.now ≡ Ok c → IsRenamedClass (images_of rules.now) view.now c) }
    ensures names { OnOk result ((c : Class) → read_class view.now ≡ Ok c → HasImagesOfNames rules.now.renames c (new_class (images_of rules.now) c)) }
    ensures again { IfOk result (λ new. (c : Class) → read_class view.now ≡ Ok c → IsUnchangedClass (images_of rules.now) new.bytes (new_class (images_of rules.now) c)) }
{
    tell_settled(rules);
    let bytes = bytes_of(view);
    let table = all_images(alloc, rules, images, view.pool(), view.uses())?;
    let odd = odd_uses(alloc, view.pool(), view.uses())?;
    let ((bytes, added), renamed) = if table.is_empty() {
        ((Text::from_bytes(alloc, bytes)?, 0), 0)
    } else {
        let wants = wanted_texts(alloc, &table, view.uses())?;
        let renamed = renamed_uses(&wants);
        let (bytes, added) = new_class(alloc, view, &table, wants)?;
        ((bytes, added), renamed)
    };
    // `bytes_in` says that they are bytes.
    let _each = bytes_in(&bytes);
    Ok(Rewritten {
        bytes,
        renamed,
        added,
        odd,
    })
}
