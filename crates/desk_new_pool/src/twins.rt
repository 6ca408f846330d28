//! Fields or methods that get one name and descriptor.

ghost use Rattle.std.specs.Prelude.{◌≡◌, List, map, IfOk, option_map};
ghost use Rattle.desk_format.specs.Members.{Named, first_twins};
ghost use Rattle.desk_format.specs.declared.members.Member.{Member};
ghost use Rattle.desk_new_pool.specs.Twins.{AreNumbered, member_in, places_of};

use desk_base::Memory;
use desk_format::Member;
use std::alloc::Global;
use std::collections::BTreeMap;

/// A field or a method, with numbers of the texts that tell it apart.
#[derive(Clone, Copy, Debug)]
pub struct NumberedMember {
    /// The field or the method as the class file has it.
    pub member: Member,
    /// The number of its name; equal names have equal numbers.
    pub name: u16,
    /// The number of its descriptor; equal descriptors have equal numbers.
    pub descriptor: u16,
}

/// Where two fields or two methods stand that have one name and descriptor, which no class may have (JVMS 4.5, 4.6).
#[derive(Clone, Copy, Debug, PartialEq, Eq)]
pub struct TwinPlaces {
    /// The offset of the first, in bytes.
    pub first: u32,
    /// The offset of the second, in bytes.
    pub second: u32,
}

/// The first member that has the name and the descriptor of one of its kind before it, and the first of those, where
/// members have one number exactly where their texts are equal. The only error is want of memory.
pub fn first_twins(alloc: Global, members: &[NumberedMember]) -> Result<Option<TwinPlaces>, Memory>
    ensures { IfOk result (λ twins. (named : Member → Named) → AreNumbered named members.now → twins ≡ option_map places_of (first_twins named (map member_in members.now))) }
{
    let mut places = BTreeMap::new(alloc);
    for numbered in members {
        let key = (numbered.member.method, numbered.name, numbered.descriptor);
        if let Some(first) = places.get(&key) {
            return Ok(Some(TwinPlaces {
                first: *first,
                second: numbered.member.at,
            }));
        }
        places.insert(key, numbered.member.at)?;
    }
    Ok(None)
}
