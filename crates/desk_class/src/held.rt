//! The class names that a class holds, packed.

ghost use Rattle.std.specs.Prelude.{◌≡◌, ◌<◌, ◌==◌, [], length, slice_index_or, IfOk};
ghost use Rattle.desk_class.specs.Found.{texts};

use desk_base::Memory;
use std::alloc::Global;
use std::marker::Model;

/// Class names, one behind the other in one block. Contracts see the list of names.
#[derive(Debug, Drop)]
pub struct HeldNames {
    bytes: Vec<u8>,
    ends: Vec<u32>,
}

impl Model for HeldNames {
    ghost use Rattle.std.specs.Prelude.{ℕ, List, length};
    ghost use Rattle.desk_class.specs.Packed.{cut_at, AreEnds};

    ghost Value = { List (List ℕ) };

    ghost view = { λ h. cut_at h.bytes.items 0 h.ends.items };

    ghost invariant = { λ h. AreEnds 0 h.ends.items (length h.bytes.items) };
}

/// How many bytes texts have together; 2^64 - 1 where they are more.
fn room_for(texts: &[&[u8]]) -> usize {
    let mut count = 0usize;
    for text in texts {
        count = count.saturating_add(text.len());
    }
    count
}

impl HeldNames {
    /// These names, copied. The only error is want of memory, as which 4 GiB of names count.
    pub fn of(alloc: Global, names: &[&[u8]]) -> Result<HeldNames, Memory>
        ensures { IfOk result (λ held. held ≡ texts names.now) }
    {
        let mut bytes = Vec::with_capacity(alloc, room_for(names))?;
        let mut ends = Vec::with_capacity(alloc, names.len())?;
        for name in names {
            bytes.extend_from_slice(name)?;
            let end = bytes.len();
            if end > 4_294_967_295 {
                return Err(Memory);
            }
            ends.push(end as u32)?;
        }
        Ok(HeldNames { bytes, ends })
    }

    /// How many names there are.
    pub fn len(&self) -> usize
        ensures { result ≡ length self.now }
    {
        self.ends.len()
    }

    /// Whether there is no name.
    pub fn is_empty(&self) -> bool
        ensures { result ≡ (length self.now == 0) }
    {
        self.ends.is_empty()
    }

    /// The name at a place, counted from 0, with `/` between packages.
    pub fn get(&self, place: usize) -> &[u8]
        requires { place < length self.now }
        ensures { result.now ≡ slice_index_or self.now place [] }
    {
        let start = if place == 0 { 0 } else { self.ends[place - 1] };
        let end = self.ends[place];
        &self.bytes[start as usize..end as usize]
    }
}
