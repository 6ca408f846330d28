//! Text rules as they are held: the texts of all in one, one behind the other.

ghost use Rattle.std.specs.Prelude.{◌≡◌, ◌<◌, ◌+◌, ◌∷◌, ◌++◌, [], length, slice_index, OnOk, OnErr, IfOk, IfSome};
ghost use Rattle.desk_patterns.specs.TextRules.{source_at};
ghost use Rattle.desk_patterns.specs.Tables.{target_at};
ghost use Rattle.desk_patterns.specs.Seen.{rules_seen, shorter_seen};

use desk_base::Memory;
use std::alloc::Global;
use std::marker::Model;

/// Where a rule's source and target stand in the texts of all rules: the one behind the other.
#[derive(Clone, Copy, Debug)]
struct Part {
    start: u32,
    /// Where the source ends, and the target begins.
    middle: u32,
    end: u32,
    /// One more than the place of the longest other source that starts this one; 0 where there is none.
    shorter: u32,
}

/// Rules by their places, each with the place of the next shorter source to be tried in its own's place. Contracts see
/// the list of the rules.
#[derive(Debug, Drop)]
pub(crate) struct KeptRules {
    texts: Vec<u8>,
    parts: Vec<Part>,
}

impl Model for KeptRules {
    ghost use Rattle.std.specs.Prelude.{List};
    ghost use Rattle.desk_patterns.specs.Seen.{KeptRule as Rule};
    ghost use Rattle.desk_patterns.specs.Parts.{kept_seen, AreParts};

    ghost Value = { List Rule };

    ghost view = { λ k. kept_seen k.texts.items k.parts.items };

    ghost invariant = { λ k. AreParts k.texts.items k.parts.items };
}

/// The part of a rule behind so many bytes, with so many bytes of its source and its target; none where they pass 32 bits.
fn new_part(start: usize, source: usize, target: usize, shorter: usize) -> Option<Part>
    ensures { IfSome result (λ part. part ≡ record { start = start; middle = start + source; end = start + source + target; shorter = shorter }) }
{
    let start = u32::try_from(start).ok()?;
    let middle = start.checked_add(u32::try_from(source).ok()?)?;
    let end = middle.checked_add(u32::try_from(target).ok()?)?;
    let shorter = u32::try_from(shorter).ok()?;
    Some(Part {
        start,
        middle,
        end,
        shorter,
    })
}

impl KeptRules {
    /// No rules. It takes no memory.
    pub(crate) fn none(alloc: Global) -> KeptRules
        ensures { result ≡ [] }
    {
        KeptRules {
            texts: Vec::new(alloc),
            parts: Vec::new(alloc),
        }
    }

    /// No rules, with room for so many, whose sources and targets have so many bytes together. The only error is want of memory.
    pub(crate) fn with_room(alloc: Global, rules: usize, bytes: usize) -> Result<KeptRules, Memory>
        ensures { IfOk result (λ kept. kept ≡ []) }
    {
        let texts = Vec::with_capacity(alloc, bytes)?;
        let parts = Vec::with_capacity(alloc, rules)?;
        Ok(KeptRules { texts, parts })
    }

    /// How many rules there are.
    pub(crate) fn len(&self) -> usize
        ensures { result ≡ length self.now }
    {
        self.parts.len()
    }

    /// The source of the rule at a place.
    pub(crate) fn source(&self, place: usize) -> &[u8]
        requires { place < length self.now }
        ensures { result.now ≡ source_at (rules_seen self.now) place }
    {
        let part = self.parts[place];
        &self.texts[part.start as usize..part.middle as usize]
    }

    /// The target of the rule at a place.
    pub(crate) fn target(&self, place: usize) -> &[u8]
        requires { place < length self.now }
        ensures { result.now ≡ target_at (rules_seen self.now) place }
    {
        let part = self.parts[place];
        &self.texts[part.middle as usize..part.end as usize]
    }

    /// One more than the place of the longest other source that starts the one at a place; 0 where there is none.
    pub(crate) fn shorter(&self, place: usize) -> usize
        requires { place < length self.now }
        ensures { result ≡ slice_index (shorter_seen self.now) place }
    {
        self.parts[place].shorter as usize
    }

    /// Adds a rule behind the others. After want of memory, the only error, the rules are as they were; it also comes where
    /// the texts of all rules have more than 4,294,967,295 bytes.
    pub(crate) fn push(
        &mut self,
        source: &[u8],
        target: &[u8],
        shorter: usize,
    ) -> Result<(), Memory>
        ensures ok { OnOk result (self.new ≡ self.old ++ record { source = source.now; target = target.now; shorter = shorter } ∷ []) }
        ensures err { OnErr result (self.new ≡ self.old) }
    {
        let part = match new_part(self.texts.len(), source.len(), target.len(), shorter) {
            None => return Err(Memory),
            Some(part) => part,
        };
        self.texts.extend_from_slice(source)?;
        self.texts.extend_from_slice(target)?;
        self.parts.push(part)?;
        Ok(())
    }
}
