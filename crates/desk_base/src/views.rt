//! What walkers over a class file use: a view of its constant pool, and a taker of uses.

ghost use Rattle.std.specs.Prelude.{◌≡◌, ◌++◌, ◌∷◌, [], OnOk, OnErr, List, option_copied};
ghost use Rattle.desk_base.specs.declared.kinds.Used.{Used};
ghost use Rattle.desk_base.specs.Entries.{Pool, tag_at, utf8_at};
ghost use Rattle.desk_base.specs.Misfits.{misfit};

use crate::Memory;
use crate::faults::FaultKind;
use crate::kinds::{Tag, UseKind, Used};

/// A constant pool (JVMS 4.4), which is a map from index to entry. No call takes memory.
pub trait PoolView {
    /// The map from index to entry.
    ghost pool: { Self → Pool };

    /// The tag of the entry that an index names; none where it names none.
    fn tag(&self, index: u16) -> Option<Tag>
        ensures { result ≡ tag_at (pool self.now) index };

    /// The text of the Utf8 that an index names; none exactly where it names no Utf8.
    fn utf8(&self, index: u16) -> Option<&[u8]>
        ensures { option_copied result ≡ utf8_at (pool self.now) index };

    /// None exactly where an index fits a use kind. Else it is Index where it names no entry or one of another tag,
    /// Descriptor where the text that it leads to hasn't the wanted descriptor form, and ClassName where that text isn't
    /// a class name as wanted.
    fn check(&self, index: u16, kind: UseKind) -> Option<FaultKind>
        ensures { result ≡ misfit (pool self.now) kind index };
}

/// What a walker hands the uses of texts to, one after the other, in the order in which they stand in the file.
pub trait Visit {
    /// The uses that it took, in their order.
    ghost taken: { Self → List Used };

    /// Takes a use. After want of memory, the only error, what it took is as it was.
    fn visit(&mut self, used: Used) -> Result<(), Memory>
        ensures ok { OnOk result (taken self.new ≡ taken self.old ++ used ∷ []) }
        ensures err { OnErr result (taken self.new ≡ taken self.old) };
}

/// A list keeps the uses that it took at its end.
impl Visit for Vec<Used> {
    ghost taken = { λ list. list.items };

    fn visit(&mut self, used: Used) -> Result<(), Memory> {
        self.push(used)?;
        Ok(())
    }
}
