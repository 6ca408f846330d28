//! Laws of the definitions. Each function runs to no effect: what it says is its contract.

ghost use Rattle.desk_laws.specs.Classes.{PrintedClasses, RefusedTwins, RenamedClasses, UnchangedClasses};
ghost use Rattle.desk_laws.specs.Missing.{MissingTexts};
ghost use Rattle.desk_laws.specs.NewPools.{NewPools};
ghost use Rattle.desk_laws.specs.Pools.{PrintedPools};
ghost use Rattle.desk_laws.specs.Values.{FollowedValues};

/// A constant pool that was read is well-formed, and the printed bytes of a well-formed pool are read
/// into it, whatever follows them.
pub fn printed_pools()
    ensures { PrintedPools }
{}

/// The new constant pool is well-formed, keeps the tag of each old index, grows by the missing texts
/// alone, and each old index and each index of the body leads to the renamed value.
pub fn new_pools()
    ensures { NewPools }
{}

/// In a well-formed constant pool no value has an index left in it: following indices three levels deep
/// follows them all.
pub fn followed_values()
    ensures { FollowedValues }
{}

/// The texts that a new constant pool appends are in byte order, each once, and are exactly those that
/// some use wants and no entry keeps.
pub fn missing_texts()
    ensures { MissingTexts }
{}

/// A class that was read prints to its bytes, each index at its place and of its kind.
pub fn printed_classes()
    ensures { PrintedClasses }
{}

/// The new class of a well-formed class for which no refusal stands is well-formed, and its resolved
/// tree is the renamed one, under images that keep forms.
pub fn renamed_classes()
    ensures { RenamedClasses }
{}

/// Where no text is too long and the pool has room, twins are refused exactly where the new class has
/// twins.
pub fn refused_twins()
    ensures { RefusedTwins }
{}

/// The new class of the new class is itself, under images that are their own images.
pub fn unchanged_classes()
    ensures { UnchangedClasses }
{}
