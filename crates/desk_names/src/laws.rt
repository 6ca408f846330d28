//! The laws of descriptors and signatures.

ghost use Rattle.desk_names.specs.Laws.{TreesOfDescriptors, PartsOfDescriptors, TreesOfSignatures, PartsOfSignatures};

/// The test of a descriptor takes exactly the texts of trees, and each has one tree.
pub fn descriptors_have_one_tree()
    ensures { TreesOfDescriptors }
{}

/// The parts of a descriptor hold its class names; exchanging these in the parts exchanges them in the tree.
pub fn parts_of_descriptors_exchange()
    ensures { PartsOfDescriptors }
{}

/// Signatures are read exactly, and each has one tree.
pub fn signatures_have_one_tree()
    ensures { TreesOfSignatures }
{}

/// The parts of a signature hold its class names; exchanging these in the parts exchanges them in the tree.
pub fn parts_of_signatures_exchange()
    ensures { PartsOfSignatures }
{}
