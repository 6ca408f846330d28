//! The laws of images under the renames of a rule set, which `RuleSet::package` says to be settled.

ghost use Rattle.desk_rename.specs.Laws.{EachPackage, EachClass, EachDescriptor, EachSignature, EachUtf8};

/// The image of a package is its own image, and a package stays a package.
pub fn packages_stay()
    ensures { EachPackage }
{}

/// The image of a class's or an array's name is its own image. A class name stays one, with the image
/// of its package and its own last part; an array stays an array, and a field descriptor.
pub fn class_names_stay()
    ensures { EachClass }
{}

/// The image of a descriptor is the text of its tree with the image of each class name; it is its own
/// image, and a descriptor of the same kind. Any other text is its own image.
pub fn descriptors_stay()
    ensures { EachDescriptor }
{}

/// The image of a signature is the text of its tree with each package specifier exchanged; it is its
/// own image, and a signature of the same kind. Any other text is its own image.
pub fn signatures_stay()
    ensures { EachSignature }
{}

/// The images of modified UTF-8 are modified UTF-8 (JVMS 4.4.7), where the targets of the renames are, as those of a rule set
/// are.
pub fn modified_utf8_stays()
    ensures { EachUtf8 }
{}
