//! Cases of rule files and of what is renamed by them: properties, patterns, entries, rule sets, and the images of names,
//! strings, descriptors and signatures.
//!
//! The entries of properties are those that `java.util.Properties` of JDK 17 loads by a reader of UTF-8, put into a map that
//! keeps the first place of a key, but for the headings that name Java; the places of bytes that are no UTF-8 are from table
//! 3-7 of Unicode. Patterns with `*` alone fit as `fnmatch` of the C library does without flags, for which `*` stands for `/`
//! too. The other values are from the formats (JVMS 4, OSGi Core), or worked by hand.
//!
//! ```text
//! properties CONTENT                         the keys and values of a file, or its fault
//! fits PATTERN PATH                          whether a pattern fits a path
//! selects PATH PATTERN MARK ..               whether the selection of these patterns takes a path; `!` excludes
//! read-rename | read-versions | read-update | read-mark | read-text-name KEY VALUE       what an entry says, or which of the
//! check-string KEY VALUE                                                                 two hasn't its form
//! check-text-rule KEY
//! rules NAME CONTENT ..                      builds the rule set of these files, by which the commands below go, or tells
//!                                            their fault
//! package PATH | dotted-package NAME         how many bytes of a package are exchanged, and for how many segments
//! is-source NAME                             whether a name is the source of a rename
//! import-version | export-version PACKAGE    its version
//! bundle NAME                                its new name and version
//! direct TEXT                                what a direct rule makes of it
//! selected PATH                              whether a path is selected
//! longest PATH TEXT AT                       the longest source at a place of a text, by the text rules of a path
//! rename-dotted | rename-string | rename-package | rename-class | rename-descriptor | rename-class-signature
//!     | rename-field-signature TEXT          the image of a text, where it is another one
//! field-signature-becomes TEXT IMAGE         whether it is this one
//! append NAME PACKAGE                        the images of a dotted name and of a package, one behind the other
//! known NAME                                 the image of a class name, where none are known
//! ```
#![tactic(auto)]

mod case;
mod commands;
mod entries;
mod images;
mod patterns;
mod properties;
mod rule_sets;
mod told;
mod words;

use case::Case;
use std::io;
use test_cases::answer_all;

fn main(rt: HostRuntime) -> io::Result<()> {
    answer_all(&rt, &mut Case::new(rt.alloc()))
}
