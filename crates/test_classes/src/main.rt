//! Cases of the crates that read class files: what no contract says, with values from the format (JVMS 4) and from `javap`.
//!
//! ```text
//! pool BYTES                     takes bytes, and tells whether a constant pool stands behind their first 8
//! pool-count | pool-uses         the pool's count; its uses of texts
//! tag INDEX                      the tag of an entry of the pool
//! text INDEX                     the text of a Utf8
//! class-name INDEX               the text that a Class leads to
//! check-class | check-class-name | check-class-name-or-none | check-field-descriptor INDEX      why an index doesn't fit
//! element BYTES                  walks over an element value by the pool that was taken, and tells its fault, or how many
//!                                bytes are left and which texts are used
//! frames | type-annotations | parameter-annotations BYTES                        the same of these parts
//! class-attribute | method-attribute | method-attributes BYTES                   and of attributes
//! class BYTES                    takes bytes, and tells whether they are a class
//! servlet                        takes those of the servlet of `worked_classes`, as `javac` compiles it
//! bytes | body | name | count | members | uses | class-names | held-names        what the class says of itself
//! cuts                           how many of the fronts of the bytes that were taken are truncated
//! faults-with-255 COUNT          whether more than so many faults are found with 255 in place of each byte in turn
//! ```
#![tactic(auto)]

mod case;
mod classes;
mod commands;
mod pools;
mod told;
mod walks;
mod words;

use case::Case;
use std::io;
use test_cases::answer_all;

fn main(rt: HostRuntime) -> io::Result<()> {
    answer_all(&rt, &mut Case::new(rt.alloc()))
}
