//! Cases of files under rules: where a file goes; what a service file, a manifest, a text and a class become, and why some
//! have no image; and the graph of an application's classes. They show what no contract says: that the definitions mean what
//! the formats say (JVMS 4, JAR, ServiceLoader, OSGi Core), and that each call answers with memory enough. The values are from
//! these formats, or worked by hand.
//!
//! ```text
//! rules NAME CONTENT ..                      the rule set of these files, by which the commands below go
//! place PATH                                 its class root, what follows, and its kind
//! goes PATH                                  where a selected file there goes, and where this one goes
//! service CONTENT                            a service file's image, and how many of its names changed
//! manifest CONTENT                           a manifest's image, and how many of its headers changed
//! text PATH TARGET CONTENT                   a text's image by the text rules of a path and its target
//! longest PATH TEXT AT                       the longest source at a place of a text
//! twins AT DESCRIPTOR ..                     the first two methods of one name that share a descriptor
//! body                                       a body with new indices
//! rewrite CONTENT                            what a class becomes
//! rewrite-as CONTENT WANTED                  whether it becomes these bytes
//! rewrite-servlet                            the same of the servlet of `worked_classes`
//! rewrite-servlet-with-255                   at how many places the servlet is answered with 255 in place of the byte there
//! class selected|unselected PATH NAME ..     puts a class of this name that holds these names
//! classes PACKAGE COUNT                      puts so many classes, whose names are the package and a number
//! scan selected|unselected PATH CONTENT      puts what a scan keeps of a class, and tells whether it is its own image
//! graph image|node|links WORD ..             takes the classes that were put, and asks their graph
//! treated PATH                               where a file goes, how it is treated, and whether it is read whole
//! file PATH CONTENT                          what becomes of a file in the application of the classes that were put
//! ```
#![tactic(auto)]

mod case;
mod commands;
mod files;
mod graphs;
mod images;
mod paths;
mod pools;
mod put;
mod rewriting;
mod told;
mod words;

use case::Case;
use std::io;
use test_cases::answer_all;

fn main(rt: HostRuntime) -> io::Result<()> {
    answer_all(&rt, &mut Case::new(rt.alloc()))
}
