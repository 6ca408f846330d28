//! The generated application: classes that name one another, a service file, and the rule file that renames them.
//!
//! ```text
//! let files = generate(alloc, 2)?;
//! files[0].path                            // javax/gen/p0/C0.class, which names javax/gen/p1/C1
//! files[1].path                            // javax/gen/p1/C1.class, which names javax/gen/p0/C0
//! files[2].path                            // META-INF/services/javax.gen.p0.C0
//! rule_file(alloc)?.content                // javax.gen.*=jakarta.gen and a line end
//! generate(alloc, 0)                       // Err(GenFault::Limit)
//! ```
#![tactic(auto)]

mod application;
mod class;
mod entries;
mod names;

pub use application::{GenFault, generate, rule_file};
