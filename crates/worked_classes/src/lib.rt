//! Worked class files, whole and damaged, with what the definitions of `desk_format` say of them: each contract here is
//! computed from the bytes.
//!
//! ```text
//! let bytes = worked_classes::servlet::SERVLET;           // as javac compiles it
//! let uses = worked_classes::servlet::servlet_uses();     // its uses of texts, as javap prints them
//! ```
#![tactic(auto)]

pub mod compiled;
pub mod renames;
pub mod samples;
pub mod servlet;
