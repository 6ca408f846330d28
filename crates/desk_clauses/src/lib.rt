//! The grammar of header values that are lists of clauses (OSGi Core 3.2.4), and texts with some of their bytes exchanged.
//!
//! ```text
//! let (clause, more) = split_first_part(b"a.b;version=\"[1,2)\",c.d", b',');
//! // clause is `a.b;version="[1,2)"`, and more is Some(`c.d`)
//! let (path, more) = split_first_part(clause, b';');
//! // path is `a.b`, and more is Some(`version="[1,2)"`), which is a parameter
//! ```
#![tactic(auto)]

mod blanks;
mod edits;
mod grammar;
mod quotes;

pub use blanks::{append_between_blanks, between_blanks, quoted, with_argument};
pub use edits::{Edits, image_or_none};
pub use grammar::{ClausePlace, Part, first_path, has_directive_key, is_in_grammar};
pub use quotes::{is_closed, is_quoted, split_first_item, split_first_part};
