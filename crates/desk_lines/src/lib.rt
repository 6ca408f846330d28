//! Lines of a text with their ends (LF, CR LF or CR, of which the last line may have none), and blanks (spaces and tabs).
//!
//! ```text
//! let mut rest: &[u8] = b"a.B # first\r\n c.D";
//! while let Some((line, more)) = split_first_line(rest) {
//!     // "a.B # first" and LineEnd::CrLf, then " c.D" and LineEnd::EndOfText
//!     let content = trim_blanks(line.content);
//!     rest = more;
//! }
//! ```
#![tactic(auto)]

mod blanks;
mod laws;
mod lines;

pub use blanks::{count_leading_blanks, has_blank, is_blank, trim_blanks, trim_trailing_blanks};
pub use laws::{text_is_its_lines, well_ended_lines_are_found};
pub use lines::{Line, LineEnd, split_first_line};
