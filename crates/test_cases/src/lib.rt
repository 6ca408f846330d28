//! Cases of tests as data. A program of tests reads its standard input line by line, writes each line again, and behind a
//! command what it answers. So the file `stdin` of such a program is a list of cases, and its file `stdout` the same list with
//! what is wanted of each.
//!
//! ```text
//! # an array has at most 255 dimensions       a heading, which begins a case
//! descriptor field \{256*[}I                  a command and its words
//!     none                                    what it answers (in `stdout` alone)
//! ```
//!
//! Words stand between single blanks. Within a word, `\s` is a blank, `\n` a line feed, `\r` a carriage return, `\t` a tab,
//! `\\` a backslash, `\e` nothing at all, `\xHH` the byte with these two digits of base 16, and `\{N*TEXT}` the text, in which
//! these may stand, N times. A line without bytes is nothing.
#![tactic(auto)]

mod answers;
mod shown;
mod words;

pub use answers::{Answers, answer_all};
pub use shown::Shown;
pub use words::words_of;
