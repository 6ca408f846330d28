//! Sections of manifests (JAR File Specification): lines of headers, and headers folded into lines.
//!
//! ```text
//! let line = cut_header_line(b"Import-Package: a.b,c.d");
//! // line.name is "Import-Package", and line.value is "a.b,c.d"
//! append_folded(&mut out, b"\r\n", b"\r\n", &text)?; // the text in lines of at most 72 bytes
//! ```
#![tactic(auto)]

mod folding;
mod headers;

pub use folding::append_folded;
pub use headers::{
    Continued, HeaderLine, append_unfolded, cut_header_line, is_continuation, is_header_line,
    skip_continuations,
};
