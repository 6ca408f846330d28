//! Patterns of paths, selections of paths by patterns, and rules that exchange texts in the files at such paths.
//!
//! ```text
//! fits(b"*.xml", b"WEB-INF/web.xml"); // true: `*` stands for any bytes, `/` included
//! fits(b"*.xml", b"WEB-INF/web.xml.bak"); // false: a pattern fits the whole path
//! ```
#![tactic(auto)]

mod first_bytes;
mod kept_rules;
mod pattern_texts;
mod patterns;
mod selections;
mod sources;
mod text_rules;

pub use pattern_texts::{PathTexts, PatternPlace, PatternTexts};
pub use patterns::fits;
pub use selections::{Mark, Selection};
pub use text_rules::{TextHit, TextPlace, TextRules};
