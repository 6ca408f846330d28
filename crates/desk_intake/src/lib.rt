//! What a run takes in before its first file is written: the rules of the rule folder, the list of the files of the source with their
//! routes, and the graph of its classes; and why it halts there.
//!
//! ```text
//! let ruled = read_rules(alloc, &mut folders, &rules_root)?;
//! ruled.rules      // the rule set
//! ruled.digest     // the digest of the rule files that it was built from
//! let routes = list_routes(alloc, &mut folders, &ruled.rules, &from)?;
//! let rules = read_rule_set(alloc, &mut folders, &rules_root)?; // where no digest is needed
//! ```
#![tactic(auto)]

mod clash;
mod classes;
mod halts;
mod listing;
mod rules;
mod sources;

pub use clash::{HasRoute, refuse_clash};
pub use classes::build_graph;
pub use halts::{Halt, limit};
pub use listing::{list_paths, list_routes};
pub use rules::{DigestedRules, read_rule_set, read_rules};
pub use sources::read_below;

/// How many files of the source a run takes at most.
pub const MAX_FILES: u32 = 200_000;

/// How many bytes a path, relative to its root, may have at most; the same for its target.
pub const MAX_PATH_LENGTH: usize = 1024;

/// How many files the rule folder may have at most.
pub const MAX_RULE_FILES: u32 = 1000;
