//! The report of a run: the sink that it is written to, its lines, and the statuses with their texts.
//!
//! ```text
//! let mut out = StdSink::new(&rt);
//! write_line(&ReportLine::Kept { path, target }, &mut out)?;   // kept a.txt a.txt
//! let status = Status::FolderFault { done: 2 };
//! write_fault(&status, &mut out)?;                       // migrate: 11 folder fault done=2
//! status.code()                                          // 11
//! ```
#![tactic(auto)]

mod lines;
mod memory;
mod pieces;
mod reasons;
mod rule_faults;
mod sink;
mod standard;
mod status;
mod texts;
mod writer;

pub use lines::{
    Detail, Reason, ReportLine, Summary, put_line, put_summary, write_line, write_summary,
};
pub use memory::MemorySink;
pub use reasons::kind_name;
pub use sink::{Sink, SinkFault};
pub use standard::StdSink;
pub use status::{LimitKind, Status, write_fault};
pub use texts::{append_line, append_shown};
pub use writer::{WriteBuffer, flush};
