//! What words ask for: their task, and the roots that they name.
//!
//! ```text
//! // run --rules r --from ./in --to out/ --ledger l
//! read_order(alloc, &words)?               // Order::Run(roots), of which roots.from is in, and roots.to is out
//! // run --rules r --from in --to in/x --ledger l
//! read_order(alloc, &others)               // Err(RootsFault::Nested { first: in, second: in/x })
//! // generate --count=5000
//! read_order(alloc, &more)?                // Order::Generate { count: 5000, workers: 1 }
//! // calls --from in --package javax.servlet
//! read_order(alloc, &calls)?               // Order::Query(Query::Calls { from: in, package: [javax, servlet] })
//! // compare --rules r --from in --other ./other/
//! read_order(alloc, &compare)?             // Order::Query(Query::Compare { rules: r, from: in, other: other })
//! Request::read(alloc, &words).order()     // the same, of words that are read once
//! find_slip(alloc, &others)?               // Some(Slip::NoTask { word: rnu }): what stands against words without a task
//! ```
#![tactic(auto)]

mod numbers;
mod packages;
mod request;
mod roots;
mod slips;
mod words;

pub use request::Request;
pub use roots::{Order, Query, Root, Roots, RootsFault, read_order};
pub use slips::{Slip, find_slip};
pub use words::{Task, WordsFault, read_words};
