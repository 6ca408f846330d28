//! Call sites: the instructions of a class that name a member of a class in a package, each on a line of its own.
//!
//! ```text
//! // site WEB-INF/classes/web/Hello.class <init> ()V at=1 op=b7 javax/servlet/http/HttpServlet <init> ()V
//! let answer = class_sites(alloc, &package, &path, &bytes)?;
//! out.write(answer.lines.as_bytes())?;
//! ```
#![tactic(auto)]

mod class;
mod faults;
mod lines;
mod members;
mod packages;
mod sites;

pub use class::{ClassSites, class_sites};
