//! Where the classes of an application use members of a package's classes: the application is listed, each class file is read,
//! and what is found of it is written, a line for each call site.
//!
//! ```text
//! // the classes below `app` that use members of `javax.servlet` and of the packages below it
//! let found = find_calls(&rt, alloc, &mut folders, &gate, &from, &package)?;
//! found.text      // site WEB-INF/classes/web/Hello.class <init> ()V at=1 op=b7 javax/servlet/http/HttpServlet <init> ()V ..
//! found.refused   // whether some class was refused
//! ```
#![tactic(auto)]

mod batches;
mod finding;
mod telling;

pub use finding::find_calls;
pub use telling::Calls;

/// How many workers look at the classes of a batch. What is found is the same for every number.
const WORKERS: u32 = 4;
