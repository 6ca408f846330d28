//! The tables of a ledger in SQL: the statements on them, each with what it means, and the rows of a ledger as values of
//! SQL and back.
//!
//! ```text
//! connection.execute(Statement::MakeHeaders.text(), &[])?;
//! connection.execute(Statement::MakeRows.text(), &[])?;
//! connection.execute(Statement::PutRow.text(), &row_values(&row))?;
//! let found = connection.query_all(Statement::FindRow.text(), &[target])?; // none or one
//! read_row(alloc, &found[0])?; // the row
//! ```
#![tactic(auto)]

mod rows;
mod statements;

pub use rows::{Unread, header_values, read_header, read_row, row_values};
pub use statements::Statement;
