//! The constant pool of a class file (JVMS 4.4): read, checked and looked up.
//!
//! ```text
//! let mut cursor = Cursor::new(bytes);         // the pool stands behind magic and versions
//! cursor.take(8)?;
//! let pool = Pool::read(alloc, &mut cursor)?;
//! let name = pool.name_of_class(index);        // the text that a Class leads to
//! ```
#![tactic(auto)]

mod constant;
mod fitting;
mod links;
mod lookup;
mod named;
mod passes;
mod pool;
mod slots;
mod texts;

pub use pool::Pool;
