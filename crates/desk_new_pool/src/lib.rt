//! The new constant pool of a class whose texts change: which text each Utf8 keeps, which texts are appended, which
//! index each use takes, and the bytes of the pool and of the body.
//!
//! ```text
//! let numbers = vec![in alloc; 1]?; // of one use, which has the first image
//! let wants = WantedTexts::new(&[used], numbers, vec![in alloc; b"jakarta/servlet/F"]?);
//! let new = split(alloc, pool, pool.count(), &wants)?;
//! append_pool(&mut out, pool, pool.count(), entries, &new)?;
//! append_body(&mut out, body_at, body, body_uses, body_indices)?;
//! ```
#![tactic(auto)]

mod body;
mod keeps;
mod new_texts;
mod overlong;
mod places;
mod printing;
mod sought;
mod twins;
mod wants;

pub use body::append_body;
pub use new_texts::{NewPoolFault, NewTexts, split};
pub use printing::append_pool;
pub use twins::{NumberedMember, TwinPlaces, first_twins};
pub use wants::{WantedText, WantedTexts};
