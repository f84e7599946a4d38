//! Lists that contracts see by their items: [`Items`], borrowed or owned, and [`OwnedItems`]. [`Bytes`] are such a list of
//! bytes.
//!
//! ```
//! let borrowed = Items::borrowed(&[1u8, 2]);
//! let owned = Items::owned(Vec::from_slice(alloc, &[1u8, 2])?);
//! ```
//!
//! are equal.
#![tactic(auto)]

mod items;

pub use items::{Bytes, Items, OwnedItems};
