//! The name spaces of the text format (WebAssembly Core Specification 3.0, 6.1.3 and 6.6.1): which number an identifier means.
//!
//! A [`Namespace`] counts the items of one index space, and knows their names. [`Namespace::register`] adds an item;
//! [`Namespace::resolve`] makes an index the number that it means, and [`Namespace::number_of`] only tells it. Names are kept in
//! order, so n items cost n log n whatever their names are. [`copied_id`] copies the identifier that an item bears, and [`is_borne`]
//! tells whether it is this one.
//!
//! ```
//! let mut names = Namespace::new(alloc);
//! names.register(Some(Id::new("f", Span::from_offset(14))), "func")?; // 0
//! names.register(None, "func")?; // 1
//! names.resolve(&mut Index::from(Id::new("f", Span::from_offset(30))), "func")?; // 0
//! names.resolve(&mut Index::from(Id::new("g", Span::from_offset(35))), "func")
//! ```
//!
//! is an error at byte offset 35:
//!
//! ```text
//! unknown func: failed to find name `$g`
//! ```
//!
//! Two items of a kind may not bear one name, but for segments, the kinds `elem` and `data`, of which the last that bears a name counts.
//! An identifier that was made in place of one is a name of its own; in messages it is `$gensym`.
//!
//! # What has to be believed
//!
//! | File of `specs/` | Says |
//! |---|---|
//! | `Position` | where in a list the item stands that bears a name |
//! | `Walk` | passes over a list, in which each element changes what is known behind it; the first demand that isn't met |
//! | `Demand` | demands of names, what is said where one isn't met, and which error tells that |
//! | `Space` | index spaces in the making, and what calls ask of names |
//! | `Views` | which space a [`Namespace`] is |
//! | `Laws` | the statements of the law functions |
//!
//! The laws: the numbers of names are their positions ([`laws::numbers`]); all items are accepted exactly where no two bear one
//! name, and else the first that bears an earlier one's is refused ([`laws::distinct`]); where no two do, the first that bears a name is
//! the last ([`laws::one_place`]).
#![tactic(auto)]

mod borne;
pub mod laws;
mod namespace;

pub use borne::is_borne;
pub use namespace::{Namespace, copied_id, resolve_error};
