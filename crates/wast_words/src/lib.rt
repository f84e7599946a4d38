//! Values that are written as one keyword, and words before others (WebAssembly Core Specification 3.0, 6.2.2). A part of the
//! crate `wast_value_types`.
//!
//! [`Words`] are values that are one keyword each, and [`Word`] reads one; [`optional`] reads a word where it stands, [`group_of`]
//! a value behind a word in parentheses; [`Group`] and [`or_peek`] look ahead. What reading them needs of the crate `wast_parser` is handed on.
//!
//! # What has to be believed
//!
//! | File of `specs/` | Says |
//! |---|---|
//! | `WordSyntax` | which tokens spell a keyword, a word that may stand, and one in parentheses; which look finds a keyword |
#![tactic(auto)]

mod group;
mod look;
mod word;

pub use group::{Group, group_of, optional};
pub use look::or_peek;
pub use wast_parser::{
    Cursor, Error, Id, Index, Item, Keyword, KeywordName, LParen, Meaning, NameAnnotation, Parse,
    Parser, Peek, Span, closed, closed_or, list_of, pair, required,
};
pub use word::{Word, Words, Written, find};
