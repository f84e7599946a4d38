//! A lexer for the text format of WebAssembly (WebAssembly Core Specification 3.0, 6.2 and 6.3).
//!
//! [`Lexer`] cuts a text into tokens, which lie end to end: [`Lexer::parse`] answers the one at a position, and
//! [`Lexer::iter`] one after the other. A [`Token`] is a kind and a place; its readers answer what it stands for, and want
//! no memory where nothing is escaped; [`Token::annotation_is`] never wants any. [`TokenTable`] keeps the tokens of a text, and tells where groups of
//! parentheses end. Texts have fewer than 2^32 bytes; places are byte offsets.
//!
//! An example: `(a (b)) x` is nine tokens, `(`, `a`, a space, `(`, `b`, `)`, `)`, a space and `x`. The group of the first
//! ends at the token with index 6, and that of the fourth at the one with index 5. The program `wast_rows` has this text
//! among its rows, and many others.
//!
//! The laws: a text is at most one list of tokens ([`laws::one_tiling`]); at most one token begins a text, whatever
//! follows it ([`laws::one_token`]); comments and strings are refused exactly where one of nine characters stands in them
//! ([`laws::nine_are_refused`]). What strings and numbers are stands in the crates `wast_lexer_strings` and
//! `wast_lexer_numbers`, with laws of their own.
#![tactic(auto)]

mod comment;
mod entry;
mod fault;
pub mod laws;
mod lexer;
mod paren;
mod paren_ends;
mod parse;
mod read;
mod scan;
mod skip;
mod span;
mod table;
mod token;
mod tokens;
mod word;

pub use fault::LexFault;
pub use lexer::{Lexer, Tokens};
pub use span::Span;
pub use table::TokenTable;
pub use token::{Token, TokenKind};
pub use wast_lexer_numbers::{Float, FloatKind, Integer, IntegerKind, SignToken};
pub use wast_lexer_strings::LexError;
