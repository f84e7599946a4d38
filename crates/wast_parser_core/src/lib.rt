//! The core of a parser of annotated S-expressions, over the tokens of a text (WebAssembly Core Specification 3.0, 6.2).
//!
//! A [`ParseBuffer`] keeps the tokens of a text, and [`parse()`] reads all of it as one value. A [`Parser`] stands among these
//! tokens and is shown those that are significant: no white space, no comments, and no groups of annotations whose names
//! aren't registered, which are passed as a whole. A [`Cursor`] is a place among them, from which tokens are taken without
//! the parser being moved ([`Parser::step`]).
//!
//! [`Meaning`] says what the grammar sees of a type, [`Parse`] that it is read exactly where its syntax is, [`Peek`] how one is
//! looked for, and [`Item`] that it can be repeated ([`list_of`]). The law of a syntax, that what is read is spelled and what is
//! spelled is read, is a function of `Meaning`; those of `Option<T>`, `Box<T>` and [`Keyword`] rest on their parameter alone.
//! [`laws::read_where_spelled`] and [`laws::one_value`] are of it. The law of a look is a function of `Peek`: a peek is true where
//! a spelling of its type that isn't nothing stands at the first, second or third significant token, and only where that token,
//! and behind `(` the next too, begins one by kind and word.
//!
//! From outside of the groups that are passed, a call that reads passes nothing behind the last token that it takes. So what
//! comes next is seen by the names that are registered by then, and a comment can be taken there
//! ([`laws::stays_or_stands_behind`]).
//!
//! What `wast_parser` hands out of the lexer, of `wast_grammar` and of `wast_parser_base` it takes from here.
//!
//! # What has to be believed
//!
//! | File of `specs/` | Says |
//! |---|---|
//! | `State` | what a parser holds, which tokens are before it, where it stands, what reading leaves alone, and why tokens end |
//! | `Standing` | how a parser stands among its tokens |
//! | `Reading` | what its calls answer, and when they refuse |
//! | `Cursors`, `Kinds` | what the calls of a cursor look at and take |
//! | `Comments` | the comment that follows a place |
//! | `Openings` | where groups open and close |
//! | `Literals`, `Integers`, `Productions`, `Identifiers`, `Marks` | ranges of integers and the numbers that they say, names, identifiers, indices, the annotation that names |
//! | `Laws` | the statements of the law functions |
//!
//! What is spelled is refused only for want of memory, by an error without a place. What others tell is told of the calls of a
//! cursor; of a text that isn't read, which message and place they have is promised nowhere, but that [`required`] tells its
//! message at the next token where no value begins, and [`closed_or`] where no group ends. Where there is no memory for the
//! message of an error, the error is want of memory.
#![tactic(auto)]

mod annotation;
mod begun;
mod buffer;
mod comment;
mod cursor;
mod group;
mod identifier;
mod integer;
mod keyword;
mod kind;
pub mod laws;
mod list;
mod literal;
mod look;
mod lookahead;
mod meaning;
mod name_annotation;
mod option;
mod paren;
mod parser;
mod sequence;
mod text;
mod token;
mod word_set;

pub use buffer::ParseBuffer;
pub use cursor::Cursor;
pub use integer::FixedInteger;
pub use keyword::{Keyword, KeywordName};
pub use list::list_of;
pub use literal::magnitude;
pub use lookahead::Lookahead1;
pub use meaning::{Item, Meaning, Parse, Peek};
pub use option::required;
pub use paren::{LParen, RParen};
pub use parser::{Parser, parse};
pub use sequence::{closed, closed_or, pair};
pub use wast_lexer::{
    Float, FloatKind, Integer, IntegerKind, LexError, LexFault, Lexer, SignToken, Span, Token,
    TokenKind, TokenTable, Tokens,
};
pub use wast_parser_base::{
    Error, Exhausted, Gensym, Id, Index, ItemRef, NameAnnotation, lexical_text, push_place,
};
pub use word_set::{Spelled, WordSet, find_among};
