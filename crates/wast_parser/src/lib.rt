//! A parser of annotated S-expressions (WebAssembly Core Specification 3.0, 6.1 to 6.3): the lexer, a parser over its tokens,
//! and what they hand out.
//!
//! [`ParseBuffer`] holds a text and its tokens, and [`parse`] reads all of it as a type that is [`Parse`]. A [`Parser`] shows
//! the tokens that are significant: white space, comments, and the groups of annotations that are not registered are passed.
//! It reads ([`Parser::parse`], [`Parser::parens`]) and looks ahead ([`Parser::peek`]). What the grammar says of a type is its
//! [`Meaning`]: which tokens spell a value, and what reading answers.
//!
//! An integer of N bits with a sign is read from -2^(N-1) up to 2^N - 1, the upper half standing for the numbers below 0; one
//! without a sign from 0 to 2^N - 1, and has no minus sign. So `i8` reads `255` as -1, and refuses `256` and `-129`; `u8`
//! refuses `-0`. These are rows of the program `wast_rows`.
//!
//! The parts: `wast_lexer`, `wast_grammar` (the language in which the syntax is written, and its laws), `wast_parser_base`
//! (errors, identifiers), `wast_byte_spellings` and `wast_parser_core`.
#![tactic(auto)]

pub mod laws;

pub use wast_byte_spellings::{Encode, EncodeError};
pub use wast_parser_core::{
    Cursor, Error, Exhausted, FixedInteger, Float, FloatKind, Gensym, Id, Index, Integer,
    IntegerKind, Item, ItemRef, Keyword, KeywordName, LParen, LexError, LexFault, Lexer,
    Lookahead1, Meaning, NameAnnotation, Parse, ParseBuffer, Parser, Peek, RParen, SignToken, Span,
    Spelled, Token, TokenKind, TokenTable, Tokens, WordSet, closed, closed_or, find_among,
    lexical_text, list_of, magnitude, pair, parse, push_place, required,
};
