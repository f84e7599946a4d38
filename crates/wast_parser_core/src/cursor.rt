//! A place among the tokens.
ghost use Rattle.std.specs.Prelude.{◌≡◌, [], ◌∷◌, false};
ghost use Rattle.wast_grammar.specs.Tokens.{as_read};
ghost use Rattle.wast_grammar.specs.Look.{ask, On, Opening, AClose, AnId, AReserved, AWord, AnInteger, AFloat, AString, Any, this_word, this_group};
ghost use Rattle.wast_parser_core.specs.State.{ahead, place_ahead};
ghost use Rattle.wast_parser_core.specs.Reading.{Asks, SaysAt};
ghost use Rattle.wast_parser_core.specs.Cursors.{stands, GivesToken, FindsKind, Takes, Passes, Copies, TakesFloat, TakesInteger, TakesId, said_word, said_reserved, said_text, said_mark};
ghost use Rattle.wast_parser_core.specs.Kinds.{wanted};
ghost use Rattle.std.specs.Cow.{cow_str_bytes};
ghost use Rattle.wast_grammar.specs.Spelling.{that_open, that_close};

use crate::kind::{Wanted, is_keyword, is_lparen, is_rparen, is_wanted};
use crate::parser::Parser;
use item_lists::Bytes;
use std::alloc::Global;
use std::borrow::CowStr;
use wast_lexer::{Float, Integer, Span, Token, TokenKind};
use wast_parser_base::Error;

/// A place among the tokens of a parser, which its calls never move: one that takes answers what stands here and the cursor
/// behind it, `None` where something else stands here or nothing.
///
/// Calls are refused where no token can be read, or for want of memory for the message that says so; those that answer what a
/// string, an identifier or the name of an annotation stands for, for want of memory for that too.
#[derive(Clone, Copy)]
pub struct Cursor<'b, 'a> {
    pub(crate) parser: &'b Parser<'a>,
    pub(crate) at: usize,
}

impl<'b, 'a> Cursor<'b, 'a> {
    /// The next significant token, and the cursor behind it.
    #[inline(always)]
    pub(crate) fn token(self) -> Result<Option<(Token, Cursor<'b, 'a>)>, Error>
        ensures { GivesToken result self.entry }
    {
        match self.parser.next_from(self.at)? {
            Some((token, at)) => Ok(Some((
                token,
                Cursor {
                    parser: self.parser,
                    at,
                },
            ))),
            None => Ok(None),
        }
    }

    /// Whether a parenthesis opens here.
    #[inline(always)]
    pub fn peek_lparen(self) -> Result<bool, Error>
        ensures { Asks result (stands self.entry).source (ask (Opening ∷ []) (ahead (stands self.entry))) }
    {
        match self.token()? {
            Some((token, _)) => Ok(is_lparen(token.kind)),
            None => Ok(false),
        }
    }

    /// Whether a parenthesis closes here.
    #[inline(always)]
    pub fn peek_rparen(self) -> Result<bool, Error>
        ensures { Asks result (stands self.entry).source (ask (On false AClose Any ∷ []) (ahead (stands self.entry))) }
    {
        match self.token()? {
            Some((token, _)) => Ok(is_rparen(token.kind)),
            None => Ok(false),
        }
    }

    /// Whether this word stands here.
    #[inline(always)]
    pub fn peek_word(self, text: &str) -> Result<bool, Error>
        ensures { Asks result (stands self.entry).source (ask (this_word text.now ∷ []) (ahead (stands self.entry))) }
    {
        match self.token()? {
            Some((token, _)) if is_keyword(token.kind) => Ok(text == token.src(self.parser.text())),
            _ => Ok(false),
        }
    }

    /// Whether a parenthesis opens here and this word stands behind it.
    #[inline(always)]
    pub fn peek_group(self, text: &str) -> Result<bool, Error>
        ensures { Asks result (stands self.entry).source (ask (this_group text.now ∷ []) (ahead (stands self.entry))) }
    {
        match self.token()? {
            Some((token, rest)) if is_lparen(token.kind) => rest.peek_word(text),
            _ => Ok(false),
        }
    }

    /// Where the next token stands, or where the tokens end.
    pub fn cur_span(self) -> Span
        ensures { result ≡ place_ahead (stands self.entry) }
    {
        self.parser.place_from(self.at)
    }

    /// An error with this message where the next token stands, or want of memory for it.
    #[cold]
    #[inline(never)]
    pub fn error(self, message: &str) -> Error
        ensures { SaysAt message.now (place_ahead (stands self.entry)) result }
    {
        self.parser.error_at(self.cur_span(), message)
    }

    /// The next token where it is of this kind, and the cursor behind it.
    #[inline(always)]
    fn take(self, want: Wanted) -> Result<Option<(Token, Cursor<'b, 'a>)>, Error>
        ensures { FindsKind (wanted want) self.entry result }
    {
        match self.token()? {
            Some((token, rest)) if is_wanted(token.kind, want) => Ok(Some((token, rest))),
            _ => Ok(None),
        }
    }

    /// Whether the next token is of this kind.
    #[inline(always)]
    fn peek_kind(self, want: Wanted) -> Result<bool, Error>
        ensures { Asks result (stands self.entry).source (ask (On false (wanted want) Any ∷ []) (ahead (stands self.entry))) }
    {
        match self.token()? {
            Some((token, _)) => Ok(is_wanted(token.kind, want)),
            None => Ok(false),
        }
    }

    /// Whether an identifier stands here, with or without a name.
    pub fn peek_id(self) -> Result<bool, Error>
        ensures { Asks result (stands self.entry).source (ask (On false AnId Any ∷ []) (ahead (stands self.entry))) }
    {
        self.peek_kind(Wanted::Id)
    }

    /// Whether a reserved token stands here.
    pub fn peek_reserved(self) -> Result<bool, Error>
        ensures { Asks result (stands self.entry).source (ask (On false AReserved Any ∷ []) (ahead (stands self.entry))) }
    {
        self.peek_kind(Wanted::Reserved)
    }

    /// Whether a keyword stands here.
    pub fn peek_keyword(self) -> Result<bool, Error>
        ensures { Asks result (stands self.entry).source (ask (On false AWord Any ∷ []) (ahead (stands self.entry))) }
    {
        self.peek_kind(Wanted::Keyword)
    }

    /// Whether an integer stands here.
    pub fn peek_integer(self) -> Result<bool, Error>
        ensures { Asks result (stands self.entry).source (ask (On false AnInteger Any ∷ []) (ahead (stands self.entry))) }
    {
        self.peek_kind(Wanted::Integer)
    }

    /// Whether a float stands here; an integer is none.
    pub fn peek_float(self) -> Result<bool, Error>
        ensures { Asks result (stands self.entry).source (ask (On false AFloat Any ∷ []) (ahead (stands self.entry))) }
    {
        self.peek_kind(Wanted::Float)
    }

    /// Whether a string stands here.
    pub fn peek_string(self) -> Result<bool, Error>
        ensures { Asks result (stands self.entry).source (ask (On false AString Any ∷ []) (ahead (stands self.entry))) }
    {
        self.peek_kind(Wanted::String)
    }

    /// Takes a parenthesis that opens.
    pub fn lparen(self) -> Result<Option<Cursor<'b, 'a>>, Error>
        ensures { Passes that_open self.entry result }
    {
        match self.token()? {
            Some((token, rest)) if is_lparen(token.kind) => Ok(Some(rest)),
            _ => Ok(None),
        }
    }

    /// Takes a parenthesis that closes.
    pub fn rparen(self) -> Result<Option<Cursor<'b, 'a>>, Error>
        ensures { Passes that_close self.entry result }
    {
        match self.take(Wanted::RParen)? {
            Some((_, rest)) => Ok(Some(rest)),
            None => Ok(None),
        }
    }

    /// Takes a keyword.
    pub fn keyword(self) -> Result<Option<(&'a str, Cursor<'b, 'a>)>, Error>
        ensures { Takes (λ w. w.now) said_word self.entry result }
    {
        match self.take(Wanted::Keyword)? {
            Some((token, rest)) => Ok(Some((token.src(self.parser.text()), rest))),
            None => Ok(None),
        }
    }

    /// Takes a reserved token.
    pub fn reserved(self) -> Result<Option<(&'a str, Cursor<'b, 'a>)>, Error>
        ensures { Takes (λ w. w.now) said_reserved self.entry result }
    {
        match self.take(Wanted::Reserved)? {
            Some((token, rest)) => Ok(Some((token.src(self.parser.text()), rest))),
            None => Ok(None),
        }
    }

    /// Takes an integer; answers its parts.
    pub fn integer(self) -> Result<Option<(Integer<'a>, Cursor<'b, 'a>)>, Error>
        ensures { TakesInteger self.entry result }
    {
        match self.take(Wanted::Integer)? {
            Some((token, rest)) => match token.kind {
                TokenKind::Integer(kind) => Ok(Some((self.parser.integer(token, kind), rest))),
                _ => unreachable!(),
            },
            None => Ok(None),
        }
    }

    /// Takes a float; answers its parts. An integer is none.
    pub fn float(self) -> Result<Option<(Float<'a>, Cursor<'b, 'a>)>, Error>
        ensures { TakesFloat self.entry result }
    {
        match self.take(Wanted::Float)? {
            Some((token, rest)) => match token.kind {
                TokenKind::Float(kind) => Ok(Some((token.float(self.parser.text(), kind), rest))),
                _ => unreachable!(),
            },
            None => Ok(None),
        }
    }

    /// Takes a string; answers the bytes that it stands for.
    pub fn string(self) -> Result<Option<(Bytes<'a>, Cursor<'b, 'a>)>, Error>
        ensures { Copies (λ b. b) said_text self.entry result }
    {
        match self.take(Wanted::String)? {
            Some((token, rest)) => {
                let bytes = token.string(self.parser.alloc(), self.parser.text())?;
                Ok(Some((bytes, rest)))
            }
            None => Ok(None),
        }
    }

    /// Takes the name of an annotation.
    pub fn annotation(self) -> Result<Option<(CowStr<'a, Global>, Cursor<'b, 'a>)>, Error>
        ensures { Copies cow_str_bytes said_mark self.entry result }
    {
        match self.take(Wanted::Annotation)? {
            Some((token, rest)) => {
                let name = token.annotation(self.parser.alloc(), self.parser.text())?;
                Ok(Some((name, rest)))
            }
            None => Ok(None),
        }
    }

    /// Takes an identifier that has a name. One without a name is refused by a lexical error.
    pub fn id(self) -> Result<Option<(CowStr<'a, Global>, Cursor<'b, 'a>)>, Error>
        ensures { TakesId (λ name. as_read (cow_str_bytes name)) self.entry result }
    {
        match self.take(Wanted::Id)? {
            Some((token, rest)) => match token.id(self.parser.alloc(), self.parser.text()) {
                Ok(name) => Ok(Some((name, rest))),
                Err(fault) => Err(Error::from_fault(self.parser.alloc(), fault)),
            },
            None => Ok(None),
        }
    }
}
