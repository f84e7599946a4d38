//! Single tokens.
ghost use Rattle.std.specs.Prelude.{◌≡◌, ◌⊎◌, ◌++◌, true, None, OnErr, IsOk, Some, MatchResult, codes};
ghost use Rattle.std.specs.Cow.{cow_str_bytes};
ghost use Rattle.wast_lexer.specs.declared.token.TokenKind.TheVariants as kinds;
ghost use Rattle.wast_lexer.specs.NumberParts.{IsIntegerOf};
ghost use Rattle.wast_lexer.specs.TokenText.{IsOf, is_plain, text_of};
ghost use Rattle.wast_grammar.specs.Tokens.{as_read, literal, string_value};
ghost use Rattle.wast_grammar.specs.Grammar.{word, mark, id, string};
ghost use Rattle.wast_parser_core.specs.State.{ahead, Keeps, place_ahead};
ghost use Rattle.wast_parser_core.specs.Reading.{out_of_memory, Gives, SaysAt, WantsRoom};
ghost use Rattle.wast_parser_core.specs.Literals.{literal_of, literal_from, IsTextOf};
ghost use Rattle.wast_parser_core.specs.Productions.{ranged, name};

use crate::annotation::is_named;
use crate::kind::{is_annotation, is_id, is_keyword, is_string};
use crate::literal::number_of;
use crate::parser::Parser;
use item_lists::Bytes;
use std::alloc::Global;
use std::borrow::{CowSlice, CowStr};
use wast_lexer::{Integer, IntegerKind, Span, Token, TokenKind};
use wast_parser_base::Error;

impl<'a> Parser<'a> {
    /// Takes this word; answers where it stands. Refused only where it isn't there; the parser stays then.
    #[inline(always)]
    pub fn word(&mut self, text: &str) -> Result<Span, Error>
        ensures read { Gives (λ s. s) result self.new ((word text.now).reads (ahead self.old)) }
        ensures keeps { Keeps self.old self.new }
        ensures stays { OnErr result (self.new ≡ self.old) }
        ensures exact { OnErr result ((word text.now).reads (ahead self.old) ≡ None) }
    {
        match self.next()? {
            Some((token, after)) if is_keyword(token.kind) && text == token.src(self.text()) => {
                self.at = after;
                Ok(Span::from_offset(token.offset))
            }
            _ => Err(self.expected_word(text)),
        }
    }

    /// An error that this word is expected where the next token stands.
    #[cold]
    #[inline(never)]
    fn expected_word(&self, text: &str) -> Error
        ensures { SaysAt (codes "expected `" ++ text.now ++ codes "`") (place_ahead self.now) result }
    {
        match format!(in self.alloc(); "expected `{text}`") {
            Ok(message) => Error::new(self.cur_span(), message),
            Err(_) => Error::memory(),
        }
    }

    /// Takes an identifier that has a name; answers the name, and where it stands. Refused only where none is there, or for want of
    /// memory where something is escaped in it; the parser stays then.
    pub fn id(&mut self) -> Result<(CowStr<'a, Global>, Span), Error>
        ensures read { Gives (λ x. (as_read (cow_str_bytes x.0), x.1)) result self.new (id.reads (ahead self.old)) }
        ensures keeps { Keeps self.old self.new }
        ensures stays { OnErr result (self.new ≡ self.old) }
        ensures exact { OnErr result (WantsRoom self.old ⊎ (id.reads (ahead self.old) ≡ None)) }
    {
        match self.next()? {
            Some((token, after)) if is_id(token.kind) => match token.id(self.alloc(), self.text()) {
                Ok(name) => {
                    self.at = after;
                    Ok((name, Span::from_offset(token.offset)))
                }
                Err(fault) => Err(Error::from_fault(self.alloc(), fault)),
            },
            _ => Err(self.error("expected an identifier")),
        }
    }

    /// Takes the name of this annotation; answers where it stands. Refused only where it isn't there; the parser stays then.
    pub fn mark(&mut self, text: &str) -> Result<Span, Error>
        ensures read { Gives (λ s. s) result self.new ((mark text.now).reads (ahead self.old)) }
        ensures keeps { Keeps self.old self.new }
        ensures stays { OnErr result (self.new ≡ self.old) }
        ensures exact { OnErr result ((mark text.now).reads (ahead self.old) ≡ None) }
    {
        match self.next()? {
            Some((token, after)) if is_annotation(token.kind) => {
                if is_named(self.text(), token, text) {
                    self.at = after;
                    return Ok(Span::from_offset(token.offset));
                }
                Err(self.error("expected another annotation"))
            }
            _ => Err(self.error("expected an annotation")),
        }
    }

    /// Takes an integer of a range: without a minus sign it is at most `most`; with one, where there may be one, at most
    /// `least`. Answers whether it has a minus sign, its magnitude, and where it stands. Refused only where none of the range is
    /// there; the parser stays then.
    pub fn literal(&mut self, most: u64, least: Option<u64>) -> Result<((bool, u64), Span), Error>
        ensures read { Gives (λ x. (literal_from x.0, x.1)) result self.new ((ranged most least).reads (ahead self.old)) }
        ensures keeps { Keeps self.old self.new }
        ensures stays { OnErr result (self.new ≡ self.old) }
        ensures exact { OnErr result ((ranged most least).reads (ahead self.old) ≡ None) }
    {
        match self.next()? {
            Some((token, after)) => {
                if let TokenKind::Integer(kind) = token.kind {
                    if let Some(number) = number_of(self.integer(token, kind), most, least) {
                        self.at = after;
                        return Ok((number, Span::from_offset(token.offset)));
                    }
                    return Err(self.error("integer out of range"));
                }
                Err(self.error("expected an integer"))
            }
            None => Err(self.error("expected an integer")),
        }
    }

    /// Takes a string; answers the bytes that it stands for. Refused only where none is there, or for want of memory where something
    /// is escaped in it; the parser stays then.
    pub fn string(&mut self) -> Result<Bytes<'a>, Error>
        ensures read { Gives (λ b. b) result self.new (string.reads (ahead self.old)) }
        ensures keeps { Keeps self.old self.new }
        ensures stays { OnErr result (self.new ≡ self.old) }
        ensures exact { OnErr result (WantsRoom self.old ⊎ (string.reads (ahead self.old) ≡ None)) }
    {
        match self.next()? {
            Some((token, after)) if is_string(token.kind) => {
                let bytes = token.string(self.alloc(), self.text())?;
                self.at = after;
                Ok(bytes)
            }
            _ => Err(self.error("expected a string")),
        }
    }

    /// Takes a string that is UTF-8; answers the text that it stands for. Refused only where none is there, or for want of memory
    /// where something is escaped in it; the parser stays then.
    pub fn name(&mut self) -> Result<CowStr<'a, Global>, Error>
        ensures read { Gives cow_str_bytes result self.new (name.reads (ahead self.old)) }
        ensures keeps { Keeps self.old self.new }
        ensures stays { OnErr result (self.new ≡ self.old) }
        ensures exact { OnErr result (WantsRoom self.old ⊎ (name.reads (ahead self.old) ≡ None)) }
    {
        match self.next()? {
            Some((token, after)) if is_string(token.kind) => match self.text_of(token)? {
                Some(name) => {
                    self.at = after;
                    Ok(name)
                }
                None => Err(self.error("expected a string of UTF-8")),
            },
            _ => Err(self.error("expected a string")),
        }
    }

    /// The parts of an integer.
    pub(crate) fn integer(&self, token: Token, kind: IntegerKind) -> Integer<'a>
        requires own { IsOf self.now.source.text token }
        requires kind { token.kind ≡ kinds.Integer kind }
        ensures literal { literal_of result ≡ literal (text_of self.now.source.text token) }
        ensures parts { IsIntegerOf (text_of self.now.source.text token) result }
    {
        token.integer(self.text(), kind)
    }

    /// The text that a string stands for, where it is one; borrowed where nothing is escaped.
    fn text_of(&self, token: Token) -> Result<Option<CowStr<'a, Global>>, Error>
        requires own { IsOf self.now.source.text token }
        requires kind { token.kind ≡ kinds.String }
        ensures value { MatchResult result (IsTextOf (string_value (text_of self.now.source.text token))) (λ e. e ≡ out_of_memory) }
        ensures plain { is_plain (text_of self.now.source.text token) ≡ true → IsOk result }
    {
        match token.string(self.alloc(), self.text())?.into_cow() {
            CowSlice::Borrowed(bytes) => match str::from_utf8(bytes) {
                Ok(text) => Ok(Some(CowStr::Borrowed(text))),
                Err(_) => Ok(None),
            },
            CowSlice::Owned(bytes) => match String::from_utf8(bytes) {
                Ok(text) => Ok(Some(CowStr::Owned(text))),
                Err(_) => Ok(None),
            },
        }
    }
}
