//! A parser: the tokens of a text, and how many of them are taken.
ghost use Rattle.std.specs.Prelude.{◌≡◌, ◌≢◌, ◌≤◌, ◌<◌, ◌^◌, ◌+◌, ◌⊎◌, ℕ, [], Some, None, Ok, IfOk, IfErr, IfSome, OnErr, OnOk, true, option_map, slice_get, Err};
ghost use Rattle.wast_lexer.specs.TokenText.{IsOf};
ghost use Rattle.wast_parser_core.specs.State.{State, start, ahead, knowing, past, Moves, KeepsWith, place_ahead, place_behind, stop, standing};
ghost use Rattle.wast_parser_core.specs.Standing.{is_outside};
ghost use Rattle.wast_parser_core.specs.declared.cursor.Cursor.{Cursor};
ghost use Rattle.wast_parser_core.specs.Reading.{out_of_memory, ReadsAll, ReadsNotAll, Gives, Asks, ShowsNext, IsStop, SaysAt, ends_here, IsFront};
ghost use Rattle.wast_parser_core.specs.Cursors.{stands, Follows};
ghost use Rattle.wast_parser_core.specs.Openings.{opens_here, closes_here, group_here};
ghost use Rattle.wast_parser_core.specs.declared.parser.Front.TheVariants as fronts;
ghost use Rattle.wast_lexer.specs.declared.token.TokenKind.{TokenKind};
ghost use Rattle.wast_grammar.specs.Look.{ask};

use crate::buffer::ParseBuffer;
use crate::cursor::Cursor;
use crate::kind::{is_annotation, is_lparen, is_rparen, is_trivia};
use crate::meaning::{Parse, Peek};
use std::alloc::Global;
use std::marker::Model;
use wast_lexer::{Span, Token, TokenKind};
use wast_parser_base::Error;

/// What stands before a parser.
#[derive(Clone, Copy)]
pub(crate) enum Front {
    /// The next significant token: its index, and what it is.
    Token(usize, TokenKind),
    /// No token.
    End,
    /// None that can be told.
    Stuck,
}

/// The tokens of a text, and how many of them are taken. Contracts see these, the registered names of annotations, and
/// how many parentheses are open.
#[derive(Drop)]
pub struct Parser<'a> {
    pub(crate) buffer: &'a ParseBuffer<'a>,
    pub(crate) names: Vec<&'a str>,
    pub(crate) depth: usize,
    pub(crate) at: usize,
}

impl<'a> Model for Parser<'a> {
    ghost use Rattle.std.specs.Prelude.{◌≤◌, map};
    ghost use Rattle.wast_parser_core.specs.State.{State};

    ghost Value = { State };

    ghost view = { λ p. record { source = p.buffer.now; names = map (λ n. n.now) p.names.items; depth = p.depth; at = p.at } };

    ghost invariant = { λ p. p.depth ≤ p.at };
}

impl<'a> Parser<'a> {
    /// Before the first token, with no annotation registered.
    pub fn new(buffer: &'a ParseBuffer<'a>) -> Parser<'a>
        ensures { result ≡ start buffer.now }
    {
        Parser {
            buffer,
            names: Vec::new(buffer.alloc()),
            depth: 0,
            at: 0,
        }
    }

    /// How many parentheses are open.
    pub fn parens_depth(&self) -> usize
        ensures { result ≡ self.now.depth }
    {
        self.depth
    }

    /// The text.
    pub fn text(&self) -> &'a str
        ensures { result.now ≡ self.now.source.text }
    {
        self.buffer.text()
    }

    /// Where memory is asked for.
    pub fn alloc(&self) -> Global {
        self.buffer.alloc()
    }

    /// Here.
    #[inline(always)]
    pub(crate) fn cursor(&self) -> Cursor<'_, 'a>
        ensures { stands result ≡ self.now }
    {
        Cursor {
            parser: self,
            at: self.at,
        }
    }

    /// Whether one begins here. Refused only where no token can be read: by the lexer's fault, for a group that isn't closed, or
    /// for want of memory for the message of that.
    pub fn peek<T: Peek>(&self) -> Result<bool, Error>
        ensures { Asks result self.now.source (ask T.syntax.starts (ahead self.now)) }
    {
        T::peek(self.cursor())
    }

    /// Whether one begins behind the next token. Refused as [`Parser::peek`] is.
    pub fn peek2<T: Peek>(&self) -> Result<bool, Error>
        ensures { Asks result self.now.source (ask T.syntax.starts (past (ahead self.now))) }
    {
        T::peek2(self.cursor())
    }

    /// Whether one begins behind the next two tokens. Refused as [`Parser::peek`] is.
    pub fn peek3<T: Peek>(&self) -> Result<bool, Error>
        ensures { Asks result self.now.source (ask T.syntax.starts (past (past (ahead self.now)))) }
    {
        let cursor = self.cursor();
        match cursor.token()? {
            Some((_, rest)) => T::peek2(rest),
            None => T::peek(cursor),
        }
    }

    /// Reads one where its production is spelled here, and takes its tokens; refused elsewhere, or for want of memory. Depth and
    /// registered names stay, and, from outside of the groups that are passed, the parser stands where it did or directly behind
    /// the last token that it took.
    pub fn parse<T: Parse<'a>>(&mut self) -> Result<T, Error>
        ensures read { Gives T.tree result (knowing T.registers self.new) (T.syntax.reads (ahead (knowing T.registers self.old))) }
        ensures keeps { KeepsWith T.registers self.old self.new }
    {
        T::parse(self)
    }

    /// Takes what a closure takes by a cursor: with its value it answers the cursor that it is given, or one behind that. Refused
    /// by the closure's error alone; nothing is taken then.
    pub fn step<T: Drop, F: for<'b> FnOnce(Cursor<'b, 'a>) -> Result<(T, Cursor<'b, 'a>), Error>>(
        &mut self,
        f: F,
    ) -> Result<T, Error>
        requires callable { F.IsAlwaysCallable f }
        requires follows { (c d : Cursor) (value : T) → F.post f c (Ok (value, d)) → Follows c d }
        ensures ok { IfOk result (λ value. (c d : Cursor) × (stands c ≡ self.old) × (stands d ≡ self.new) × F.post f c (Ok (value, d))) }
        ensures keeps { Moves self.old self.new }
        ensures refused { OnErr result (self.new ≡ self.old) }
        ensures why { IfErr result (λ e. (c : Cursor) × (stands c ≡ self.old) × F.post f c (Err e)) }
    {
        match f(self.cursor()) {
            Ok((value, rest)) => {
                let at = rest.at;
                self.at = at;
                Ok(value)
            }
            Err(e) => Err(e),
        }
    }

    /// Whether no token is left in this group; not where it can't be told.
    pub fn is_empty(&self) -> bool
        ensures { result ≡ ends_here (ahead self.now) }
    {
        match self.front(self.at) {
            Front::Token(_, kind) => is_rparen(kind),
            Front::End => true,
            Front::Stuck => false,
        }
    }

    /// Whether a parenthesis opens here; not where it can't be told.
    pub fn opens(&self) -> bool
        ensures { result ≡ opens_here (ahead self.now) }
    {
        match self.front(self.at) {
            Front::Token(_, kind) => is_lparen(kind),
            _ => false,
        }
    }

    /// Whether a parenthesis closes here; not where it can't be told.
    pub fn closes(&self) -> bool
        ensures { result ≡ closes_here (ahead self.now) }
    {
        match self.front(self.at) {
            Front::Token(_, kind) => is_rparen(kind),
            _ => false,
        }
    }

    /// Whether a parenthesis opens here, and what stands behind it can be told and is no annotation.
    pub fn opens_group(&self) -> bool
        ensures { result ≡ group_here (ahead self.now) }
    {
        match self.front(self.at) {
            Front::Token(index, kind) if is_lparen(kind) => match self.front(index + 1) {
                Front::Token(_, kind) => !is_annotation(kind),
                Front::End => true,
                Front::Stuck => false,
            },
            _ => false,
        }
    }

    /// Where the next token stands, or where the tokens end.
    #[inline(always)]
    pub fn cur_span(&self) -> Span
        ensures { result ≡ place_ahead self.now }
    {
        self.place_from(self.at)
    }

    /// The same where so many tokens are taken.
    #[inline(always)]
    pub(crate) fn place_from(&self, from: usize) -> Span
        ensures { result ≡ place_ahead (record self.now { at = from }) }
    {
        if let Ok(next) = self.next_from(from) {
            return match next {
                Some((token, _)) => Span::from_offset(token.offset),
                None => Span::from_offset(self.text().len()),
            };
        }
        stop_place(self.buffer)
    }

    /// Where the last token stands that was taken or passed, or the text's start.
    pub fn prev_span(&self) -> Span
        ensures { result ≡ place_behind self.now }
    {
        if self.at == 0 {
            return Span::from_offset(0);
        }
        match self.buffer.get(self.at - 1) {
            Some(token) => Span::from_offset(token.offset),
            None => Span::from_offset(0),
        }
    }

    /// An error with this message at a place, or want of memory for it.
    #[cold]
    #[inline(never)]
    pub fn error_at(&self, span: Span, message: &str) -> Error
        ensures { SaysAt message.now span result }
    {
        error_at(self.alloc(), span, message)
    }

    /// The same where the next token stands.
    #[cold]
    #[inline(never)]
    pub fn error(&self, message: &str) -> Error
        ensures { SaysAt message.now (place_ahead self.now) result }
    {
        self.error_at(self.cur_span(), message)
    }

    /// Tests that the text ends here: refused where a significant token is left, or where none can be read.
    pub fn end(&self) -> Result<(), Error>
        ensures ends { OnOk result (ahead self.now ≡ []) }
        ensures left { OnErr result (ahead self.now ≢ []) }
    {
        match self.next()? {
            None => Ok(()),
            Some(_) => Err(self.error("expected the end of the text")),
        }
    }

    /// The next significant token, and how many tokens are taken with it.
    #[inline(always)]
    pub(crate) fn next(&self) -> Result<Option<(Token, usize)>, Error>
        ensures { ShowsNext result self.now }
    {
        self.next_from(self.at)
    }

    /// The same where so many tokens are taken.
    #[inline(always)]
    pub(crate) fn next_from(&self, from: usize) -> Result<Option<(Token, usize)>, Error>
        ensures { ShowsNext result (record self.now { at = from }) }
    {
        match self.front(from) {
            Front::Token(index, _) => Ok(self.token_at(index)),
            Front::End => Ok(None),
            Front::Stuck => Err(stopped(self.buffer)),
        }
    }

    /// What stands before it there. Mostly it is there, or behind one token of white space.
    #[inline(always)]
    pub(crate) fn front(&self, from: usize) -> Front
        ensures front { IsFront result (record self.now { at = from }) }
        ensures small { (index : ℕ) (kind : TokenKind) → result ≡ fronts.Token index kind → index + 1 < 2 ^ 64 }
    {
        let at = self.behind_space(from);
        match self.buffer.kind(at) {
            Some(kind) if !is_trivia(kind) && !self.opens_dropped(kind, at) => {
                Front::Token(at, kind)
            }
            _ => self.front_behind(from),
        }
    }

    /// Behind the white space that stands there, or there.
    #[inline(always)]
    fn behind_space(&self, from: usize) -> usize
        ensures same { ahead (record self.now { at = result }) ≡ ahead (record self.now { at = from }) }
        ensures onward { from ≤ result }
        ensures outside { is_outside (standing (record self.now { at = from })) ≡ true → is_outside (standing (record self.now { at = result })) ≡ true }
    {
        match self.buffer.kind(from) {
            Some(TokenKind::Whitespace) => from + 1,
            _ => from,
        }
    }

    /// The same, behind whatever is passed.
    #[inline(never)]
    fn front_behind(&self, from: usize) -> Front
        ensures front { IsFront result (record self.now { at = from }) }
        ensures small { (index : ℕ) (kind : TokenKind) → result ≡ fronts.Token index kind → index + 1 < 2 ^ 64 }
    {
        let mut at = from;
        'tokens: while let Some(kind) = self.buffer.kind(at) {
            if is_trivia(kind) {
                at += 1;
            } else if self.opens_dropped(kind, at) {
                match self.buffer.group_end(at) {
                    Some(end) => at = end + 1,
                    None => return Front::Stuck,
                }
            } else {
                return Front::Token(at, kind);
            }
        }
        if self.buffer.fault().is_some() {
            return Front::Stuck;
        }
        Front::End
    }

    /// A token by its index, and the index behind it.
    #[inline(always)]
    fn token_at(&self, index: usize) -> Option<(Token, usize)>
        ensures token { result ≡ option_map (λ t. (t, index + 1)) (slice_get self.now.source.tokens index) }
        ensures own { IfSome result (λ r. IsOf self.now.source.text r.0) }
    {
        match self.buffer.get(index) {
            Some(token) => Some((token, index + 1)),
            None => None,
        }
    }
}

/// An error with this message at a place, or want of memory for it.
#[cold]
#[inline(never)]
fn error_at(alloc: Global, span: Span, message: &str) -> Error
    ensures { SaysAt message.now span result }
{
    match String::from_str(alloc, message) {
        Ok(text) => Error::new(span, text),
        Err(_) => Error::memory(),
    }
}

/// Why no token can be read where the tokens of a text end, or where a group that isn't closed is dropped; or want of memory
/// for the message.
#[cold]
#[inline(never)]
pub(crate) fn stopped(buffer: &ParseBuffer<'_>) -> Error
    ensures { IsStop result buffer.now }
{
    match buffer.fault() {
        Some(fault) => Error::from_fault(buffer.alloc(), fault),
        None => error_at(buffer.alloc(), stop_place(buffer), "expected `)`"),
    }
}

/// Where it is that no token can be read.
#[cold]
#[inline(never)]
fn stop_place(buffer: &ParseBuffer<'_>) -> Span
    ensures { result ≡ (stop buffer.now).place }
{
    match buffer.fault() {
        Some(fault) => Error::from_fault(buffer.alloc(), fault).span(),
        None => Span::from_offset(buffer.text().len()),
    }
}

/// Reads all of a text. Refused where it is not read, where a significant token is left, or for want of memory.
pub fn parse<'a, T: Parse<'a>>(buffer: &'a ParseBuffer<'a>) -> Result<T, Error>
    ensures ok { IfOk result (λ v. ReadsAll T.syntax.reads T.registers buffer.now (T.tree v)) }
    ensures refused { IfErr result (λ e. (e ≡ out_of_memory) ⊎ ReadsNotAll T.syntax.reads T.registers buffer.now) }
{
    let mut parser = Parser::new(buffer);
    let value = T::parse(&mut parser)?;
    match parser.next() {
        Ok(None) => Ok(value),
        Ok(Some(_)) => Err(parser.error("expected the end of the text")),
        Err(e) => Err(e),
    }
}
