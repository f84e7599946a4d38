//! Parentheses.
ghost use Rattle.std.specs.Prelude.{◌≡◌, ◌+◌, ◌≤◌, ◌⊎◌, [], Ok, IfOk, IfErr, None, OnErr, OnOk, Result};
ghost use Rattle.std.specs.Fn.{FnOnceReturnsAtMut};
ghost use Rattle.wast_grammar.specs.Spelling.{that_open, that_close};
ghost use Rattle.wast_grammar.specs.Grammar.{one_of, paren, paren_reads};
ghost use Rattle.wast_parser_base.specs.Problem.{Problem};
ghost use Rattle.wast_parser_core.specs.State.{State, ahead, slack, Keeps};
ghost use Rattle.wast_parser_core.specs.Reading.{Gives, Enters, Leaves, IsRefusedWithin};

use crate::kind::{is_lparen, is_rparen};
use crate::meaning::Parse;
use crate::parser::Parser;
use wast_lexer::Span;
use wast_parser_base::Error;

impl<'a> Parser<'a> {
    /// What a closure reads, in parentheses. It may be called on any parser, leaves depth and registered names on both outcomes,
    /// and passes nothing behind the last token that it takes.
    ///
    /// Refused where none opens, where the closure refuses, or where none closes behind what it reads; offset and depth are then as
    /// they were.
    pub fn parens<T: Drop, F: FnOnce(&mut Parser<'a>) -> Result<T, Error>>(
        &mut self,
        f: F,
    ) -> Result<T, Error>
        requires callable { F.IsAlwaysCallable f }
        requires keeps { (old new : State) (r : Result T Problem) → FnOnceReturnsAtMut F.FnOnce f old r new → Keeps old new }
        ensures keeps { Keeps self.old self.new }
        ensures ok { IfOk result (λ value. (within after : State) × Enters self.old within × FnOnceReturnsAtMut F.FnOnce f within (Ok value) after × Leaves after self.new) }
        ensures refused { OnErr result (self.new ≡ self.old) }
        ensures why { IfErr result (λ e. (one_of that_open (ahead self.old) ≡ None) ⊎ ((within after : State) × (r : Result T Problem) × Enters self.old within × FnOnceReturnsAtMut F.FnOnce f within r after × IsRefusedWithin e r after)) }
    {
        let at = self.at;
        let depth = self.depth;
        let result = self.within(f);
        self.depth = depth;
        if result.is_err() {
            self.at = at;
        }
        result
    }

    fn within<T: Drop, F: FnOnce(&mut Parser<'a>) -> Result<T, Error>>(
        &mut self,
        f: F,
    ) -> Result<T, Error>
        requires callable { F.IsAlwaysCallable f }
        requires keeps { (old new : State) (r : Result T Problem) → FnOnceReturnsAtMut F.FnOnce f old r new → Keeps old new }
        ensures keeps { Keeps (record self.old { depth = self.new.depth }) self.new }
        ensures ok { IfOk result (λ value. (within after : State) × Enters self.old within × FnOnceReturnsAtMut F.FnOnce f within (Ok value) after × Leaves after self.new) }
        ensures why { IfErr result (λ e. (one_of that_open (ahead self.old) ≡ None) ⊎ ((within after : State) × (r : Result T Problem) × Enters self.old within × FnOnceReturnsAtMut F.FnOnce f within r after × IsRefusedWithin e r after)) }
    {
        self.open()?;
        let value = match f(self) {
            Ok(value) => value,
            Err(e) => return Err(e),
        };
        match self.close() {
            Ok(_) => Ok(value),
            Err(e) => Err(e),
        }
    }

    /// A value in parentheses, whose type registers no annotation. Refused where none opens, where the value isn't read, where none
    /// closes behind it, or for want of memory; offset and depth are then as they were.
    pub fn parens_of<T: Parse<'a>>(&mut self) -> Result<T, Error>
        requires { T.registers ≡ [] }
        ensures read { Gives T.tree result self.new ((paren T.syntax).reads (ahead self.old)) }
        ensures keeps { Keeps self.old self.new }
        ensures refused { OnErr result (self.new ≡ self.old) }
    {
        let at = self.at;
        let depth = self.depth;
        let result = self.inside();
        self.depth = depth;
        if result.is_err() {
            self.at = at;
        }
        result
    }

    fn inside<T: Parse<'a>>(&mut self) -> Result<T, Error>
        requires { T.registers ≡ [] }
        ensures read { Gives T.tree result self.new (paren_reads T.syntax.reads (ahead self.old)) }
        ensures keeps { Keeps (record self.old { depth = self.new.depth }) self.new }
    {
        self.open()?;
        let value = T::parse(self)?;
        self.close()?;
        Ok(value)
    }

    /// Takes a parenthesis that opens.
    #[inline(always)]
    pub(crate) fn open(&mut self) -> Result<Span, Error>
        ensures read { Gives (λ s. s) result self.new (one_of that_open (ahead self.old)) }
        ensures ok { OnOk result (self.new ≡ record self.old { at = self.new.at; depth = self.old.depth + 1 }) }
        ensures onward { self.old.at ≤ self.new.at }
        ensures tight { slack self.new ≤ slack self.old }
        ensures refused { OnErr result (self.new ≡ self.old) }
        ensures exact { OnErr result (one_of that_open (ahead self.old) ≡ None) }
    {
        match self.next()? {
            Some((token, after)) if is_lparen(token.kind) => {
                self.at = after;
                self.depth += 1;
                Ok(Span::from_offset(token.offset))
            }
            _ => Err(self.error("expected `(`")),
        }
    }

    /// Takes a parenthesis that closes.
    #[inline(always)]
    pub(crate) fn close(&mut self) -> Result<Span, Error>
        ensures read { Gives (λ s. s) result self.new (one_of that_close (ahead self.old)) }
        ensures keeps { Keeps self.old self.new }
        ensures refused { OnErr result (self.new ≡ self.old) }
        ensures exact { OnErr result (one_of that_close (ahead self.old) ≡ None) }
    {
        match self.next()? {
            Some((token, after)) if is_rparen(token.kind) => {
                self.at = after;
                Ok(Span::from_offset(token.offset))
            }
            _ => Err(self.error("expected `)`")),
        }
    }
}
