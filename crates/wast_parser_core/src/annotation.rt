//! Annotations that are registered by name; the groups of all others are passed.
ghost use Rattle.std.specs.Prelude.{◌&&◌, ◌^◌, ◌≡◌, ◌≢◌, ◌+◌, ◌-◌, ◌<◌, ◌≤◌, ◌++◌, ℕ, List, [], ◌∷◌, IfErr, OnOk, length, take, drop, map, true};
ghost use Rattle.wast_lexer.specs.Lexeme.{lexeme_of};
ghost use Rattle.wast_lexer.specs.TokenText.{IsOf, text_of};
ghost use Rattle.wast_lexer.specs.declared.token.TokenKind.TheVariants as kinds;
ghost use Rattle.wast_grammar.specs.Spelling.{any_is, same_text};
ghost use Rattle.wast_grammar.specs.Tokens.{marked_value};
ghost use Rattle.wast_grammar.specs.Significant.{begins_unknown, is_lparen};
ghost use Rattle.wast_parser_core.specs.State.{ahead, knowing, also, slack, Moves, KeepsWith};
ghost use Rattle.wast_parser_core.specs.Reading.{out_of_memory, Gives};

use crate::kind::{is_annotation, is_lparen};
use crate::meaning::Parse;
use crate::parser::Parser;
use std::mem;
use wast_lexer::{Token, TokenKind};
use wast_parser_base::Error;

impl<'a> Parser<'a> {
    /// Registers an annotation: its groups are shown from now on. One that is registered already counts once more. Refused for want
    /// of memory alone; then nothing changes.
    pub fn register_annotation(&mut self, name: &'a str) -> Result<(), Error>
        ensures ok { OnOk result (self.new ≡ record self.old { names = self.old.names ++ name.now ∷ [] }) }
        ensures refused { IfErr result (λ e. (self.new ≡ self.old) × (e ≡ out_of_memory)) }
    {
        self.names.push(name)?;
        Ok(())
    }

    /// Takes back an annotation, which is registered. One that was registered twice is registered once then.
    pub fn unregister_annotation(&mut self, name: &str)
        requires { any_is name.now self.old.names ≡ true }
        ensures { (front back : List (List ℕ)) × (self.old.names ≡ front ++ name.now ∷ back) × (self.new ≡ record self.old { names = front ++ back }) }
    {
        let at = place_of(self.names.as_slice(), name);
        let _ = self.names.remove(at);
    }

    /// Takes back the last annotation that was registered.
    fn unregister_last(&mut self)
        requires { self.old.names ≢ [] }
        ensures { self.new ≡ record self.old { names = take (length self.old.names - 1) self.old.names } }
    {
        let _ = self.names.pop();
    }

    /// Reads one with one more annotation registered, which is taken back on both outcomes. Refused as [`Parser::parse`] is, or
    /// for want of memory for the name.
    pub fn with_annotation<T: Parse<'a>>(&mut self, name: &'a str) -> Result<T, Error>
        ensures read { Gives T.tree result (knowing T.registers (also name.now self.new)) (T.syntax.reads (ahead (knowing T.registers (also name.now self.old)))) }
        ensures keeps { Moves self.old self.new }
        ensures tight { slack (knowing T.registers (also name.now self.new)) ≤ slack (knowing T.registers (also name.now self.old)) }
    {
        self.register_annotation(name)?;
        let result = T::parse(self);
        self.unregister_last();
        result
    }

    /// Reads one with more annotations registered, which are taken back on both outcomes. Refused as [`Parser::parse`] is, or for
    /// want of memory for the names.
    pub fn with_annotations<T: Parse<'a>>(&mut self, names: &[&'a str]) -> Result<T, Error>
        ensures read { Gives T.tree result (knowing (T.registers ++ map (λ n. n.now) names.now) self.new) (T.syntax.reads (ahead (knowing (T.registers ++ map (λ n. n.now) names.now) self.old))) }
        ensures keeps { KeepsWith (T.registers ++ map (λ n. n.now) names.now) self.old self.new }
    {
        let mut more = Vec::from_slice(self.alloc(), names)?;
        more.extend_from_slice(&self.names)?;
        let before = mem::replace(&mut self.names, more);
        let result = T::parse(self);
        self.names = before;
        result
    }

    /// Whether a token of this kind, at this index, opens a group that is passed.
    #[inline(always)]
    pub(crate) fn opens_dropped(&self, kind: TokenKind, at: usize) -> bool
        requires { at + 1 < 2 ^ 64 }
        ensures { result ≡ (is_lparen kind && begins_unknown self.now.names (map (lexeme_of self.now.source.text) (drop (at + 1) self.now.source.tokens))) }
    {
        is_lparen(kind) && self.drops(at + 1)
    }

    /// Whether an annotation stands there whose name isn't registered.
    #[inline(always)]
    pub(crate) fn drops(&self, at: usize) -> bool
        ensures { result ≡ begins_unknown self.now.names (map (lexeme_of self.now.source.text) (drop at self.now.source.tokens)) }
    {
        match self.buffer.get(at) {
            Some(token) if is_annotation(token.kind) => !is_registered(
                self.buffer.text(),
                token,
                self.names.as_slice(),
            ),
            _ => false,
        }
    }
}

/// Whether the name of an annotation is one of these.
#[cold]
#[inline(never)]
fn is_registered(text: &str, token: Token, names: &[&str]) -> bool
    requires own { IsOf text.now token }
    requires kind { token.kind ≡ kinds.Annotation }
    ensures { result ≡ any_is (marked_value (text_of text.now token)) (map (λ n. n.now) names.now) }
{
    for name in names {
        if is_named(text, token, *name) {
            return true;
        }
    }
    false
}

/// Whether the name of an annotation is this one.
pub(crate) fn is_named(text: &str, token: Token, name: &str) -> bool
    requires own { IsOf text.now token }
    requires kind { token.kind ≡ kinds.Annotation }
    ensures { result ≡ same_text (marked_value (text_of text.now token)) name.now }
{
    token.annotation_is(text, name)
}

/// Where a name stands first.
fn place_of(names: &[&str], name: &str) -> usize
    requires { any_is name.now (map (λ n. n.now) names.now) ≡ true }
    ensures inside { result < length names.now }
    ensures same { drop result (map (λ n. n.now) names.now) ≡ name.now ∷ drop (result + 1) (map (λ n. n.now) names.now) }
{
    let mut i = 0;
    'names: while i < names.len() {
        if name == names[i] {
            return i;
        }
        i += 1;
    }
    unreachable!()
}
