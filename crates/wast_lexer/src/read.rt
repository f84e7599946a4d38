//! Readers of tokens.

ghost use Rattle.std.specs.Prelude.{IsOk, IsOkAnd, IsTrue, ◌≡◌, ◌≢◌, ◌≤◌, ◌↔◌, ℕ, List, [], IfOk, IfErr, MatchOption, length, drop, true, false};
ghost use Rattle.std.specs.Str.{IsUtf8};
ghost use Rattle.std.specs.Cow.{cow_str_bytes, IsBorrowedStr};
ghost use Rattle.wast_lexer_strings.specs.Strings.{IsString};
ghost use Rattle.wast_lexer_numbers.specs.NumberParts.{IsIntegerOf, IsFloatOf};
ghost use Rattle.wast_lexer.specs.declared.token.TokenKind.TheVariants as kinds;
ghost use Rattle.wast_lexer.specs.declared.token.TokenKind.TheVariants.{String, Id, Keyword, Annotation, Reserved};
ghost use Rattle.wast_lexer.specs.Kinds.{is_name, IsNameOf, IsIdOf, IsAnnotationOf};
ghost use Rattle.wast_lexer.specs.TokenText.{IsOf, text_of, is_plain, IsIdFault, IsRefusal};

use crate::fault::LexFault;
use crate::span::Span;
use crate::token::Token;
use crate::word::is_quote_at;
use item_lists::Bytes;
use std::alloc::{AllocError, Global};
use std::borrow::CowStr;
use wast_lexer_numbers::{Float, FloatKind, Integer, IntegerKind, float, integer};
use wast_lexer_strings::{LexError, stands_for, string_value};

impl Token {
    /// The token's text.
    pub fn src<'a>(&self, text: &'a str) -> &'a str
        requires { IsOf text.now self.now }
        ensures { result.now ≡ text_of text.now self.now }
    {
        &text[self.offset..self.offset + self.len as usize]
    }

    /// The word that a keyword is.
    pub fn keyword<'a>(&self, text: &'a str) -> &'a str
        requires of_text { IsOf text.now self.now }
        requires kind { self.now.kind ≡ Keyword }
        ensures { result.now ≡ text_of text.now self.now }
    {
        self.src(text)
    }

    /// The text of a reserved token.
    pub fn reserved<'a>(&self, text: &'a str) -> &'a str
        requires of_text { IsOf text.now self.now }
        requires kind { self.now.kind ≡ Reserved }
        ensures { result.now ≡ text_of text.now self.now }
    {
        self.src(text)
    }

    /// The bytes that a string stands for, borrowed where nothing is escaped: no memory is then wanted. Fails only where no
    /// memory is found.
    pub fn string<'a>(&self, alloc: Global, text: &'a str) -> Result<Bytes<'a>, AllocError>
        requires of_text { IsOf text.now self.now }
        requires kind { self.now.kind ≡ String }
        ensures value { IfOk result (λ b. IsString (text_of text.now self.now) b) }
        ensures plain { is_plain (text_of text.now self.now) ≡ true → IsOk result }
    {
        let word = self.src(text).as_bytes();
        match plain_string(word) {
            Some(bytes) => Ok(Bytes::borrowed(bytes)),
            None => Ok(Bytes::owned(string_value(alloc, word)?)),
        }
    }

    /// The name that an identifier stands for, borrowed where nothing is escaped: no memory is then wanted. It is a text
    /// that is not empty.
    ///
    /// Refused as [`LexError::EmptyId`] or [`LexError::InvalidUtf8Id`], at the token's place, where what stands there is
    /// no such text, and as [`LexFault::Memory`] where no memory is found.
    pub fn id<'a>(&self, alloc: Global, text: &'a str) -> Result<CowStr<'a, Global>, LexFault>
        requires of_text { IsOf text.now self.now }
        requires kind { self.now.kind ≡ Id }
        ensures ok { IfOk result (λ v. IsIdOf (text_of text.now self.now) (cow_str_bytes v) × (cow_str_bytes v ≢ []) × IsUtf8 (cow_str_bytes v)) }
        ensures err { IfErr result (IsIdFault (text_of text.now self.now) self.now.offset) }
        ensures borrowed { is_plain (text_of text.now self.now) ≡ true → IfOk result IsBorrowedStr }
    {
        let word = self.src(text);
        match name_value(alloc, &word[1..]) {
            Err(_) => Err(LexFault::Memory),
            Ok(None) => Err(self.refused(LexError::InvalidUtf8Id)),
            Ok(Some(name)) => {
                if name.len() == 0 {
                    return Err(self.refused(LexError::EmptyId));
                }
                Ok(name)
            }
        }
    }

    /// The name that an annotation stands for, borrowed where nothing is escaped: no memory is then wanted. Fails only where no
    /// memory is found.
    pub fn annotation<'a>(
        &self,
        alloc: Global,
        text: &'a str,
    ) -> Result<CowStr<'a, Global>, AllocError>
        requires of_text { IsOf text.now self.now }
        requires kind { self.now.kind ≡ Annotation }
        ensures ok { IfOk result (λ v. IsAnnotationOf (text_of text.now self.now) (cow_str_bytes v)) }
        ensures borrowed { is_plain (text_of text.now self.now) ≡ true → IsOkAnd result IsBorrowedStr }
    {
        let word = self.src(text);
        match name_value(alloc, &word[1..])? {
            Some(name) => Ok(name),
            None => unreachable!(),
        }
    }

    /// Whether an annotation stands for this name. It wants no memory.
    pub fn annotation_is(&self, text: &str, name: &str) -> bool
        requires of_text { IsOf text.now self.now }
        requires kind { self.now.kind ≡ Annotation }
        ensures { IsTrue result ↔ IsAnnotationOf (text_of text.now self.now) name.now }
    {
        let word = self.src(text);
        name_is(&word[1..], name)
    }

    /// The parts of an integer; `kind` is the token's own.
    pub fn integer<'a>(&self, text: &'a str, kind: IntegerKind) -> Integer<'a>
        requires of_text { IsOf text.now self.now }
        requires kind { self.now.kind ≡ kinds.Integer kind }
        ensures { IsIntegerOf (text_of text.now self.now) result }
    {
        integer(self.src(text), kind)
    }

    /// The parts of a float; `kind` is the token's own.
    pub fn float<'a>(&self, text: &'a str, kind: FloatKind) -> Float<'a>
        requires of_text { IsOf text.now self.now }
        requires kind { self.now.kind ≡ kinds.Float kind }
        ensures { IsFloatOf (text_of text.now self.now) result }
    {
        float(self.src(text), kind)
    }

    fn refused(&self, error: LexError) -> LexFault
        ensures { IsRefusal result self.now.offset error }
    {
        LexFault::Lex {
            span: Span::from_offset(self.offset),
            error,
        }
    }
}

/// The name that follows a `$` or `@`, where it is a text.
fn name_value<'a>(alloc: Global, name: &'a str) -> Result<Option<CowStr<'a, Global>>, AllocError>
    requires { (bytes : List ℕ) × IsNameOf name.now bytes }
    ensures ok { IfOk result (λ o. MatchOption o ((bytes : List ℕ) × IsNameOf name.now bytes × ¬ (IsUtf8 bytes)) (λ v. IsNameOf name.now (cow_str_bytes v) × IsUtf8 (cow_str_bytes v))) }
    ensures borrowed { is_plain name.now ≡ true → IsOkAnd result (λ o. MatchOption o ⊥ IsBorrowedStr) }
{
    let bytes = name.as_bytes();
    if !is_quote_at(bytes, 0) {
        return Ok(Some(CowStr::Borrowed(name)));
    }
    if is_plain(bytes) {
        return Ok(Some(CowStr::Borrowed(&name[1..name.len() - 1])));
    }
    match String::from_utf8(string_value(alloc, bytes)?) {
        Ok(value) => Ok(Some(CowStr::Owned(value))),
        Err(_) => Ok(None),
    }
}

/// Whether the name that follows a `@` stands for this text.
fn name_is(name: &str, text: &str) -> bool
    requires { (bytes : List ℕ) × IsNameOf name.now bytes }
    ensures { IsTrue result ↔ IsNameOf name.now text.now }
{
    let bytes = name.as_bytes();
    if is_quote_at(bytes, 0) {
        return stands_for(bytes, text.as_bytes());
    }
    name == text
}

/// What stands between the quotes, where nothing is escaped.
fn plain_string(word: &[u8]) -> Option<&[u8]>
    requires { (bytes : List ℕ) × IsString word.now bytes }
    ensures { MatchOption result (is_plain word.now ≡ false) (λ r. (is_plain word.now ≡ true) × IsString word.now r.now) }
{
    if is_plain(word) {
        Some(&word[1..word.len() - 1])
    } else {
        None
    }
}

fn is_plain(word: &[u8]) -> bool
    ensures { result ≡ is_plain word.now }
{
    word.iter().all(|byte| *byte != b'\\')
}
