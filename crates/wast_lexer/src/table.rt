//! A table of a text's tokens.

ghost use Rattle.std.specs.Prelude.{◌≡◌, ◌+◌, ℕ, None, IfOk, MatchOption, length, slice_get, option_map};
ghost use Rattle.std.specs.List.{All};
ghost use Rattle.wast_lexer.specs.Entries.{tokens_of, Rising};
ghost use Rattle.wast_lexer.specs.Groups.{parens, IsGroupAt};
ghost use Rattle.wast_lexer.specs.Source.{source, allows};
ghost use Rattle.wast_lexer.specs.Table.{IsTable};
ghost use Rattle.wast_lexer.specs.TokenText.{IsOf};

use crate::entry::Entry;
use crate::fault::LexFault;
use crate::lexer::Lexer;
use crate::paren::{Paren, paren_of};
use crate::paren_ends::closing;
use crate::token::{Token, TokenKind};
use std::alloc::{AllocError, Global};
use std::marker::Model;

/// The tokens of a text, up to its end or the first fault. Contracts see these tokens and that fault.
///
/// It keeps eight bytes a token, and no text.
#[derive(Drop)]
pub struct TokenTable {
    entries: Vec<Entry>,
    fault: Option<LexFault>,
}

impl Model for TokenTable {
    ghost use Rattle.wast_lexer.specs.Entries.{tokens_of, Rising};
    ghost use Rattle.wast_lexer.specs.Table.{Tabled};

    ghost Value = { Tabled };

    ghost view = { λ t. record { tokens = tokens_of 0 t.entries.items; fault = t.fault } };

    ghost invariant = { λ t. Rising 0 t.entries.items };
}

impl TokenTable {
    /// The tokens of a lexer's text. Each is found once. Fails only where no memory is found; a fault of the lexer ends the tokens
    /// ([`TokenTable::fault`]).
    pub fn new(alloc: Global, lexer: Lexer) -> Result<TokenTable, AllocError>
        ensures table { IfOk result (λ t. IsTable (allows lexer.entry) (source lexer.entry) t.tokens t.fault) }
        ensures tokens { IfOk result (λ t. All (IsOf (source lexer.entry)) t.tokens) }
    {
        let (entries, fault) = all_entries(alloc, lexer)?;
        Ok(TokenTable { entries, fault })
    }

    /// How many tokens there are.
    #[inline(always)]
    pub fn len(&self) -> usize
        ensures { result ≡ length self.now.tokens }
    {
        self.entries.len()
    }

    /// What a token is, by its index; `None` where there is no such token.
    #[inline(always)]
    pub fn kind(&self, index: usize) -> Option<TokenKind>
        ensures { result ≡ option_map (λ t. t.kind) (slice_get self.now.tokens index) }
    {
        if self.entries.len() <= index {
            return None;
        }
        Some(self.entries[index].kind)
    }

    /// A token by its index; `None` where there is no such token.
    #[inline(always)]
    pub fn get(&self, index: usize) -> Option<Token>
        ensures { result ≡ slice_get self.now.tokens index }
    {
        if self.entries.len() <= index {
            return None;
        }
        let entry = self.entries[index];
        let start = if index == 0 {
            0
        } else {
            self.entries[index - 1].end
        };
        Some(Token {
            kind: entry.kind,
            offset: start as usize,
            len: entry.end - start,
        })
    }

    /// Why there are no more tokens, where that isn't the end of the text.
    pub fn fault(&self) -> Option<&LexFault>
        ensures { option_map (λ f. f.now) result ≡ self.now.fault }
    {
        self.fault.as_ref()
    }

    /// The index of the `)` that ends the group of the `(` with this index; `None` where no `(` has this index, or its group
    /// isn't closed. The tokens of the group are passed one by one.
    pub fn group_end(&self, index: usize) -> Option<usize>
        ensures { MatchOption result ((end : ℕ) → ¬ IsGroupAt (parens self.now.tokens) index end) (λ end. IsGroupAt (parens self.now.tokens) index end) }
    {
        if self.entries.len() <= index {
            return None;
        }
        match paren_of(self.entries[index].kind) {
            Paren::Opens => closing(&self.entries, index + 1),
            _ => None,
        }
    }
}

/// The tokens up to the end or the first fault.
fn all_entries(alloc: Global, lexer: Lexer) -> Result<(Vec<Entry>, Option<LexFault>), AllocError>
    ensures table { IfOk result (λ r. IsTable (allows lexer.entry) (source lexer.entry) (tokens_of 0 r.0.items) r.1) }
    ensures tokens { IfOk result (λ r. All (IsOf (source lexer.entry)) (tokens_of 0 r.0.items)) }
    ensures rising { IfOk result (λ r. Rising 0 r.0.items) }
{
    let mut entries = Vec::new(alloc);
    let mut pos = 0;
    'tokens: loop {
        match lexer.parse(&mut pos) {
            Ok(Some(token)) => entries.push(Entry {
                kind: token.kind,
                end: pos as u32,
            })?,
            Ok(None) => return Ok((entries, None)),
            Err(fault) => return Ok((entries, Some(fault))),
        }
    }
}
