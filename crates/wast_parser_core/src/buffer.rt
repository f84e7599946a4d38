//! A text and its tokens.
ghost use Rattle.std.specs.Prelude.{◌≡◌, ◌+◌, ◌<◌, ◌^◌, ℕ, length, false, IfSome, IfOk, IfErr, MatchOption, option_map, slice_get};
ghost use Rattle.std.specs.List.{All};
ghost use Rattle.wast_lexer.specs.Groups.{parens, IsGroupAt};
ghost use Rattle.wast_lexer.specs.Source.{source, allows};
ghost use Rattle.wast_lexer.specs.Table.{IsTable};
ghost use Rattle.wast_lexer.specs.TokenText.{IsOf};
ghost use Rattle.wast_parser_core.specs.Reading.{out_of_memory};

use std::alloc::Global;
use std::marker::Model;
use wast_lexer::{LexFault, Lexer, Token, TokenKind, TokenTable};
use wast_parser_base::Error;

/// A text and its tokens, up to its end or the first fault.
///
/// Contracts see the text, the tokens, the fault, and whether the places of instructions are asked for.
#[derive(Drop)]
pub struct ParseBuffer<'a> {
    alloc: Global,
    text: &'a str,
    table: TokenTable,
    track: bool,
}

impl<'a> Model for ParseBuffer<'a> {
    ghost use Rattle.std.specs.List.{All};
    ghost use Rattle.wast_lexer.specs.TokenText.{IsOf};
    ghost use Rattle.wast_parser_core.specs.State.{Source};

    ghost Value = { Source };

    ghost view = { λ b. record { text = b.text.now; tokens = b.table.tokens; fault = b.table.fault; track = b.track } };

    ghost invariant = { λ b. All (IsOf b.text.now) b.table.tokens };
}

impl<'a> ParseBuffer<'a> {
    /// The tokens of a text, which has fewer than 2^32 bytes. Refused for want of memory alone: a text that does not lex is told
    /// of where it is read.
    pub fn new(alloc: Global, text: &'a str) -> Result<ParseBuffer<'a>, Error>
        requires { length text.now < 2 ^ 32 }
        ensures text { IfOk result (λ b. (b.text ≡ text.now) × (b.track ≡ false)) }
        ensures table { IfOk result (λ b. IsTable false b.text b.tokens b.fault) }
        ensures memory { IfErr result (λ e. e ≡ out_of_memory) }
    {
        ParseBuffer::new_with_lexer(alloc, Lexer::new(text))
    }

    /// The tokens of a lexer's text. Refused for want of memory alone.
    pub fn new_with_lexer(alloc: Global, lexer: Lexer<'a>) -> Result<ParseBuffer<'a>, Error>
        ensures text { IfOk result (λ b. (b.text ≡ source lexer.entry) × (b.track ≡ false)) }
        ensures table { IfOk result (λ b. IsTable (allows lexer.entry) b.text b.tokens b.fault) }
        ensures memory { IfErr result (λ e. e ≡ out_of_memory) }
    {
        let table = TokenTable::new(alloc, lexer)?;
        Ok(ParseBuffer {
            alloc,
            text: lexer.input(),
            table,
            track: false,
        })
    }

    /// Whether the places of instructions are asked for; they are not at first. No call keeps them.
    pub fn track_instr_spans(&mut self, track: bool)
        ensures { self.new ≡ record self.old { track = track } }
    {
        self.track = track;
    }

    pub(crate) fn alloc(&self) -> Global {
        self.alloc
    }

    pub(crate) fn text(&self) -> &'a str
        ensures { result.now ≡ self.now.text }
    {
        self.text
    }

    /// What a token is, by its index.
    #[inline(always)]
    pub(crate) fn kind(&self, index: usize) -> Option<TokenKind>
        ensures kind { result ≡ option_map (λ t. t.kind) (slice_get self.now.tokens index) }
        ensures own { All (IsOf self.now.text) self.now.tokens }
        ensures small { IfSome result (λ _. index + 1 < 2 ^ 64) }
    {
        let _count = self.table.len();
        self.table.kind(index)
    }

    /// A token by its index.
    #[inline(always)]
    pub(crate) fn get(&self, index: usize) -> Option<Token>
        ensures token { result ≡ slice_get self.now.tokens index }
        ensures own { IfSome result (IsOf self.now.text) }
        ensures small { IfSome result (λ _. index + 1 < 2 ^ 64) }
    {
        // So that the index past a token fits: the number of all tokens does.
        let _count = self.table.len();
        self.table.get(index)
    }

    /// Why there are no more tokens, where that isn't the end of the text.
    pub(crate) fn fault(&self) -> Option<LexFault>
        ensures { result ≡ self.now.fault }
    {
        self.table.fault().copied()
    }

    /// The index of the `)` that ends the group of the `(` with this index.
    pub(crate) fn group_end(&self, index: usize) -> Option<usize>
        ensures group { MatchOption result ((end : ℕ) → ¬ IsGroupAt (parens self.now.tokens) index end) (λ end. IsGroupAt (parens self.now.tokens) index end) }
        ensures small { IfSome result (λ end. end + 1 < 2 ^ 64) }
    {
        let _count = self.table.len();
        self.table.group_end(index)
    }
}
