//! A small set of instructions without operands.
ghost use Rattle.std.specs.Prelude.{◌≡◌, ℕ, List, IfOk, map, option_map};
ghost use Rattle.wast_parser.specs.Spelling.{find_by};
ghost use Rattle.wast_parser.specs.Look.{ask};
ghost use Rattle.wast_parser.specs.Lawful.{LawfulBut};
ghost use Rattle.wast_parser.specs.State.{ahead, Keeps};
ghost use Rattle.wast_parser.specs.Reading.{Asks, Gives};
ghost use Rattle.wast_parser.specs.Cursors.{stands};
ghost use Rattle.wast_expressions.specs.Expressions.{OfOperands, ins_tests, one_ins};
ghost use Rattle.wast_expressions.specs.Heeds.{Heeds, Spelled};
ghost use Rattle.wast_expressions.specs.Views.{kind_of, made_as};
ghost use Rattle.wast_expression_rows.specs.Ops.{mnemonic_text, the_words, op, op_heads, op_kind, op_made, op_tree};

use wast_expressions::{GroupKind, MadeKind, Operation, Origin, ParseOperation};
use wast_parser::{Cursor, Error, Parser, Span, WordSet};

#[derive(Clone, Copy, Debug, PartialEq, Eq, Drop)]
pub enum Mnemonic {
    Nop,
    Drop,
    Add,
    Block,
    Loop,
    If,
    Else,
    End,
}

/// All of them.
const MNEMONICS: [Mnemonic; 8] = [
    Mnemonic::Nop,
    Mnemonic::Drop,
    Mnemonic::Add,
    Mnemonic::Block,
    Mnemonic::Loop,
    Mnemonic::If,
    Mnemonic::Else,
    Mnemonic::End,
];

impl WordSet for Mnemonic {
    ghost Entry = { List ℕ };

    ghost entry = { mnemonic_text };

    ghost word = { λ w. w };

    ghost entries = { the_words };

    fn of(text: &[u8]) -> Option<Self> {
        find_among(&MNEMONICS, text)
    }
}

impl Mnemonic {
    pub fn text(self) -> &'static str
        ensures { result.now ≡ mnemonic_text self }
    {
        match self {
            Mnemonic::Nop => "nop",
            Mnemonic::Drop => "drop",
            Mnemonic::Add => "i32.add",
            Mnemonic::Block => "block",
            Mnemonic::Loop => "loop",
            Mnemonic::If => "if",
            Mnemonic::Else => "else",
            Mnemonic::End => "end",
        }
    }
}

fn find_among(mnemonics: &[Mnemonic], text: &[u8]) -> Option<Mnemonic>
    ensures { option_map mnemonic_text result ≡ find_by (λ w. w) text.now (map mnemonic_text mnemonics.now) }
{
    for mnemonic in mnemonics {
        if text == mnemonic.text().as_bytes() {
            return Some(*mnemonic);
        }
    }
    None
}

/// An instruction: its word, and where it stands.
#[derive(Drop)]
pub struct Op {
    pub word: Mnemonic,
    pub span: Span,
}

impl Operation for Op {
    ghost Tree = { List ℕ × ℕ };

    ghost tree = { op_tree };

    ghost syntax = { op };

    ghost heads = { op_heads };

    ghost made = { op_made };

    fn peek_word(cursor: Cursor<'_, '_>) -> Result<bool, Error>
        ensures { Asks result (stands cursor.entry).source (ask (ins_tests op_heads) (ahead (stands cursor.entry))) }
    {
        cursor.peek_among::<Mnemonic>()
    }

    fn lawful()
        ensures { LawfulBut (one_ins op op_heads) op_heads.own }
    {}

    fn heeds()
        ensures { Heeds op_heads }
    {}

    fn spelled()
        ensures { Spelled op op_made }
    {}
}

impl<'a> ParseOperation<'a> for Op {
    fn obtain(parser: &mut Parser<'a>, origin: Origin) -> Result<(Self, GroupKind), Error> {
        match origin {
            Origin::Written => written(parser),
            Origin::Made(kind, span) => Ok((made(kind, span), GroupKind::Operands)),
        }
    }
}

/// Reads an instruction, and tells which group it heads.
fn written(parser: &mut Parser<'_>) -> Result<(Op, GroupKind), Error>
    ensures read { Gives (λ x. op_tree x.0) result parser.new (op.reads (ahead parser.old)) }
    ensures kind { IfOk result (λ x. kind_of x.1 ≡ op_heads.kind (op_tree x.0)) }
    ensures keeps { Keeps parser.old parser.new }
{
    match parser.among("expected an instruction") {
        Ok((word, span)) => Ok((Op { word, span }, group_kind(word))),
        Err(e) => Err(e),
    }
}

/// What a group makes.
fn made(kind: MadeKind, span: Span) -> Op
    ensures same { op_tree result ≡ made_as op_made kind span }
    ensures alone { op_heads.kind (op_tree result) ≡ OfOperands }
{
    match kind {
        MadeKind::Else => Op {
            word: Mnemonic::Else,
            span,
        },
        MadeKind::End => Op {
            word: Mnemonic::End,
            span,
        },
    }
}

/// Which group a word heads.
fn group_kind(word: Mnemonic) -> GroupKind
    ensures { kind_of result ≡ op_kind (mnemonic_text word) }
{
    match word {
        Mnemonic::Block | Mnemonic::Loop => GroupKind::Block,
        Mnemonic::If => GroupKind::Arms,
        _ => GroupKind::Operands,
    }
}
