//! What expressions ask of instructions.
ghost use Rattle.std.specs.Prelude.{◌≡◌, ℕ, IfOk, OnErr};
ghost use Rattle.wast_grammar.specs.Tokens.{Name};
ghost use Rattle.wast_parser.specs.Look.{ask};
ghost use Rattle.wast_parser.specs.Grammar.{Syntax};
ghost use Rattle.wast_parser.specs.Lawful.{LawfulBut};
ghost use Rattle.wast_parser.specs.State.{ahead, Keeps};
ghost use Rattle.wast_parser.specs.Reading.{Asks, Gives};
ghost use Rattle.wast_parser.specs.Cursors.{stands};
ghost use Rattle.wast_expressions.specs.Items.{Made};
ghost use Rattle.wast_expressions.specs.Expressions.{Heads, one_ins, ins_tests};
ghost use Rattle.wast_expressions.specs.Heeds.{Heeds, Spelled};
ghost use Rattle.wast_expressions.specs.Views.{kind_of, made_as, obtained};

use wast_parser::{Cursor, Error, Parser, Span};

/// What a group is, by the instruction that heads it (6.5, folded instructions).
#[derive(Clone, Copy, PartialEq, Eq, Drop)]
pub enum GroupKind {
    /// Its items are operands, which stand before it when they are unfolded.
    Operands,
    /// Its items are those of the block that it opens.
    Block,
    /// It has conditions and arms: an `if`.
    Arms,
}

/// What the grammar says of a type of instructions, with their operands. Such a type is no `Meaning`: what would go on with an
/// instruction, as clauses with `try_table`, may stand behind another.
pub trait Operation: Sized + Drop {
    /// What the grammar sees of an instruction.
    ghost Tree: { Type 0 };

    ghost tree: { Self → Tree };

    /// Which tokens spell it, and how it is read.
    ghost syntax: { Syntax Name ℕ Tree };

    /// The words of instructions, what may follow them, which group each heads, and what would go on with it.
    ghost heads: { Heads Tree };

    /// The instructions that groups make.
    ghost made: { Made ℕ Tree };

    /// Whether a word of an instruction stands here; refused where no token can be read there.
    fn peek_word(cursor: Cursor<'_, '_>) -> Result<bool, Error>
        ensures { Asks result (stands cursor.entry).source (ask (ins_tests heads) (ahead (stands cursor.entry))) };

    /// What is read is spelled and is not gone on with, and what is spelled is read where nothing goes on with it.
    fn lawful()
        ensures { LawfulBut (one_ins syntax heads) heads.own };

    /// What is asked of the words, and of what may follow.
    fn heeds()
        ensures { Heeds heads };

    /// What groups make is spelled by its word alone.
    fn spelled()
        ensures { Spelled syntax made };
}

/// Which instruction a group makes.
#[derive(Clone, Copy, PartialEq, Eq, Drop)]
pub enum MadeKind {
    /// The `else` before the second arm of an `if`.
    Else,
    /// The `end` of a block or of an `if`.
    End,
}

/// Where an instruction comes from.
#[derive(Clone, Copy, PartialEq, Eq, Drop)]
pub enum Origin {
    /// It is written here.
    Written,
    /// A group makes it: its word stands there, or the group closes there.
    Made(MadeKind, Span),
}

/// Instructions that can be read, and made. One call does both: what the check compares where the instructions are many grows
/// with each call that answers one.
pub trait ParseOperation<'a>: Operation {
    /// An instruction, and which group it heads. One that is written is read exactly where the grammar reads it, with the tokens
    /// that it takes, and is refused elsewhere, or for want of memory; what a group makes wants no memory, and takes nothing. Depth
    /// and registered names are as they were on both outcomes, and the parser stands where it did or behind what it read.
    fn obtain(parser: &mut Parser<'a>, origin: Origin) -> Result<(Self, GroupKind), Error>
        ensures read { Gives (λ x. Self.tree x.0) result parser.new (obtained Self.syntax Self.made origin (ahead parser.old)) }
        ensures kind { IfOk result (λ x. kind_of x.1 ≡ Self.heads.kind (Self.tree x.0)) }
        ensures made { OnErr result (origin ≡ Origin.Written) }
        ensures still { (kind : MadeKind) (place : ℕ) → origin ≡ Origin.Made kind place → parser.new ≡ parser.old }
        ensures keeps { Keeps parser.old parser.new };
}

/// Reads an instruction and which group it heads.
pub(crate) fn parse_head<'a, I: ParseOperation<'a>>(
    parser: &mut Parser<'a>,
) -> Result<(I, GroupKind), Error>
    ensures read { Gives (λ x. I.tree x.0) result parser.new (I.syntax.reads (ahead parser.old)) }
    ensures kind { IfOk result (λ x. kind_of x.1 ≡ I.heads.kind (I.tree x.0)) }
    ensures keeps { Keeps parser.old parser.new }
{
    I::obtain(parser, Origin::Written)
}

/// Reads an instruction.
pub(crate) fn parse_operation<'a, I: ParseOperation<'a>>(
    parser: &mut Parser<'a>,
) -> Result<I, Error>
    ensures read { Gives I.tree result parser.new (I.syntax.reads (ahead parser.old)) }
    ensures keeps { Keeps parser.old parser.new }
{
    match parse_head(parser) {
        Ok((instr, _)) => Ok(instr),
        Err(e) => Err(e),
    }
}

/// What a group makes.
pub(crate) fn make<'a, I: ParseOperation<'a>>(
    parser: &mut Parser<'a>,
    kind: MadeKind,
    span: Span,
) -> I
    ensures made { I.tree result ≡ made_as I.made kind span }
    ensures still { parser.new ≡ parser.old }
{
    match I::obtain(parser, Origin::Made(kind, span)) {
        Ok((instr, _)) => instr,
        Err(_) => unreachable!(),
    }
}
