//! Instructions in the items of expressions.
ghost use Rattle.std.specs.Prelude.{◌≡◌, ℕ, IfOk};
ghost use Rattle.wast_typed_operands.specs.Tokens.{Name};
ghost use Rattle.wast_typed_operands.specs.Look.{ask};
ghost use Rattle.wast_typed_operands.specs.Lawful.{LawfulBut};
ghost use Rattle.wast_typed_operands.specs.State.{ahead, Keeps};
ghost use Rattle.wast_typed_operands.specs.Reading.{Asks, Gives};
ghost use Rattle.wast_typed_operands.specs.Cursors.{stands};
ghost use Rattle.wast_expressions.specs.Expressions.{OfOperands, ins_tests, one_ins};
ghost use Rattle.wast_expressions.specs.Heeds.{Heeds, Spelled};
ghost use Rattle.wast_expressions.specs.Views.{kind_of, made_as};
ghost use Rattle.wast_core_instr.specs.InstructionTree as spec;
ghost use Rattle.wast_core_instr.specs.InstructionSyntax.{instruction};
ghost use Rattle.wast_core_instr.specs.InstructionViews.{instruction_tree};
ghost use Rattle.wast_core_instr.specs.InstructionGroups.{group, instruction_heads, instruction_made};

use crate::instruction::Instruction;
use wast_expressions::{GroupKind, MadeKind, Operation, Origin, ParseOperation};
use wast_mnemonics::{Word, laws};
use wast_typed_operands::{Cursor, Error, Parse, Parser, Span};

impl<'a> Operation for Instruction<'a> {
    ghost Tree = { spec.Instruction Name ℕ };

    ghost tree = { instruction_tree };

    ghost syntax = { instruction };

    ghost heads = { instruction_heads };

    ghost made = { instruction_made };

    fn peek_word(cursor: Cursor<'_, '_>) -> Result<bool, Error>
        ensures { Asks result (stands cursor.entry).source (ask (ins_tests (instruction_heads {N = Name} {P = ℕ})) (ahead (stands cursor.entry))) }
    {
        cursor.peek_among::<Word>()
    }

    fn lawful()
        ensures { LawfulBut (one_ins (instruction {N = Name} {P = ℕ}) instruction_heads) instruction_heads.own }
    {}

    fn heeds()
        ensures { Heeds (instruction_heads {N = Name} {P = ℕ}) }
    {}

    fn spelled()
        ensures { Spelled (instruction {N = Name} {P = ℕ}) instruction_made }
    {
        laws::every_word();
    }
}

impl<'a> ParseOperation<'a> for Instruction<'a> {
    #[inline(always)]
    fn obtain(parser: &mut Parser<'a>, origin: Origin) -> Result<(Self, GroupKind), Error> {
        match origin {
            Origin::Written => written(parser),
            Origin::Made(kind, span) => Ok(made_alone(kind, span)),
        }
    }
}

/// Reads an instruction, and tells which group it heads.
#[inline(always)]
fn written<'a>(parser: &mut Parser<'a>) -> Result<(Instruction<'a>, GroupKind), Error>
    ensures read { Gives (λ x. instruction_tree x.0) result parser.new (instruction.reads (ahead parser.old)) }
    ensures kind { IfOk result (λ x. kind_of x.1 ≡ group (instruction_tree x.0)) }
    ensures keeps { Keeps parser.old parser.new }
{
    let instr = Instruction::parse(parser)?;
    let kind = group_kind(&instr);
    Ok((instr, kind))
}

/// What a group makes, which heads no group of its own.
fn made_alone<'a>(kind: MadeKind, span: Span) -> (Instruction<'a>, GroupKind)
    ensures same { instruction_tree result.0 ≡ made_as instruction_made kind span }
    ensures kind { kind_of result.1 ≡ group (instruction_tree result.0) }
{
    (made(kind, span), GroupKind::Operands)
}

/// What a group makes: it has no label, and heads no group of its own.
fn made<'a>(kind: MadeKind, span: Span) -> Instruction<'a>
    ensures same { instruction_tree result ≡ made_as instruction_made kind span }
    ensures alone { group (instruction_tree result) ≡ OfOperands }
{
    match kind {
        MadeKind::Else => Instruction::Else(None),
        MadeKind::End => Instruction::End(None),
    }
}

/// Which group an instruction heads.
fn group_kind(instruction: &Instruction<'_>) -> GroupKind
    ensures { kind_of result ≡ group (instruction_tree instruction.now) }
{
    match instruction {
        Instruction::Block(_) | Instruction::Loop(_) | Instruction::TryTable(_) => GroupKind::Block,
        Instruction::If(_) => GroupKind::Arms,
        _ => GroupKind::Operands,
    }
}
