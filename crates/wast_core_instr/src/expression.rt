//! Expressions of instructions.
ghost use Rattle.std.specs.Prelude.{◌≡◌, ℕ, ◌+◌, ◌≤◌, [], ◌∷◌, None, IfOk, OnOk, length};
ghost use Rattle.wast_typed_operands.specs.Tokens.{Name};
ghost use Rattle.wast_typed_operands.specs.Grammar.{seen};
ghost use Rattle.wast_typed_operands.specs.Lawful.{Lawful};
ghost use Rattle.wast_typed_operands.specs.State.{ahead, Keeps};
ghost use Rattle.wast_typed_operands.specs.Reading.{Gives};
ghost use Rattle.wast_expressions.specs.Items as items;
ghost use Rattle.wast_expressions.specs.Items.{expression_of};
ghost use Rattle.wast_expressions.specs.Expressions.{data_offset, expression, folded_instruction, plain, without_hints};
ghost use Rattle.wast_expressions.specs.Views.{Counts, instructions_tree};
ghost use Rattle.wast_core_instr.specs.InstructionTree as spec;
ghost use Rattle.wast_core_instr.specs.InstructionSyntax.{instruction};
ghost use Rattle.wast_core_instr.specs.InstructionViews.{instruction_tree};
ghost use Rattle.wast_core_instr.specs.InstructionGroups.{instruction_heads, instruction_made};
ghost use Rattle.wast_core_instr.specs.ExpressionViews.{expression_tree};

use crate::instruction::Instruction;
use std::alloc::{AllocError, Global};
use std::sync::ledger::Ledger;
use wast_expressions::{BranchHint, Instructions, Operation, Steps};
use wast_typed_operands::{Error, Meaning, Parse, Parser, Span};

/// Instructions in the order in which they are carried out, and hints, whose indices rise where they are read (6.5, expressions). Folded
/// and flat forms of an expression are one value.
///
/// It is taken apart by [`Expression::into_parts`] alone.
pub struct Expression<'a> {
    pub instrs: Vec<Instruction<'a>>,
    pub branch_hints: Vec<BranchHint>,
    /// Where the instructions stand, where that is kept.
    pub instr_spans: Option<Vec<Span>>,
}

// By hand, so that what drops one is proved here once, and not in each crate that holds one.
impl Drop for Expression<'_> {
    fn drop(self) {
        let Expression {
            instrs: _,
            branch_hints: _,
            instr_spans: _,
        } = self;
    }
}

impl<'a> Expression<'a> {
    /// Its instructions, its hints, and where the instructions stand.
    pub fn into_parts(self) -> (Vec<Instruction<'a>>, Vec<BranchHint>, Option<Vec<Span>>)
        ensures { result ≡ (self.entry.instrs, self.entry.branch_hints, self.entry.instr_spans) }
    {
        let Expression {
            instrs,
            branch_hints,
            instr_spans,
        } = self;
        (instrs, branch_hints, instr_spans)
    }

    /// An expression of one instruction, without hints and places. Fails only for want of memory.
    pub fn one(alloc: Global, instr: Instruction<'a>) -> Result<Self, AllocError>
        ensures tree { IfOk result (λ e. expression_tree e ≡ expression_of ((None, instruction_tree instr.entry) ∷ [])) }
        ensures spans { IfOk result (λ e. e.instr_spans ≡ None) }
    {
        match list_of_one(alloc, instr) {
            Ok(instrs) => Ok(Expression {
                instrs,
                branch_hints: Vec::new(alloc),
                instr_spans: None,
            }),
            Err(e) => Err(e),
        }
    }

    /// Reads an expression as `parse` does, and counts the turns of the loop, that which is refused too; for want of memory the
    /// count is at least one, and no more than it would be else. Where an expression is read it is no more than the significant tokens that
    /// this takes. On both outcomes it is at most one more than the tokens that it took or passed, and than the significant tokens
    /// that stood before it. The depth and the registered names stay, and the parser goes back nowhere.
    pub fn parse_counted<L: Ledger>(
        parser: &mut Parser<'a>,
        steps: &mut Steps<L>,
    ) -> Result<Self, Error>
        ensures read { Gives expression_tree result parser.new ((expression instruction instruction_heads instruction_made).reads (ahead parser.old)) }
        ensures keeps { Keeps parser.old parser.new }
        ensures counted { (n : ℕ) × (steps.new ≡ steps.old + n) × Counts instruction instruction_heads instruction_made (ahead parser.old) result n }
        ensures spent { OnOk result (steps.new + length (ahead parser.new) ≤ steps.old + length (ahead parser.old)) }
        ensures taken { steps.new + parser.old.at ≤ steps.old + parser.new.at + 1 }
        ensures turns { steps.new ≤ steps.old + length (ahead parser.old) + 1 }
        ensures spans { IfOk result (λ e. e.instr_spans ≡ None) }
    {
        match wast_expressions::parse_counted(parser, steps) {
            Ok(instructions) => Ok(Expression::from(instructions)),
            Err(e) => Err(e),
        }
    }

    /// Reads `(instruction item*)`: the instructions to which the items unfold, and then the one that heads the group, whatever
    /// its kind. Refused where none is spelled here, or for want of memory; the depth and the registered names stay then, and the parser
    /// goes back nowhere.
    pub fn parse_folded_instruction(parser: &mut Parser<'a>) -> Result<Self, Error>
        ensures read { Gives expression_tree result parser.new ((folded_instruction instruction instruction_heads instruction_made).reads (ahead parser.old)) }
        ensures keeps { Keeps parser.old parser.new }
        ensures spans { IfOk result (λ e. e.instr_spans ≡ None) }
    {
        match wast_expressions::parse_folded_instruction(parser) {
            Ok(instructions) => Ok(Expression::from(instructions)),
            Err(e) => Err(e),
        }
    }

    /// Reads `(instruction plain*)`: the operands' instructions in order, and then the one that heads the group. The word of a block
    /// is read as any other: it opens nothing, and no `end` is put behind it. No hint may stand among them. Refused where none is spelled here, or
    /// for want of memory; the depth and the registered names stay then, and the parser goes back nowhere.
    pub fn parse_plain(parser: &mut Parser<'a>) -> Result<Self, Error>
        ensures read { Gives expression_tree result parser.new ((seen (without_hints instruction instruction_heads) (plain instruction instruction_heads)).reads (ahead parser.old)) }
        ensures keeps { Keeps parser.old parser.new }
        ensures spans { IfOk result (λ e. e.instr_spans ≡ None) }
    {
        match wast_expressions::parse_plain(parser) {
            Ok(instructions) => Ok(Expression::from(instructions)),
            Err(e) => Err(e),
        }
    }

    /// Reads the offset of data: `(offset item*)`, or `(instruction item*)`. Refused where none is spelled here, or for want of memory;
    /// the depth and the registered names stay then, and the parser goes back nowhere.
    pub fn parse_offset(parser: &mut Parser<'a>) -> Result<Self, Error>
        ensures read { Gives expression_tree result parser.new ((data_offset instruction instruction_heads instruction_made).reads (ahead parser.old)) }
        ensures keeps { Keeps parser.old parser.new }
        ensures spans { IfOk result (λ e. e.instr_spans ≡ None) }
    {
        match wast_expressions::parse_offset(parser) {
            Ok(instructions) => Ok(Expression::from(instructions)),
            Err(e) => Err(e),
        }
    }
}

/// A list of one item. Fails only for want of memory.
fn list_of_one<T: Drop>(alloc: Global, item: T) -> Result<Vec<T>, AllocError>
    ensures { IfOk result (λ list. list.items ≡ item ∷ []) }
{
    let mut list = Vec::new(alloc);
    list.push(item)?;
    Ok(list)
}

impl<'a> From<Instructions<Instruction<'a>>> for Expression<'a> {
    fn from(instructions: Instructions<Instruction<'a>>) -> Self
        ensures tree { expression_tree result ≡ instructions_tree instruction_tree instructions.entry }
        ensures spans { result.instr_spans ≡ None }
    {
        Expression {
            instrs: instructions.instrs,
            branch_hints: instructions.hints,
            instr_spans: None,
        }
    }
}

impl<'a> Meaning for Expression<'a> {
    ghost Tree = { items.Expression (spec.Instruction Name ℕ) };

    ghost tree = { expression_tree };

    ghost syntax = { expression instruction instruction_heads instruction_made };

    fn lawful()
        ensures { Lawful (expression (instruction {N = Name} {P = ℕ}) instruction_heads instruction_made) }
    {
        <Instruction as Operation>::lawful();
        Instruction::heeds();
    }
}

impl<'a> Parse<'a> for Expression<'a> {
    fn parse(parser: &mut Parser<'a>) -> Result<Self, Error>
        ensures read { Gives expression_tree result parser.new ((expression instruction instruction_heads instruction_made).reads (ahead parser.old)) }
        ensures keeps { Keeps parser.old parser.new }
        ensures spans { IfOk result (λ e. e.instr_spans ≡ None) }
    {
        match wast_expressions::parse_items(parser) {
            Ok(instructions) => Ok(Expression::from(instructions)),
            Err(e) => Err(e),
        }
    }
}
