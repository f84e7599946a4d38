//! Expressions.
ghost use Rattle.std.specs.Prelude.{◌≡◌, map};
ghost use Rattle.std.specs.List.{list_all};
ghost use Rattle.wast_expressions.specs.Partial.{hint_tree};
ghost use Rattle.wast_core_instr.specs.InstructionViews.{instruction_tree};
ghost use Rattle.wast_core_instr.specs.ExpressionViews.{expression_tree};
ghost use Rattle.wast_meaning.specs.Mentions.{Constant};
ghost use Rattle.wast_meaning.specs.WellFormed as spec;

use crate::alignment::is_aligned;
use crate::turn::Turn;
use wast_core_instr::{BranchHint, Expression, Instruction};

/// Whether alignments are powers of two below 65536, in bytes, and branch hints rise, each on an instruction, with values below 128.
pub(crate) fn is_formed(expression: &Expression<'_>) -> bool
    ensures { result ≡ spec.is_formed (expression_tree expression.now) }
{
    are_aligned(&expression.instrs) && are_hints(&expression.branch_hints, expression.instrs.len())
}

/// Whether the same holds of a constant expression, and it closes each block that it opens, and no other. That is asked of no
/// function's body.
pub(crate) fn is_formed_constant(expression: &Expression<'_>) -> bool
    ensures { result ≡ spec.part_formed (Constant (expression_tree expression.now)) }
{
    is_formed(expression) && is_balanced(&expression.instrs)
}

/// Whether the alignments of instructions are powers of two below 65536, in bytes.
fn are_aligned(instructions: &[Instruction<'_>]) -> bool
    ensures { result ≡ list_all (λ i. spec.is_aligned i.operands) (map instruction_tree instructions.now) }
{
    for instruction in instructions {
        if !is_aligned(instruction) {
            return false;
        }
    }
    true
}

/// Whether branch hints rise, each stands on one of so many instructions, and their values are below 128.
fn are_hints(hints: &[BranchHint], len: usize) -> bool
    ensures { result ≡ spec.are_hints len (map hint_tree hints.now) }
{
    let mut next = 0;
    for hint in hints {
        let index = hint.instr_index as usize;
        if index < next || index >= len || hint.value >= 128 {
            return false;
        }
        next = index + 1;
    }
    true
}

/// Whether instructions close each block that they open, and no other.
fn is_balanced(instructions: &[Instruction<'_>]) -> bool
    ensures { result ≡ spec.is_balanced (map instruction_tree instructions.now) 0 }
{
    let mut open_blocks: usize = 0;
    for instruction in instructions {
        match Turn::of(instruction) {
            Turn::Opens => open_blocks += 1,
            Turn::Closes => {
                if open_blocks == 0 {
                    return false;
                }
                open_blocks -= 1;
            }
            Turn::Stays => {}
        }
    }
    open_blocks == 0
}
