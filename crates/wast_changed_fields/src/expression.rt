//! Expressions.
ghost use Rattle.std.specs.Prelude.{◌≡◌, ℕ, [], OnOk, map};
ghost use Rattle.wast_grammar.specs.Tokens.{Name};
ghost use Rattle.wast_core_instr.specs.InstructionViews.{instruction_tree};
ghost use Rattle.wast_core_instr.specs.ExpressionViews.{expression_tree};
ghost use Rattle.wast_meaning.specs.Changed.{instrs_changed};
ghost use Rattle.wast_module_fields.specs.FieldTree as spec;
ghost use Rattle.wast_changed.specs.Rewritten.{everywhere, expr_changed};

use std::alloc::{AllocError, Global};
use wast_changed::{ByChange, Changing, Rewriting, TryEach, try_turn_list};
use wast_core_instr::{Expression, Instruction};

/// An expression (6.5, expressions) whose instructions are rewritten alike wherever they stand; the hints stay. Fails only for want of
/// memory; of the instructions nothing is promised then.
pub fn change_expression<'a, C: Changing<'a>>(
    change: &C,
    expression: &mut Expression<'a>,
) -> Result<(), AllocError>
    ensures changed { OnOk result (expression_tree expression.new ≡ expr_changed (everywhere (C.change change.now)) (expression_tree expression.old)) }
    ensures hints { (expression_tree expression.new).hints ≡ (expression_tree expression.old).hints }
    ensures spans { expression.new.instr_spans ≡ expression.old.instr_spans }
{
    change_instructions(change, &mut expression.instrs)
}

/// Instructions, one by one. Fails only for want of memory.
fn change_instructions<'a, C: Changing<'a>>(
    change: &C,
    instrs: &mut [Instruction<'a>],
) -> Result<(), AllocError>
    ensures { OnOk result (map instruction_tree instrs.new ≡ instrs_changed (everywhere (C.change change.now)) [] (map instruction_tree instrs.old)) }
{
    try_turn_list(&ByChange { change }, instrs)?;
    Ok(())
}

/// Constant expressions, one by one. Fails only for want of memory.
pub(crate) fn change_constants<'a, R: Rewriting<'a>>(
    alloc: Global,
    rewriting: &R,
    expressions: &mut [Expression<'a>],
) -> Result<(), AllocError>
    ensures { OnOk result (map expression_tree expressions.new ≡ map (expr_changed (R.in_constant rewriting.now)) (map expression_tree expressions.old)) }
{
    try_turn_list(&Constants { alloc, rewriting }, expressions)
}

/// Constant expressions by a rewriting.
#[derive(Drop)]
struct Constants<'r, R> {
    alloc: Global,
    rewriting: &'r R,
}

impl<'a, R: Rewriting<'a>> TryEach<Expression<'a>> for Constants<'_, R> {
    ghost Tree = { spec.Expr Name ℕ };

    ghost tree = { expression_tree };

    ghost turned = { λ c. expr_changed (R.in_constant c.rewriting.now) };

    fn try_turn(&self, item: &mut Expression<'a>) -> Result<(), AllocError> {
        self.rewriting.constant(self.alloc, item)
    }
}
