//! Constant expressions.
ghost use Rattle.std.specs.Prelude.{[], ◌∷◌, ◌++◌, map, option_map, option_to_list};
ghost use Rattle.wast_parser.specs.Identifiers.{index_tree};
ghost use Rattle.wast_core_instr.specs.ExpressionViews.{expression_tree};
ghost use Rattle.wast_meaning.specs.Mentions.{Constant, refers_if, says};
ghost use Rattle.wast_meaning.specs.Views.{space_view};
ghost use Rattle.wast_mentions.specs.Judging.{Judged};

use crate::judge::{PartJudge, PartJudgement};
use crate::said::tell_target;
use wast_core_instr::Expression;
use wast_meaning::Space;
use wast_parser::Index;

/// Tells of constant expressions.
pub(crate) fn tell_constants<'a, J: PartJudge<'a>>(
    expressions: &[Expression<'a>],
    judge: &J,
) -> Result<(), J::Fault>
    ensures { Judged (J.asks judge.now) J.holds J.tells result (map Constant (map expression_tree expressions.now)) }
{
    for expression in expressions {
        match judge.judge_constant(expression) {
            Ok(()) => {}
            Err(fault) => return Err(fault),
        }
    }
    Ok(())
}

/// Tells of a constant expression, where it is written.
pub(crate) fn tell_constant_if<'a, J: PartJudge<'a>>(
    expression: &Option<Expression<'a>>,
    judge: &J,
) -> Result<(), J::Fault>
    ensures { Judged (J.asks judge.now) J.holds J.tells result (map Constant (option_to_list (option_map expression_tree expression.now))) }
{
    match expression {
        Some(expression) => judge.judge_constant(expression),
        None => Ok(()),
    }
}

/// Tells of what an active segment is copied into, where it is written, then of its offset.
pub(crate) fn tell_offset<'a, J: PartJudge<'a>>(
    space: Space,
    target: &Option<Index<'a>>,
    offset: &Expression<'a>,
    judge: &J,
) -> Result<(), J::Fault>
    ensures { Judged (J.asks judge.now) J.holds J.tells result (says (refers_if (space_view space) (option_map index_tree target.now)) ++ Constant (expression_tree offset.now) ∷ []) }
{
    tell_target(space, target, judge)?;
    judge.judge_constant(offset)
}
