//! Constant expressions.
ghost use Rattle.std.specs.Prelude.{◌≡◌, [], OnOk};
ghost use Rattle.std.specs.List.{flat_map};
ghost use Rattle.wasm_encoder_base.specs.Instr.{instr_bytes};
ghost use Rattle.wasm_encoder_code.specs.Laws.{IsExpression};
ghost use Rattle.wasm_encoder_code.specs.Sink.{IsMade};
ghost use Rattle.wast_core_instr.specs.ExpressionViews.{expression_tree};
ghost use Rattle.wast_meant.specs.Covered.{expr_forms};
ghost use Rattle.wast_meant.specs.FieldsMeant.{expr_meant};
ghost use Rattle.wast_section_items.specs.Fits.{ExprFits};
ghost use Rattle.wast_section_items.specs.Ready.{ConstantReady};

use std::alloc::Global;
use wasm_encoder_base::EncodeError;
use wasm_encoder_code::ConstExpr;
use wast_conversions::const_expr;
use wast_core_instr::Expression;

/// A constant expression (6.5, expressions). Refused for want of memory, and as too large where a count in it is past 4294967295.
pub(crate) fn constant(alloc: Global, expr: &Expression<'_>) -> Result<ConstExpr, EncodeError>
    requires ready { ConstantReady (expression_tree expr.now) }
    requires covered { expr_forms (expression_tree expr.now) ≡ [] }
    ensures same { IsMade (flat_map instr_bytes (expr_meant (expression_tree expr.now))) (ExprFits (expr_meant (expression_tree expr.now))) result }
    ensures sound { OnOk result (IsExpression (expr_meant (expression_tree expr.now))) }
{
    const_expr(alloc, expr)
}
