//! What becomes of the indices of whole fields.
ghost use Rattle.std.specs.Prelude.{◌≡◌, ℕ, OnOk};
ghost use Rattle.wast_grammar.specs.Tokens.{Name};
ghost use Rattle.wast_core_instr.specs.ExpressionViews.{expression_tree};
ghost use Rattle.wast_fields.specs.FieldTree as spec;
ghost use Rattle.wast_fields.specs.FuncViews.{function_tree};
ghost use Rattle.wast_changed.specs.Rewritten.{ByPlace, expr_changed};

use crate::changing::Changing;
use std::alloc::{AllocError, Global};
use wast_core_instr::Expression;
use wast_fields::Local;
use wast_signatures::{FunctionType, TypeUse};

/// What becomes of the indices of whole fields. Outside of expressions it is what it does as [`Changing`].
pub trait Rewriting<'a>: Changing<'a> {
    /// What becomes of the indices of an instruction in a constant expression.
    ghost in_constant: { Self → ByPlace };

    /// The same in the body of a function, which is given as it was.
    ghost in_function: { Self → spec.Function Name ℕ → ByPlace };

    /// Rewrites a constant expression; the recorded places of its instructions stay. Fails only for want of memory.
    fn constant(&self, alloc: Global, expression: &mut Expression<'a>) -> Result<(), AllocError>
        ensures changed { OnOk result (expression_tree expression.new ≡ expr_changed (in_constant self.now) (expression_tree expression.old)) }
        ensures spans { expression.new.instr_spans ≡ expression.old.instr_spans };

    /// Rewrites the body of a function, whose type use and locals are those from before; the recorded places of its instructions stay. Fails
    /// only for want of memory.
    fn body(
        &self,
        alloc: Global,
        ty: &TypeUse<'a, FunctionType<'a>>,
        locals: &[Local<'a>],
        body: &mut Expression<'a>,
    ) -> Result<(), AllocError>
        ensures changed { OnOk result (expression_tree body.new ≡ expr_changed (in_function self.now (function_tree ty.now locals.now body.old)) (expression_tree body.old)) }
        ensures spans { body.new.instr_spans ≡ body.old.instr_spans };
}
