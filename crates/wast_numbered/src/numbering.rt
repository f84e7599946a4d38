//! Constant expressions and bodies, where it is known what indices outside of instructions mean.
ghost use Rattle.wasm_encoder_base.specs.Table.{Locals};
ghost use Rattle.wast_names.specs.Space as names;
ghost use Rattle.wast_meaning.specs.Scope.{locals_of};
ghost use Rattle.wast_spaces.specs.Views.{spaces_of};
ghost use Rattle.wast_numbered.specs.Place.{by_place, joined, scope};

use crate::body::number_expression;
use crate::locals::locals_of;
use crate::place::Numbering;
use std::alloc::{AllocError, Global};
use wast_changed::Rewriting;
use wast_meaning::Space;
use wast_module_fields::{Expression, FunctionType, Local, TypeUse};

impl<'a> Rewriting<'a> for Numbering<'_, 'a> {
    ghost in_constant = { λ n. by_place n.spaces.now (spaces_of n.spaces.now Locals) };

    ghost in_function = { λ n f. by_place n.spaces.now (joined names.empty (locals_of (scope n) f)) };

    fn constant(&self, alloc: Global, expression: &mut Expression<'a>) -> Result<(), AllocError> {
        number_expression(
            alloc,
            self.spaces,
            self.spaces.space(Space::Locals),
            expression,
        )
    }

    fn body(
        &self,
        alloc: Global,
        ty: &TypeUse<'a, FunctionType<'a>>,
        locals: &[Local<'a>],
        body: &mut Expression<'a>,
    ) -> Result<(), AllocError> {
        match locals_of(alloc, self, ty, locals) {
            Ok(locals) => number_expression(alloc, self.spaces, &locals, body),
            Err(e) => Err(e),
        }
    }
}
