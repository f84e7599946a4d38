//! Parts of fields.
ghost use Rattle.std.specs.Prelude.{◌≡◌, ℕ, refl};
ghost use Rattle.wast_grammar.specs.Tokens.{Name};
ghost use Rattle.wast_grammar.specs.Spelling.{same_name};
ghost use Rattle.wast_core.specs.ModuleFieldViews.{field_tree};
ghost use Rattle.wast_names.specs.Demand.{Demand};
ghost use Rattle.wast_meaning.specs.Demands.{field_demands, part_demands};
ghost use Rattle.wast_bound.specs.Bound.{Broken, are_kept, is_kept};

use crate::body::{is_expression_bound, is_function_bound};
use crate::known::Known;
use crate::place::{Place, Unbound, answer};
use wast_core::{Expression, FunctionType, Local, ModuleField, TypeUse};
use wast_mentions::{Judge, Mention};
use wast_parts::{PartJudge, PartJudgement, tell_parts};

/// Whether the names that are made up and that a field mentions are bound, where this is known outside functions.
pub(crate) fn is_field_bound<'a, K: Known>(known: K, field: &ModuleField<'a>) -> bool
    ensures { result ≡ are_kept (field_demands same_name (K.scope known) (field_tree field.now)) }
{
    tell_parts(field, &Names { known }).is_ok()
}

/// Who tests whether names that are made up are bound, where this is known outside functions.
#[derive(Clone, Copy)]
struct Names<K> {
    known: K,
}

impl<K: Known> PartJudgement for Names<K> {
    type Fault = Unbound;

    ghost Demand = { Demand Name ℕ };

    ghost holds = { is_kept };

    ghost asks = { λ n. part_demands same_name (K.scope n.known) };

    ghost tells = { Broken };

    ghost anywhere = { λ first fault none. absurd (none refl) };
}

impl<'a, K: Known> PartJudge<'a> for Names<K> {
    fn judge_mention(&self, mention: Mention<'_, 'a>) -> Result<(), Unbound> {
        Place { known: self.known }.judge(mention)
    }

    fn judge_constant(&self, expression: &Expression<'a>) -> Result<(), Unbound> {
        answer(is_expression_bound(self.known, expression))
    }

    fn judge_function(
        &self,
        ty: &TypeUse<'a, FunctionType<'a>>,
        locals: &[Local<'a>],
        body: &Expression<'a>,
    ) -> Result<(), Unbound> {
        answer(is_function_bound(self.known, ty, locals, body))
    }
}
