//! The expressions in fields.
ghost use Rattle.std.specs.Prelude.{◌≡◌, ℕ, None, [], ◌∷◌, refl};
ghost use Rattle.std.specs.List.{list_all};
ghost use Rattle.wast_grammar.specs.Tokens.{Name};
ghost use Rattle.wast_module_fields.specs.ModuleFieldViews.{field_tree};
ghost use Rattle.wast_meaning.specs.Mentions.{Part, parts};
ghost use Rattle.wast_meaning.specs.WellFormed.{part_formed};

use crate::expression::{is_formed, is_formed_constant};
use wast_mentions::Mention;
use wast_module_fields::{Expression, FunctionType, Local, ModuleField, TypeUse};
use wast_parts::{PartJudge, PartJudgement, tell_parts};

/// Whether the expressions in a field are formed, and of those that are constant the blocks closed.
pub(crate) fn parts_formed(field: &ModuleField<'_>) -> bool
    ensures { result ≡ list_all part_formed (parts (field_tree field.now)) }
{
    match tell_parts(field, &Forms) {
        Ok(()) => true,
        Err(Unformed) => false,
    }
}

/// That a part isn't formed.
struct Unformed;

/// Who tests whether parts are formed. What a field says of names by itself is.
#[derive(Drop)]
struct Forms;

impl PartJudgement for Forms {
    type Fault = Unformed;

    ghost Demand = { Part Name ℕ };

    ghost holds = { part_formed };

    ghost asks = { λ j part. part ∷ [] };

    ghost tells = { λ first fault. first ≡ None → ⊥ };

    ghost anywhere = { λ first fault none. absurd (none refl) };
}

impl<'a> PartJudge<'a> for Forms {
    fn judge_mention(&self, mention: Mention<'_, 'a>) -> Result<(), Unformed> {
        match mention {
            Mention::Refers(_space, _index) => Ok(()),
            Mention::Member {
                owner: _owner,
                field: _field,
            } => Ok(()),
            Mention::Uses(_ty) => Ok(()),
            Mention::UsesInBlock(_ty) => Ok(()),
            Mention::Repeats(_id) => Ok(()),
        }
    }

    fn judge_constant(&self, expression: &Expression<'a>) -> Result<(), Unformed> {
        if is_formed_constant(expression) {
            Ok(())
        } else {
            Err(Unformed)
        }
    }

    fn judge_function(
        &self,
        _ty: &TypeUse<'a, FunctionType<'a>>,
        _locals: &[Local<'a>],
        body: &Expression<'a>,
    ) -> Result<(), Unformed> {
        if is_formed(body) {
            Ok(())
        } else {
            Err(Unformed)
        }
    }
}
