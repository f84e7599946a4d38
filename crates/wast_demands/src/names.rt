//! All demands of names.
ghost use Rattle.std.specs.Prelude.{◌≡◌, ℕ, ◌++◌, map, IfOk};
ghost use Rattle.std.specs.List.{flat_map};
ghost use Rattle.wast_grammar.specs.Tokens.{Name};
ghost use Rattle.wast_grammar.specs.Spelling.{same_name};
ghost use Rattle.wast_module_fields.specs.ModuleFieldViews.{field_tree};
ghost use Rattle.wast_names.specs.Demand.{Answers, Demand, is_met};
ghost use Rattle.wast_names.specs.Space as names;
ghost use Rattle.wast_meaning.specs.Demands.{field_demands, item_demands, order_demands};
ghost use Rattle.wast_meaning.specs.Implied.{implied as implied_types};
ghost use Rattle.wast_meaning.specs.Scope.{scope_of};
ghost use Rattle.wast_meaning.specs.Spaces.{items};
ghost use Rattle.wast_spaces.specs.Joins.{spaces_behind, type_fields};
ghost use Rattle.wast_spaces.specs.Views.{fields_of_types, spaces_of};
ghost use Rattle.wast_implied.specs.Views.{known as gathered};
ghost use Rattle.wast_scopes.specs.Known.{part_by};
ghost use Rattle.wast_scopes.specs.Views.{Refused, known, refused_anywhere};

use std::alloc::Global;
use wast_implied::Implied;
use wast_mentions::Mention;
use wast_module_fields::{Expression, FunctionType, Local, ModuleField, TypeUse};
use wast_parser::Error;
use wast_parts::{PartJudge, PartJudgement, tell_all_parts};
use wast_scopes::{Scope, Signatures, check_constant, check_func, check_mention};
use wast_spaces::{Spaces, check_order};

/// The index spaces of fields in which imports stand before definitions, and no item bears the name of an earlier one.
///
/// Refuses the first import behind a definition, else the first item that bears the name of an earlier one, segments aside, or field that
/// bears that of an earlier one of its structure; else only where no memory is found, or there are more than 4294967295 items of a kind or
/// fields of a structure, which is told as want of memory.
pub fn ordered_spaces<'a>(alloc: Global, fields: &[ModuleField<'a>]) -> Result<Spaces<'a>, Error>
    ensures spaces { IfOk result (λ s. spaces_of s ≡ spaces_behind (λ t. names.empty) (flat_map items (map field_tree fields.now))) }
    ensures fields { IfOk result (λ s. fields_of_types s ≡ type_fields (flat_map items (map field_tree fields.now))) }
    ensures answers { Answers result (order_demands (map field_tree fields.now) ++ item_demands same_name (flat_map items (map field_tree fields.now))) }
{
    match check_order(alloc, fields) {
        Ok(()) => Spaces::of(alloc, fields),
        Err(e) => Err(e),
    }
}

/// Tests what fields mention, where these are their index spaces, and the types that their uses imply.
///
/// Refuses the first name that means nothing, signature that isn't that of the type beside it, parameter or local that bears the name of an
/// earlier one, or repeated name that isn't its block's; else only where no memory is found, or there are more than 4294967295 parameters and
/// locals of a function, or blocks inside each other, which is told as want of memory.
pub fn check_mentions<'a>(
    alloc: Global,
    fields: &[ModuleField<'a>],
    spaces: &Spaces<'a>,
    implied: &Implied<'a>,
) -> Result<(), Error>
    requires spaces { spaces_of spaces.now ≡ spaces_behind (λ t. names.empty) (flat_map items (map field_tree fields.now)) }
    requires fields { fields_of_types spaces.now ≡ type_fields (flat_map items (map field_tree fields.now)) }
    requires implied { (gathered implied.now).implied ≡ implied_types same_name (map field_tree fields.now) }
    ensures { Answers result (flat_map (field_demands same_name (scope_of same_name (map field_tree fields.now))) (map field_tree fields.now)) }
{
    match Signatures::of(alloc, fields, spaces, implied) {
        Ok(signatures) => {
            let scope = Scope::new(alloc, spaces, &signatures);
            tell_all_parts(fields, &Names { scope: &scope })
        }
        Err(e) => Err(Error::from(e)),
    }
}

/// Who tests all that the parts of fields mention.
#[derive(Drop)]
struct Names<'p, 's, 'a> {
    scope: &'p Scope<'s, 'a>,
}

impl PartJudgement for Names<'_, '_, '_> {
    type Fault = Error;

    ghost Demand = { Demand Name ℕ };

    ghost holds = { is_met };

    ghost asks = { λ n. part_by (known n.scope.now) };

    ghost tells = { Refused };

    ghost anywhere = { refused_anywhere };
}

impl<'a> PartJudge<'a> for Names<'_, '_, 'a> {
    fn judge_mention(&self, mention: Mention<'_, 'a>) -> Result<(), Error> {
        check_mention(self.scope, mention)
    }

    fn judge_constant(&self, expression: &Expression<'a>) -> Result<(), Error> {
        check_constant(self.scope, expression)
    }

    fn judge_function(
        &self,
        ty: &TypeUse<'a, FunctionType<'a>>,
        locals: &[Local<'a>],
        body: &Expression<'a>,
    ) -> Result<(), Error> {
        check_func(self.scope, ty, locals, body)
    }
}
