//! The indices of fields as numbers.
ghost use Rattle.std.specs.Prelude.{◌≡◌, OnOk, map};
ghost use Rattle.wast_grammar.specs.Spelling.{same_name};
ghost use Rattle.wast_core.specs.ModuleFieldViews.{field_tree};
ghost use Rattle.wast_meaning.specs.Changed.{field_changed};
ghost use Rattle.wast_meaning.specs.Implied.{implied as implied_types};
ghost use Rattle.wast_meaning.specs.Numbered.{numbered};
ghost use Rattle.wast_implied.specs.Views.{known as gathered};
ghost use Rattle.wast_numbered.specs.Place.{numberings_by};
ghost use Rattle.wast_resolve.specs.Known.{Tells};

use std::alloc::{AllocError, Global};
use wast_changed_fields::change_fields;
use wast_core::ModuleField;
use wast_implied::Implied;
use wast_numbered::{Numbering, param_counts};
use wast_spaces::Spaces;

/// Makes the indices of fields numbers, where these spaces tell their items, and these types are what their uses imply. Fails only for want
/// of memory, or where a function has more than 4294967295 parameters and locals, or so many blocks are open at a place, which is
/// told as want of memory; some of the fields may be changed then.
pub(crate) fn number_fields<'a>(
    alloc: Global,
    implied: &Implied<'a>,
    fields: &mut Vec<ModuleField<'a>>,
    spaces: &Spaces<'a>,
) -> Result<(), AllocError>
    requires { (gathered implied.now).implied ≡ implied_types same_name (map field_tree fields.old.items) }
    ensures { Tells spaces.now (map field_tree fields.old.items) → OnOk result (map field_tree fields.new.items ≡ numbered same_name (map field_tree fields.old.items)) }
{
    match param_counts(alloc, fields, implied) {
        Ok(params) => number_taken(alloc, fields, spaces, &params),
        Err(e) => Err(e),
    }
}

/// The same where it is known how many parameters types have.
fn number_taken<'a>(
    alloc: Global,
    fields: &mut Vec<ModuleField<'a>>,
    spaces: &Spaces<'a>,
    params: &[usize],
) -> Result<(), AllocError>
    ensures { OnOk result (map field_tree fields.new.items ≡ map (field_changed (numberings_by spaces.now params.now)) (map field_tree fields.old.items)) }
{
    let numbering = Numbering { spaces, params };
    change_fields(alloc, &numbering, fields)
}
