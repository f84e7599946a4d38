//! How many parameters types have.
ghost use Rattle.std.specs.Prelude.{◌≡◌, [], ◌∷◌, ◌++◌, IfOk, OnOk, map};
ghost use Rattle.wast_module_fields.specs.ModuleFieldViews.{field_tree};
ghost use Rattle.wast_implied.specs.Views.{implied_tree, known};
ghost use Rattle.wast_numbered.specs.Params as spec;
ghost use Rattle.wast_numbered.specs.Params.{implied_count};

use std::alloc::{AllocError, Global};
use wast_implied::{Implied, ImpliedType};
use wast_module_fields::ModuleField;

/// Those of the types of fields by their numbers: of those that are written, and then of those that uses imply, which are at hand; one that
/// is no function type has none. Fails only for want of memory.
pub fn param_counts<'a>(
    alloc: Global,
    fields: &[ModuleField<'a>],
    implied: &Implied<'a>,
) -> Result<Vec<usize>, AllocError>
    ensures { IfOk result (λ counts. counts.items ≡ spec.param_counts (map field_tree fields.now) (known implied.now).implied) }
{
    let mut counts = wast_spaces::param_counts(alloc, fields)?;
    count_signatures(implied.types(), &mut counts)?;
    Ok(counts)
}

/// Appends those of implied types.
fn count_signatures(types: &[ImpliedType<'_>], counts: &mut Vec<usize>) -> Result<(), AllocError>
    ensures { OnOk result (counts.new.items ≡ counts.old.items ++ map implied_count (map implied_tree types.now)) }
{
    for ty in types {
        match count_signature(ty, counts) {
            Ok(()) => {}
            Err(e) => return Err(e),
        }
    }
    Ok(())
}

/// Appends that of an implied type.
fn count_signature(ty: &ImpliedType<'_>, counts: &mut Vec<usize>) -> Result<(), AllocError>
    ensures { OnOk result (counts.new.items ≡ counts.old.items ++ implied_count (implied_tree ty.now) ∷ []) }
{
    counts.push(ty.signature.params.len())?;
    Ok(())
}
