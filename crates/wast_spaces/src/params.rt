//! How many parameters types have: with as many locals the index space of locals of a function begins (6.6, type uses).
ghost use Rattle.std.specs.Prelude.{◌≡◌, [], ◌∷◌, ◌++◌, true, IfOk, OnOk, map, slice_get, unwrap_or};
ghost use Rattle.std.specs.List.{flat_map};
ghost use Rattle.wast_core_types.specs.TypeViews.{inner_tree, item_tree};
ghost use Rattle.wast_module_fields.specs.ModuleFieldViews.{field_tree};
ghost use Rattle.wast_meaning.specs.Implied.{written_types};
ghost use Rattle.wast_spaces.specs.Params.{inner_count, param_count};

use std::alloc::{AllocError, Global};
use wast_core_types::InnerTypeKind;
use wast_module_fields::{ModuleField, TypeItem};

/// Those of the types that fields write, in order; a type that is no function type has none. Fails only for want of memory.
pub fn param_counts(alloc: Global, fields: &[ModuleField<'_>]) -> Result<Vec<usize>, AllocError>
    ensures { IfOk result (λ counts. counts.items ≡ map param_count (flat_map written_types (map field_tree fields.now))) }
{
    let mut counts = Vec::new(alloc);
    for field in fields {
        count_field(field, &mut counts)?;
    }
    Ok(counts)
}

/// Appends those of a field.
fn count_field(field: &ModuleField<'_>, counts: &mut Vec<usize>) -> Result<(), AllocError>
    ensures { OnOk result (counts.new.items ≡ counts.old.items ++ map param_count (written_types (field_tree field.now))) }
{
    match field {
        ModuleField::TypeItem(item) => count_type(item, counts),
        ModuleField::Rec(group) => count_types(&group.types, counts),
        _ => Ok(()),
    }
}

/// Appends those of types that stand in a group.
fn count_types(items: &[TypeItem<'_>], counts: &mut Vec<usize>) -> Result<(), AllocError>
    ensures { OnOk result (counts.new.items ≡ counts.old.items ++ map param_count (map (λ t. (t, true)) (map item_tree items.now))) }
{
    for item in items {
        count_type(item, counts)?;
    }
    Ok(())
}

/// Appends that of a type.
fn count_type(item: &TypeItem<'_>, counts: &mut Vec<usize>) -> Result<(), AllocError>
    ensures { OnOk result (counts.new.items ≡ counts.old.items ++ inner_count (item_tree item.now).definition.comp.inner ∷ []) }
{
    counts.push(param_count(&item.def.kind))?;
    Ok(())
}

/// How many parameters a type has.
fn param_count(kind: &InnerTypeKind<'_>) -> usize
    ensures { result ≡ inner_count (inner_tree kind.now) }
{
    match kind {
        InnerTypeKind::Func(signature) => signature.params.len(),
        _ => 0,
    }
}

/// The count with a number, or 0 where there is none with it.
pub fn count_at(counts: &[usize], number: u32) -> usize
    ensures { result ≡ unwrap_or (slice_get counts.now number) 0 }
{
    counts.get(number as usize).copied().unwrap_or(0)
}
