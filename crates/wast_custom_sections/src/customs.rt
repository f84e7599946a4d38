//! The custom sections of a place.
ghost use Rattle.std.specs.Prelude.{◌≡◌, [], ◌∷◌, map, All, IfOk, OnOk, IsErrOf};
ghost use Rattle.std.specs.List.{flat_map};
ghost use Rattle.wasm_encoder_base.specs.Encodes.{Encodes};
ghost use Rattle.wasm_encoder_custom.specs.Custom.{CustomFits};
ghost use Rattle.wasm_layout.specs.Layout.{Free, piece_bytes};
ghost use Rattle.wasm_layout.specs.Lays.{PiecesFit};
ghost use Rattle.wast_customs.specs.CustomViews.{custom_tree, place_tree};
ghost use Rattle.wast_module_fields.specs.ModuleFieldViews.{field_tree};
ghost use Rattle.wast_meant.specs.CustomsMeant.{at_place};
ghost use Rattle.wast_custom_sections.specs.Parts.{section_bytes, sections_at};

use crate::custom::put_custom;
use crate::place::is_same_place;
use crate::section::put_sections;
use std::alloc::Global;
use wasm_encoder::Module;
use wasm_encoder_base::EncodeError;
use wast_customs::{Custom, CustomPlace};
use wast_module_fields::ModuleField;

/// Appends to the sections of a module the custom sections that the fields have at a place, in the order of the fields: all or
/// none.
///
/// Answers [`EncodeError::TooLarge`] exactly where, memory found, the size of one of them is past 4294967295, and
/// [`EncodeError::Memory`] where a growth found no memory. Refused, the module is unchanged.
pub fn put_customs(
    alloc: Global,
    fields: &[ModuleField<'_>],
    place: CustomPlace,
    module: &mut Module,
) -> Result<(), EncodeError>
    ensures { Encodes (flat_map piece_bytes (map Free (sections_at (map field_tree fields.now) (place_tree place)))) (PiecesFit (map Free (sections_at (map field_tree fields.now) (place_tree place)))) «module».old «module».new result }
{
    let sections = sections_at(alloc, fields, place)?;
    put_sections(&sections, module)
}

/// The sections of a place, each behind its number.
fn sections_at(
    alloc: Global,
    fields: &[ModuleField<'_>],
    place: CustomPlace,
) -> Result<Vec<u8>, EncodeError>
    ensures made { IfOk result (λ v. v.items ≡ flat_map section_bytes (sections_at (map field_tree fields.now) (place_tree place))) }
    ensures fits { OnOk result (All CustomFits (sections_at (map field_tree fields.now) (place_tree place))) }
    ensures too_large { IsErrOf result EncodeError.TooLarge → All CustomFits (sections_at (map field_tree fields.now) (place_tree place)) → ⊥ }
{
    let mut sections = Vec::new(alloc);
    for field in fields {
        put_field(alloc, field, place, &mut sections)?;
    }
    Ok(sections)
}

/// Appends the section of a field, if it is a custom field of the place.
fn put_field(
    alloc: Global,
    field: &ModuleField<'_>,
    place: CustomPlace,
    sink: &mut Vec<u8>,
) -> Result<(), EncodeError>
    ensures { Encodes (flat_map section_bytes (sections_at (field_tree field.now ∷ []) (place_tree place))) (All CustomFits (sections_at (field_tree field.now ∷ []) (place_tree place))) sink.old.items sink.new.items result }
{
    match field {
        ModuleField::Custom(custom) => put_custom_at(alloc, custom, place, sink),
        _ => Ok(()),
    }
}

/// Appends the section of a custom field, if it is of the place.
fn put_custom_at(
    alloc: Global,
    custom: &Custom<'_>,
    place: CustomPlace,
    sink: &mut Vec<u8>,
) -> Result<(), EncodeError>
    ensures { Encodes (flat_map section_bytes (at_place (custom_tree custom.now ∷ []) (place_tree place))) (All CustomFits (at_place (custom_tree custom.now ∷ []) (place_tree place))) sink.old.items sink.new.items result }
{
    if is_same_place(place, custom.place()) {
        put_custom(alloc, custom, sink)
    } else {
        Ok(())
    }
}
