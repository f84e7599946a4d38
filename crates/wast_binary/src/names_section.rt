//! The section of names.
ghost use Rattle.std.specs.Prelude.{◌≡◌, [], ◌∷◌, true, false, codes, map};
ghost use Rattle.std.specs.List.{flat_map};
ghost use Rattle.wasm_layout.specs.Present.{is_called};
ghost use Rattle.wast_module_fields.specs.ModuleFieldViews.{field_tree};
ghost use Rattle.wast_meaning.specs.Settled.{are_settled};
ghost use Rattle.wast_meant.specs.CustomsMeant.{custom_of, customs_in};
ghost use Rattle.wast_name_maps.specs.Kinds.{maps_of};
ghost use Rattle.wast_binary.specs.Puts.{PutsNames};
ghost use Rattle.wast_binary.specs.Sources.{fields_in};

use std::alloc::Global;
use wasm_encoder::Module;
use wasm_encoder_base::EncodeError;
use wast_custom_sections::add_section;
use wast_module_fields::ModuleField;
use wast_name_maps::name_section;
use wast_parser::{Id, NameAnnotation};

/// Appends the section of names, if there are any, unless a custom field is called `name`. The fields among which all custom sections stand are
/// given beside all of them.
pub(crate) fn put_names<'n, 'a>(
    alloc: Global,
    id: &'n Option<Id<'a>>,
    name: &'n Option<NameAnnotation<'a>>,
    fields: &'n [ModuleField<'a>],
    customs: &'n [ModuleField<'a>],
    module: &mut Module,
) -> Result<(), EncodeError>
    requires customs { flat_map customs_in (fields_in customs.now) ≡ flat_map customs_in (fields_in fields.now) }
    requires settled { are_settled (fields_in fields.now) ≡ true }
    ensures { PutsNames (is_called (codes "name") (map custom_of (flat_map customs_in (fields_in fields.now)) ∷ [])) (maps_of name.now id.now fields.now) «module».old «module».new result }
{
    if is_name_taken(customs) {
        Ok(())
    } else {
        put_names_of(alloc, id, name, fields, module)
    }
}

/// The same whether or not a custom field is called so.
fn put_names_of<'n, 'a>(
    alloc: Global,
    id: &'n Option<Id<'a>>,
    name: &'n Option<NameAnnotation<'a>>,
    fields: &'n [ModuleField<'a>],
    module: &mut Module,
) -> Result<(), EncodeError>
    requires { are_settled (fields_in fields.now) ≡ true }
    ensures { PutsNames false (maps_of name.now id.now fields.now) «module».old «module».new result }
{
    match name_section(alloc, id, name, fields) {
        Ok(Some(section)) => add_section(&section, module),
        Ok(None) => Ok(()),
        Err(e) => Err(e),
    }
}

/// Whether a custom field is called `name`.
fn is_name_taken(fields: &[ModuleField<'_>]) -> bool
    ensures { result ≡ is_called (codes "name") (map custom_of (flat_map customs_in (map field_tree fields.now)) ∷ []) }
{
    for field in fields {
        if takes_name(field) {
            return true;
        }
    }
    false
}

/// Whether a field is a custom field that is called `name`.
fn takes_name(field: &ModuleField<'_>) -> bool
    ensures { result ≡ is_called (codes "name") (map custom_of (customs_in (field_tree field.now)) ∷ []) }
{
    match field {
        ModuleField::Custom(custom) => custom.name() == "name",
        _ => false,
    }
}
