//! The name section of a module.
ghost use Rattle.std.specs.Prelude.{◌≡◌, ◌<◌, ◌≤◌, ◌^◌, ◌++◌, true, false, length, map, OnOk, IfOk, IsErrOf, option_map};
ghost use Rattle.std.specs.List.{flat_map};
ghost use Rattle.wasm_encoder_custom.specs.Names.{name_subsection_bytes};
ghost use Rattle.wasm_layout.specs.IsModule.{IsMap, AreInner, AreNames};
ghost use Rattle.wasm_layout.specs.Layout.{name_bytes, subsection_of};
ghost use Rattle.wasm_layout.specs.Present.{OfItems, Inner};
ghost use Rattle.wast_parser.specs.Identifiers.{identifier_tree};
ghost use Rattle.wast_signatures.specs.SignatureViews.{name_tree};
ghost use Rattle.wast_module_fields.specs.ModuleFieldViews.{field_tree};
ghost use Rattle.wast_meaning.specs.Settled.{are_settled};
ghost use Rattle.wast_name_maps.specs.Fits.{NamesFit};
ghost use Rattle.wast_name_maps.specs.Kinds.{items_view, inside_view, map_view, maps_of};
ghost use Rattle.wast_name_maps.specs.Maps.{maps_in, section_data};
ghost use Rattle.wast_name_maps.specs.Subsections.{KindIs};

use crate::given::given;
use crate::inside::groups_of;
use crate::items::names_of_items;
use crate::kinds::{Inside, Items, Map, ORDER};
use crate::subsections::{add_groups, add_module_name, add_names, if_any};
use std::alloc::Global;
use wasm_encoder_base::EncodeError;
use wasm_encoder_custom::NameSection;
use wast_module_fields::ModuleField;
use wast_parser::{Id, NameAnnotation};

/// The custom section `name` of a module of these fields, which has this identifier and this `@name` (appendix, Name Section); none where
/// nothing in it has a name. Each use in the fields has its type, and each index is a number.
///
/// A name that is made up is none, and `@name` counts before an identifier. Answers [`EncodeError::TooLarge`] exactly where, memory found, an
/// index that has a name or the size of all maps is past 4294967295, and with that the length of each name; [`EncodeError::Memory`] where a
/// growth found no memory, or a list would have 2^64 items, which none holds.
pub fn name_section<'n, 'a>(
    alloc: Global,
    id: &'n Option<Id<'a>>,
    name: &'n Option<NameAnnotation<'a>>,
    fields: &'n [ModuleField<'a>],
) -> Result<Option<NameSection>, EncodeError>
    requires { are_settled (map field_tree fields.now) ≡ true }
    ensures named { IfOk result (λ s. s ≡ section_data (maps_in (option_map name_tree name.now) (option_map identifier_tree id.now) (map field_tree fields.now))) }
    ensures in_range { OnOk result (AreNames (maps_in (option_map name_tree name.now) (option_map identifier_tree id.now) (map field_tree fields.now))) }
    ensures fits { OnOk result (length (name_bytes (maps_in (option_map name_tree name.now) (option_map identifier_tree id.now) (map field_tree fields.now))) < 2 ^ 32) }
    ensures too_large { IsErrOf result EncodeError.TooLarge → ¬ NamesFit (maps_in (option_map name_tree name.now) (option_map identifier_tree id.now) (map field_tree fields.now)) }
{
    let mut section = NameSection::new(alloc);
    add_maps(alloc, id, name, fields, &mut section)?;
    if is_too_large(&section) {
        return Err(EncodeError::TooLarge);
    }
    Ok(if_any(section))
}

/// Whether the size of all maps is past 4294967295.
fn is_too_large(section: &NameSection) -> bool
    ensures large { result ≡ true → 2 ^ 32 ≤ length section.now }
    ensures small { result ≡ false → length section.now < 2 ^ 32 }
{
    4_294_967_295 < section.as_custom().bytes.len()
}

/// Appends all maps that have names, in the order of their numbers.
fn add_maps<'n, 'a>(
    alloc: Global,
    id: &'n Option<Id<'a>>,
    name: &'n Option<NameAnnotation<'a>>,
    fields: &'n [ModuleField<'a>],
    section: &mut NameSection,
) -> Result<(), EncodeError>
    requires { are_settled (map field_tree fields.now) ≡ true }
    ensures added { OnOk result (section.new ≡ section.old ++ name_bytes (maps_of name.now id.now fields.now)) }
    ensures in_range { OnOk result (AreNames (maps_of name.now id.now fields.now)) }
    ensures too_large { IsErrOf result EncodeError.TooLarge → ¬ NamesFit (maps_of name.now id.now fields.now) }
{
    for kind in &ORDER {
        add_map(alloc, id, name, fields, section, *kind)?;
    }
    Ok(())
}

/// Appends a map, unless it is empty.
fn add_map<'n, 'a>(
    alloc: Global,
    id: &'n Option<Id<'a>>,
    name: &'n Option<NameAnnotation<'a>>,
    fields: &'n [ModuleField<'a>],
    section: &mut NameSection,
    kind: Map,
) -> Result<(), EncodeError>
    requires { are_settled (map field_tree fields.now) ≡ true }
    ensures added { OnOk result (section.new ≡ section.old ++ flat_map name_subsection_bytes (subsection_of (maps_of name.now id.now fields.now) (map_view kind))) }
    ensures in_range { OnOk result (KindIs (maps_of name.now id.now fields.now) (map_view kind)) }
    ensures too_large { IsErrOf result EncodeError.TooLarge → ¬ NamesFit (maps_of name.now id.now fields.now) }
{
    match kind {
        Map::Module => add_module_name(section, given(name, id)),
        Map::Items(kind) => add_items(alloc, id, name, fields, section, kind),
        Map::Inside(kind) => add_inside(alloc, id, name, fields, section, kind),
    }
}

/// Appends the map of the names of items, unless none has one.
fn add_items<'n, 'a>(
    alloc: Global,
    id: &'n Option<Id<'a>>,
    name: &'n Option<NameAnnotation<'a>>,
    fields: &'n [ModuleField<'a>],
    section: &mut NameSection,
    kind: Items,
) -> Result<(), EncodeError>
    ensures added { OnOk result (section.new ≡ section.old ++ flat_map name_subsection_bytes (subsection_of (maps_of name.now id.now fields.now) (OfItems (items_view kind)))) }
    ensures in_range { OnOk result (IsMap ((maps_of name.now id.now fields.now).items (items_view kind))) }
    ensures too_large { IsErrOf result EncodeError.TooLarge → ¬ NamesFit (maps_of name.now id.now fields.now) }
{
    let names = names_of_items(alloc, fields, kind.space())?;
    add_names(section, kind, &names)
}

/// Appends the map of the names inside of items, unless there is none.
fn add_inside<'n, 'a>(
    alloc: Global,
    id: &'n Option<Id<'a>>,
    name: &'n Option<NameAnnotation<'a>>,
    fields: &'n [ModuleField<'a>],
    section: &mut NameSection,
    kind: Inside,
) -> Result<(), EncodeError>
    requires { are_settled (map field_tree fields.now) ≡ true }
    ensures added { OnOk result (section.new ≡ section.old ++ flat_map name_subsection_bytes (subsection_of (maps_of name.now id.now fields.now) (Inner (inside_view kind)))) }
    ensures in_range { OnOk result (AreInner ((maps_of name.now id.now fields.now).inner (inside_view kind))) }
    ensures too_large { IsErrOf result EncodeError.TooLarge → ¬ NamesFit (maps_of name.now id.now fields.now) }
{
    let groups = groups_of(alloc, fields, kind)?;
    add_groups(section, kind, &groups)
}
