//! Subsections of the name section.
ghost use Rattle.std.specs.Prelude.{◌≡◌, ◌<◌, ◌^◌, ◌++◌, length, OnOk, IsErrOf, option_map};
ghost use Rattle.wasm_encoder_base.specs.Lists.{list_bytes};
ghost use Rattle.wasm_encoder_custom.specs.Custom.{subsection};
ghost use Rattle.wasm_encoder_custom.specs.Names.{number_of, inner_number_of};
ghost use Rattle.wast_name_maps.specs.Kinds.{items_view, inside_view};
ghost use Rattle.wast_name_maps.specs.Subsections.{ModuleFits, module_bytes, subsection_if, if_any};

use crate::groups::Groups;
use crate::kinds::{Inside, Items};
use crate::names::Names;
use wasm_encoder_base::EncodeError;
use wasm_encoder_custom::{IndirectNameMap, NameMap, NameSection};

/// Appends the name of the module, if it has one.
pub(crate) fn add_module_name(
    section: &mut NameSection,
    name: Option<&str>,
) -> Result<(), EncodeError>
    ensures added { OnOk result (section.new ≡ section.old ++ module_bytes (option_map (λ s. s.now) name.entry)) }
    ensures too_large { IsErrOf result EncodeError.TooLarge → ¬ ModuleFits (option_map (λ s. s.now) name.entry) }
{
    if let Some(name) = name {
        section.module(name)?;
    }
    Ok(())
}

/// Appends a map of names of items, unless it is empty.
pub(crate) fn add_names(
    section: &mut NameSection,
    kind: Items,
    names: &Names,
) -> Result<(), EncodeError>
    ensures added { OnOk result (section.new ≡ section.old ++ subsection_if (number_of (items_view kind)) names.now.list) }
    ensures too_large { IsErrOf result EncodeError.TooLarge → ¬ (length (list_bytes names.now.list) < 2 ^ 32) }
{
    if names.is_empty() {
        return Ok(());
    }
    append_names(section, kind, names.as_map())
}

/// Appends a map of names of items.
fn append_names(section: &mut NameSection, kind: Items, map: &NameMap) -> Result<(), EncodeError>
    ensures added { OnOk result (section.new ≡ section.old ++ subsection (number_of (items_view kind)) (list_bytes map.now)) }
    ensures too_large { IsErrOf result EncodeError.TooLarge → ¬ (length (list_bytes map.now) < 2 ^ 32) }
{
    match kind {
        Items::Functions => section.functions(map)?,
        Items::Types => section.types(map)?,
        Items::Tables => section.tables(map)?,
        Items::Memories => section.memories(map)?,
        Items::Globals => section.globals(map)?,
        Items::Elements => section.elements(map)?,
        Items::DataSegments => section.data(map)?,
        Items::Tags => section.tags(map)?,
    };
    Ok(())
}

/// Appends a map of names inside of items, unless it is empty.
pub(crate) fn add_groups(
    section: &mut NameSection,
    kind: Inside,
    groups: &Groups,
) -> Result<(), EncodeError>
    ensures added { OnOk result (section.new ≡ section.old ++ subsection_if (inner_number_of (inside_view kind)) groups.now.list) }
    ensures too_large { IsErrOf result EncodeError.TooLarge → ¬ (length (list_bytes groups.now.list) < 2 ^ 32) }
{
    if groups.is_empty() {
        return Ok(());
    }
    append_groups(section, kind, groups.as_map())
}

/// Appends a map of names inside of items.
fn append_groups(
    section: &mut NameSection,
    kind: Inside,
    map: &IndirectNameMap,
) -> Result<(), EncodeError>
    ensures added { OnOk result (section.new ≡ section.old ++ subsection (inner_number_of (inside_view kind)) (list_bytes map.now)) }
    ensures too_large { IsErrOf result EncodeError.TooLarge → ¬ (length (list_bytes map.now) < 2 ^ 32) }
{
    match kind {
        Inside::Locals => section.locals(map)?,
        Inside::Labels => section.labels(map)?,
        Inside::Fields => section.fields(map)?,
        Inside::Parameters => section.parameters(map)?,
        Inside::TagParameters => section.tag_parameters(map)?,
    };
    Ok(())
}

/// The section, unless it has no names.
pub(crate) fn if_any(section: NameSection) -> Option<NameSection>
    ensures { result ≡ if_any section }
{
    if section.as_custom().bytes.is_empty() {
        None
    } else {
        Some(section)
    }
}
