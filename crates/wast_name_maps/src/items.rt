//! The names of items.
ghost use Rattle.std.specs.Prelude.{◌≡◌, ◌∷◌, [], None, map, option_map};
ghost use Rattle.std.specs.List.{flat_map};
ghost use Rattle.wast_parser.specs.Identifiers.{identifier_tree};
ghost use Rattle.wast_signatures.specs.SignatureViews.{name_tree};
ghost use Rattle.wast_core_types.specs.TypeViews.{item_tree};
ghost use Rattle.wast_imports.specs.ImportViews.{items_tree, member_name_tree, member_tree};
ghost use Rattle.wast_imports.specs.ImportViews.{item_tree as imported_tree};
ghost use Rattle.wast_module_fields.specs.ElemViews.{table_definition};
ghost use Rattle.wast_module_fields.specs.FieldTree.{Define};
ghost use Rattle.wast_module_fields.specs.MemoryViews.{memory_definition};
ghost use Rattle.wast_module_fields.specs.ModuleFieldViews.{field_tree};
ghost use Rattle.wast_meaning.specs.Spaces.{bound, bound_import, bound_imports, bound_type, items, same_space};
ghost use Rattle.wast_meaning.specs.Views.{space_view};
ghost use Rattle.wast_name_maps.specs.Gathered.{bound_names};
ghost use Rattle.wast_name_maps.specs.Numbered.{BuildsNames, NamesJoin};

use crate::given::add_given;
use crate::names::Names;
use std::alloc::Global;
use wasm_encoder_base::EncodeError;
use wast_meaning::Space;
use wast_module_fields::{
    ImportGroup1Item, ImportGroup2Item, ImportItems, Imports, ItemSig, Memory, MemoryKind,
    ModuleField, Table, TableKind, TypeItem,
};
use wast_parser::{Id, NameAnnotation};

/// The names of the items of a space, in order.
pub(crate) fn names_of_items(
    alloc: Global,
    fields: &[ModuleField<'_>],
    space: Space,
) -> Result<Names, EncodeError>
    ensures { BuildsNames result (bound_names (space_view space) (flat_map items (map field_tree fields.now))) }
{
    let mut names = Names::new(alloc);
    add_fields(fields, &mut names, space)?;
    Ok(names)
}

/// The items of fields, one after the other.
fn add_fields(
    fields: &[ModuleField<'_>],
    names: &mut Names,
    space: Space,
) -> Result<(), EncodeError>
    ensures { NamesJoin result names.old names.new (bound_names (space_view space) (flat_map items (map field_tree fields.now))) }
{
    for field in fields {
        add_field(field, names, space)?;
    }
    Ok(())
}

/// The items of a field.
fn add_field(field: &ModuleField<'_>, names: &mut Names, space: Space) -> Result<(), EncodeError>
    ensures { NamesJoin result names.old names.new (bound_names (space_view space) (items (field_tree field.now))) }
{
    match field {
        ModuleField::TypeItem(item) => add_type(item, names, space),
        ModuleField::Rec(group) => add_types(&group.types, names, space),
        ModuleField::Import(imports) => add_imports(imports, names, space),
        ModuleField::Func(func) => add(&func.name, &func.id, names, space, Space::Functions),
        ModuleField::Table(table) => add_table(table, names, space),
        ModuleField::Memory(memory) => add_memory(memory, names, space),
        ModuleField::Global(global) => add(&global.name, &global.id, names, space, Space::Globals),
        ModuleField::Tag(tag) => add(&tag.name, &tag.id, names, space, Space::Tags),
        ModuleField::Elem(elem) => add(&elem.name, &elem.id, names, space, Space::Elems),
        ModuleField::Data(data) => add(&data.name, &data.id, names, space, Space::Datas),
        ModuleField::Export(_) | ModuleField::Start(_) | ModuleField::Custom(_) => Ok(()),
    }
}

/// A table, and the segment that stands inline.
fn add_table(table: &Table<'_>, names: &mut Names, space: Space) -> Result<(), EncodeError>
    ensures { NamesJoin result names.old names.new (bound_names (space_view space) (items (Define (table_definition table.now)))) }
{
    add(&table.name, &table.id, names, space, Space::Tables)?;
    match &table.kind {
        TableKind::Inline { .. } => add_segment(names, space, Space::Elems),
        TableKind::Import { .. } | TableKind::Normal { .. } => Ok(()),
    }
}

/// A memory, and the segment that stands inline.
fn add_memory(memory: &Memory<'_>, names: &mut Names, space: Space) -> Result<(), EncodeError>
    ensures { NamesJoin result names.old names.new (bound_names (space_view space) (items (Define (memory_definition memory.now)))) }
{
    add(&memory.name, &memory.id, names, space, Space::Memories)?;
    match &memory.kind {
        MemoryKind::Inline { .. } => add_segment(names, space, Space::Datas),
        MemoryKind::Import { .. } | MemoryKind::Normal(_) => Ok(()),
    }
}

/// Types, one after the other.
fn add_types(types: &[TypeItem<'_>], names: &mut Names, space: Space) -> Result<(), EncodeError>
    ensures { NamesJoin result names.old names.new (bound_names (space_view space) (map bound_type (map item_tree types.now))) }
{
    for item in types {
        add_type(item, names, space)?;
    }
    Ok(())
}

/// A type.
fn add_type(item: &TypeItem<'_>, names: &mut Names, space: Space) -> Result<(), EncodeError>
    ensures { NamesJoin result names.old names.new (bound_names (space_view space) (bound_type (item_tree item.now) ∷ [])) }
{
    add(&item.name, &item.id, names, space, Space::Types)
}

/// What is imported; of a group that is alike the same item for each name.
fn add_imports(imports: &Imports<'_>, names: &mut Names, space: Space) -> Result<(), EncodeError>
    ensures { NamesJoin result names.old names.new (bound_names (space_view space) (bound_imports (items_tree imports.now.items))) }
{
    match &imports.items {
        ImportItems::Single { sig, .. } => add_import(sig, names, space),
        ImportItems::Group1 { items, .. } => add_members(items, names, space),
        ImportItems::Group2 { sig, items, .. } => add_for_each(sig, items, names, space),
    }
}

/// The members of a group, one after the other.
fn add_members(
    members: &[ImportGroup1Item<'_>],
    names: &mut Names,
    space: Space,
) -> Result<(), EncodeError>
    ensures { NamesJoin result names.old names.new (bound_names (space_view space) (map (λ i. bound_import i.1) (map member_tree members.now))) }
{
    for member in members {
        add_import(&member.sig, names, space)?;
    }
    Ok(())
}

/// The same item for each member of a group.
fn add_for_each(
    sig: &ItemSig<'_>,
    members: &[ImportGroup2Item<'_>],
    names: &mut Names,
    space: Space,
) -> Result<(), EncodeError>
    ensures { NamesJoin result names.old names.new (bound_names (space_view space) (map (λ name. bound_import (imported_tree sig.now)) (map member_name_tree members.now))) }
{
    for _member in members {
        add_import(sig, names, space)?;
    }
    Ok(())
}

/// What is imported under one name.
fn add_import(sig: &ItemSig<'_>, names: &mut Names, space: Space) -> Result<(), EncodeError>
    ensures { NamesJoin result names.old names.new (bound_names (space_view space) (bound_import (imported_tree sig.now) ∷ [])) }
{
    add(
        &sig.name,
        &sig.id,
        names,
        space,
        Space::of_import(&sig.kind),
    )
}

/// An item of `own`, where that is the space whose names are wanted.
fn add(
    name: &Option<NameAnnotation<'_>>,
    id: &Option<Id<'_>>,
    names: &mut Names,
    wanted: Space,
    own: Space,
) -> Result<(), EncodeError>
    ensures { NamesJoin result names.old names.new (bound_names (space_view wanted) (bound (space_view own) (option_map identifier_tree id.now) (option_map name_tree name.now) ∷ [])) }
{
    if is_same(wanted, own) {
        add_given(name, id, names)
    } else {
        Ok(())
    }
}

/// The same of a segment that stands inline, which has no name.
fn add_segment(names: &mut Names, wanted: Space, own: Space) -> Result<(), EncodeError>
    ensures { NamesJoin result names.old names.new (bound_names (space_view wanted) (bound (space_view own) None None ∷ [])) }
{
    if is_same(wanted, own) {
        names.add(None)
    } else {
        Ok(())
    }
}

/// Whether two spaces are the same.
fn is_same(one: Space, other: Space) -> bool
    ensures { result ≡ same_space (space_view one) (space_view other) }
{
    one == other
}
