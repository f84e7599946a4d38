//! Items of index spaces.
ghost use Rattle.std.specs.Prelude.{◌≡◌, ◌&&◌, map, option_map};
ghost use Rattle.std.specs.List.{flat_map, list_any};
ghost use Rattle.wast_grammar.specs.Spelling.{same_name};
ghost use Rattle.wast_parser.specs.Identifiers.{identifier_tree};
ghost use Rattle.wast_core_types.specs.TypeViews.{item_tree};
ghost use Rattle.wast_imports.specs.ImportViews.{items_tree, member_tree};
ghost use Rattle.wast_imports.specs.ImportViews.{item_tree as imported_tree};
ghost use Rattle.wast_core.specs.ModuleFieldViews.{field_tree};
ghost use Rattle.wast_core.specs.ModuleViews.{content_tree};
ghost use Rattle.wast_names.specs.Position.{bears};
ghost use Rattle.wast_names.specs.Space.{name_in};
ghost use Rattle.wast_meaning.specs.Modules.{content_fields};
ghost use Rattle.wast_meaning.specs.Spaces.{bound_import, bound_imports, bound_type, items, same_space};
ghost use Rattle.wast_meaning.specs.Views.{space_view};
ghost use Rattle.wast_bound.specs.Bound.{joins};

use wast_core::{ImportGroup1Item, ImportItems, ItemSig, ModuleField, ModuleKind, TypeItem};
use wast_meaning::Space;
use wast_names::is_borne;
use wast_parser::Id;

/// Whether an item of a space bears a name, among those of what a module holds.
pub(crate) fn is_item_in(content: &ModuleKind<'_>, space: Space, id: &Id<'_>) -> bool
    ensures { result ≡ list_any (joins (space_view space) (identifier_tree id.now).0) (flat_map items (content_fields (content_tree content.now))) }
{
    match content {
        ModuleKind::Text(fields) => is_item(fields, space, id),
        ModuleKind::Binary(_) => false,
    }
}

/// The same among those of fields.
fn is_item(fields: &[ModuleField<'_>], space: Space, id: &Id<'_>) -> bool
    ensures { result ≡ list_any (joins (space_view space) (identifier_tree id.now).0) (flat_map items (map field_tree fields.now)) }
{
    for field in fields {
        if binds(field, space, id) {
            return true;
        }
    }
    false
}

/// The same among those of one field. A segment that stands inline has no name.
fn binds(field: &ModuleField<'_>, space: Space, id: &Id<'_>) -> bool
    ensures { result ≡ list_any (joins (space_view space) (identifier_tree id.now).0) (items (field_tree field.now)) }
{
    match field {
        ModuleField::TypeItem(item) => is_named(space, Space::Types, &item.id, id),
        ModuleField::Rec(group) => are_types_named(&group.types, space, id),
        ModuleField::Import(imports) => are_imports_named(&imports.items, space, id),
        ModuleField::Func(func) => is_named(space, Space::Functions, &func.id, id),
        ModuleField::Table(table) => is_named(space, Space::Tables, &table.id, id),
        ModuleField::Memory(memory) => is_named(space, Space::Memories, &memory.id, id),
        ModuleField::Global(global) => is_named(space, Space::Globals, &global.id, id),
        ModuleField::Tag(tag) => is_named(space, Space::Tags, &tag.id, id),
        ModuleField::Elem(elem) => is_named(space, Space::Elems, &elem.id, id),
        ModuleField::Data(segment) => is_named(space, Space::Datas, &segment.id, id),
        ModuleField::Export(_) => false,
        ModuleField::Start(_) => false,
        ModuleField::Custom(_) => false,
    }
}

/// The same among types.
fn are_types_named(types: &[TypeItem<'_>], space: Space, id: &Id<'_>) -> bool
    ensures { result ≡ list_any (joins (space_view space) (identifier_tree id.now).0) (map bound_type (map item_tree types.now)) }
{
    for item in types {
        if is_named(space, Space::Types, &item.id, id) {
            return true;
        }
    }
    false
}

/// The same among what is imported; in a group that is alike, of the item of each name.
fn are_imports_named(imports: &ImportItems<'_>, space: Space, id: &Id<'_>) -> bool
    ensures { result ≡ list_any (joins (space_view space) (identifier_tree id.now).0) (bound_imports (items_tree imports.now)) }
{
    match imports {
        ImportItems::Single { sig, .. } => is_import_named(sig, space, id),
        ImportItems::Group1 { items, .. } => are_members_named(items, space, id),
        ImportItems::Group2 { sig, items, .. } => {
            !items.is_empty() && is_import_named(sig, space, id)
        }
    }
}

/// The same among the members of a group.
fn are_members_named(members: &[ImportGroup1Item<'_>], space: Space, id: &Id<'_>) -> bool
    ensures { result ≡ list_any (joins (space_view space) (identifier_tree id.now).0) (map (λ i. bound_import i.1) (map member_tree members.now)) }
{
    for member in members {
        if is_import_named(&member.sig, space, id) {
            return true;
        }
    }
    false
}

/// The same of what is imported under one name.
fn is_import_named(sig: &ItemSig<'_>, space: Space, id: &Id<'_>) -> bool
    ensures { result ≡ joins (space_view space) (identifier_tree id.now).0 (bound_import (imported_tree sig.now)) }
{
    is_named(space, Space::of_import(&sig.kind), &sig.id, id)
}

/// Whether an item of a space, with this identifier or with none, is of a space and bears a name.
fn is_named(space: Space, own_space: Space, own: &Option<Id<'_>>, id: &Id<'_>) -> bool
    ensures { result ≡ (same_space (space_view space) (space_view own_space) && bears same_name (identifier_tree id.now).0 (name_in (option_map identifier_tree own.now))) }
{
    space == own_space && is_borne(own, id)
}
