//! Fields of types.
ghost use Rattle.std.specs.Prelude.{◌≡◌, ◌<◌, Some, is_some, length, map, option_map, slice_get};
ghost use Rattle.std.specs.List.{find, flat_map, list_any};
ghost use Rattle.wast_grammar.specs.Spelling.{same_name};
ghost use Rattle.wast_parser.specs.Identifiers.{identifier_tree, index_tree};
ghost use Rattle.wast_signatures.specs.SignatureViews.{struct_field_tree};
ghost use Rattle.wast_core_types.specs.TypeViews.{item_tree};
ghost use Rattle.wast_core.specs.ModuleFieldViews.{field_tree};
ghost use Rattle.wast_core.specs.ModuleViews.{content_tree};
ghost use Rattle.wast_names.specs.Position.{bears};
ghost use Rattle.wast_names.specs.Space.{name_in};
ghost use Rattle.wast_meaning.specs.Modules.{content_fields};
ghost use Rattle.wast_meaning.specs.Scope.{members, scope_of};
ghost use Rattle.wast_bound.specs.Bound.{has, types};

use wast_core::{ModuleField, ModuleKind, TypeItem};
use wast_core_types::InnerTypeKind;
use wast_names::is_borne;
use wast_parser::{Id, Index};
use wast_signatures::StructField;

/// Whether the struct type that an index means has a field that bears a name, in a module that holds this.
pub(crate) fn is_member_in(content: &ModuleKind<'_>, owner: &Index<'_>, id: &Id<'_>) -> bool
    ensures { result ≡ is_some ((members (scope_of same_name (content_fields (content_tree content.now))) (index_tree owner.now)).look (identifier_tree id.now).0) }
{
    match content {
        ModuleKind::Text(fields) => is_member(fields, owner, id),
        ModuleKind::Binary(_) => false,
    }
}

/// The same among fields.
fn is_member(fields: &[ModuleField<'_>], owner: &Index<'_>, id: &Id<'_>) -> bool
    ensures { result ≡ is_some ((members (scope_of same_name (map field_tree fields.now)) (index_tree owner.now)).look (identifier_tree id.now).0) }
{
    match owner {
        Index::Num(number, _) => is_member_at(fields, *number, id),
        Index::Id(name) => is_member_of(fields, name, id),
    }
}

/// The same of the type with a number.
fn is_member_at(fields: &[ModuleField<'_>], number: u32, id: &Id<'_>) -> bool
    ensures { result ≡ has (identifier_tree id.now).0 (slice_get (flat_map types (map field_tree fields.now)) number) }
{
    let mut number = number as usize;
    for field in fields {
        let count = type_count(field);
        if number < count {
            return has_at(field, number, id);
        }
        number -= count;
    }
    false
}

/// The same of the first type that bears a name.
fn is_member_of(fields: &[ModuleField<'_>], name: &Id<'_>, id: &Id<'_>) -> bool
    ensures { result ≡ has (identifier_tree id.now).0 (find (λ t. bears same_name (identifier_tree name.now).0 (name_in t.id)) (flat_map types (map field_tree fields.now))) }
{
    for field in fields {
        match has_of(field, name, id) {
            Some(found) => return found,
            None => {}
        }
    }
    false
}

/// How many types a field writes.
fn type_count(field: &ModuleField<'_>) -> usize
    ensures { result ≡ length (types (field_tree field.now)) }
{
    types_of(field).len()
}

/// Whether the one of these types with a number has a field that bears a name.
fn has_at(field: &ModuleField<'_>, number: usize, id: &Id<'_>) -> bool
    requires { number < length (types (field_tree field.now)) }
    ensures { result ≡ has (identifier_tree id.now).0 (slice_get (types (field_tree field.now)) number) }
{
    is_field_of(&types_of(field)[number], id)
}

/// Whether the first of these types that bears a name has a field that bears another, if there is such a type.
fn has_of(field: &ModuleField<'_>, name: &Id<'_>, id: &Id<'_>) -> Option<bool>
    ensures { result ≡ option_map (λ t. has (identifier_tree id.now).0 (Some t)) (find (λ t. bears same_name (identifier_tree name.now).0 (name_in t.id)) (types (field_tree field.now))) }
{
    match first_named(types_of(field), name) {
        Some(item) => Some(is_field_of(item, id)),
        None => None,
    }
}

/// The first of these types that bears a name.
fn first_named<'t, 'a>(types: &'t [TypeItem<'a>], name: &Id<'_>) -> Option<&'t TypeItem<'a>>
    ensures { option_map (λ t. item_tree t.now) result ≡ find (λ t. bears same_name (identifier_tree name.now).0 (name_in t.id)) (map item_tree types.now) }
{
    for item in types {
        if is_borne(&item.id, name) {
            return Some(item);
        }
    }
    None
}

/// The types that a field writes.
fn types_of<'f, 'a>(field: &'f ModuleField<'a>) -> &'f [TypeItem<'a>]
    ensures { map item_tree result.now ≡ types (field_tree field.now) }
{
    match field {
        ModuleField::TypeItem(item) => std::slice::from_ref(item),
        ModuleField::Rec(group) => &group.types,
        _ => &[],
    }
}

/// Whether a type has a field that bears a name.
fn is_field_of(item: &TypeItem<'_>, id: &Id<'_>) -> bool
    ensures { result ≡ has (identifier_tree id.now).0 (Some (item_tree item.now)) }
{
    match &item.def.kind {
        InnerTypeKind::Struct(structure) => is_field(&structure.fields, id),
        InnerTypeKind::Func(_) | InnerTypeKind::Array(_) | InnerTypeKind::Cont(_) => false,
    }
}

/// Whether a field of a structure bears a name.
fn is_field(fields: &[StructField<'_>], id: &Id<'_>) -> bool
    ensures { result ≡ list_any (bears same_name (identifier_tree id.now).0) (map name_in (map (λ f. f.id) (map struct_field_tree fields.now))) }
{
    for field in fields {
        if is_borne(&field.id, id) {
            return true;
        }
    }
    false
}
