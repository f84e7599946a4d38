//! The names inside of items.
ghost use Rattle.std.specs.Prelude.{◌∷◌, [], ℕ, List, map};
ghost use Rattle.std.specs.List.{flat_map};
ghost use Rattle.wast_signatures.specs.SignatureViews.{use_tree};
ghost use Rattle.wast_core_types.specs.TypeViews.{item_tree};
ghost use Rattle.wast_core_instr.specs.ExpressionViews.{expression_tree};
ghost use Rattle.wast_imports.specs.ImportViews.{extern_tree, items_tree, member_name_tree, member_tree, tag_tree};
ghost use Rattle.wast_module_fields.specs.FuncViews.{defined_func, defined_tag, local_tree};
ghost use Rattle.wast_module_fields.specs.ModuleFieldViews.{field_tree};
ghost use Rattle.wast_meaning.specs.Implied.{written_types};
ghost use Rattle.wast_meant.specs.NamesMeant.{imported};
ghost use Rattle.wast_name_maps.specs.Gathered.{defined_groups, field_groups, function_groups, import_groups, label_names, nameless_groups, tag_groups, type_groups};
ghost use Rattle.wast_name_maps.specs.Kinds.{inside_view};
ghost use Rattle.wast_spaces.specs.Params.{param_count};
ghost use Rattle.wast_name_maps.specs.Numbered.{BuildsGroups, GroupsJoin};

use crate::groups::Groups;
use crate::kinds::Inside;
use crate::labels::names_of_labels;
use crate::locals::names_of_locals;
use crate::types::{names_of_fields, names_of_params, names_of_tag_params};
use std::alloc::Global;
use wasm_encoder_base::EncodeError;
use wast_module_fields::{
    Expression, Func, FuncKind, FunctionType, ImportGroup1Item, ImportGroup2Item, ImportItems,
    Imports, ItemKind, ItemSig, Local, ModuleField, Tag, TagKind, TagType, TypeItem, TypeUse,
};
use wast_spaces::param_counts;

/// The names inside of items, by the items.
pub(crate) fn groups_of(
    alloc: Global,
    fields: &[ModuleField<'_>],
    kind: Inside,
) -> Result<Groups, EncodeError>
    ensures { BuildsGroups result (flat_map (field_groups (inside_view kind) (map param_count (flat_map written_types (map field_tree fields.now)))) (map field_tree fields.now)) }
{
    let counts = param_counts(alloc, fields)?;
    groups_by(alloc, fields, kind, &counts)
}

/// The same, given how many parameters each type has.
fn groups_by(
    alloc: Global,
    fields: &[ModuleField<'_>],
    kind: Inside,
    counts: &[usize],
) -> Result<Groups, EncodeError>
    ensures { BuildsGroups result (flat_map (field_groups (inside_view kind) counts.now) (map field_tree fields.now)) }
{
    let mut groups = Groups::new(alloc);
    add_fields(alloc, fields, &mut groups, kind, counts)?;
    Ok(groups)
}

/// Fields, one after the other.
fn add_fields(
    alloc: Global,
    fields: &[ModuleField<'_>],
    groups: &mut Groups,
    kind: Inside,
    counts: &[usize],
) -> Result<(), EncodeError>
    ensures { GroupsJoin result groups.old groups.new (flat_map (field_groups (inside_view kind) counts.now) (map field_tree fields.now)) }
{
    for field in fields {
        add_field(alloc, field, groups, kind, counts)?;
    }
    Ok(())
}

/// What a field has that may have names inside.
fn add_field(
    alloc: Global,
    field: &ModuleField<'_>,
    groups: &mut Groups,
    kind: Inside,
    counts: &[usize],
) -> Result<(), EncodeError>
    ensures { GroupsJoin result groups.old groups.new (field_groups (inside_view kind) counts.now (field_tree field.now)) }
{
    match field {
        ModuleField::TypeItem(item) => add_type(alloc, item, groups, kind),
        ModuleField::Rec(group) => add_types(alloc, &group.types, groups, kind),
        ModuleField::Import(imports) => add_imports(alloc, imports, groups, kind),
        ModuleField::Func(func) => add_func(alloc, func, groups, kind, counts),
        ModuleField::Tag(tag) => add_tag(alloc, tag, groups, kind),
        _ => Ok(()),
    }
}

// TYPES

/// Types, one after the other.
fn add_types(
    alloc: Global,
    types: &[TypeItem<'_>],
    groups: &mut Groups,
    kind: Inside,
) -> Result<(), EncodeError>
    ensures { GroupsJoin result groups.old groups.new (flat_map (type_groups (inside_view kind)) (map item_tree types.now)) }
{
    for item in types {
        add_type(alloc, item, groups, kind)?;
    }
    Ok(())
}

/// A type, where fields or parameters are wanted.
fn add_type(
    alloc: Global,
    item: &TypeItem<'_>,
    groups: &mut Groups,
    kind: Inside,
) -> Result<(), EncodeError>
    ensures { GroupsJoin result groups.old groups.new (type_groups (inside_view kind) (item_tree item.now)) }
{
    match kind {
        Inside::Fields => {
            let names = names_of_fields(alloc, &item.def.kind)?;
            groups.add(&names)
        }
        Inside::Parameters => {
            let names = names_of_params(alloc, &item.def.kind)?;
            groups.add(&names)
        }
        Inside::Locals | Inside::Labels | Inside::TagParameters => Ok(()),
    }
}

// IMPORTS

/// What is imported; of a group that is alike the same for each name.
fn add_imports(
    alloc: Global,
    imports: &Imports<'_>,
    groups: &mut Groups,
    kind: Inside,
) -> Result<(), EncodeError>
    ensures { GroupsJoin result groups.old groups.new (flat_map (import_groups (inside_view kind)) (imported (items_tree imports.now.items))) }
{
    match &imports.items {
        ImportItems::Single { sig, .. } => add_single(alloc, sig, groups, kind),
        ImportItems::Group1 { items, .. } => add_members(alloc, items, groups, kind),
        ImportItems::Group2 { sig, items, .. } => add_for_each(alloc, sig, items, groups, kind),
    }
}

/// What is imported alone.
fn add_single(
    alloc: Global,
    sig: &ItemSig<'_>,
    groups: &mut Groups,
    kind: Inside,
) -> Result<(), EncodeError>
    ensures { GroupsJoin result groups.old groups.new (flat_map (import_groups (inside_view kind)) (extern_tree sig.now.kind ∷ [])) }
{
    add_import(alloc, &sig.kind, groups, kind)
}

/// The members of a group, one after the other.
fn add_members(
    alloc: Global,
    members: &[ImportGroup1Item<'_>],
    groups: &mut Groups,
    kind: Inside,
) -> Result<(), EncodeError>
    ensures { GroupsJoin result groups.old groups.new (flat_map (import_groups (inside_view kind)) (map (λ i. i.1.extern_type) (map member_tree members.now))) }
{
    for member in members {
        add_import(alloc, &member.sig.kind, groups, kind)?;
    }
    Ok(())
}

/// The same for each member of a group.
fn add_for_each(
    alloc: Global,
    sig: &ItemSig<'_>,
    members: &[ImportGroup2Item<'_>],
    groups: &mut Groups,
    kind: Inside,
) -> Result<(), EncodeError>
    ensures { GroupsJoin result groups.old groups.new (flat_map (import_groups (inside_view kind)) (map (λ name. extern_tree sig.now.kind) (map member_name_tree members.now))) }
{
    for _member in members {
        add_import(alloc, &sig.kind, groups, kind)?;
    }
    Ok(())
}

/// What is imported under one name, where it is a function or a tag.
fn add_import(
    alloc: Global,
    import: &ItemKind<'_>,
    groups: &mut Groups,
    kind: Inside,
) -> Result<(), EncodeError>
    ensures { GroupsJoin result groups.old groups.new (import_groups (inside_view kind) (extern_tree import.now)) }
{
    match import {
        ItemKind::Func(_) | ItemKind::FuncExact(_) => pass_function(groups, kind),
        ItemKind::Tag(ty) => add_tag_type(alloc, ty, groups, kind),
        ItemKind::Table(_) | ItemKind::Memory(_) | ItemKind::Global(_) => Ok(()),
    }
}

// FUNCTIONS

/// A function without a body, where locals or labels are wanted.
fn pass_function(groups: &mut Groups, kind: Inside) -> Result<(), EncodeError>
    ensures { GroupsJoin result groups.old groups.new (nameless_groups (inside_view kind)) }
{
    match kind {
        Inside::Locals | Inside::Labels => groups.pass(),
        Inside::Fields | Inside::Parameters | Inside::TagParameters => Ok(()),
    }
}

/// A function, where it has a body.
fn add_func(
    alloc: Global,
    func: &Func<'_>,
    groups: &mut Groups,
    kind: Inside,
    counts: &[usize],
) -> Result<(), EncodeError>
    ensures { GroupsJoin result groups.old groups.new (defined_groups (inside_view kind) counts.now (defined_func func.now.kind func.now.ty)) }
{
    match &func.kind {
        FuncKind::Inline { locals, expression } => {
            add_body(alloc, &func.ty, locals, expression, groups, kind, counts)
        }
        FuncKind::Import { .. } => Ok(()),
    }
}

/// A function with a body, where locals or labels are wanted.
fn add_body<'a>(
    alloc: Global,
    ty: &TypeUse<'a, FunctionType<'a>>,
    locals: &[Local<'a>],
    body: &Expression<'a>,
    groups: &mut Groups,
    kind: Inside,
    counts: &[usize],
) -> Result<(), EncodeError>
    ensures { GroupsJoin result groups.old groups.new (function_groups (inside_view kind) counts.now (record { type_use = use_tree ty.now; locals = map local_tree locals.now; body = expression_tree body.now })) }
{
    match kind {
        Inside::Locals => {
            let names = names_of_locals(alloc, counts, ty, locals)?;
            groups.add(&names)
        }
        Inside::Labels => add_labels(alloc, body, groups),
        Inside::Fields | Inside::Parameters | Inside::TagParameters => Ok(()),
    }
}

/// The labels of a body.
fn add_labels(alloc: Global, body: &Expression<'_>, groups: &mut Groups) -> Result<(), EncodeError>
    ensures { GroupsJoin result groups.old groups.new (flat_map label_names (expression_tree body.now).instrs ∷ []) }
{
    let names = names_of_labels(alloc, &body.instrs)?;
    groups.add(&names)
}

// TAGS

/// A tag, where it isn't imported.
fn add_tag(
    alloc: Global,
    tag: &Tag<'_>,
    groups: &mut Groups,
    kind: Inside,
) -> Result<(), EncodeError>
    ensures { (counts : List ℕ) → GroupsJoin result groups.old groups.new (defined_groups (inside_view kind) counts (defined_tag tag.now.kind tag.now.ty)) }
{
    match &tag.kind {
        TagKind::Inline => add_tag_type(alloc, &tag.ty, groups, kind),
        TagKind::Import(_) => Ok(()),
    }
}

/// A tag of this type, where parameters of tags are wanted.
fn add_tag_type(
    alloc: Global,
    ty: &TagType<'_>,
    groups: &mut Groups,
    kind: Inside,
) -> Result<(), EncodeError>
    ensures { GroupsJoin result groups.old groups.new (tag_groups (inside_view kind) (tag_tree ty.now)) }
{
    match kind {
        Inside::TagParameters => {
            let names = names_of_tag_params(alloc, ty)?;
            groups.add(&names)
        }
        Inside::Locals | Inside::Labels | Inside::Fields | Inside::Parameters => Ok(()),
    }
}
