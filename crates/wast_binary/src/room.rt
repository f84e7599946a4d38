//! Whether all that is in fields can be numbered by 32 bits: items, and inside of them parameters, locals, fields of structures and
//! instructions.
ghost use Rattle.std.specs.Prelude.{◌≡◌, ◌+◌, ◌≤◌, true, map, IfSome};
ghost use Rattle.wast_signatures.specs.SignatureViews.{use_tree};
ghost use Rattle.wast_core_types.specs.TypeViews.{item_tree as type_tree, inner_tree};
ghost use Rattle.wast_imports.specs.ImportViews.{items_tree, member_tree, extern_tree};
ghost use Rattle.wast_module_fields.specs.FuncViews.{func_definition, tag_definition};
ghost use Rattle.wast_module_fields.specs.ModuleFieldViews.{field_tree};
ghost use Rattle.wast_binary.specs.Weight.{total, inner_weight, type_weight, use_weight, extern_weight, import_weight, defined_weight, weight, AreFew};

use wast_core_types::{InnerTypeKind, TypeItem};
use wast_imports::{ImportGroup1Item, ImportItems, ItemKind, TagType};
use wast_module_fields::{Func, FuncKind, ModuleField, Tag, TagKind};
use wast_signatures::{FunctionType, TypeUse};

/// How much there may be: as many parameters of a type, and as many locals of a function behind them, have numbers of 32 bits.
const ROOM: usize = 2147483647;

/// True only where there is no more than that.
pub(crate) fn has_room(fields: &[ModuleField<'_>]) -> bool
    ensures { result ≡ true → AreFew (map field_tree fields.now) }
{
    behind_fields(fields, ROOM).is_some()
}

/// The room that is left behind fields, if they fit.
fn behind_fields(fields: &[ModuleField<'_>], room: usize) -> Option<usize>
    ensures { IfSome result (λ left. left + total weight (map field_tree fields.now) ≤ room) }
{
    let mut left = room;
    for field in fields {
        match behind_field(field, left) {
            Some(rest) => left = rest,
            None => return None,
        }
    }
    Some(left)
}

/// The same behind a field.
fn behind_field(field: &ModuleField<'_>, room: usize) -> Option<usize>
    ensures { IfSome result (λ left. left + weight (field_tree field.now) ≤ room) }
{
    match field {
        ModuleField::TypeItem(item) => behind_type(item, room),
        ModuleField::Rec(group) => behind_types(&group.types, room),
        ModuleField::Import(imports) => behind_imports(&imports.items, room),
        ModuleField::Func(func) => behind_func(func, room),
        ModuleField::Table(_) | ModuleField::Memory(_) => room.checked_sub(2),
        ModuleField::Global(_) | ModuleField::Elem(_) | ModuleField::Data(_) => room.checked_sub(1),
        ModuleField::Tag(tag) => behind_tag(tag, room),
        ModuleField::Export(_) | ModuleField::Start(_) | ModuleField::Custom(_) => Some(room),
    }
}

/// The same behind types.
fn behind_types(items: &[TypeItem<'_>], room: usize) -> Option<usize>
    ensures { IfSome result (λ left. left + total type_weight (map type_tree items.now) ≤ room) }
{
    let mut left = room;
    for item in items {
        match behind_type(item, left) {
            Some(rest) => left = rest,
            None => return None,
        }
    }
    Some(left)
}

/// The same behind a type.
fn behind_type(item: &TypeItem<'_>, room: usize) -> Option<usize>
    ensures { IfSome result (λ left. left + type_weight (type_tree item.now) ≤ room) }
{
    room.checked_sub(1)?.checked_sub(inside(&item.def.kind))
}

/// How many parameters or fields a type has.
fn inside(kind: &InnerTypeKind<'_>) -> usize
    ensures { result ≡ inner_weight (inner_tree kind.now) }
{
    match kind {
        InnerTypeKind::Func(ty) => ty.params.len(),
        InnerTypeKind::Struct(ty) => ty.fields.len(),
        InnerTypeKind::Array(_) | InnerTypeKind::Cont(_) => 0,
    }
}

/// How many parameters a use of a type writes.
fn written_param_count(ty: &TypeUse<'_, FunctionType<'_>>) -> usize
    ensures { result ≡ use_weight (use_tree ty.now) }
{
    match &ty.inline {
        Some(sig) => sig.params.len(),
        None => 0,
    }
}

/// The same behind what is imported.
fn behind_imports(items: &ImportItems<'_>, room: usize) -> Option<usize>
    ensures { IfSome result (λ left. left + import_weight (items_tree items.now) ≤ room) }
{
    match items {
        ImportItems::Single { sig, .. } => behind_item(&sig.kind, room),
        ImportItems::Group1 { items, .. } => behind_members(items, room),
        ImportItems::Group2 { sig, items, .. } => {
            room.checked_sub(items.len())?
                .checked_sub(params_in(&sig.kind))
        }
    }
}

/// The same behind the members of a group of imports.
fn behind_members(members: &[ImportGroup1Item<'_>], room: usize) -> Option<usize>
    ensures { IfSome result (λ left. left + total (λ i. extern_weight i.1.extern_type + 1) (map member_tree members.now) ≤ room) }
{
    let mut left = room;
    for member in members {
        match behind_item(&member.sig.kind, left) {
            Some(rest) => left = rest,
            None => return None,
        }
    }
    Some(left)
}

/// The same behind one import.
fn behind_item(kind: &ItemKind<'_>, room: usize) -> Option<usize>
    ensures { IfSome result (λ left. left + (extern_weight (extern_tree kind.now) + 1) ≤ room) }
{
    room.checked_sub(1)?.checked_sub(params_in(kind))
}

/// How many parameters a tag that is imported writes.
fn params_in(kind: &ItemKind<'_>) -> usize
    ensures { result ≡ extern_weight (extern_tree kind.now) }
{
    match kind {
        ItemKind::Tag(TagType::Exception(ty)) => written_param_count(ty),
        _ => 0,
    }
}

/// The same behind a function.
fn behind_func(func: &Func<'_>, room: usize) -> Option<usize>
    ensures { IfSome result (λ left. left + defined_weight (func_definition func.now).defined ≤ room) }
{
    match &func.kind {
        FuncKind::Import { .. } => room.checked_sub(1),
        FuncKind::Inline { locals, expression } => room
            .checked_sub(written_param_count(&func.ty))?
            .checked_sub(locals.len())?
            .checked_sub(expression.instrs.len())?
            .checked_sub(1),
    }
}

/// The same behind a tag.
fn behind_tag(tag: &Tag<'_>, room: usize) -> Option<usize>
    ensures { IfSome result (λ left. left + defined_weight (tag_definition tag.now).defined ≤ room) }
{
    match &tag.kind {
        TagKind::Import(_) => room.checked_sub(1),
        TagKind::Inline => {
            let TagType::Exception(ty) = &tag.ty;
            room.checked_sub(written_param_count(ty))?.checked_sub(1)
        }
    }
}
