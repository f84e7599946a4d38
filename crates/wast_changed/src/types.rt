//! Signatures, composite types, type definitions and type uses.
ghost use Rattle.std.specs.Prelude.{◌≡◌, ℕ, false, OnOk, IsOk, map, option_map};
ghost use Rattle.wast_grammar.specs.Tokens.{Name};
ghost use Rattle.wast_signatures.specs.TypeTree as spec;
ghost use Rattle.wast_signatures.specs.SignatureViews.{param_tree, sig_tree, use_tree, struct_field_tree};
ghost use Rattle.wast_core_types.specs.TypeViews.{array_tree, inner_tree, item_tree, rec_tree};
ghost use Rattle.wast_meaning.specs.Changed.{local_changed, sig_changed, field_type_changed, inner_changed, type_changed, use_changed};
ghost use Rattle.wast_changed.specs.Memory.{use_may_take};

use crate::changing::{Changing, change_optional};
use crate::list::{ByChange, Each, turn_list};
use crate::value_types::{change_storage_type, change_val_type, change_val_types};
use std::alloc::AllocError;
use wast_core_types::{ArrayType, InnerTypeKind, Rec, TypeItem};
use wast_meaning::Space;
use wast_signatures::{FunctionType, Param, StructField, TypeUse};

/// A signature (6.4.5).
pub(crate) fn change_function_type<'a, C: Changing<'a>>(change: &C, ty: &mut FunctionType<'a>)
    ensures { sig_tree ty.new ≡ sig_changed (C.change change.now) (sig_tree ty.old) }
{
    turn_list(&ByChange { change }, &mut ty.params);
    change_val_types(change, &mut ty.results);
}

/// The type of an array (6.4.6).
pub(crate) fn change_array_type<'a, C: Changing<'a>>(change: &C, ty: &mut ArrayType<'a>)
    ensures { array_tree ty.new ≡ field_type_changed (C.change change.now) (array_tree ty.old) }
{
    change_storage_type(change, &mut ty.ty);
}

/// What a composite type is (6.4.6).
pub(crate) fn change_inner_type<'a, C: Changing<'a>>(change: &C, kind: &mut InnerTypeKind<'a>)
    ensures { inner_tree kind.new ≡ inner_changed (C.change change.now) (inner_tree kind.old) }
{
    match kind {
        InnerTypeKind::Func(ty) => change_function_type(change, ty),
        InnerTypeKind::Struct(ty) => turn_list(&ByChange { change }, &mut ty.fields),
        InnerTypeKind::Array(ty) => change_array_type(change, ty),
        InnerTypeKind::Cont(ty) => change.index(Space::Types, &mut ty.0),
    }
}

/// A type that is defined, with what it is called (6.4.7).
pub fn change_type_item<'a, C: Changing<'a>>(change: &C, item: &mut TypeItem<'a>)
    ensures { item_tree item.new ≡ type_changed (C.change change.now) (item_tree item.old) }
{
    change_inner_type(change, &mut item.def.kind);
    change_optional(change, Space::Types, &mut item.def.parent);
    change_optional(change, Space::Types, &mut item.def.descriptor);
    change_optional(change, Space::Types, &mut item.def.describes);
}

/// Types that may refer to each other (6.4.7).
pub fn change_rec<'a, C: Changing<'a>>(change: &C, group: &mut Rec<'a>)
    ensures { rec_tree group.new ≡ record { place = (rec_tree group.old).place; types = map (type_changed (C.change change.now)) (rec_tree group.old).types } }
{
    turn_list(&ByChange { change }, &mut group.types);
}

/// A type use (6.6, type uses). Fails only for want of memory, of which none is asked for where an index is written.
pub fn change_type_use<'a, C: Changing<'a>>(
    change: &C,
    ty: &mut TypeUse<'a, FunctionType<'a>>,
) -> Result<(), AllocError>
    ensures changed { OnOk result (use_tree ty.new ≡ use_changed (C.change change.now) (use_tree ty.old)) }
    ensures unasked { use_may_take ty.old ≡ false → IsOk result }
{
    change.type_use(&mut ty.index, ty.inline.as_ref())?;
    change_inline(change, ty);
    Ok(())
}

/// The signature that is written with a type use.
pub(crate) fn change_inline<'a, C: Changing<'a>>(change: &C, ty: &mut TypeUse<'a, FunctionType<'a>>)
    ensures { use_tree ty.new ≡ record { index = (use_tree ty.old).index; inline = option_map (sig_changed (C.change change.now)) (use_tree ty.old).inline } }
{
    if let Some(signature) = &mut ty.inline {
        change_function_type(change, signature);
    }
}

impl<'a, C: Changing<'a>> Each<Param<'a>> for ByChange<'_, C> {
    ghost Tree = { spec.Local Name ℕ };

    ghost tree = { param_tree };

    ghost turned = { λ b. local_changed (C.change b.change.now) };

    fn turn(&self, item: &mut Param<'a>) {
        change_val_type(self.change, &mut item.2);
    }
}

impl<'a, C: Changing<'a>> Each<StructField<'a>> for ByChange<'_, C> {
    ghost Tree = { spec.StructField Name ℕ };

    ghost tree = { struct_field_tree };

    ghost turned = { λ b f. record { id = f.id; field_type = field_type_changed (C.change b.change.now) f.field_type } };

    fn turn(&self, item: &mut StructField<'a>) {
        change_storage_type(self.change, &mut item.ty);
    }
}

impl<'a, C: Changing<'a>> Each<TypeItem<'a>> for ByChange<'_, C> {
    ghost Tree = { spec.TypeItem Name ℕ };

    ghost tree = { item_tree };

    ghost turned = { λ b. type_changed (C.change b.change.now) };

    fn turn(&self, item: &mut TypeItem<'a>) {
        change_type_item(self.change, item);
    }
}
