//! Types of values, heaps, tables and globals.
ghost use Rattle.std.specs.Prelude.{◌≡◌, ℕ, map};
ghost use Rattle.wast_grammar.specs.Tokens.{Name};
ghost use Rattle.wast_value_types.specs.ValueTree as spec;
ghost use Rattle.wast_value_types.specs.ValueViews.{heap_tree, ref_tree, val_tree, storage_tree, table_tree, global_tree};
ghost use Rattle.wast_meaning.specs.Changed.{heap_changed, ref_changed, val_changed, storage_changed, table_type_changed, global_type_changed};

use crate::changing::Changing;
use crate::list::{ByChange, Each, turn_list};
use wast_meaning::Space;
use wast_value_types::{GlobalType, HeapType, RefType, StorageType, TableType, ValType};

/// A heap type (6.4.2).
pub(crate) fn change_heap_type<'a, C: Changing<'a>>(change: &C, ty: &mut HeapType<'a>)
    ensures { heap_tree ty.new ≡ heap_changed (C.change change.now) (heap_tree ty.old) }
{
    match ty {
        HeapType::Abstract { .. } => {}
        HeapType::Concrete(index) => change.index(Space::Types, index),
        HeapType::Exact(index) => change.index(Space::Types, index),
    }
}

/// A reference type (6.4.3).
pub fn change_ref_type<'a, C: Changing<'a>>(change: &C, ty: &mut RefType<'a>)
    ensures { ref_tree ty.new ≡ ref_changed (C.change change.now) (ref_tree ty.old) }
{
    change_heap_type(change, &mut ty.heap);
}

/// A value type (6.4.4).
pub fn change_val_type<'a, C: Changing<'a>>(change: &C, ty: &mut ValType<'a>)
    ensures { val_tree ty.new ≡ val_changed (C.change change.now) (val_tree ty.old) }
{
    if let ValType::Ref(ty) = ty {
        change_ref_type(change, ty);
    }
}

/// A storage type (6.4.6).
pub(crate) fn change_storage_type<'a, C: Changing<'a>>(change: &C, ty: &mut StorageType<'a>)
    ensures { storage_tree ty.new ≡ storage_changed (C.change change.now) (storage_tree ty.old) }
{
    if let StorageType::Val(ty) = ty {
        change_val_type(change, ty);
    }
}

/// A table type (6.4.12).
pub fn change_table_type<'a, C: Changing<'a>>(change: &C, ty: &mut TableType<'a>)
    ensures { table_tree ty.new ≡ table_type_changed (C.change change.now) (table_tree ty.old) }
{
    change_ref_type(change, &mut ty.elem);
}

/// A global type (6.4.10).
pub fn change_global_type<'a, C: Changing<'a>>(change: &C, ty: &mut GlobalType<'a>)
    ensures { global_tree ty.new ≡ global_type_changed (C.change change.now) (global_tree ty.old) }
{
    change_val_type(change, &mut ty.ty);
}

/// Value types, one by one.
pub(crate) fn change_val_types<'a, C: Changing<'a>>(change: &C, types: &mut [ValType<'a>])
    ensures { map val_tree types.new ≡ map (val_changed (C.change change.now)) (map val_tree types.old) }
{
    turn_list(&ByChange { change }, types);
}

impl<'a, C: Changing<'a>> Each<ValType<'a>> for ByChange<'_, C> {
    ghost Tree = { spec.ValType Name ℕ };

    ghost tree = { val_tree };

    ghost turned = { λ b. val_changed (C.change b.change.now) };

    fn turn(&self, item: &mut ValType<'a>) {
        change_val_type(self.change, item);
    }
}
