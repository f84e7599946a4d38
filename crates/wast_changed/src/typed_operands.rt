//! Operands in which types stand.
ghost use Rattle.std.specs.Prelude.{◌≡◌, ℕ, false, OnOk, IsOk, map, option_map};
ghost use Rattle.wast_grammar.specs.Tokens.{Name};
ghost use Rattle.wasm_encoder_base.specs.Table.{Labels, Tables};
ghost use Rattle.wast_parser.specs.Identifiers.{index_tree};
ghost use Rattle.wast_value_types.specs.ValueViews.{ref_tree};
ghost use Rattle.wast_signatures.specs.SignatureViews.{use_tree};
ghost use Rattle.wast_typed_operands.specs.TypedTree as spec;
ghost use Rattle.wast_typed_operands.specs.TypedViews.{block_tree, catch_tree, try_table_tree, indirect_tree, select_types_tree};
ghost use Rattle.wast_meaning.specs.Changed.{ref_changed, val_changed, sig_changed, use_changed, block_changed, catch_changed};
ghost use Rattle.wast_changed.specs.Memory.{block_may_take, use_may_take};

use crate::changing::{Changing, change_optional};
use crate::list::{ByChange, Each, turn_list};
use crate::types::{change_inline, change_type_use};
use crate::value_types::{change_ref_type, change_val_types};
use std::alloc::AllocError;
use wast_meaning::Space;
use wast_parser::Index;
use wast_signatures::{FunctionType, TypeUse};
use wast_typed_operands::{
    BlockType, CallIndirect, SelectTypes, TryTable, TryTableCatch, TryTableCatchKind,
};
use wast_value_types::RefType;

/// A block's label and type (6.5, control instructions). Fails only for want of memory, of which none is asked for a block with an index or
/// without a signature.
pub(crate) fn change_block_type<'a, C: Changing<'a>>(
    change: &C,
    block: &mut BlockType<'a>,
) -> Result<(), AllocError>
    ensures changed { OnOk result (block_tree block.new ≡ block_changed (C.change change.now) (block_tree block.old)) }
    ensures unasked { block_may_take block.old.ty ≡ false → IsOk result }
{
    change_block_use(change, &mut block.ty)
}

/// A type use in a block (6.5, control instructions). Fails only for want of memory.
fn change_block_use<'a, C: Changing<'a>>(
    change: &C,
    ty: &mut TypeUse<'a, FunctionType<'a>>,
) -> Result<(), AllocError>
    ensures changed { OnOk result (use_tree ty.new ≡ record { index = (C.change change.now).block_use (use_tree ty.old); inline = option_map (sig_changed (C.change change.now)) (use_tree ty.old).inline }) }
    ensures unasked { block_may_take ty.old ≡ false → IsOk result }
{
    change.block_use(&mut ty.index, ty.inline.as_ref())?;
    change_inline(change, ty);
    Ok(())
}

/// A clause of `try_table` (6.5, control instructions).
pub(crate) fn change_catch<'a, C: Changing<'a>>(change: &C, clause: &mut TryTableCatch<'a>)
    ensures { catch_tree clause.new ≡ catch_changed (C.change change.now) (catch_tree clause.old) }
{
    change.index(Space::Labels, &mut clause.label);
    match &mut clause.kind {
        TryTableCatchKind::Catch(tag) => change.index(Space::Tags, tag),
        TryTableCatchKind::CatchRef(tag) => change.index(Space::Tags, tag),
        TryTableCatchKind::CatchAll | TryTableCatchKind::CatchAllRef => {}
    }
}

/// What stands behind `try_table` (6.5, control instructions). Fails only for want of memory, of which none is asked for a block with an
/// index or without a signature.
pub(crate) fn change_try_table<'a, C: Changing<'a>>(
    change: &C,
    table: &mut TryTable<'a>,
) -> Result<(), AllocError>
    ensures changed { OnOk result (try_table_tree table.new ≡ record { block = block_changed (C.change change.now) (try_table_tree table.old).block; catches = map (catch_changed (C.change change.now)) (try_table_tree table.old).catches }) }
    ensures unasked { block_may_take table.old.block.value.ty ≡ false → IsOk result }
{
    change_block_type(change, table.block.as_mut())?;
    turn_list(&ByChange { change }, &mut table.catches);
    Ok(())
}

/// What stands behind an indirect call (6.5, control instructions). Fails only for want of memory, of which none is asked for where its
/// type's index is written.
pub(crate) fn change_call_indirect<'a, C: Changing<'a>>(
    change: &C,
    call: &mut CallIndirect<'a>,
) -> Result<(), AllocError>
    ensures changed { OnOk result (indirect_tree call.new ≡ record { table = option_map ((C.change change.now).index Tables) (indirect_tree call.old).table; type_use = use_changed (C.change change.now) (indirect_tree call.old).type_use }) }
    ensures unasked { use_may_take call.old.ty ≡ false → IsOk result }
{
    change_optional(change, Space::Tables, &mut call.table);
    change_type_use(change, &mut call.ty)
}

/// A label and two reference types (6.5, control instructions).
pub(crate) fn change_cast<'a, C: Changing<'a>>(
    change: &C,
    label: &mut Index<'a>,
    from: &mut RefType<'a>,
    to: &mut RefType<'a>,
)
    ensures label { index_tree label.new ≡ (C.change change.now).index Labels (index_tree label.old) }
    ensures from { ref_tree from.new ≡ ref_changed (C.change change.now) (ref_tree from.old) }
    ensures to { ref_tree to.new ≡ ref_changed (C.change change.now) (ref_tree to.old) }
{
    change.index(Space::Labels, label);
    change_ref_type(change, from);
    change_ref_type(change, to);
}

/// The types of `select` (6.5, parametric instructions).
pub(crate) fn change_select_types<'a, C: Changing<'a>>(change: &C, types: &mut SelectTypes<'a>)
    ensures { select_types_tree types.new ≡ option_map (map (val_changed (C.change change.now))) (select_types_tree types.old) }
{
    if let Some(types) = &mut types.tys {
        change_val_types(change, types);
    }
}

impl<'a, C: Changing<'a>> Each<TryTableCatch<'a>> for ByChange<'_, C> {
    ghost Tree = { spec.Catch Name ℕ };

    ghost tree = { catch_tree };

    ghost turned = { λ b. catch_changed (C.change b.change.now) };

    fn turn(&self, item: &mut TryTableCatch<'a>) {
        change_catch(self.change, item);
    }
}
