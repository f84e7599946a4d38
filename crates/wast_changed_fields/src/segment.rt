//! Element and data segments.
ghost use Rattle.std.specs.Prelude.{◌≡◌, OnOk};
ghost use Rattle.wast_module_fields.specs.MemoryViews.{data_tree};
ghost use Rattle.wast_module_fields.specs.MemoryViews.{mode_tree as data_mode_tree};
ghost use Rattle.wast_module_fields.specs.ElemViews.{elem_tree, elements_tree, mode_tree};
ghost use Rattle.wast_meaning.specs.Changed.{data_mode_changed, elem_mode_changed, elements_changed};
ghost use Rattle.wast_changed.specs.Rewritten.{together};

use crate::expression::change_constants;
use std::alloc::{AllocError, Global};
use wast_changed::{Rewriting, change_indices, change_optional, change_ref_type};
use wast_meaning::Space;
use wast_module_fields::{Data, DataKind, Elem, ElemKind, ElemPayload};

/// An element segment (6.6, element segments). Fails only for want of memory.
pub(crate) fn change_elem<'a, R: Rewriting<'a>>(
    alloc: Global,
    rewriting: &R,
    elem: &mut Elem<'a>,
) -> Result<(), AllocError>
    ensures { OnOk result (elem_tree elem.new ≡ record (elem_tree elem.old) { mode = elem_mode_changed (together (R.change rewriting.now) (R.in_constant rewriting.now) (R.in_function rewriting.now)) (elem_tree elem.old).mode; elements = elements_changed (together (R.change rewriting.now) (R.in_constant rewriting.now) (R.in_function rewriting.now)) (elem_tree elem.old).elements }) }
{
    change_elem_mode(alloc, rewriting, &mut elem.kind)?;
    change_elements(alloc, rewriting, &mut elem.payload)
}

/// When its elements are copied.
fn change_elem_mode<'a, R: Rewriting<'a>>(
    alloc: Global,
    rewriting: &R,
    mode: &mut ElemKind<'a>,
) -> Result<(), AllocError>
    ensures { OnOk result (mode_tree mode.new ≡ elem_mode_changed (together (R.change rewriting.now) (R.in_constant rewriting.now) (R.in_function rewriting.now)) (mode_tree mode.old)) }
{
    if let ElemKind::Active { table, .. } = mode {
        change_optional(rewriting, Space::Tables, table);
    }
    match mode {
        ElemKind::Passive => Ok(()),
        ElemKind::Declared => Ok(()),
        ElemKind::Active { offset, .. } => rewriting.constant(alloc, offset),
    }
}

/// Its elements. Fails only for want of memory.
pub(crate) fn change_elements<'a, R: Rewriting<'a>>(
    alloc: Global,
    rewriting: &R,
    elements: &mut ElemPayload<'a>,
) -> Result<(), AllocError>
    ensures { OnOk result (elements_tree elements.new ≡ elements_changed (together (R.change rewriting.now) (R.in_constant rewriting.now) (R.in_function rewriting.now)) (elements_tree elements.old)) }
{
    match elements {
        ElemPayload::Indices(indices) => change_indices(rewriting, Space::Functions, indices),
        ElemPayload::Exprs { ty, .. } => change_ref_type(rewriting, ty),
    }
    match elements {
        ElemPayload::Indices(_) => Ok(()),
        ElemPayload::Exprs { exprs, .. } => change_constants(alloc, rewriting, exprs),
    }
}

/// A data segment (6.6, data segments). Fails only for want of memory.
pub(crate) fn change_data<'a, R: Rewriting<'a>>(
    alloc: Global,
    rewriting: &R,
    segment: &mut Data<'a>,
) -> Result<(), AllocError>
    ensures { OnOk result (data_tree segment.new ≡ record (data_tree segment.old) { mode = data_mode_changed (together (R.change rewriting.now) (R.in_constant rewriting.now) (R.in_function rewriting.now)) (data_tree segment.old).mode }) }
{
    change_data_mode(alloc, rewriting, &mut segment.kind)
}

/// When it is copied.
fn change_data_mode<'a, R: Rewriting<'a>>(
    alloc: Global,
    rewriting: &R,
    mode: &mut DataKind<'a>,
) -> Result<(), AllocError>
    ensures { OnOk result (data_mode_tree mode.new ≡ data_mode_changed (together (R.change rewriting.now) (R.in_constant rewriting.now) (R.in_function rewriting.now)) (data_mode_tree mode.old)) }
{
    if let DataKind::Active { memory, .. } = mode {
        change_optional(rewriting, Space::Memories, memory);
    }
    match mode {
        DataKind::Passive => Ok(()),
        DataKind::Active { offset, .. } => rewriting.constant(alloc, offset),
    }
}
