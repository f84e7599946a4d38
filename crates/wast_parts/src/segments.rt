//! Segments.
ghost use Rattle.std.specs.Prelude.{◌++◌};
ghost use Rattle.wast_module_fields.specs.MemoryViews.{data_tree};
ghost use Rattle.wast_module_fields.specs.ElemViews.{elem_tree, elements_tree, mode_tree};
ghost use Rattle.wast_meaning.specs.Mentions.{data_mode_parts, elem_mode_parts, elements_parts};
ghost use Rattle.wast_mentions.specs.Judging.{Judged};

use crate::constants::{tell_constants, tell_offset};
use crate::judge::{PartJudge, PartJudgement};
use crate::said::{tell_functions, tell_ref_type};
use wast_meaning::Space;
use wast_module_fields::{Data, DataKind, Elem, ElemKind, ElemPayload};

/// Tells of an element segment: its table and offset, where it is active, then its elements.
pub(crate) fn tell_elem<'a, J: PartJudge<'a>>(elem: &Elem<'a>, judge: &J) -> Result<(), J::Fault>
    ensures { Judged (J.asks judge.now) J.holds J.tells result (elem_mode_parts (elem_tree elem.now).mode ++ elements_parts (elem_tree elem.now).elements) }
{
    tell_elem_kind(&elem.kind, judge)?;
    tell_elements(&elem.payload, judge)
}

/// Tells of the table and the offset of an element segment that is active.
fn tell_elem_kind<'a, J: PartJudge<'a>>(kind: &ElemKind<'a>, judge: &J) -> Result<(), J::Fault>
    ensures { Judged (J.asks judge.now) J.holds J.tells result (elem_mode_parts (mode_tree kind.now)) }
{
    match kind {
        ElemKind::Passive | ElemKind::Declared => Ok(()),
        ElemKind::Active { table, offset } => tell_offset(Space::Tables, table, offset, judge),
    }
}

/// Tells of elements: of expressions their type first.
pub(crate) fn tell_elements<'a, J: PartJudge<'a>>(
    elements: &ElemPayload<'a>,
    judge: &J,
) -> Result<(), J::Fault>
    ensures { Judged (J.asks judge.now) J.holds J.tells result (elements_parts (elements_tree elements.now)) }
{
    match elements {
        ElemPayload::Indices(indices) => tell_functions(indices, judge),
        ElemPayload::Exprs { ty, exprs } => {
            tell_ref_type(ty, judge)?;
            tell_constants(exprs, judge)
        }
    }
}

/// Tells of a data segment: its memory and offset, where it is active.
pub(crate) fn tell_data<'a, J: PartJudge<'a>>(segment: &Data<'a>, judge: &J) -> Result<(), J::Fault>
    ensures { Judged (J.asks judge.now) J.holds J.tells result (data_mode_parts (data_tree segment.now).mode) }
{
    match &segment.kind {
        DataKind::Passive => Ok(()),
        DataKind::Active { memory, offset } => tell_offset(Space::Memories, memory, offset, judge),
    }
}
