//! References, structures and arrays.
ghost use Rattle.std.specs.Prelude.{◌≡◌};
ghost use Rattle.wast_core_instr.specs.InstructionViews.{gc_operands};
ghost use Rattle.wast_core_instr.specs.WordViews.{gc_word};
ghost use Rattle.wast_meaning.specs.Changed.{operands_changed};
ghost use Rattle.wast_changed.specs.Rows.{row_of};

use crate::changing::Changing;
use crate::operands::{change_struct_access, change_type_and_index};
use crate::typed_operands::change_cast;
use crate::value_types::{change_heap_type, change_ref_type};
use wast_core_instr::GcOp;
use wast_meaning::Space;

/// An instruction on references, structures or arrays (6.5, reference and aggregate instructions).
#[tactic(auto, using(crate::proofs::Rows::index_row, crate::proofs::Rows::indices_row, crate::proofs::Rows::fixed_row))]
pub(crate) fn change_gc<'a, C: Changing<'a>>(change: &C, op: &mut GcOp<'a>)
    ensures word { gc_word op.new ≡ gc_word op.old }
    ensures operands { gc_operands op.new ≡ operands_changed (C.change change.now) (row_of (gc_word op.old)) (gc_operands op.old) }
{
    match op {
        GcOp::RefIsNull
        | GcOp::RefEq
        | GcOp::RefAsNonNull
        | GcOp::ArrayLen
        | GcOp::AnyConvertExtern
        | GcOp::ExternConvertAny
        | GcOp::RefI31
        | GcOp::I31GetS
        | GcOp::I31GetU => {}
        GcOp::RefFunc(index) => change.index(Space::Functions, index),
        GcOp::BrOnNull(index) => change.index(Space::Labels, index),
        GcOp::BrOnNonNull(index) => change.index(Space::Labels, index),
        GcOp::StructNew(index) => change.index(Space::Types, index),
        GcOp::StructNewDefault(index) => change.index(Space::Types, index),
        GcOp::ArrayNew(index) => change.index(Space::Types, index),
        GcOp::ArrayNewDefault(index) => change.index(Space::Types, index),
        GcOp::ArrayGet(index) => change.index(Space::Types, index),
        GcOp::ArrayGetS(index) => change.index(Space::Types, index),
        GcOp::ArrayGetU(index) => change.index(Space::Types, index),
        GcOp::ArraySet(index) => change.index(Space::Types, index),
        GcOp::ArrayFill(fill) => change.index(Space::Types, &mut fill.array),
        GcOp::StructGet(access) => change_struct_access(change, access.as_mut()),
        GcOp::StructGetS(access) => change_struct_access(change, access.as_mut()),
        GcOp::StructGetU(access) => change_struct_access(change, access.as_mut()),
        GcOp::StructSet(access) => change_struct_access(change, access.as_mut()),
        GcOp::ArrayNewData(new) => {
            let new = new.as_mut();
            change_type_and_index(change, &mut new.array, Space::Datas, &mut new.data_idx)
        }
        GcOp::ArrayNewElem(new) => {
            let new = new.as_mut();
            change_type_and_index(change, &mut new.array, Space::Elems, &mut new.elem_idx)
        }
        GcOp::ArrayCopy(copy) => {
            let copy = copy.as_mut();
            change_type_and_index(
                change,
                &mut copy.dest_array,
                Space::Types,
                &mut copy.src_array,
            )
        }
        GcOp::ArrayInitData(init) => {
            let init = init.as_mut();
            change_type_and_index(change, &mut init.array, Space::Datas, &mut init.segment)
        }
        GcOp::ArrayInitElem(init) => {
            let init = init.as_mut();
            change_type_and_index(change, &mut init.array, Space::Elems, &mut init.segment)
        }
        GcOp::ArrayNewFixed(new) => change.index(Space::Types, &mut new.as_mut().array),
        GcOp::RefNull(ty) => change_heap_type(change, ty.as_mut()),
        GcOp::RefTest(test) => change_ref_type(change, &mut test.as_mut().ty),
        GcOp::RefCast(cast) => change_ref_type(change, &mut cast.as_mut().ty),
        GcOp::BrOnCast(cast) => {
            let cast = cast.as_mut();
            change_cast(
                change,
                &mut cast.label,
                &mut cast.from_type,
                &mut cast.to_type,
            )
        }
        GcOp::BrOnCastFail(cast) => {
            let cast = cast.as_mut();
            change_cast(
                change,
                &mut cast.label,
                &mut cast.from_type,
                &mut cast.to_type,
            )
        }
    }
}
