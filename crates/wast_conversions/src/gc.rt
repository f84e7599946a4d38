//! Instructions on references, structures and arrays.
ghost use Rattle.std.specs.Prelude.{◌≡◌, false, [], codes};
ghost use Rattle.wasm_encoder_base.specs.Instr as binary;
ghost use Rattle.wasm_encoder_base.specs.Instr.{in_range};
ghost use Rattle.wasm_encoder_instr.specs.Gc.{gc_mnemonic, gc_view};
ghost use Rattle.wasm_layout.specs.IsModule.{IsU32};
ghost use Rattle.wast_parser.specs.Identifiers.{index_tree};
ghost use Rattle.wast_value_types.specs.ValueViews.{ref_tree};
ghost use Rattle.wast_typed_operands.specs.TypedViews.{cast_tree};
ghost use Rattle.wast_mnemonics.specs.Mnemonics.{word_mnemonic};
ghost use Rattle.wast_core_instr.specs.InstructionTree as instr;
ghost use Rattle.wast_core_instr.specs.InstructionTree.{choose_second};
ghost use Rattle.wast_core_instr.specs.InstructionViews.{gc_operands};
ghost use Rattle.wast_core_instr.specs.WordViews.{gc_word};
ghost use Rattle.wast_conversions.specs.Types.{number_of, heap_meant, ref_meant};
ghost use Rattle.wast_conversions.specs.Operands.{operands_meant};
ghost use Rattle.wast_conversions.specs.Resolved.{RefResolved, OperandsResolved};
ghost use Rattle.wast_conversions.specs.Covered.{ref_forms, operand_forms};
ghost use Rattle.wast_conversions.specs.Rows.{row_of, GcChosen};

use crate::indices::index;
use crate::operands::array_fill;
use crate::types::{heap_type, ref_type};
use wast_core_instr::GcOp;
use wast_operands::ArrayNewFixed;
use wast_typed_operands::{BrOnCast, BrOnCastFail};
use wast_value_types::RefType;

/// An instruction on references, structures or arrays (6.5, reference and aggregate instructions).
pub(crate) fn gc(op: &GcOp<'_>) -> wasm_encoder_instr::GcOp
    requires resolved { OperandsResolved (gc_operands op.now) }
    requires covered { operand_forms (gc_operands op.now) ≡ [] }
    ensures mnemonic { gc_mnemonic result ≡ word_mnemonic (gc_word op.now) }
    ensures chosen { GcChosen result (choose_second (gc_operands op.now)) }
    ensures operands { (gc_view result).operands ≡ operands_meant (row_of (gc_word op.now)) (gc_operands op.now) }
    ensures sound { in_range (operands_meant (row_of (gc_word op.now)) (gc_operands op.now)) }
{
    match op {
        GcOp::RefIsNull => wasm_encoder_instr::GcOp::RefIsNull,
        GcOp::RefEq => wasm_encoder_instr::GcOp::RefEq,
        GcOp::RefAsNonNull => wasm_encoder_instr::GcOp::RefAsNonNull,
        GcOp::ArrayLen => wasm_encoder_instr::GcOp::ArrayLen,
        GcOp::AnyConvertExtern => wasm_encoder_instr::GcOp::AnyConvertExtern,
        GcOp::ExternConvertAny => wasm_encoder_instr::GcOp::ExternConvertAny,
        GcOp::RefI31 => wasm_encoder_instr::GcOp::RefI31,
        GcOp::I31GetS => wasm_encoder_instr::GcOp::I31GetS,
        GcOp::I31GetU => wasm_encoder_instr::GcOp::I31GetU,
        GcOp::RefFunc(number) => wasm_encoder_instr::GcOp::RefFunc(index(number)),
        GcOp::BrOnNull(number) => wasm_encoder_instr::GcOp::BrOnNull(index(number)),
        GcOp::BrOnNonNull(number) => wasm_encoder_instr::GcOp::BrOnNonNull(index(number)),
        GcOp::StructNew(number) => wasm_encoder_instr::GcOp::StructNew(index(number)),
        GcOp::StructNewDefault(number) => wasm_encoder_instr::GcOp::StructNewDefault(index(number)),
        GcOp::ArrayNew(number) => wasm_encoder_instr::GcOp::ArrayNew(index(number)),
        GcOp::ArrayNewDefault(number) => wasm_encoder_instr::GcOp::ArrayNewDefault(index(number)),
        GcOp::ArrayGet(number) => wasm_encoder_instr::GcOp::ArrayGet(index(number)),
        GcOp::ArrayGetS(number) => wasm_encoder_instr::GcOp::ArrayGetS(index(number)),
        GcOp::ArrayGetU(number) => wasm_encoder_instr::GcOp::ArrayGetU(index(number)),
        GcOp::ArraySet(number) => wasm_encoder_instr::GcOp::ArraySet(index(number)),
        GcOp::ArrayFill(fill) => wasm_encoder_instr::GcOp::ArrayFill(array_fill(fill)),
        GcOp::StructGet(access) => wasm_encoder_instr::GcOp::StructGet {
            struct_type_index: index(&access.struct_type),
            field_index: index(&access.field),
        },
        GcOp::StructGetS(access) => wasm_encoder_instr::GcOp::StructGetS {
            struct_type_index: index(&access.struct_type),
            field_index: index(&access.field),
        },
        GcOp::StructGetU(access) => wasm_encoder_instr::GcOp::StructGetU {
            struct_type_index: index(&access.struct_type),
            field_index: index(&access.field),
        },
        GcOp::StructSet(access) => wasm_encoder_instr::GcOp::StructSet {
            struct_type_index: index(&access.struct_type),
            field_index: index(&access.field),
        },
        GcOp::ArrayNewFixed(new) => wasm_encoder_instr::GcOp::ArrayNewFixed {
            array_type_index: index(&new.array),
            array_size: fixed_length(new),
        },
        GcOp::ArrayNewData(new) => wasm_encoder_instr::GcOp::ArrayNewData {
            array_type_index: index(&new.array),
            array_data_index: index(&new.data_idx),
        },
        GcOp::ArrayNewElem(new) => wasm_encoder_instr::GcOp::ArrayNewElem {
            array_type_index: index(&new.array),
            array_elem_index: index(&new.elem_idx),
        },
        GcOp::ArrayCopy(copy) => wasm_encoder_instr::GcOp::ArrayCopy {
            array_type_index_dst: index(&copy.dest_array),
            array_type_index_src: index(&copy.src_array),
        },
        GcOp::ArrayInitData(init) => wasm_encoder_instr::GcOp::ArrayInitData {
            array_type_index: index(&init.array),
            array_data_index: index(&init.segment),
        },
        GcOp::ArrayInitElem(init) => wasm_encoder_instr::GcOp::ArrayInitElem {
            array_type_index: index(&init.array),
            array_elem_index: index(&init.segment),
        },
        GcOp::RefNull(ty) => wasm_encoder_instr::GcOp::RefNull(heap_type(ty)),
        GcOp::RefTest(test) => ref_test(&test.ty),
        GcOp::RefCast(cast) => ref_cast(&cast.ty),
        GcOp::BrOnCast(cast) => br_on_cast(cast),
        GcOp::BrOnCastFail(cast) => br_on_cast_fail(cast),
    }
}

/// How many elements an array is made of.
fn fixed_length(new: &ArrayNewFixed<'_>) -> u32
    ensures same { result ≡ new.now.length }
    ensures sound { IsU32 new.now.length }
{
    new.length
}

/// `ref.test`, of which there are two.
fn ref_test(ty: &RefType<'_>) -> wasm_encoder_instr::GcOp
    requires resolved { RefResolved (ref_tree ty.now) }
    requires covered { ref_forms (ref_tree ty.now) ≡ [] }
    ensures mnemonic { gc_mnemonic result ≡ codes "ref.test" }
    ensures chosen { GcChosen result ty.now.nullable }
    ensures operands { (gc_view result).operands ≡ binary.Heap (heap_meant (ref_tree ty.now).heap_type) }
    ensures sound { in_range (binary.Heap (heap_meant (ref_tree ty.now).heap_type)) }
{
    let heap_type = heap_type(&ty.heap);
    if ty.nullable {
        wasm_encoder_instr::GcOp::RefTestNullable(heap_type)
    } else {
        wasm_encoder_instr::GcOp::RefTestNonNull(heap_type)
    }
}

/// `ref.cast`, of which there are two.
fn ref_cast(ty: &RefType<'_>) -> wasm_encoder_instr::GcOp
    requires resolved { RefResolved (ref_tree ty.now) }
    requires covered { ref_forms (ref_tree ty.now) ≡ [] }
    ensures mnemonic { gc_mnemonic result ≡ codes "ref.cast" }
    ensures chosen { GcChosen result ty.now.nullable }
    ensures operands { (gc_view result).operands ≡ binary.Heap (heap_meant (ref_tree ty.now).heap_type) }
    ensures sound { in_range (binary.Heap (heap_meant (ref_tree ty.now).heap_type)) }
{
    let heap_type = heap_type(&ty.heap);
    if ty.nullable {
        wasm_encoder_instr::GcOp::RefCastNullable(heap_type)
    } else {
        wasm_encoder_instr::GcOp::RefCastNonNull(heap_type)
    }
}

/// `br_on_cast`.
#[tactic(auto, using(crate::proofs::Empty::front, crate::proofs::Empty::back))]
fn br_on_cast(cast: &BrOnCast<'_>) -> wasm_encoder_instr::GcOp
    requires resolved { OperandsResolved (instr.Cast (cast_tree cast.now.label cast.now.from_type cast.now.to_type)) }
    requires covered { operand_forms (instr.Cast (cast_tree cast.now.label cast.now.from_type cast.now.to_type)) ≡ [] }
    ensures mnemonic { gc_mnemonic result ≡ codes "br_on_cast" }
    ensures chosen { GcChosen result false }
    ensures operands { (gc_view result).operands ≡ binary.Cast (number_of (index_tree cast.now.label)) (ref_meant (ref_tree cast.now.from_type)) (ref_meant (ref_tree cast.now.to_type)) }
    ensures sound { in_range (binary.Cast (number_of (index_tree cast.now.label)) (ref_meant (ref_tree cast.now.from_type)) (ref_meant (ref_tree cast.now.to_type))) }
{
    wasm_encoder_instr::GcOp::BrOnCast {
        relative_depth: index(&cast.label),
        from_ref_type: ref_type(&cast.from_type),
        to_ref_type: ref_type(&cast.to_type),
    }
}

/// `br_on_cast_fail`.
#[tactic(auto, using(crate::proofs::Empty::front, crate::proofs::Empty::back))]
fn br_on_cast_fail(cast: &BrOnCastFail<'_>) -> wasm_encoder_instr::GcOp
    requires resolved { OperandsResolved (instr.Cast (cast_tree cast.now.label cast.now.from_type cast.now.to_type)) }
    requires covered { operand_forms (instr.Cast (cast_tree cast.now.label cast.now.from_type cast.now.to_type)) ≡ [] }
    ensures mnemonic { gc_mnemonic result ≡ codes "br_on_cast_fail" }
    ensures chosen { GcChosen result false }
    ensures operands { (gc_view result).operands ≡ binary.Cast (number_of (index_tree cast.now.label)) (ref_meant (ref_tree cast.now.from_type)) (ref_meant (ref_tree cast.now.to_type)) }
    ensures sound { in_range (binary.Cast (number_of (index_tree cast.now.label)) (ref_meant (ref_tree cast.now.from_type)) (ref_meant (ref_tree cast.now.to_type))) }
{
    wasm_encoder_instr::GcOp::BrOnCastFail {
        relative_depth: index(&cast.label),
        from_ref_type: ref_type(&cast.from_type),
        to_ref_type: ref_type(&cast.to_type),
    }
}
