use crate::operand::Cast;
use wasm_encoder_base::{Encode, EncodeError, HeapType, RefType, encode_both};
use wasm_encoder_opcodes::Prefixed;

/// References, structures and arrays, with their operands (5.4): opcodes D0 to D6 and FB.
#[derive(Clone, Copy, Debug)]
pub enum GcOp {
    RefNull(HeapType),
    RefIsNull,
    RefFunc(u32),
    RefEq,
    RefAsNonNull,
    BrOnNull(u32),
    BrOnNonNull(u32),
    StructNew(u32),
    StructNewDefault(u32),
    StructGet {
        struct_type_index: u32,
        field_index: u32,
    },
    StructGetS {
        struct_type_index: u32,
        field_index: u32,
    },
    StructGetU {
        struct_type_index: u32,
        field_index: u32,
    },
    StructSet {
        struct_type_index: u32,
        field_index: u32,
    },
    ArrayNew(u32),
    ArrayNewDefault(u32),
    ArrayNewFixed {
        array_type_index: u32,
        array_size: u32,
    },
    ArrayNewData {
        array_type_index: u32,
        array_data_index: u32,
    },
    ArrayNewElem {
        array_type_index: u32,
        array_elem_index: u32,
    },
    ArrayGet(u32),
    ArrayGetS(u32),
    ArrayGetU(u32),
    ArraySet(u32),
    ArrayLen,
    ArrayFill(u32),
    ArrayCopy {
        array_type_index_dst: u32,
        array_type_index_src: u32,
    },
    ArrayInitData {
        array_type_index: u32,
        array_data_index: u32,
    },
    ArrayInitElem {
        array_type_index: u32,
        array_elem_index: u32,
    },
    RefTestNonNull(HeapType),
    RefTestNullable(HeapType),
    RefCastNonNull(HeapType),
    RefCastNullable(HeapType),
    BrOnCast {
        relative_depth: u32,
        from_ref_type: RefType,
        to_ref_type: RefType,
    },
    BrOnCastFail {
        relative_depth: u32,
        from_ref_type: RefType,
        to_ref_type: RefType,
    },
    AnyConvertExtern,
    ExternConvertAny,
    RefI31,
    I31GetS,
    I31GetU,
}

/// The opcode and the operands.
impl Encode for GcOp {
    ghost use Rattle.wasm_encoder_base.specs.Instr.{instr_bytes};
    ghost use Rattle.wasm_encoder_instr.specs.Gc.{gc_view};

    ghost can_encode = { λ _. Unit {0} };

    ghost fits = { λ _. Unit {0} };

    ghost spelling = { λ op. instr_bytes (gc_view op) };

    fn encode(&self, sink: &mut Vec<u8>) -> Result<(), EncodeError> {
        match self {
            GcOp::RefNull(heap_type) => encode_both(&0xD0u8, heap_type, sink),
            GcOp::RefIsNull => 0xD1u8.encode(sink),
            GcOp::RefFunc(index) => encode_both(&0xD2u8, index, sink),
            GcOp::RefEq => 0xD3u8.encode(sink),
            GcOp::RefAsNonNull => 0xD4u8.encode(sink),
            GcOp::BrOnNull(index) => encode_both(&0xD5u8, index, sink),
            GcOp::BrOnNonNull(index) => encode_both(&0xD6u8, index, sink),
            GcOp::StructNew(index) => encode_both(&Prefixed(0xFB, 0), index, sink),
            GcOp::StructNewDefault(index) => encode_both(&Prefixed(0xFB, 1), index, sink),
            GcOp::StructGet {
                struct_type_index,
                field_index,
            } => encode_both(&Prefixed(0xFB, 2), &(struct_type_index, field_index), sink),
            GcOp::StructGetS {
                struct_type_index,
                field_index,
            } => encode_both(&Prefixed(0xFB, 3), &(struct_type_index, field_index), sink),
            GcOp::StructGetU {
                struct_type_index,
                field_index,
            } => encode_both(&Prefixed(0xFB, 4), &(struct_type_index, field_index), sink),
            GcOp::StructSet {
                struct_type_index,
                field_index,
            } => encode_both(&Prefixed(0xFB, 5), &(struct_type_index, field_index), sink),
            GcOp::ArrayNew(index) => encode_both(&Prefixed(0xFB, 6), index, sink),
            GcOp::ArrayNewDefault(index) => encode_both(&Prefixed(0xFB, 7), index, sink),
            GcOp::ArrayNewFixed {
                array_type_index,
                array_size,
            } => encode_both(&Prefixed(0xFB, 8), &(array_type_index, array_size), sink),
            GcOp::ArrayNewData {
                array_type_index,
                array_data_index,
            } => encode_both(
                &Prefixed(0xFB, 9),
                &(array_type_index, array_data_index),
                sink,
            ),
            GcOp::ArrayNewElem {
                array_type_index,
                array_elem_index,
            } => encode_both(
                &Prefixed(0xFB, 10),
                &(array_type_index, array_elem_index),
                sink,
            ),
            GcOp::ArrayGet(index) => encode_both(&Prefixed(0xFB, 11), index, sink),
            GcOp::ArrayGetS(index) => encode_both(&Prefixed(0xFB, 12), index, sink),
            GcOp::ArrayGetU(index) => encode_both(&Prefixed(0xFB, 13), index, sink),
            GcOp::ArraySet(index) => encode_both(&Prefixed(0xFB, 14), index, sink),
            GcOp::ArrayLen => Prefixed(0xFB, 15).encode(sink),
            GcOp::ArrayFill(index) => encode_both(&Prefixed(0xFB, 16), index, sink),
            GcOp::ArrayCopy {
                array_type_index_dst,
                array_type_index_src,
            } => encode_both(
                &Prefixed(0xFB, 17),
                &(array_type_index_dst, array_type_index_src),
                sink,
            ),
            GcOp::ArrayInitData {
                array_type_index,
                array_data_index,
            } => encode_both(
                &Prefixed(0xFB, 18),
                &(array_type_index, array_data_index),
                sink,
            ),
            GcOp::ArrayInitElem {
                array_type_index,
                array_elem_index,
            } => encode_both(
                &Prefixed(0xFB, 19),
                &(array_type_index, array_elem_index),
                sink,
            ),
            GcOp::RefTestNonNull(heap_type) => encode_both(&Prefixed(0xFB, 20), heap_type, sink),
            GcOp::RefTestNullable(heap_type) => encode_both(&Prefixed(0xFB, 21), heap_type, sink),
            GcOp::RefCastNonNull(heap_type) => encode_both(&Prefixed(0xFB, 22), heap_type, sink),
            GcOp::RefCastNullable(heap_type) => encode_both(&Prefixed(0xFB, 23), heap_type, sink),
            GcOp::BrOnCast {
                relative_depth,
                from_ref_type,
                to_ref_type,
            } => encode_both(
                &Prefixed(0xFB, 24),
                &Cast {
                    label: *relative_depth,
                    source: *from_ref_type,
                    target: *to_ref_type,
                },
                sink,
            ),
            GcOp::BrOnCastFail {
                relative_depth,
                from_ref_type,
                to_ref_type,
            } => encode_both(
                &Prefixed(0xFB, 25),
                &Cast {
                    label: *relative_depth,
                    source: *from_ref_type,
                    target: *to_ref_type,
                },
                sink,
            ),
            GcOp::AnyConvertExtern => Prefixed(0xFB, 26).encode(sink),
            GcOp::ExternConvertAny => Prefixed(0xFB, 27).encode(sink),
            GcOp::RefI31 => Prefixed(0xFB, 28).encode(sink),
            GcOp::I31GetS => Prefixed(0xFB, 29).encode(sink),
            GcOp::I31GetU => Prefixed(0xFB, 30).encode(sink),
        }
    }
}
