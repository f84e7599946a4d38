//! The instructions with operands of their own.

use crate::row::{print_value, print_values};
use row_page::Page;
use wasm_encoder_base::{AbstractHeapType, HeapType, Ieee32, Ieee64, Items, RefType, ValType};
use wasm_encoder_code::{
    AccessOp, AtomicOp, AtomicRmwOp, BlockType, BulkOp, Catch, CompareOp, ConvertOp, GcOp,
    Instruction, MemArg, MemArgTarget, NumericOp, VectorArgOp, VectorFloatOp, VectorNarrowOp,
    VectorOp, VectorWideOp,
};

/// All of them.
pub fn print(page: &Page) {
    print_instructions(page, 0, 53);
    print_values(page, GC);
    print_values(page, BULK);
    print_values(page, LANES);
    print_vectors(page, VECTOR_MEMORY);
    print_value(page, &MEMARG);
    print_instructions(page, 53, 63);
}

/// The rows from the first of these up to the second.
fn print_instructions(page: &Page, first: u32, end: u32) {
    for row in first..end {
        print_instruction(page, &instruction(row));
    }
}

/// A row of the instruction.
fn print_instruction(page: &Page, instruction: &Instruction) {
    if instruction.can_encode() {
        print_value(page, instruction);
    } else {
        writeln!(page, "{instruction:?} can't be encoded");
    }
}

/// The instruction of a row.
fn instruction(row: u32) -> Instruction<'static> {
    if row < 21 {
        control(row)
    } else if row < 26 {
        legacy_exception(row)
    } else if row < 39 {
        parametric_or_variable(row)
    } else if row < 43 {
        constant(row)
    } else if row < 53 {
        family_member(row)
    } else {
        with_memory_argument(row)
    }
}

/// The instruction of a row of control.
fn control(row: u32) -> Instruction<'static> {
    match row {
        0 => Instruction::Unreachable,
        1 => Instruction::Nop,
        2 => Instruction::Block(BlockType::Empty),
        3 => Instruction::Loop(BlockType::Result(ValType::I32)),
        4 => Instruction::If(BlockType::FunctionType(64)),
        5 => Instruction::Block(BlockType::Result(ValType::Ref(RefType::EXNREF))),
        6 => Instruction::Else,
        7 => Instruction::Throw(5),
        8 => Instruction::ThrowRef,
        9 => Instruction::End,
        10 => Instruction::Br(5),
        11 => Instruction::BrIf(5),
        12 => Instruction::BrTable(Items::borrowed(&[1, 2]), 3),
        13 => Instruction::Return,
        14 => Instruction::Call(5),
        15 => Instruction::CallIndirect {
            type_index: 1,
            table_index: 2,
        },
        16 => Instruction::ReturnCall(5),
        17 => Instruction::ReturnCallIndirect {
            type_index: 1,
            table_index: 2,
        },
        18 => Instruction::CallRef(5),
        19 => Instruction::ReturnCallRef(5),
        _ => Instruction::TryTable(
            BlockType::FunctionType(7),
            Items::borrowed(&[
                Catch::One { tag: 1, label: 2 },
                Catch::OneRef { tag: 3, label: 4 },
                Catch::All { label: 5 },
                Catch::AllRef { label: 6 },
            ]),
        ),
    }
}

/// The exception instruction of a row, of the earlier proposal.
fn legacy_exception(row: u32) -> Instruction<'static> {
    match row {
        21 => Instruction::Try(BlockType::Empty),
        22 => Instruction::Catch(5),
        23 => Instruction::Rethrow(5),
        24 => Instruction::Delegate(5),
        _ => Instruction::CatchAll,
    }
}

/// The instruction of a row that is parametric, or of variables, tables or memories.
fn parametric_or_variable(row: u32) -> Instruction<'static> {
    match row {
        26 => Instruction::Drop,
        27 => Instruction::Select,
        28 => Instruction::TypedSelect(ValType::I32),
        29 => Instruction::TypedSelectMulti(Items::borrowed(&[
            ValType::I64,
            ValType::Ref(RefType::FUNCREF),
        ])),
        30 => Instruction::LocalGet(5),
        31 => Instruction::LocalSet(5),
        32 => Instruction::LocalTee(5),
        33 => Instruction::GlobalGet(5),
        34 => Instruction::GlobalSet(5),
        35 => Instruction::TableGet(5),
        36 => Instruction::TableSet(5),
        37 => Instruction::MemorySize(5),
        _ => Instruction::MemoryGrow(5),
    }
}

/// The constant of a row.
fn constant(row: u32) -> Instruction<'static> {
    match row {
        39 => Instruction::I32Const(-1),
        40 => Instruction::I64Const(64),
        41 => Instruction::F32Const(Ieee32::new(0x3f800001)),
        _ => Instruction::F64Const(Ieee64::new(0x3ff0000000000002)),
    }
}

/// The instruction of a row, one a family.
fn family_member(row: u32) -> Instruction<'static> {
    match row {
        43 => Instruction::Compare(CompareOp::F64Ge),
        44 => Instruction::Numeric(NumericOp::F32Abs),
        45 => Instruction::Convert(ConvertOp::I64MulWideU),
        46 => Instruction::Vector(VectorOp::V128AnyTrue),
        47 => Instruction::VectorNarrow(VectorNarrowOp::I16x8Abs),
        48 => Instruction::VectorWide(VectorWideOp::I64x2Sub),
        49 => Instruction::VectorFloat(VectorFloatOp::I8x16RelaxedSwizzle),
        50 => Instruction::Bulk(BulkOp::DataDrop(5)),
        51 => Instruction::Gc(GcOp::RefI31),
        _ => Instruction::VectorArg(VectorArgOp::I8x16ExtractLaneS(3)),
    }
}

const ANY: HeapType = HeapType::Abstract(AbstractHeapType::Any);

const EQUAL: HeapType = HeapType::Abstract(AbstractHeapType::Eq);

const GC: &[GcOp] = &[
    GcOp::RefNull(ANY),
    GcOp::RefIsNull,
    GcOp::RefFunc(5),
    GcOp::RefEq,
    GcOp::RefAsNonNull,
    GcOp::BrOnNull(5),
    GcOp::BrOnNonNull(5),
    GcOp::StructNew(5),
    GcOp::StructNewDefault(5),
    GcOp::StructGet {
        struct_type_index: 1,
        field_index: 2,
    },
    GcOp::StructGetS {
        struct_type_index: 1,
        field_index: 2,
    },
    GcOp::StructGetU {
        struct_type_index: 1,
        field_index: 2,
    },
    GcOp::StructSet {
        struct_type_index: 1,
        field_index: 2,
    },
    GcOp::ArrayNew(5),
    GcOp::ArrayNewDefault(5),
    GcOp::ArrayNewFixed {
        array_type_index: 1,
        array_size: 2,
    },
    GcOp::ArrayNewData {
        array_type_index: 1,
        array_data_index: 2,
    },
    GcOp::ArrayNewElem {
        array_type_index: 1,
        array_elem_index: 2,
    },
    GcOp::ArrayGet(5),
    GcOp::ArrayGetS(5),
    GcOp::ArrayGetU(5),
    GcOp::ArraySet(5),
    GcOp::ArrayLen,
    GcOp::ArrayFill(5),
    GcOp::ArrayCopy {
        array_type_index_dst: 1,
        array_type_index_src: 2,
    },
    GcOp::ArrayInitData {
        array_type_index: 1,
        array_data_index: 2,
    },
    GcOp::ArrayInitElem {
        array_type_index: 1,
        array_elem_index: 2,
    },
    GcOp::RefTestNonNull(HeapType::Concrete(64)),
    GcOp::RefTestNullable(ANY),
    GcOp::RefCastNonNull(ANY),
    GcOp::RefCastNullable(ANY),
    GcOp::BrOnCast {
        relative_depth: 1,
        from_ref_type: RefType {
            nullable: true,
            heap_type: ANY,
        },
        to_ref_type: RefType {
            nullable: false,
            heap_type: EQUAL,
        },
    },
    GcOp::BrOnCastFail {
        relative_depth: 1,
        from_ref_type: RefType {
            nullable: false,
            heap_type: EQUAL,
        },
        to_ref_type: RefType {
            nullable: true,
            heap_type: ANY,
        },
    },
    GcOp::AnyConvertExtern,
    GcOp::ExternConvertAny,
    GcOp::RefI31,
    GcOp::I31GetS,
    GcOp::I31GetU,
];

const BULK: &[BulkOp] = &[
    BulkOp::MemoryInit {
        mem: 1,
        data_index: 2,
    },
    BulkOp::DataDrop(5),
    BulkOp::MemoryCopy {
        src_mem: 2,
        dst_mem: 1,
    },
    BulkOp::MemoryFill(5),
    BulkOp::TableInit {
        elem_index: 2,
        table: 1,
    },
    BulkOp::ElemDrop(5),
    BulkOp::TableCopy {
        src_table: 2,
        dst_table: 1,
    },
    BulkOp::TableGrow(5),
    BulkOp::TableSize(5),
    BulkOp::TableFill(5),
];

const LANES: &[VectorArgOp] = &[
    VectorArgOp::V128Const(-2),
    VectorArgOp::V128Const(0x0100000000000000000000000000ff02),
    VectorArgOp::I8x16Shuffle([0, 1, 2, 3, 4, 5, 6, 7, 8, 9, 10, 11, 12, 13, 14, 31]),
    VectorArgOp::I8x16ExtractLaneS(3),
    VectorArgOp::I8x16ExtractLaneU(3),
    VectorArgOp::I8x16ReplaceLane(3),
    VectorArgOp::I16x8ExtractLaneS(3),
    VectorArgOp::I16x8ExtractLaneU(3),
    VectorArgOp::I16x8ReplaceLane(3),
    VectorArgOp::I32x4ExtractLane(3),
    VectorArgOp::I32x4ReplaceLane(3),
    VectorArgOp::I64x2ExtractLane(3),
    VectorArgOp::I64x2ReplaceLane(3),
    VectorArgOp::F32x4ExtractLane(3),
    VectorArgOp::F32x4ReplaceLane(3),
    VectorArgOp::F64x2ExtractLane(3),
    VectorArgOp::F64x2ReplaceLane(3),
];

const MEMARG: MemArg = MemArg {
    offset: 8,
    align: 2,
    target: MemArgTarget::Memory(1),
};

const VECTOR_MEMORY: &[VectorArgOp] = &[
    VectorArgOp::V128Load(MEMARG),
    VectorArgOp::V128Load8x8S(MEMARG),
    VectorArgOp::V128Load8x8U(MEMARG),
    VectorArgOp::V128Load16x4S(MEMARG),
    VectorArgOp::V128Load16x4U(MEMARG),
    VectorArgOp::V128Load32x2S(MEMARG),
    VectorArgOp::V128Load32x2U(MEMARG),
    VectorArgOp::V128Load8Splat(MEMARG),
    VectorArgOp::V128Load16Splat(MEMARG),
    VectorArgOp::V128Load32Splat(MEMARG),
    VectorArgOp::V128Load64Splat(MEMARG),
    VectorArgOp::V128Store(MEMARG),
    VectorArgOp::V128Load8Lane {
        memarg: MEMARG,
        lane: 3,
    },
    VectorArgOp::V128Load16Lane {
        memarg: MEMARG,
        lane: 3,
    },
    VectorArgOp::V128Load32Lane {
        memarg: MEMARG,
        lane: 3,
    },
    VectorArgOp::V128Load64Lane {
        memarg: MEMARG,
        lane: 3,
    },
    VectorArgOp::V128Store8Lane {
        memarg: MEMARG,
        lane: 3,
    },
    VectorArgOp::V128Store16Lane {
        memarg: MEMARG,
        lane: 3,
    },
    VectorArgOp::V128Store32Lane {
        memarg: MEMARG,
        lane: 3,
    },
    VectorArgOp::V128Store64Lane {
        memarg: MEMARG,
        lane: 3,
    },
    VectorArgOp::V128Load32Zero(MEMARG),
    VectorArgOp::V128Load64Zero(MEMARG),
];

/// A row for each of them.
fn print_vectors(page: &Page, operations: &[VectorArgOp]) {
    for operation in operations {
        print_instruction(page, &Instruction::VectorArg(*operation));
    }
}

/// The instruction of a row with a memory argument: of memory 1, of memory 0, and with an alignment that can't be encoded.
fn with_memory_argument(row: u32) -> Instruction<'static> {
    let memarg = |align, memory| MemArg {
        offset: 128,
        align,
        target: MemArgTarget::Memory(memory),
    };
    match row {
        53 => Instruction::Access(AccessOp::I32Load, memarg(2, 1)),
        54 => Instruction::Access(AccessOp::I32Load, memarg(15, 0)),
        55 => Instruction::Access(AccessOp::I32Load, memarg(16, 0)),
        56 => Instruction::Atomic(AtomicOp::I32AtomicLoad, memarg(2, 1)),
        57 => Instruction::Atomic(AtomicOp::I32AtomicLoad, memarg(16, 0)),
        58 => Instruction::AtomicRmw(AtomicRmwOp::I64AtomicRmw32CmpxchgU, memarg(2, 0)),
        59 => Instruction::AtomicRmw(AtomicRmwOp::I64AtomicRmw32CmpxchgU, memarg(16, 0)),
        60 => Instruction::VectorArg(VectorArgOp::V128Load(memarg(15, 0))),
        61 => Instruction::VectorArg(VectorArgOp::V128Load(memarg(16, 0))),
        _ => Instruction::AtomicFence,
    }
}
