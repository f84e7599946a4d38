use wasm_encoder_base::{Encode, EncodeError, encode_both};
use wasm_encoder_opcodes::Prefixed;

/// Bulk instructions on memories and tables, with their operands (5.4): opcodes FC 8 to 17.
#[derive(Clone, Copy, Debug)]
pub enum BulkOp {
    MemoryInit { mem: u32, data_index: u32 },
    DataDrop(u32),
    MemoryCopy { src_mem: u32, dst_mem: u32 },
    MemoryFill(u32),
    TableInit { elem_index: u32, table: u32 },
    ElemDrop(u32),
    TableCopy { src_table: u32, dst_table: u32 },
    TableGrow(u32),
    TableSize(u32),
    TableFill(u32),
}

/// The opcode and the operands.
impl Encode for BulkOp {
    ghost use Rattle.wasm_encoder_base.specs.Instr.{instr_bytes};
    ghost use Rattle.wasm_encoder_instr.specs.Bulk.{bulk_view};

    ghost can_encode = { λ _. Unit {0} };

    ghost fits = { λ _. Unit {0} };

    ghost spelling = { λ op. instr_bytes (bulk_view op) };

    fn encode(&self, sink: &mut Vec<u8>) -> Result<(), EncodeError> {
        match self {
            BulkOp::MemoryInit { mem, data_index } => encode_both(
                &Prefixed(0xFC, 8),
                &(data_index, mem),
                sink,
            ),
            BulkOp::DataDrop(index) => encode_both(&Prefixed(0xFC, 9), index, sink),
            BulkOp::MemoryCopy { src_mem, dst_mem } => encode_both(
                &Prefixed(0xFC, 10),
                &(dst_mem, src_mem),
                sink,
            ),
            BulkOp::MemoryFill(index) => encode_both(&Prefixed(0xFC, 11), index, sink),
            BulkOp::TableInit { elem_index, table } => encode_both(
                &Prefixed(0xFC, 12),
                &(elem_index, table),
                sink,
            ),
            BulkOp::ElemDrop(index) => encode_both(&Prefixed(0xFC, 13), index, sink),
            BulkOp::TableCopy {
                src_table,
                dst_table,
            } => encode_both(&Prefixed(0xFC, 14), &(dst_table, src_table), sink),
            BulkOp::TableGrow(index) => encode_both(&Prefixed(0xFC, 15), index, sink),
            BulkOp::TableSize(index) => encode_both(&Prefixed(0xFC, 16), index, sink),
            BulkOp::TableFill(index) => encode_both(&Prefixed(0xFC, 17), index, sink),
        }
    }
}
