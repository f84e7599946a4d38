//! Bulk instructions.
ghost use Rattle.std.specs.Prelude.{◌≡◌, codes};
ghost use Rattle.wasm_encoder_base.specs.Instr.{in_range};
ghost use Rattle.wasm_encoder_instr.specs.Bulk.{bulk_mnemonic, bulk_view};
ghost use Rattle.wast_operands.specs.OperandViews.{memory_copy_tree, table_copy_tree};
ghost use Rattle.wast_mnemonics.specs.Mnemonics.{word_mnemonic};
ghost use Rattle.wast_core_instr.specs.InstructionViews.{bulk_operands};
ghost use Rattle.wast_core_instr.specs.WordViews.{bulk_word};
ghost use Rattle.wast_conversions.specs.Operands.{both_meant, operands_meant};
ghost use Rattle.wast_conversions.specs.Resolved.{IsNumber, IfThere, OperandsResolved};
ghost use Rattle.wast_conversions.specs.Rows.{row_of};

use crate::indices::{index, optional_index};
use crate::operands::{memory_arg, table_arg};
use wast_core_instr::BulkOp;
use wast_operands::{MemoryCopy, TableCopy};

/// A bulk instruction (6.5, table and memory instructions).
pub(crate) fn bulk(op: &BulkOp<'_>) -> wasm_encoder_instr::BulkOp
    requires { OperandsResolved (bulk_operands op.now) }
    ensures mnemonic { bulk_mnemonic result ≡ word_mnemonic (bulk_word op.now) }
    ensures operands { (bulk_view result).operands ≡ operands_meant (row_of (bulk_word op.now)) (bulk_operands op.now) }
    ensures sound { in_range (operands_meant (row_of (bulk_word op.now)) (bulk_operands op.now)) }
{
    match op {
        BulkOp::DataDrop(data) => wasm_encoder_instr::BulkOp::DataDrop(index(data)),
        BulkOp::ElemDrop(elem) => wasm_encoder_instr::BulkOp::ElemDrop(index(elem)),
        BulkOp::MemoryFill(memory) => wasm_encoder_instr::BulkOp::MemoryFill(memory_arg(memory)),
        BulkOp::TableGrow(table) => wasm_encoder_instr::BulkOp::TableGrow(table_arg(table)),
        BulkOp::TableSize(table) => wasm_encoder_instr::BulkOp::TableSize(table_arg(table)),
        BulkOp::TableFill(table) => wasm_encoder_instr::BulkOp::TableFill(table_arg(table)),
        BulkOp::MemoryCopy(copy) => memory_copy(copy),
        BulkOp::TableCopy(copy) => table_copy(copy),
        BulkOp::MemoryInit(init) => wasm_encoder_instr::BulkOp::MemoryInit {
            mem: optional_index(&init.mem),
            data_index: index(&init.data),
        },
        BulkOp::TableInit(init) => wasm_encoder_instr::BulkOp::TableInit {
            elem_index: index(&init.elem),
            table: optional_index(&init.table),
        },
    }
}

/// `memory.copy`, whose memories are 0 where none are written.
fn memory_copy(copy: &MemoryCopy<'_>) -> wasm_encoder_instr::BulkOp
    requires { IfThere (λ p. IsNumber p.0 × IsNumber p.1) (memory_copy_tree copy.now) }
    ensures mnemonic { bulk_mnemonic result ≡ codes "memory.copy" }
    ensures operands { (bulk_view result).operands ≡ both_meant (memory_copy_tree copy.now) }
    ensures sound { in_range (both_meant (memory_copy_tree copy.now)) }
{
    match &copy.memories {
        Some(memories) => wasm_encoder_instr::BulkOp::MemoryCopy {
            src_mem: index(&memories.1),
            dst_mem: index(&memories.0),
        },
        None => wasm_encoder_instr::BulkOp::MemoryCopy {
            src_mem: 0,
            dst_mem: 0,
        },
    }
}

/// `table.copy`, whose tables are 0 where none are written.
fn table_copy(copy: &TableCopy<'_>) -> wasm_encoder_instr::BulkOp
    requires { IfThere (λ p. IsNumber p.0 × IsNumber p.1) (table_copy_tree copy.now) }
    ensures mnemonic { bulk_mnemonic result ≡ codes "table.copy" }
    ensures operands { (bulk_view result).operands ≡ both_meant (table_copy_tree copy.now) }
    ensures sound { in_range (both_meant (table_copy_tree copy.now)) }
{
    match &copy.tables {
        Some(tables) => wasm_encoder_instr::BulkOp::TableCopy {
            src_table: index(&tables.1),
            dst_table: index(&tables.0),
        },
        None => wasm_encoder_instr::BulkOp::TableCopy {
            src_table: 0,
            dst_table: 0,
        },
    }
}
