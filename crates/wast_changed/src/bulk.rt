//! Bulk instructions.
ghost use Rattle.std.specs.Prelude.{◌≡◌, option_map};
ghost use Rattle.wasm_encoder_base.specs.Table.{Tables, Memories, Datas, Elems};
ghost use Rattle.wast_parser.specs.Identifiers.{index_tree};
ghost use Rattle.wast_operands.specs.OperandViews.{pair_tree};
ghost use Rattle.wast_core_instr.specs.InstructionViews.{bulk_operands};
ghost use Rattle.wast_core_instr.specs.WordViews.{bulk_word};
ghost use Rattle.wast_meaning.specs.Changed.{operands_changed};
ghost use Rattle.wast_changed.specs.Rows.{row_of};
ghost use Rattle.wast_meaning.specs.Views.{space_view};

use crate::changing::{Changing, change_optional};
use crate::operands::{change_memory_arg, change_table_arg};
use wast_core_instr::BulkOp;
use wast_meaning::Space;
use wast_operands::{MemoryInit, TableInit};
use wast_parser::Index;

/// A bulk instruction (6.5, table and memory instructions).
#[tactic(auto, using(crate::proofs::Rows::index_row, crate::proofs::Rows::optional_row, crate::proofs::Rows::copy_row, crate::proofs::Rows::init_row))]
pub(crate) fn change_bulk<'a, C: Changing<'a>>(change: &C, op: &mut BulkOp<'a>)
    ensures word { bulk_word op.new ≡ bulk_word op.old }
    ensures operands { bulk_operands op.new ≡ operands_changed (C.change change.now) (row_of (bulk_word op.old)) (bulk_operands op.old) }
{
    match op {
        BulkOp::DataDrop(index) => change.index(Space::Datas, index),
        BulkOp::ElemDrop(index) => change.index(Space::Elems, index),
        BulkOp::MemoryFill(memory) => change_memory_arg(change, memory),
        BulkOp::TableGrow(table) => change_table_arg(change, table),
        BulkOp::TableSize(table) => change_table_arg(change, table),
        BulkOp::TableFill(table) => change_table_arg(change, table),
        BulkOp::MemoryCopy(copy) => change_copy(change, Space::Memories, &mut copy.memories),
        BulkOp::TableCopy(copy) => change_copy(change, Space::Tables, &mut copy.tables),
        BulkOp::MemoryInit(init) => change_memory_init(change, init.as_mut()),
        BulkOp::TableInit(init) => change_table_init(change, init.as_mut()),
    }
}

/// A memory, where given, and a data segment.
fn change_memory_init<'a, C: Changing<'a>>(change: &C, init: &mut MemoryInit<'a>)
    ensures memory { option_map index_tree init.new.mem ≡ option_map ((C.change change.now).index Memories) (option_map index_tree init.old.mem) }
    ensures segment { index_tree init.new.«data» ≡ (C.change change.now).index Datas (index_tree init.old.«data») }
{
    change_optional(change, Space::Memories, &mut init.mem);
    change.index(Space::Datas, &mut init.data);
}

/// A table, where given, and an element segment.
fn change_table_init<'a, C: Changing<'a>>(change: &C, init: &mut TableInit<'a>)
    ensures table { option_map index_tree init.new.table ≡ option_map ((C.change change.now).index Tables) (option_map index_tree init.old.table) }
    ensures segment { index_tree init.new.elem ≡ (C.change change.now).index Elems (index_tree init.old.elem) }
{
    change_optional(change, Space::Tables, &mut init.table);
    change.index(Space::Elems, &mut init.elem);
}

/// Two indices of a space, where they are given.
fn change_copy<'a, C: Changing<'a>>(
    change: &C,
    space: Space,
    indices: &mut Option<Box<(Index<'a>, Index<'a>)>>,
)
    ensures { option_map (λ p. pair_tree p.value) indices.new ≡ option_map (λ p. ((C.change change.now).index (space_view space) p.0, (C.change change.now).index (space_view space) p.1)) (option_map (λ p. pair_tree p.value) indices.old) }
{
    if let Some(indices) = indices {
        let indices = indices.as_mut();
        change.index(space, &mut indices.0);
        change.index(space, &mut indices.1);
    }
}
