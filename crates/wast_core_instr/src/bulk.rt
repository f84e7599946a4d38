//! Bulk instructions.
use wast_operands::{MemoryArg, MemoryCopy, MemoryInit, TableArg, TableCopy, TableInit};
use wast_typed_operands::Index;

/// Bulk instructions on memories and tables (6.5, table and memory instructions).
#[derive(Drop)]
pub enum BulkOp<'a> {
    DataDrop(Index<'a>),
    ElemDrop(Index<'a>),
    MemoryFill(MemoryArg<'a>),
    TableGrow(TableArg<'a>),
    TableSize(TableArg<'a>),
    TableFill(TableArg<'a>),
    MemoryCopy(MemoryCopy<'a>),
    TableCopy(TableCopy<'a>),
    MemoryInit(Box<MemoryInit<'a>>),
    TableInit(Box<TableInit<'a>>),
}
