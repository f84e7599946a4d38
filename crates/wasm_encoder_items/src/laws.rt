//! Laws of the spellings: functions without parameters whose contracts are the laws. They do nothing.

ghost use Rattle.wasm_encoder_items.specs.Examples.{ItemExamples};
ghost use Rattle.wasm_encoder_items.specs.Laws.{OneLimits, OneTableType, OneGlobalType, OneTagType, OneEntityType, OneTypeEntry, OneImports, OneFunctionType, OneTable, OneGlobal, OneExport, OneElementSegment, OneCode, OneDataSegment, IsExpressionBytes};
ghost use Rattle.wasm_encoder_base.specs.Instr.{expr_bytes};
ghost use Rattle.wasm_encoder_code.specs.Laws.{IsExpression};
ghost use Rattle.wasm_encoder_items.specs.Segments.{ended};

/// Types of tables, memories, globals and tags, and what is imported, are told apart by their bytes, whatever follows
/// these.
pub fn one_entity()
    ensures limits { OneLimits }
    ensures table_types { OneTableType }
    ensures global_types { OneGlobalType }
    ensures tag_types { OneTagType }
    ensures entity_types { OneEntityType }
{}

/// The items of sections are told apart by their bytes, whatever follows these; an element segment is taken as its flag
/// and parts, and each expression as instructions that close the blocks that they open and no other.
pub fn one_item()
    ensures types { OneTypeEntry }
    ensures imports { OneImports }
    ensures functions { OneFunctionType }
    ensures tables { OneTable IsExpression expr_bytes }
    ensures memories { OneLimits }
    ensures tags { OneTagType }
    ensures globals { OneGlobal IsExpression expr_bytes }
    ensures exports { OneExport }
    ensures elements { OneElementSegment IsExpression expr_bytes }
    ensures codes { OneCode }
    ensures segments { OneDataSegment IsExpression expr_bytes }
{}

/// The same, where an expression is the bytes of such instructions, as the types of this crate have it.
pub fn one_written_item()
    ensures tables { OneTable IsExpressionBytes ended }
    ensures globals { OneGlobal IsExpressionBytes ended }
    ensures elements { OneElementSegment IsExpressionBytes ended }
    ensures segments { OneDataSegment IsExpressionBytes ended }
{}

/// A few items and their bytes, by hand.
pub fn item_examples()
    ensures { ItemExamples }
{}
