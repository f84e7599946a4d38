//! Calls that append one item to a section, which is unchanged where they are refused.
ghost use Rattle.std.specs.Prelude.{◌<◌, ◌^◌, All, length, map};
ghost use Rattle.wasm_encoder_base.specs.Leb.{uleb};
ghost use Rattle.wasm_encoder_base.specs.Views.{sub_view, composite_fits};
ghost use Rattle.wasm_encoder_items.specs.EntityTypes.{limits_bytes, tag_bytes};
ghost use Rattle.wasm_encoder_items.specs.Imports.{imports_bytes, export_bytes};
ghost use Rattle.wasm_encoder_items.specs.Segments.{ended, WithoutInit, WithInit, table_item, global_item, ActiveData, PassiveData, data_bytes, element_bytes};
ghost use Rattle.wasm_encoder_items.specs.SegmentViews.{element_view, ElementsFit};
ghost use Rattle.wasm_encoder_items.specs.Views.{imports_view, ImportsFit, export_kind_view, table_view, memory_view, global_view};
ghost use Rattle.wasm_encoder_items.specs.TypeEntries.{OneType, TypeGroup, entry_bytes};
ghost use Rattle.wasm_encoder_sections.specs.Codes.{function_item};
ghost use Rattle.wasm_encoder_sections.specs.Writes.{Writes};

use wasm_encoder_base::{EncodeError, SubType};
use wasm_encoder_code::{ConstExpr, Function};
use wasm_encoder_items::{
    ElementSegment, ExportKind, GlobalType, Imports, MemoryType, TableType, TagType,
};
use wasm_encoder_sections::{
    CodeSection, DataSection, ElementSection, ExportSection, FunctionSection, GlobalSection,
    ImportSection, MemorySection, TableSection, TagSection, TypeSection,
};

/// Appends a type definition, alone in its entry.
pub(crate) fn add_type(section: &mut TypeSection, definition: &SubType) -> Result<(), EncodeError>
    ensures { Writes (entry_bytes (OneType (sub_view definition.now))) (composite_fits definition.now.composite_type) section.old section.new result }
{
    section.ty().subtype(definition)
}

/// Appends an entry of type definitions that may refer to each other.
pub(crate) fn add_group(
    section: &mut TypeSection,
    definitions: &[SubType],
) -> Result<(), EncodeError>
    ensures { Writes (entry_bytes (TypeGroup (map sub_view definitions.now))) ((length definitions.now < 2 ^ 32) × All (λ t. composite_fits t.composite_type) definitions.now) section.old section.new result }
{
    section.ty().rec(definitions)
}

/// Appends an entry of one import, or of several of a module.
pub(crate) fn add_imports(
    section: &mut ImportSection,
    imports: Imports<'_>,
) -> Result<(), EncodeError>
    ensures { Writes (imports_bytes (imports_view imports.entry)) (ImportsFit imports.entry) section.old section.new result }
{
    section.imports(imports)?;
    Ok(())
}

/// Appends a function by the number of its type.
pub(crate) fn add_function(
    section: &mut FunctionSection,
    type_index: u32,
) -> Result<(), EncodeError>
    ensures { Writes (uleb type_index) (Unit {0}) section.old section.new result }
{
    section.function(type_index)?;
    Ok(())
}

/// Appends a table without a value that its elements have at first.
pub(crate) fn add_table(section: &mut TableSection, ty: TableType) -> Result<(), EncodeError>
    ensures { Writes (table_item ended (WithoutInit (table_view ty))) (Unit {0}) section.old section.new result }
{
    section.table(ty)?;
    Ok(())
}

/// Appends a table with the value that its elements have at first.
pub(crate) fn add_table_with_init(
    section: &mut TableSection,
    ty: TableType,
    init: &ConstExpr,
) -> Result<(), EncodeError>
    ensures { Writes (table_item ended (WithInit (table_view ty) init.now)) (Unit {0}) section.old section.new result }
{
    section.table_with_init(ty, init)?;
    Ok(())
}

/// Appends a memory by its type.
pub(crate) fn add_memory(section: &mut MemorySection, ty: MemoryType) -> Result<(), EncodeError>
    ensures { Writes (limits_bytes (memory_view ty)) (Unit {0}) section.old section.new result }
{
    section.memory(ty)?;
    Ok(())
}

/// Appends a tag by its type.
pub(crate) fn add_tag(section: &mut TagSection, ty: TagType) -> Result<(), EncodeError>
    ensures { Writes (tag_bytes ty.func_type_idx) (Unit {0}) section.old section.new result }
{
    section.tag(ty)?;
    Ok(())
}

/// Appends a global and its value at first.
pub(crate) fn add_global(
    section: &mut GlobalSection,
    ty: GlobalType,
    init: &ConstExpr,
) -> Result<(), EncodeError>
    ensures { Writes (global_item ended (record { type = global_view ty; init = init.now })) (Unit {0}) section.old section.new result }
{
    section.global(ty, init)?;
    Ok(())
}

/// Appends an export: its name, and the kind and number of what is exported.
pub(crate) fn add_export(
    section: &mut ExportSection,
    name: &str,
    kind: ExportKind,
    index: u32,
) -> Result<(), EncodeError>
    ensures { Writes (export_bytes (record { name = name.now; kind = export_kind_view kind; index = index })) (length name.now < 2 ^ 32) section.old section.new result }
{
    section.export(name, kind, index)?;
    Ok(())
}

/// Appends an element segment.
pub(crate) fn add_segment(
    section: &mut ElementSection,
    segment: ElementSegment<'_>,
) -> Result<(), EncodeError>
    ensures { Writes (element_bytes ended (element_view segment.entry)) (ElementsFit segment.entry.elements) section.old section.new result }
{
    section.segment(segment)?;
    Ok(())
}

/// Appends the body of a function.
pub(crate) fn add_body(section: &mut CodeSection, body: &Function) -> Result<(), EncodeError>
    ensures { Writes (function_item body.now) (length body.now < 2 ^ 32) section.old section.new result }
{
    section.function(body)?;
    Ok(())
}

/// Appends a data segment that is copied into a memory, by its number, at an offset.
pub(crate) fn add_active_data(
    section: &mut DataSection,
    memory: u32,
    offset: &ConstExpr,
    bytes: &[u8],
) -> Result<(), EncodeError>
    ensures { Writes (data_bytes ended (ActiveData memory offset.now bytes.now)) (length bytes.now < 2 ^ 32) section.old section.new result }
{
    section.active(memory, offset, bytes)?;
    Ok(())
}

/// Appends a data segment that instructions copy.
pub(crate) fn add_passive_data(section: &mut DataSection, bytes: &[u8]) -> Result<(), EncodeError>
    ensures { Writes (data_bytes ended (PassiveData bytes.now)) (length bytes.now < 2 ^ 32) section.old section.new result }
{
    section.passive(bytes)?;
    Ok(())
}
