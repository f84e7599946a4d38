//! Sections that are lists, appended where something stands in them.
ghost use Rattle.std.specs.Prelude.{All, map, slice_get};
ghost use Rattle.std.specs.List.{flat_map};
ghost use Rattle.wasm_encoder_base.specs.Encodes.{Encodes};
ghost use Rattle.wasm_encoder_base.specs.Instr.{expr_bytes};
ghost use Rattle.wasm_encoder_base.specs.Leb.{uleb};
ghost use Rattle.wasm_encoder_code.specs.Body.{body_bytes};
ghost use Rattle.wasm_encoder_items.specs.EntityTypes.{limits_bytes, tag_bytes};
ghost use Rattle.wasm_encoder_items.specs.Imports.{imports_bytes, export_bytes};
ghost use Rattle.wasm_encoder_items.specs.Segments.{table_item, global_item, element_bytes, data_bytes};
ghost use Rattle.wasm_encoder_items.specs.TypeEntries.{entry_bytes};
ghost use Rattle.wasm_encoder_sections.specs.Codes.{function_item};
ghost use Rattle.wasm_layout.specs.IsModule.{IsEntry, IsImport, IsTable, IsGlobal, IsExport, IsElement, IsData, IsLimits, IsU32, IfThere};
ghost use Rattle.wast_module_fields.specs.ModuleFieldViews.{field_tree};
ghost use Rattle.wast_meant.specs.FieldsMeant.{types_of, imports_of, defined_in, functions_of, tables_of, memories_of, tags_of, globals_of, exports_of, starts_of, elements_of, datas_of};
ghost use Rattle.wast_section_items.specs.Fits.{EntryFits, ImportsFit, ExportFits, TableFits, GlobalFits, ElementFits, DataFits, BodyFits, NoCounts};
ghost use Rattle.wast_section_items.specs.Ready.{FieldReady};
ghost use Rattle.wast_section_items.specs.Sound.{TypeSound, BodySound};
ghost use Rattle.wast_binary.specs.Puts.{PutsList, start_bytes};

use crate::put::put_unless_empty;
use std::alloc::Global;
use wasm_encoder::Module;
use wasm_encoder_base::EncodeError;
use wast_custom_sections::add_section;
use wast_module_fields::ModuleField;
use wast_sections::{
    codes, datas, elements, exports, functions, globals, imports, memories, start, tables, tags,
    types,
};

/// Appends the section of types, and groups of them, if there are any.
pub(crate) fn put_types(
    alloc: Global,
    fields: &[ModuleField<'_>],
    module: &mut Module,
) -> Result<(), EncodeError>
    requires { All (λ f. FieldReady (field_tree f)) fields.now }
    ensures { PutsList 1 entry_bytes EntryFits IsEntry (flat_map types_of (map field_tree fields.now)) «module».old «module».new result }
{
    match types(alloc, fields) {
        Ok(section) => put_unless_empty(&section, section.is_empty(), module),
        Err(e) => Err(e),
    }
}

/// Appends the section of imports, if there are any.
pub(crate) fn put_imports(
    alloc: Global,
    fields: &[ModuleField<'_>],
    module: &mut Module,
) -> Result<(), EncodeError>
    requires { All (λ f. FieldReady (field_tree f)) fields.now }
    ensures { PutsList 2 imports_bytes ImportsFit IsImport (flat_map imports_of (map field_tree fields.now)) «module».old «module».new result }
{
    match imports(alloc, fields) {
        Ok(section) => put_unless_empty(&section, section.is_empty(), module),
        Err(e) => Err(e),
    }
}

/// Appends the section of the types of functions, if there are any.
pub(crate) fn put_functions(
    alloc: Global,
    fields: &[ModuleField<'_>],
    module: &mut Module,
) -> Result<(), EncodeError>
    requires { All (λ f. FieldReady (field_tree f)) fields.now }
    ensures { PutsList 3 (λ f. uleb f.type_index) NoCounts TypeSound (flat_map functions_of (flat_map defined_in (map field_tree fields.now))) «module».old «module».new result }
{
    match functions(alloc, fields) {
        Ok(section) => put_unless_empty(&section, section.is_empty(), module),
        Err(e) => Err(e),
    }
}

/// Appends the section of tables, if there are any.
pub(crate) fn put_tables(
    alloc: Global,
    fields: &[ModuleField<'_>],
    module: &mut Module,
) -> Result<(), EncodeError>
    requires { All (λ f. FieldReady (field_tree f)) fields.now }
    ensures { PutsList 4 (table_item expr_bytes) TableFits IsTable (flat_map tables_of (flat_map defined_in (map field_tree fields.now))) «module».old «module».new result }
{
    match tables(alloc, fields) {
        Ok(section) => put_unless_empty(&section, section.is_empty(), module),
        Err(e) => Err(e),
    }
}

/// Appends the section of memories, if there are any.
pub(crate) fn put_memories(
    alloc: Global,
    fields: &[ModuleField<'_>],
    module: &mut Module,
) -> Result<(), EncodeError>
    requires { All (λ f. FieldReady (field_tree f)) fields.now }
    ensures { PutsList 5 limits_bytes NoCounts IsLimits (flat_map memories_of (flat_map defined_in (map field_tree fields.now))) «module».old «module».new result }
{
    match memories(alloc, fields) {
        Ok(section) => put_unless_empty(&section, section.is_empty(), module),
        Err(e) => Err(e),
    }
}

/// Appends the section of tags, if there are any.
pub(crate) fn put_tags(
    alloc: Global,
    fields: &[ModuleField<'_>],
    module: &mut Module,
) -> Result<(), EncodeError>
    requires { All (λ f. FieldReady (field_tree f)) fields.now }
    ensures { PutsList 13 tag_bytes NoCounts IsU32 (flat_map tags_of (flat_map defined_in (map field_tree fields.now))) «module».old «module».new result }
{
    match tags(alloc, fields) {
        Ok(section) => put_unless_empty(&section, section.is_empty(), module),
        Err(e) => Err(e),
    }
}

/// Appends the section of globals, if there are any.
pub(crate) fn put_globals(
    alloc: Global,
    fields: &[ModuleField<'_>],
    module: &mut Module,
) -> Result<(), EncodeError>
    requires { All (λ f. FieldReady (field_tree f)) fields.now }
    ensures { PutsList 6 (global_item expr_bytes) GlobalFits IsGlobal (flat_map globals_of (flat_map defined_in (map field_tree fields.now))) «module».old «module».new result }
{
    match globals(alloc, fields) {
        Ok(section) => put_unless_empty(&section, section.is_empty(), module),
        Err(e) => Err(e),
    }
}

/// Appends the section of exports, if there are any.
pub(crate) fn put_exports(
    alloc: Global,
    fields: &[ModuleField<'_>],
    module: &mut Module,
) -> Result<(), EncodeError>
    requires { All (λ f. FieldReady (field_tree f)) fields.now }
    ensures { PutsList 7 export_bytes ExportFits IsExport (flat_map exports_of (map field_tree fields.now)) «module».old «module».new result }
{
    match exports(alloc, fields) {
        Ok(section) => put_unless_empty(&section, section.is_empty(), module),
        Err(e) => Err(e),
    }
}

/// Appends the section of element segments, if there are any.
pub(crate) fn put_elements(
    alloc: Global,
    fields: &[ModuleField<'_>],
    module: &mut Module,
) -> Result<(), EncodeError>
    requires { All (λ f. FieldReady (field_tree f)) fields.now }
    ensures { PutsList 9 (element_bytes expr_bytes) ElementFits IsElement (flat_map elements_of (map field_tree fields.now)) «module».old «module».new result }
{
    match elements(alloc, fields) {
        Ok(section) => put_unless_empty(&section, section.is_empty(), module),
        Err(e) => Err(e),
    }
}

/// Appends the section of the bodies of functions, if there are any.
pub(crate) fn put_codes(
    alloc: Global,
    fields: &[ModuleField<'_>],
    module: &mut Module,
) -> Result<(), EncodeError>
    requires { All (λ f. FieldReady (field_tree f)) fields.now }
    ensures { PutsList 10 (λ f. function_item (body_bytes f.body)) BodyFits BodySound (flat_map functions_of (flat_map defined_in (map field_tree fields.now))) «module».old «module».new result }
{
    match codes(alloc, fields) {
        Ok(section) => put_unless_empty(&section, section.is_empty(), module),
        Err(e) => Err(e),
    }
}

/// Appends the section of data segments, if there are any.
pub(crate) fn put_datas(
    alloc: Global,
    fields: &[ModuleField<'_>],
    module: &mut Module,
) -> Result<(), EncodeError>
    requires { All (λ f. FieldReady (field_tree f)) fields.now }
    ensures { PutsList 11 (data_bytes expr_bytes) DataFits IsData (flat_map datas_of (map field_tree fields.now)) «module».old «module».new result }
{
    match datas(alloc, fields) {
        Ok(section) => put_unless_empty(&section, section.is_empty(), module),
        Err(e) => Err(e),
    }
}

/// Appends the section of the start function, if there is one.
pub(crate) fn put_start(fields: &[ModuleField<'_>], module: &mut Module) -> Result<(), EncodeError>
    requires { All (λ f. FieldReady (field_tree f)) fields.now }
    ensures put { Encodes (start_bytes (slice_get (flat_map starts_of (map field_tree fields.now)) 0)) (Unit {0}) «module».old «module».new result }
    ensures sound { IfThere IsU32 (slice_get (flat_map starts_of (map field_tree fields.now)) 0) }
{
    match start(fields) {
        Some(section) => add_section(&section, module),
        None => Ok(()),
    }
}
