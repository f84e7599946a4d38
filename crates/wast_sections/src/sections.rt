//! The sections of a module's fields, one after another.
ghost use Rattle.std.specs.Prelude.{◌≡◌, ℕ, List, All, map, option_map};
ghost use Rattle.std.specs.List.{flat_map, slice_get};
ghost use Rattle.wasm_encoder_base.specs.Instr.{Instr, expr_bytes};
ghost use Rattle.wasm_encoder_base.specs.Leb.{uleb};
ghost use Rattle.wasm_encoder_code.specs.Body.{body_bytes};
ghost use Rattle.wasm_encoder_items.specs.EntityTypes.{Limits, limits_bytes, tag_bytes};
ghost use Rattle.wasm_encoder_items.specs.Imports as binary;
ghost use Rattle.wasm_encoder_items.specs.Imports.{imports_bytes, export_bytes};
ghost use Rattle.wasm_encoder_items.specs.Segments as segments;
ghost use Rattle.wasm_encoder_items.specs.Segments.{table_item, global_item, element_bytes, data_bytes};
ghost use Rattle.wasm_encoder_items.specs.TypeEntries.{TypeEntry, entry_bytes};
ghost use Rattle.wasm_encoder_sections.specs.Codes.{function_item};
ghost use Rattle.wasm_layout.specs.AbstractModule as abstract;
ghost use Rattle.wasm_layout.specs.IsModule.{IfThere, IsEntry, IsImport, IsTable, IsGlobal, IsExport, IsElement, IsData, IsLimits, IsU32};
ghost use Rattle.wast_module_fields.specs.ModuleFieldViews.{field_tree};
ghost use Rattle.wast_meant.specs.FieldsMeant.{types_of, imports_of, defined_in, functions_of, tables_of, memories_of, tags_of, globals_of, exports_of, starts_of, elements_of, datas_of};
ghost use Rattle.wast_section_items.specs.Fits.{EntryFits, ImportsFit, ExportFits, TableFits, GlobalFits, ElementFits, DataFits, BodyFits, NoCounts};
ghost use Rattle.wast_section_items.specs.Ready.{FieldReady};
ghost use Rattle.wast_section_items.specs.Sound.{TypeSound, BodySound};
ghost use Rattle.wast_sections.specs.Holds.{Holds};
ghost use Rattle.wast_sections.specs.Parts.{items_defined};

use crate::fields::{FieldItems, section_of};
use std::alloc::Global;
use wasm_encoder_base::EncodeError;
use wasm_encoder_sections::{
    CodeSection, DataSection, ElementSection, ExportSection, FunctionSection, GlobalSection,
    ImportSection, MemorySection, StartSection, TableSection, TagSection, TypeSection,
};
use wast_conversions::index;
use wast_module_fields::ModuleField;
use wast_section_items::{FuncBody, SectionItem};

/// The section of types, and groups of them (6.4.7). Refused for want of memory, and as too large where their count, or a count or length
/// in them, is past 4294967295.
pub fn types(alloc: Global, fields: &[ModuleField<'_>]) -> Result<TypeSection, EncodeError>
    requires { All (λ f. FieldReady (field_tree f)) fields.now }
    ensures { Holds entry_bytes EntryFits IsEntry (flat_map types_of (map field_tree fields.now)) result }
{
    section_of::<TypeItems>(alloc, fields)
}

struct TypeItems;

impl FieldItems for TypeItems {
    type Section = TypeSection;

    ghost Item = { TypeEntry };

    ghost spell = { entry_bytes };

    ghost Fits = { EntryFits };

    ghost Sound = { IsEntry };

    ghost items = { types_of };

    ghost listed = { λ section. section };

    fn empty(alloc: Global) -> TypeSection {
        TypeSection::new(alloc)
    }

    fn put(
        alloc: Global,
        field: &ModuleField<'_>,
        section: &mut TypeSection,
    ) -> Result<(), EncodeError> {
        match field {
            ModuleField::TypeItem(item) => item.encode(alloc, section),
            ModuleField::Rec(group) => group.encode(alloc, section),
            _ => Ok(()),
        }
    }
}

/// The section of imports, a group being one entry (6.6, imports). Refused for want of memory, and as too large where their count, or a count or
/// length in them, is past 4294967295.
pub fn imports(alloc: Global, fields: &[ModuleField<'_>]) -> Result<ImportSection, EncodeError>
    requires { All (λ f. FieldReady (field_tree f)) fields.now }
    ensures { Holds imports_bytes ImportsFit IsImport (flat_map imports_of (map field_tree fields.now)) result }
{
    section_of::<ImportItems>(alloc, fields)
}

struct ImportItems;

impl FieldItems for ImportItems {
    type Section = ImportSection;

    ghost Item = { binary.Imports };

    ghost spell = { imports_bytes };

    ghost Fits = { ImportsFit };

    ghost Sound = { IsImport };

    ghost items = { imports_of };

    ghost listed = { λ section. section };

    fn empty(alloc: Global) -> ImportSection {
        ImportSection::new(alloc)
    }

    fn put(
        alloc: Global,
        field: &ModuleField<'_>,
        section: &mut ImportSection,
    ) -> Result<(), EncodeError> {
        match field {
            ModuleField::Import(imports) => imports.encode(alloc, section),
            _ => Ok(()),
        }
    }
}

/// The section of the types of functions (6.6, functions). Refused for want of memory, and as too large where their count is past 4294967295.
pub fn functions(alloc: Global, fields: &[ModuleField<'_>]) -> Result<FunctionSection, EncodeError>
    requires { All (λ f. FieldReady (field_tree f)) fields.now }
    ensures { Holds (λ f. uleb f.type_index) NoCounts TypeSound (flat_map functions_of (flat_map defined_in (map field_tree fields.now))) result }
{
    section_of::<FuncItems>(alloc, fields)
}

struct FuncItems;

impl FieldItems for FuncItems {
    type Section = FunctionSection;

    ghost Item = { abstract.Function };

    ghost spell = { λ f. uleb f.type_index };

    ghost Fits = { NoCounts };

    ghost Sound = { TypeSound };

    ghost items = { items_defined functions_of };

    ghost listed = { λ section. section };

    fn empty(alloc: Global) -> FunctionSection {
        FunctionSection::new(alloc)
    }

    fn put(
        alloc: Global,
        field: &ModuleField<'_>,
        section: &mut FunctionSection,
    ) -> Result<(), EncodeError> {
        match field {
            ModuleField::Func(func) => func.encode(alloc, section),
            _ => Ok(()),
        }
    }
}

/// The section of tables (6.6, tables). Refused for want of memory, and as too large where their count, or a count or length in them, is past
/// 4294967295.
pub fn tables(alloc: Global, fields: &[ModuleField<'_>]) -> Result<TableSection, EncodeError>
    requires { All (λ f. FieldReady (field_tree f)) fields.now }
    ensures { Holds (table_item expr_bytes) TableFits IsTable (flat_map tables_of (flat_map defined_in (map field_tree fields.now))) result }
{
    section_of::<TableItems>(alloc, fields)
}

struct TableItems;

impl FieldItems for TableItems {
    type Section = TableSection;

    ghost Item = { segments.Table (List Instr) };

    ghost spell = { table_item expr_bytes };

    ghost Fits = { TableFits };

    ghost Sound = { IsTable };

    ghost items = { items_defined tables_of };

    ghost listed = { λ section. section };

    fn empty(alloc: Global) -> TableSection {
        TableSection::new(alloc)
    }

    fn put(
        alloc: Global,
        field: &ModuleField<'_>,
        section: &mut TableSection,
    ) -> Result<(), EncodeError> {
        match field {
            ModuleField::Table(table) => table.encode(alloc, section),
            _ => Ok(()),
        }
    }
}

/// The section of memories (6.6, memories). Refused for want of memory, and as too large where their count is past 4294967295.
pub fn memories(alloc: Global, fields: &[ModuleField<'_>]) -> Result<MemorySection, EncodeError>
    requires { All (λ f. FieldReady (field_tree f)) fields.now }
    ensures { Holds limits_bytes NoCounts IsLimits (flat_map memories_of (flat_map defined_in (map field_tree fields.now))) result }
{
    section_of::<MemoryItems>(alloc, fields)
}

struct MemoryItems;

impl FieldItems for MemoryItems {
    type Section = MemorySection;

    ghost Item = { Limits };

    ghost spell = { limits_bytes };

    ghost Fits = { NoCounts };

    ghost Sound = { IsLimits };

    ghost items = { items_defined memories_of };

    ghost listed = { λ section. section };

    fn empty(alloc: Global) -> MemorySection {
        MemorySection::new(alloc)
    }

    fn put(
        alloc: Global,
        field: &ModuleField<'_>,
        section: &mut MemorySection,
    ) -> Result<(), EncodeError> {
        match field {
            ModuleField::Memory(memory) => memory.encode(alloc, section),
            _ => Ok(()),
        }
    }
}

/// The section of tags (6.6, tags). Refused for want of memory, and as too large where their count is past 4294967295.
pub fn tags(alloc: Global, fields: &[ModuleField<'_>]) -> Result<TagSection, EncodeError>
    requires { All (λ f. FieldReady (field_tree f)) fields.now }
    ensures { Holds tag_bytes NoCounts IsU32 (flat_map tags_of (flat_map defined_in (map field_tree fields.now))) result }
{
    section_of::<TagItems>(alloc, fields)
}

struct TagItems;

impl FieldItems for TagItems {
    type Section = TagSection;

    ghost Item = { ℕ };

    ghost spell = { tag_bytes };

    ghost Fits = { NoCounts };

    ghost Sound = { IsU32 };

    ghost items = { items_defined tags_of };

    ghost listed = { λ section. section };

    fn empty(alloc: Global) -> TagSection {
        TagSection::new(alloc)
    }

    fn put(
        alloc: Global,
        field: &ModuleField<'_>,
        section: &mut TagSection,
    ) -> Result<(), EncodeError> {
        match field {
            ModuleField::Tag(tag) => tag.encode(alloc, section),
            _ => Ok(()),
        }
    }
}

/// The section of globals (6.6, globals). Refused for want of memory, and as too large where their count, or a count or length in them, is past
/// 4294967295.
pub fn globals(alloc: Global, fields: &[ModuleField<'_>]) -> Result<GlobalSection, EncodeError>
    requires { All (λ f. FieldReady (field_tree f)) fields.now }
    ensures { Holds (global_item expr_bytes) GlobalFits IsGlobal (flat_map globals_of (flat_map defined_in (map field_tree fields.now))) result }
{
    section_of::<GlobalItems>(alloc, fields)
}

struct GlobalItems;

impl FieldItems for GlobalItems {
    type Section = GlobalSection;

    ghost Item = { segments.Global (List Instr) };

    ghost spell = { global_item expr_bytes };

    ghost Fits = { GlobalFits };

    ghost Sound = { IsGlobal };

    ghost items = { items_defined globals_of };

    ghost listed = { λ section. section };

    fn empty(alloc: Global) -> GlobalSection {
        GlobalSection::new(alloc)
    }

    fn put(
        alloc: Global,
        field: &ModuleField<'_>,
        section: &mut GlobalSection,
    ) -> Result<(), EncodeError> {
        match field {
            ModuleField::Global(global) => global.encode(alloc, section),
            _ => Ok(()),
        }
    }
}

/// The section of exports (6.6, exports). Refused for want of memory, and as too large where their count, or a count or length in them, is past
/// 4294967295.
pub fn exports(alloc: Global, fields: &[ModuleField<'_>]) -> Result<ExportSection, EncodeError>
    requires { All (λ f. FieldReady (field_tree f)) fields.now }
    ensures { Holds export_bytes ExportFits IsExport (flat_map exports_of (map field_tree fields.now)) result }
{
    section_of::<ExportItems>(alloc, fields)
}

struct ExportItems;

impl FieldItems for ExportItems {
    type Section = ExportSection;

    ghost Item = { binary.Export };

    ghost spell = { export_bytes };

    ghost Fits = { ExportFits };

    ghost Sound = { IsExport };

    ghost items = { exports_of };

    ghost listed = { λ section. section };

    fn empty(alloc: Global) -> ExportSection {
        ExportSection::new(alloc)
    }

    fn put(
        alloc: Global,
        field: &ModuleField<'_>,
        section: &mut ExportSection,
    ) -> Result<(), EncodeError> {
        match field {
            ModuleField::Export(export) => export.encode(alloc, section),
            _ => Ok(()),
        }
    }
}

/// The section of element segments (6.6, element segments). Refused for want of memory, and as too large where their count, or a count or length in
/// them, is past 4294967295.
pub fn elements(alloc: Global, fields: &[ModuleField<'_>]) -> Result<ElementSection, EncodeError>
    requires { All (λ f. FieldReady (field_tree f)) fields.now }
    ensures { Holds (element_bytes expr_bytes) ElementFits IsElement (flat_map elements_of (map field_tree fields.now)) result }
{
    section_of::<ElemItems>(alloc, fields)
}

struct ElemItems;

impl FieldItems for ElemItems {
    type Section = ElementSection;

    ghost Item = { segments.ElementSegment (List Instr) };

    ghost spell = { element_bytes expr_bytes };

    ghost Fits = { ElementFits };

    ghost Sound = { IsElement };

    ghost items = { elements_of };

    ghost listed = { λ section. section };

    fn empty(alloc: Global) -> ElementSection {
        ElementSection::new(alloc)
    }

    fn put(
        alloc: Global,
        field: &ModuleField<'_>,
        section: &mut ElementSection,
    ) -> Result<(), EncodeError> {
        match field {
            ModuleField::Elem(elem) => elem.encode(alloc, section),
            _ => Ok(()),
        }
    }
}

/// The section of the bodies of functions (6.6, functions). Refused for want of memory, and as too large where their count, or a count or length in
/// them, is past 4294967295.
pub fn codes(alloc: Global, fields: &[ModuleField<'_>]) -> Result<CodeSection, EncodeError>
    requires { All (λ f. FieldReady (field_tree f)) fields.now }
    ensures { Holds (λ f. function_item (body_bytes f.body)) BodyFits BodySound (flat_map functions_of (flat_map defined_in (map field_tree fields.now))) result }
{
    section_of::<CodeItems>(alloc, fields)
}

struct CodeItems;

impl FieldItems for CodeItems {
    type Section = CodeSection;

    ghost Item = { abstract.Function };

    ghost spell = { λ f. function_item (body_bytes f.body) };

    ghost Fits = { BodyFits };

    ghost Sound = { BodySound };

    ghost items = { items_defined functions_of };

    ghost listed = { λ section. section };

    fn empty(alloc: Global) -> CodeSection {
        CodeSection::new(alloc)
    }

    fn put(
        alloc: Global,
        field: &ModuleField<'_>,
        section: &mut CodeSection,
    ) -> Result<(), EncodeError> {
        match field {
            ModuleField::Func(func) => FuncBody(func).encode(alloc, section),
            _ => Ok(()),
        }
    }
}

/// The section of data segments (6.6, data segments). Refused for want of memory, and as too large where their count, or a count or length in them,
/// is past 4294967295.
pub fn datas(alloc: Global, fields: &[ModuleField<'_>]) -> Result<DataSection, EncodeError>
    requires { All (λ f. FieldReady (field_tree f)) fields.now }
    ensures { Holds (data_bytes expr_bytes) DataFits IsData (flat_map datas_of (map field_tree fields.now)) result }
{
    section_of::<DataItems>(alloc, fields)
}

struct DataItems;

impl FieldItems for DataItems {
    type Section = DataSection;

    ghost Item = { segments.DataSegment (List Instr) };

    ghost spell = { data_bytes expr_bytes };

    ghost Fits = { DataFits };

    ghost Sound = { IsData };

    ghost items = { datas_of };

    ghost listed = { λ section. section };

    fn empty(alloc: Global) -> DataSection {
        DataSection::new(alloc)
    }

    fn put(
        alloc: Global,
        field: &ModuleField<'_>,
        section: &mut DataSection,
    ) -> Result<(), EncodeError> {
        match field {
            ModuleField::Data(data) => data.encode(alloc, section),
            _ => Ok(()),
        }
    }
}

/// The section of the start function (6.6, start function), by the first field that is one.
pub fn start(fields: &[ModuleField<'_>]) -> Option<StartSection>
    requires { All (λ f. FieldReady (field_tree f)) fields.now }
    ensures same { option_map (λ section. section.function_index) result ≡ slice_get (flat_map starts_of (map field_tree fields.now)) 0 }
    ensures sound { IfThere IsU32 (slice_get (flat_map starts_of (map field_tree fields.now)) 0) }
{
    for field in fields {
        if let ModuleField::Start(start) = field {
            return Some(StartSection {
                function_index: index(&start.func),
            });
        }
    }
    None
}
