//! Types of tables, memories and globals, what is imported, and kinds of exports.
ghost use Rattle.std.specs.Prelude.{◌≡◌, [], None};
ghost use Rattle.wasm_encoder_base.specs.Types.{IsValType};
ghost use Rattle.wasm_encoder_items.specs.Views.{table_view, memory_view, global_view, entity_view, export_kind_view};
ghost use Rattle.wasm_layout.specs.IsModule.{IsLimits, IsTableType, IsEntity};
ghost use Rattle.wast_value_types.specs.ValueViews.{limits_tree, table_tree, memory_tree, global_tree};
ghost use Rattle.wast_imports.specs.ImportViews.{extern_tree};
ghost use Rattle.wast_exports.specs.ExportViews.{kind_view};
ghost use Rattle.wast_conversions.specs.Types.{limits_meant, table_meant, memory_meant, global_meant, extern_meant, export_kind_meant};
ghost use Rattle.wast_conversions.specs.Resolved.{RefResolved, ValResolved, ExternResolved};
ghost use Rattle.wast_conversions.specs.Covered.{table_forms, global_forms, extern_forms};

use crate::types::{ref_type, type_index, val_type};
use wasm_encoder_base::RefType;
use wasm_encoder_items::{EntityType, TagKind};
use wast_exports::ExportKind;
use wast_imports::{ItemKind, TagType};
use wast_value_types::{GlobalType, Limits, MemoryType, TableType};

/// The encoder's table type that a table type (6.4.12) stands for. Its limits are in elements.
#[tactic(auto, using(crate::proofs::Empty::back))]
pub fn table_type(ty: &TableType<'_>) -> wasm_encoder_items::TableType
    requires resolved { RefResolved (table_tree ty.now).element }
    requires covered { table_forms (table_tree ty.now) ≡ [] }
    ensures same { table_view result ≡ table_meant (table_tree ty.now) }
    ensures sound { IsTableType (table_meant (table_tree ty.now)) }
{
    table_of(ref_type(&ty.elem), ty.limits, ty.shared)
}

/// The type of tables of these elements, within these limits.
fn table_of(element_type: RefType, limits: Limits, shared: bool) -> wasm_encoder_items::TableType
    ensures element { result.element_type ≡ element_type }
    ensures limits { (table_view result).limits ≡ limits_meant (limits_tree limits) shared None }
    ensures sound { IsLimits (limits_meant (limits_tree limits) shared None) }
{
    wasm_encoder_items::TableType {
        element_type,
        table64: limits.is64,
        minimum: limits.min,
        maximum: limits.max,
        shared,
    }
}

/// The encoder's memory type that a memory type (6.4.11) stands for. Its limits are in pages; the size of a page, in bytes, is
/// by its logarithm, where one is written.
pub fn memory_type(ty: &MemoryType) -> wasm_encoder_items::MemoryType
    ensures same { memory_view result ≡ memory_meant (memory_tree ty.now) }
    ensures sound { IsLimits (memory_meant (memory_tree ty.now)) }
{
    memory_of(*ty)
}

/// The type of memories within the limits of this.
fn memory_of(ty: MemoryType) -> wasm_encoder_items::MemoryType
    ensures same { memory_view result ≡ memory_meant (memory_tree ty) }
    ensures sound { IsLimits (memory_meant (memory_tree ty)) }
{
    wasm_encoder_items::MemoryType {
        minimum: ty.limits.min,
        maximum: ty.limits.max,
        memory64: ty.limits.is64,
        shared: ty.shared,
        page_size_log2: ty.page_size_log2,
    }
}

/// The encoder's global type that a global type (6.4.10) stands for.
#[tactic(auto, using(crate::proofs::Empty::back))]
pub fn global_type(ty: &GlobalType<'_>) -> wasm_encoder_items::GlobalType
    requires resolved { ValResolved (global_tree ty.now).val_type }
    requires covered { global_forms (global_tree ty.now) ≡ [] }
    ensures same { global_view result ≡ global_meant (global_tree ty.now) }
    ensures sound { IsValType (global_meant (global_tree ty.now)).val_type }
{
    wasm_encoder_items::GlobalType {
        val_type: val_type(&ty.ty),
        mutable: ty.mutable,
        shared: ty.shared,
    }
}

/// The encoder's type of what is imported that an external type (6.4.13) stands for; a function and a tag are by the number of their type.
pub fn entity_type(kind: &ItemKind<'_>) -> EntityType
    requires resolved { ExternResolved (extern_tree kind.now) }
    requires covered { extern_forms (extern_tree kind.now) ≡ [] }
    ensures same { entity_view result ≡ extern_meant (extern_tree kind.now) }
    ensures sound { IsEntity (extern_meant (extern_tree kind.now)) }
{
    match kind {
        ItemKind::Func(ty) => EntityType::Function(type_index(ty)),
        ItemKind::FuncExact(_) => unreachable!(),
        ItemKind::Table(ty) => EntityType::Table(table_type(ty)),
        ItemKind::Memory(ty) => EntityType::Memory(memory_type(ty)),
        ItemKind::Global(ty) => EntityType::Global(global_type(ty)),
        ItemKind::Tag(TagType::Exception(ty)) => EntityType::Tag(wasm_encoder_items::TagType {
            kind: TagKind::Exception,
            func_type_idx: type_index(ty),
        }),
    }
}

/// The encoder's kind of export that a kind of what is exported (6.6, exports) is.
pub fn export_kind(kind: ExportKind) -> wasm_encoder_items::ExportKind
    ensures { export_kind_view result ≡ export_kind_meant (kind_view kind) }
{
    match kind {
        ExportKind::Func => wasm_encoder_items::ExportKind::Func,
        ExportKind::Table => wasm_encoder_items::ExportKind::Table,
        ExportKind::Memory => wasm_encoder_items::ExportKind::Memory,
        ExportKind::Global => wasm_encoder_items::ExportKind::Global,
        ExportKind::Tag => wasm_encoder_items::ExportKind::Tag,
    }
}
