//! Imports stand before definitions.

ghost use Rattle.std.specs.Prelude.{◌≡◌, ◌⊎◌, true, false, is_some, OnErr, map, option_map};
ghost use Rattle.std.specs.Option.{option_or};
ghost use Rattle.wast_parser.specs.Reading.{out_of_memory};
ghost use Rattle.wast_module_fields.specs.ModuleFieldViews.{field_tree};
ghost use Rattle.wast_names.specs.Demand.{Answers, ImportAfter, is_met, told};
ghost use Rattle.wast_names.specs.Walk.{first_unmet};
ghost use Rattle.wast_meaning.specs.Demands.{definition_word, import_place, nearest, order_demand, order_demands};
ghost use Rattle.wast_spaces.specs.Views.{space_of};

use std::alloc::Global;
use wast_module_fields::{
    ExportKind, FuncKind, GlobalKind, MemoryKind, ModuleField, TableKind, TagKind,
};
use wast_parser::{Error, Span};

/// Refuses the first import behind a definition of a function, table, memory, global or tag: by `import after function`, where the
/// definition that stands nearest before it is of a function, at the field of the import, which may be inline; or for want of memory, where
/// none is found for this message. Where no import stands so, no memory is asked for.
pub fn check_order(alloc: Global, fields: &[ModuleField<'_>]) -> Result<(), Error>
    ensures answers { Answers result (order_demands (map field_tree fields.now)) }
    ensures exact { OnErr result (is_some (first_unmet is_met (order_demands (map field_tree fields.now))) ≡ true) }
{
    let mut nearest: Option<ExportKind> = None;
    for field in fields {
        refuse_import(alloc, nearest, field)?;
        nearest = defined(field).or(nearest);
    }
    Ok(())
}

/// Refuses an import behind a definition of this kind.
fn refuse_import(
    alloc: Global,
    nearest: Option<ExportKind>,
    field: &ModuleField<'_>,
) -> Result<(), Error>
    ensures answers { Answers result (order_demand (option_map space_of nearest) (field_tree field.now)) }
    ensures exact { OnErr result (is_some (first_unmet is_met (order_demand (option_map space_of nearest) (field_tree field.now))) ≡ true) }
{
    match (import_place(field), nearest) {
        (Some(place), Some(kind)) => Err(import_after(alloc, place, kind)),
        _ => Ok(()),
    }
}

/// Where an import stands: a field of its own, or one that has it inline.
fn import_place(field: &ModuleField<'_>) -> Option<Span>
    ensures { result ≡ import_place (field_tree field.now) }
{
    match field {
        ModuleField::Import(imports) => Some(imports.span),
        ModuleField::Func(func) => match &func.kind {
            FuncKind::Import { .. } => Some(func.span),
            FuncKind::Inline { .. } => None,
        },
        ModuleField::Table(table) => match &table.kind {
            TableKind::Import { .. } => Some(table.span),
            TableKind::Normal { .. } | TableKind::Inline { .. } => None,
        },
        ModuleField::Memory(memory) => match &memory.kind {
            MemoryKind::Import { .. } => Some(memory.span),
            MemoryKind::Normal(_) | MemoryKind::Inline { .. } => None,
        },
        ModuleField::Global(global) => match &global.kind {
            GlobalKind::Import(_) => Some(global.span),
            GlobalKind::Inline(_) => None,
        },
        ModuleField::Tag(tag) => match &tag.kind {
            TagKind::Import(_) => Some(tag.span),
            TagKind::Inline => None,
        },
        _ => None,
    }
}

/// The error that an import stands at this place behind a definition of a kind; or want of memory for the message.
fn import_after(alloc: Global, span: Span, kind: ExportKind) -> Error
    ensures { (result ≡ out_of_memory) ⊎ (result ≡ told (record { place = span; complaint = ImportAfter (definition_word (space_of kind)); holds = false })) }
{
    let word = definition_word(kind);
    match format!(in alloc; "import after {word}") {
        Ok(text) => Error::new(span, text),
        Err(e) => Error::from(e),
    }
}

/// What a definition of a kind is called in messages.
fn definition_word(kind: ExportKind) -> &'static str
    ensures { result.now ≡ definition_word (space_of kind) }
{
    match kind {
        ExportKind::Func => "function",
        ExportKind::Table => "table",
        ExportKind::Memory => "memory",
        ExportKind::Global => "global",
        ExportKind::Tag => "tag",
    }
}

/// What a field defines, where that isn't imported.
fn defined(field: &ModuleField<'_>) -> Option<ExportKind>
    ensures { (before : _) → nearest before (field_tree field.now) ≡ option_or (option_map space_of result) before }
{
    match field {
        ModuleField::Func(func) => match &func.kind {
            FuncKind::Import { .. } => None,
            FuncKind::Inline { .. } => Some(ExportKind::Func),
        },
        ModuleField::Table(table) => match &table.kind {
            TableKind::Import { .. } => None,
            TableKind::Normal { .. } | TableKind::Inline { .. } => Some(ExportKind::Table),
        },
        ModuleField::Memory(memory) => match &memory.kind {
            MemoryKind::Import { .. } => None,
            MemoryKind::Normal(_) | MemoryKind::Inline { .. } => Some(ExportKind::Memory),
        },
        ModuleField::Global(global) => match &global.kind {
            GlobalKind::Import(_) => None,
            GlobalKind::Inline(_) => Some(ExportKind::Global),
        },
        ModuleField::Tag(tag) => match &tag.kind {
            TagKind::Import(_) => None,
            TagKind::Inline => Some(ExportKind::Tag),
        },
        _ => None,
    }
}
