//! Inline imports, exports and segments as fields of their own.
ghost use Rattle.std.specs.Prelude.{◌≡◌, ◌+◌, ◌-◌, ◌^◌, ◌<◌, ◌≤◌, ◌++◌, false, [], ◌∷◌, map, length, option_map, option_to_list, unwrap_or, is_some, if◌then◌else◌, true, IfOk, IsOk, OnOk, count_by};
ghost use Rattle.std.specs.List.{list_all};
ghost use Rattle.wast_parser.specs.Identifiers.{identifier_tree};
ghost use Rattle.wast_exports.specs.ExportViews.{export_name_tree, inline_export_tree, kind_view};
ghost use Rattle.wast_imports.specs.ImportViews.{head_tree};
ghost use Rattle.wast_module_fields.specs.ModuleFieldViews.{field_tree};
ghost use Rattle.wast_module_fields.specs.FieldTree.{Define};
ghost use Rattle.wast_meaning.specs.Written.{by_counter, definition_out, export_of, field_of, field_out, has_segment, takes_name, written_out};
ghost use Rattle.wast_meaning.specs.Made.{made};
ghost use Rattle.wast_deinline.specs.Definitions.{defined_view, definition_view, parts_out, stands_alone};

use crate::definition::Definition;
use crate::split::{Split, set_apart};
use std::alloc::{AllocError, Global};
use std::mem;
use wast_exports::ExportName;
use wast_imports::Head;
use wast_module_fields::{
    Export, ExportKind, FuncKind, GlobalKind, InlineExport, MemoryKind, ModuleField, TableKind,
    TagKind,
};
use wast_parser::{Gensym, Id, Index, Span};

/// The fields, written out: none has exports or a segment inline, and what is imported is an import. The export fields of a definition
/// stand behind it, and its segment, active at 0, behind these. They have its name, or where none is written one that is made; and the
/// place of its keyword.
///
/// A memory has as many pages as hold its data, and a table as many elements as are written; the address type is kept. Takes time in
/// proportion to what the fields hold, and for each export to the length of its field's name.
///
/// Each field takes one name at most, and there is room for these. A name that is taken is fresh where each name of the fields that was
/// made is one that `gensym` made since its last reset; else it may be that of another item. Refused for want of memory, and, told as
/// that, where the data of a memory are 2^64 bytes or more, of which no number of 64 bits tells how many they are; the fields are gone
/// then, and names may have been made, no more than these fields take.
pub fn run<'a>(
    alloc: Global,
    fields: Vec<ModuleField<'a>>,
    gensym: &mut Gensym,
) -> Result<Vec<ModuleField<'a>>, AllocError>
    requires { gensym.old + length fields.items < 2 ^ 32 }
    ensures written { IfOk result (λ out. let trees = map field_tree fields.entry.items in map field_tree out.items ≡ written_out (by_counter made gensym.old trees) trees) }
    ensures counted { OnOk result (gensym.new ≡ gensym.old + count_by takes_name (map field_tree fields.entry.items)) }
    ensures rises { gensym.old ≤ gensym.new }
    ensures bounded { gensym.new ≤ gensym.old + count_by takes_name (map field_tree fields.entry.items) }
{
    let mut out = Vec::new(alloc);
    for field in fields {
        write_out(alloc, field, gensym, &mut out)?;
    }
    Ok(out)
}

/// The same in the fields' place; refused, they may be gone. Where nothing stands inline in any of them, they are left as they are and
/// no memory is asked for.
pub fn run_in_place<'a>(
    alloc: Global,
    fields: &mut Vec<ModuleField<'a>>,
    gensym: &mut Gensym,
) -> Result<(), AllocError>
    requires { gensym.old + length fields.old.items < 2 ^ 32 }
    ensures written { OnOk result (map field_tree fields.new.items ≡ written_out (by_counter made gensym.old (map field_tree fields.old.items)) (map field_tree fields.old.items)) }
    ensures alone { list_all stands_alone (map field_tree fields.old.items) ≡ true → IsOk result × (fields.new ≡ fields.old) }
    ensures counted { OnOk result (gensym.new ≡ gensym.old + count_by takes_name (map field_tree fields.old.items)) }
    ensures rises { gensym.old ≤ gensym.new }
    ensures bounded { gensym.new ≤ gensym.old + count_by takes_name (map field_tree fields.old.items) }
{
    if all_stand_alone(fields) {
        return Ok(());
    }
    let taken = std::mem::replace(fields, Vec::new(alloc));
    match run(alloc, taken, gensym) {
        Ok(out) => {
            discard(std::mem::replace(fields, out));
            Ok(())
        }
        Err(e) => Err(e),
    }
}

/// Whether nothing stands inline in any of the fields.
fn all_stand_alone(fields: &[ModuleField<'_>]) -> bool
    ensures { result ≡ list_all stands_alone (map field_tree fields.now) }
{
    for field in fields {
        if !stands_alone(field) {
            return false;
        }
    }
    true
}

/// Whether nothing of a field stands inline.
fn stands_alone(field: &ModuleField<'_>) -> bool
    ensures { result ≡ stands_alone (field_tree field.now) }
{
    match field {
        ModuleField::Func(func) => {
            func.exports.names.is_empty() && !matches!(func.kind, FuncKind::Import { .. })
        }
        ModuleField::Table(table) => {
            table.exports.names.is_empty() && matches!(table.kind, TableKind::Normal { .. })
        }
        ModuleField::Memory(memory) => {
            memory.exports.names.is_empty() && matches!(memory.kind, MemoryKind::Normal(_))
        }
        ModuleField::Global(global) => {
            global.exports.names.is_empty() && !matches!(global.kind, GlobalKind::Import(_))
        }
        ModuleField::Tag(tag) => {
            tag.exports.names.is_empty() && !matches!(tag.kind, TagKind::Import(_))
        }
        ModuleField::TypeItem(_)
        | ModuleField::Rec(_)
        | ModuleField::Import(_)
        | ModuleField::Export(_)
        | ModuleField::Start(_)
        | ModuleField::Elem(_)
        | ModuleField::Data(_)
        | ModuleField::Custom(_) => true,
    }
}

/// Lets fields go. What drops fields is proved once, here: a crate that hands them over needs no proof of its own.
pub fn discard(_fields: Vec<ModuleField<'_>>) {}

/// Appends what a field is written out as.
fn write_out<'a>(
    alloc: Global,
    field: ModuleField<'a>,
    gensym: &mut Gensym,
    out: &mut Vec<ModuleField<'a>>,
) -> Result<(), AllocError>
    requires { gensym.old < 2 ^ 32 - 1 }
    ensures written { OnOk result (map field_tree out.new.items ≡ map field_tree out.old.items ++ field_out (made gensym.old) (field_tree field.entry)) }
    ensures counted { gensym.new ≡ (if takes_name (field_tree field.entry) then gensym.old + 1 else gensym.old) }
{
    match Definition::of(field) {
        Ok(definition) => write_definition(alloc, definition, gensym, out),
        Err(other) => push(out, other),
    }
}

/// Appends what a definition is written out as.
fn write_definition<'a>(
    alloc: Global,
    definition: Definition<'a>,
    gensym: &mut Gensym,
    out: &mut Vec<ModuleField<'a>>,
) -> Result<(), AllocError>
    requires { gensym.old < 2 ^ 32 - 1 }
    ensures written { OnOk result (map field_tree out.new.items ≡ map field_tree out.old.items ++ definition_out (made gensym.old) (definition_view definition.entry)) }
    ensures counted { gensym.new ≡ (if takes_name (Define (definition_view definition.entry)) then gensym.old + 1 else gensym.old) }
{
    let is_said = definition.is_said();
    let Definition {
        span,
        id,
        name,
        exports,
        defined,
    } = definition;
    if is_said {
        let id = own_id(gensym, span, id);
        let named = Definition {
            span,
            id: Some(id.clone(alloc)?),
            name,
            exports,
            defined,
        };
        write_parts(alloc, named, &id, out)
    } else {
        push(out, defined.into_field(alloc, span, Head { id, name }))
    }
}

/// The identifier of a field that is referred to: its own, or one that is made at its place.
fn own_id<'a>(gensym: &mut Gensym, span: Span, id: Option<Id<'a>>) -> Id<'a>
    requires { gensym.old < 2 ^ 32 - 1 }
    ensures named { identifier_tree result ≡ unwrap_or (option_map identifier_tree id.entry) (made gensym.old, span) }
    ensures counted { gensym.new ≡ (if is_some id.entry then gensym.old else gensym.old + 1) }
{
    match id {
        Some(id) => id,
        None => match gensym.generate(span) {
            Ok(id) => id,
            Err(_) => unreachable!(),
        },
    }
}

/// Appends a definition that has this name, then its exports, then its segment.
fn write_parts<'a>(
    alloc: Global,
    definition: Definition<'a>,
    id: &Id<'a>,
    out: &mut Vec<ModuleField<'a>>,
) -> Result<(), AllocError>
    ensures { OnOk result (map field_tree out.new.items ≡ map field_tree out.old.items ++ parts_out (identifier_tree id.now) (definition_view definition.entry)) }
{
    let Definition {
        span,
        id: own,
        name,
        exports,
        defined,
    } = definition;
    let kind = defined.kind();
    let split = set_apart(alloc, span, id, defined)?;
    let head = Head { id: own, name };
    push_split(
        alloc,
        span,
        head,
        split,
        Exported { kind, exports },
        id,
        out,
    )
}

/// The exports of a field, and what they say that it is.
#[derive(Drop)]
struct Exported<'a> {
    kind: ExportKind,
    exports: InlineExport<'a>,
}

/// Appends the field of what is defined, its exports and its segment.
fn push_split<'a>(
    alloc: Global,
    span: Span,
    head: Head<'a>,
    split: Split<'a>,
    exported: Exported<'a>,
    id: &Id<'a>,
    out: &mut Vec<ModuleField<'a>>,
) -> Result<(), AllocError>
    ensures { has_segment (defined_view split.entry.alone) ≡ false → OnOk result (map field_tree out.new.items ≡ map field_tree out.old.items ++ (field_of span (head_tree head.entry).0 (head_tree head.entry).1 (defined_view split.entry.alone) ∷ map (export_of span (kind_view exported.entry.kind) (identifier_tree id.now)) (inline_export_tree exported.entry.exports) ++ map field_tree (option_to_list split.entry.segment))) }
{
    let Split { alone, segment } = split;
    match push(out, alone.into_field(alloc, span, head)) {
        Ok(()) => push_behind(alloc, span, exported, id, segment, out),
        Err(e) => {
            mem::drop(segment);
            Err(e)
        }
    }
}

/// Appends the exports of a field, and its segment.
fn push_behind<'a>(
    alloc: Global,
    span: Span,
    exported: Exported<'a>,
    id: &Id<'a>,
    segment: Option<ModuleField<'a>>,
    out: &mut Vec<ModuleField<'a>>,
) -> Result<(), AllocError>
    ensures { OnOk result (map field_tree out.new.items ≡ map field_tree out.old.items ++ (map (export_of span (kind_view exported.entry.kind) (identifier_tree id.now)) (inline_export_tree exported.entry.exports) ++ map field_tree (option_to_list segment.entry))) }
{
    let Exported { kind, exports } = exported;
    match push_exports(alloc, span, kind, id, exports, out) {
        Ok(()) => push_some(out, segment),
        Err(e) => {
            mem::drop(segment);
            Err(e)
        }
    }
}

/// Appends the exports of a field that has this name.
fn push_exports<'a>(
    alloc: Global,
    span: Span,
    kind: ExportKind,
    id: &Id<'a>,
    exports: InlineExport<'a>,
    out: &mut Vec<ModuleField<'a>>,
) -> Result<(), AllocError>
    ensures { OnOk result (map field_tree out.new.items ≡ map field_tree out.old.items ++ map (export_of span (kind_view kind) (identifier_tree id.now)) (inline_export_tree exports.entry)) }
{
    for export in exports.names {
        match push_export(alloc, span, kind, id, export, out) {
            Ok(()) => {}
            Err(e) => return Err(e),
        }
    }
    Ok(())
}

/// Appends an export of a field that has this name.
fn push_export<'a>(
    alloc: Global,
    span: Span,
    kind: ExportKind,
    id: &Id<'a>,
    export: ExportName<'a>,
    out: &mut Vec<ModuleField<'a>>,
) -> Result<(), AllocError>
    ensures { OnOk result (map field_tree out.new.items ≡ map field_tree out.old.items ++ export_of span (kind_view kind) (identifier_tree id.now) (export_name_tree export.entry) ∷ []) }
{
    let own = id.clone(alloc)?;
    push(out, export_field(span, kind, own, export))
}

/// An export of what has this name.
fn export_field<'a>(
    span: Span,
    kind: ExportKind,
    own: Id<'a>,
    export: ExportName<'a>,
) -> ModuleField<'a>
    ensures { field_tree result ≡ export_of span (kind_view kind) (identifier_tree own.entry) (export_name_tree export.entry) }
{
    ModuleField::Export(Export {
        span,
        name: export.name,
        kind,
        item: Index::Id(own),
    })
}

/// Appends a field.
fn push<'a>(out: &mut Vec<ModuleField<'a>>, field: ModuleField<'a>) -> Result<(), AllocError>
    ensures { OnOk result (map field_tree out.new.items ≡ map field_tree out.old.items ++ field_tree field.entry ∷ []) }
{
    out.push(field)?;
    Ok(())
}

/// Appends a field where there is one.
fn push_some<'a>(
    out: &mut Vec<ModuleField<'a>>,
    field: Option<ModuleField<'a>>,
) -> Result<(), AllocError>
    ensures { OnOk result (map field_tree out.new.items ≡ map field_tree out.old.items ++ map field_tree (option_to_list field.entry)) }
{
    match field {
        Some(field) => push(out, field),
        None => Ok(()),
    }
}
