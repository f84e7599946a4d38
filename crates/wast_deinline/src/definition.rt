//! Definitions, whatever they define.
ghost use Rattle.std.specs.Prelude.{◌≡◌, false, [], IfErr, IfOk};
ghost use Rattle.wast_exports.specs.ExportViews.{inline_export_tree, inline_import_tree, kind_view};
ghost use Rattle.wast_imports.specs.ImportViews.{extern_tree, head_tree};
ghost use Rattle.wast_module_fields.specs.FieldTree.{Define, Imported};
ghost use Rattle.wast_module_fields.specs.FuncViews.{func_type_tree};
ghost use Rattle.wast_module_fields.specs.ModuleFieldViews.{field_tree};
ghost use Rattle.wast_meaning.specs.Written.{field_of, has_segment, is_said, kind_of};
ghost use Rattle.wast_deinline.specs.Definitions.{defined_view, definition_view, is_definition, is_imported};

use std::alloc::Global;
use wast_imports::Head;
use wast_module_fields::{
    ExportKind, Func, FuncKind, FunctionType, Global as GlobalField, GlobalKind, GlobalType,
    Imports, InlineExport, InlineImport, ItemKind, ItemSig, Memory, MemoryKind, ModuleField, Table,
    TableKind, Tag, TagKind, TagType, TypeUse,
};
use wast_parser::{Id, NameAnnotation, Span};

/// A field that defines something.
#[derive(Drop)]
pub(crate) struct Definition<'a> {
    /// Where its keyword stands.
    pub(crate) span: Span,
    pub(crate) id: Option<Id<'a>>,
    pub(crate) name: Option<NameAnnotation<'a>>,
    pub(crate) exports: InlineExport<'a>,
    pub(crate) defined: Defined<'a>,
}

/// What is defined, and its type.
#[derive(Drop)]
pub(crate) enum Defined<'a> {
    Func(FuncKind<'a>, TypeUse<'a, FunctionType<'a>>),
    Table(TableKind<'a>),
    Memory(MemoryKind<'a>),
    Global(GlobalKind<'a>, GlobalType<'a>),
    Tag(TagKind<'a>, TagType<'a>),
}

impl<'a> Definition<'a> {
    /// The definition that a field is, or the field where it defines nothing.
    pub(crate) fn of(field: ModuleField<'a>) -> Result<Self, ModuleField<'a>>
        ensures definition { IfOk result (λ d. field_tree field.entry ≡ Define (definition_view d)) }
        ensures other { IfErr result (λ f. (f ≡ field.entry) × (is_definition (field_tree field.entry) ≡ false)) }
    {
        match field {
            ModuleField::Func(func) => {
                let (span, id, name, exports, kind, ty) = func.into_parts();
                let defined = Defined::Func(kind, ty);
                Ok(Definition {
                    span,
                    id,
                    name,
                    exports,
                    defined,
                })
            }
            ModuleField::Table(table) => {
                let (span, id, name, exports, kind) = table.into_parts();
                let defined = Defined::Table(kind);
                Ok(Definition {
                    span,
                    id,
                    name,
                    exports,
                    defined,
                })
            }
            ModuleField::Memory(memory) => {
                let (span, id, name, exports, kind) = memory.into_parts();
                let defined = Defined::Memory(kind);
                Ok(Definition {
                    span,
                    id,
                    name,
                    exports,
                    defined,
                })
            }
            ModuleField::Global(global) => {
                let (span, id, name, exports, ty, kind) = global.into_parts();
                let defined = Defined::Global(kind, ty);
                Ok(Definition {
                    span,
                    id,
                    name,
                    exports,
                    defined,
                })
            }
            ModuleField::Tag(tag) => {
                let (span, id, name, ty, exports, kind) = tag.into_parts();
                let defined = Defined::Tag(kind, ty);
                Ok(Definition {
                    span,
                    id,
                    name,
                    exports,
                    defined,
                })
            }
            other => Err(other),
        }
    }

    /// The field that it is.
    pub(crate) fn into_field(self) -> ModuleField<'a>
        ensures { field_tree result ≡ Define (definition_view self.entry) }
    {
        let Definition {
            span,
            id,
            name,
            exports,
            defined,
        } = self;
        match defined {
            Defined::Func(kind, ty) => ModuleField::Func(Func {
                span,
                id,
                name,
                exports,
                kind,
                ty,
            }),
            Defined::Table(kind) => ModuleField::Table(Table {
                span,
                id,
                name,
                exports,
                kind,
            }),
            Defined::Memory(kind) => ModuleField::Memory(Memory {
                span,
                id,
                name,
                exports,
                kind,
            }),
            Defined::Global(kind, ty) => ModuleField::Global(GlobalField {
                span,
                id,
                name,
                exports,
                ty,
                kind,
            }),
            Defined::Tag(kind, ty) => ModuleField::Tag(Tag {
                span,
                id,
                name,
                ty,
                exports,
                kind,
            }),
        }
    }

    /// Whether it is referred to once it is written out: by an export, or by its segment.
    pub(crate) fn is_said(&self) -> bool
        ensures { result ≡ is_said (definition_view self.now) }
    {
        !self.exports.names.is_empty() || self.defined.has_segment()
    }
}

impl<'a> Defined<'a> {
    /// What it is, as an export says it.
    pub(crate) fn kind(&self) -> ExportKind
        ensures { kind_view result ≡ kind_of (defined_view self.now) }
    {
        match self {
            Defined::Func(..) => ExportKind::Func,
            Defined::Table(_) => ExportKind::Table,
            Defined::Memory(_) => ExportKind::Memory,
            Defined::Global(..) => ExportKind::Global,
            Defined::Tag(..) => ExportKind::Tag,
        }
    }

    /// Whether its segment stands inline.
    pub(crate) fn has_segment(&self) -> bool
        ensures { result ≡ has_segment (defined_view self.now) }
    {
        match self {
            Defined::Table(TableKind::Inline { .. }) | Defined::Memory(MemoryKind::Inline { .. }) =>
                true,
            _ => false,
        }
    }

    /// A field of what has no segment inline, without exports: an import, where it is imported.
    pub(crate) fn into_field(self, alloc: Global, span: Span, head: Head<'a>) -> ModuleField<'a>
        ensures { has_segment (defined_view self.entry) ≡ false → field_tree result ≡ field_of span (head_tree head.entry).0 (head_tree head.entry).1 (defined_view self.entry) }
    {
        let Head { id, name } = head;
        match imported(self) {
            Ok((import, kind)) => {
                let InlineImport { module, field } = import;
                let sig = ItemSig {
                    span,
                    id,
                    name,
                    kind,
                };
                ModuleField::Import(Imports::single(span, module, field, sig))
            }
            Err(defined) => Definition {
                span,
                id,
                name,
                exports: no_exports(alloc),
                defined,
            }
            .into_field(),
        }
    }
}

/// What is imported and as what, or what is defined where it isn't imported.
fn imported<'a>(defined: Defined<'a>) -> Result<(InlineImport<'a>, ItemKind<'a>), Defined<'a>>
    ensures import { IfOk result (λ i. defined_view defined.entry ≡ Imported (inline_import_tree i.0).0 (inline_import_tree i.0).1 (extern_tree i.1)) }
    ensures other { IfErr result (λ d. (d ≡ defined.entry) × (is_imported (defined_view defined.entry) ≡ false)) }
{
    match defined {
        Defined::Func(kind, ty) => match kind {
            FuncKind::Import { import, is_exact } => Ok((import, func_item(is_exact, ty))),
            kind => Err(Defined::Func(kind, ty)),
        },
        Defined::Table(kind) => match kind {
            TableKind::Import { import, ty } => Ok((import, ItemKind::Table(ty))),
            kind => Err(Defined::Table(kind)),
        },
        Defined::Memory(kind) => match kind {
            MemoryKind::Import { import, ty } => Ok((import, ItemKind::Memory(ty))),
            kind => Err(Defined::Memory(kind)),
        },
        Defined::Global(kind, ty) => match kind {
            GlobalKind::Import(import) => Ok((import, ItemKind::Global(ty))),
            kind => Err(Defined::Global(kind, ty)),
        },
        Defined::Tag(kind, ty) => match kind {
            TagKind::Import(import) => Ok((import, ItemKind::Tag(ty))),
            kind => Err(Defined::Tag(kind, ty)),
        },
    }
}

/// An imported function of a type, or of exactly that type.
fn func_item<'a>(is_exact: bool, ty: TypeUse<'a, FunctionType<'a>>) -> ItemKind<'a>
    ensures { extern_tree result ≡ func_type_tree is_exact ty.entry }
{
    if is_exact {
        ItemKind::FuncExact(ty)
    } else {
        ItemKind::Func(ty)
    }
}

/// No export.
fn no_exports<'a>(alloc: Global) -> InlineExport<'a>
    ensures { inline_export_tree result ≡ [] }
{
    InlineExport {
        names: Vec::new(alloc),
    }
}
