//! Tables and memories without the segments that stand inline.
ghost use Rattle.std.specs.Prelude.{◌≡◌, ℕ, Option, [], ◌∷◌, map, option_to_list, IfOk};
ghost use Rattle.wast_grammar.specs.Tokens.{Name};
ghost use Rattle.wast_parser.specs.Identifiers.{identifier_tree};
ghost use Rattle.wast_data.specs.DataViews.{value_tree};
ghost use Rattle.wast_core_instr.specs.ExpressionViews.{expression_tree};
ghost use Rattle.wast_value_types.specs.ValueTree.{RefType};
ghost use Rattle.wast_module_fields.specs.FieldTree.{MemoryOf, TableOf};
ghost use Rattle.wast_module_fields.specs.ElemViews.{elements_tree};
ghost use Rattle.wast_module_fields.specs.ModuleFieldViews.{field_tree};
ghost use Rattle.wast_meaning.specs.Written.{alone, segment_of, zero_offset};
ghost use Rattle.wast_deinline.specs.Definitions.{defined_view};

use crate::definition::Defined;
use crate::sizes::{elements_len, exactly, pages, total_len};
use std::alloc::{AllocError, Global};
use wast_module_fields::{
    Data, DataKind, DataVal, Elem, ElemKind, ElemPayload, Expression, Instruction, MemoryKind,
    MemoryType, ModuleField, TableKind, TableType,
};
use wast_parser::{Id, Index, Span};

/// What is defined, and its segment as a field of its own.
#[derive(Drop)]
pub(crate) struct Split<'a> {
    pub(crate) alone: Defined<'a>,
    pub(crate) segment: Option<ModuleField<'a>>,
}

/// What is defined by the field that has this keyword and this name, without its segment, which is active at 0 of the table or memory of
/// that name. Refused for want of memory, and where a memory's data are 2^64 bytes or more.
pub(crate) fn set_apart<'a>(
    alloc: Global,
    span: Span,
    id: &Id<'a>,
    defined: Defined<'a>,
) -> Result<Split<'a>, AllocError>
    ensures alone { IfOk result (λ s. defined_view s.alone ≡ alone (defined_view defined.entry)) }
    ensures segment { IfOk result (λ s. map field_tree (option_to_list s.segment) ≡ segment_of span (identifier_tree id.now) (defined_view defined.entry)) }
{
    match defined {
        Defined::Table(
            TableKind::Inline {
                is_64,
                elem,
                payload,
            },
        ) => {
            let ty = TableType {
                limits: exactly(is_64, elements_len(&payload) as u64),
                elem,
                shared: false,
            };
            let segment = elem_segment(alloc, span, id, is_64, payload)?;
            Ok(Split {
                alone: Defined::Table(TableKind::Normal {
                    ty,
                    init_expr: None,
                }),
                segment: Some(segment),
            })
        }
        Defined::Memory(
            MemoryKind::Inline {
                is_64,
                data,
                page_size_log2,
            },
        ) => {
            let size = pages(total_len(&data)?, page_size_log2);
            let ty = MemoryType {
                limits: exactly(is_64, size),
                shared: false,
                page_size_log2,
            };
            let segment = data_segment(alloc, span, id, is_64, data)?;
            Ok(Split {
                alone: Defined::Memory(MemoryKind::Normal(ty)),
                segment: Some(segment),
            })
        }
        alone => Ok(Split {
            alone,
            segment: None,
        }),
    }
}

/// The segment of a table, at 0 of it.
fn elem_segment<'a>(
    alloc: Global,
    span: Span,
    id: &Id<'a>,
    is_64: bool,
    payload: ElemPayload<'a>,
) -> Result<ModuleField<'a>, AllocError>
    ensures { IfOk result (λ f. (t : RefType Name ℕ) → field_tree f ∷ [] ≡ segment_of span (identifier_tree id.now) (TableOf is_64 t (elements_tree payload.entry))) }
{
    let table = Index::Id(id.clone(alloc)?);
    let offset = zero_offset(alloc, is_64)?;
    Ok(ModuleField::Elem(Elem {
        span,
        id: None,
        name: None,
        kind: ElemKind::Active {
            table: Some(table),
            offset,
        },
        payload,
    }))
}

/// The segment of a memory, at 0 of it.
fn data_segment<'a>(
    alloc: Global,
    span: Span,
    id: &Id<'a>,
    is_64: bool,
    data: Vec<DataVal<'a>>,
) -> Result<ModuleField<'a>, AllocError>
    ensures { IfOk result (λ f. (page : Option ℕ) → field_tree f ∷ [] ≡ segment_of span (identifier_tree id.now) (MemoryOf is_64 page (map value_tree «data».entry.items))) }
{
    let memory = Index::Id(id.clone(alloc)?);
    let offset = zero_offset(alloc, is_64)?;
    Ok(ModuleField::Data(Data {
        span,
        id: None,
        name: None,
        kind: DataKind::Active {
            memory: Some(memory),
            offset,
        },
        data,
    }))
}

/// The address 0.
fn zero_offset<'a>(alloc: Global, is_64: bool) -> Result<Expression<'a>, AllocError>
    ensures { IfOk result (λ e. expression_tree e ≡ zero_offset is_64) }
{
    if is_64 {
        Expression::one(alloc, Instruction::I64Const(0))
    } else {
        Expression::one(alloc, Instruction::I32Const(0))
    }
}
