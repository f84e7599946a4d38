//! Memories.
ghost use Rattle.std.specs.Prelude.{◌≡◌, ℕ, map, codes};
ghost use Rattle.wast_field_syntax.specs.Tokens.{Name};
ghost use Rattle.wast_field_syntax.specs.Grammar.{seen, seq, group};
ghost use Rattle.wast_field_syntax.specs.Lawful.{Lawful};
ghost use Rattle.wast_field_syntax.specs.State.{ahead, Keeps};
ghost use Rattle.wast_field_syntax.specs.Reading.{Gives};
ghost use Rattle.wast_value_types.specs.WordSyntax.{optional};
ghost use Rattle.wast_value_types.specs.ValueSyntax.{page_size};
ghost use Rattle.wast_field_syntax.specs.DataViews.{value_tree};
ghost use Rattle.wast_field_syntax.specs.FieldTree as spec;
ghost use Rattle.wast_field_syntax.specs.DataSyntax.{values};
ghost use Rattle.wast_field_syntax.specs.TableSyntax.{sizes, as_sized_memory, memory_with, memory_defined, memory};
ghost use Rattle.wast_memory_fields.specs.MemoryViews.{defined_memory, memory_definition};

use wast_exports::{InlineExport, InlineImport};
use wast_field_syntax::{
    DataVal, Error, Head, Id, LParen, Meaning, NameAnnotation, Parse, Parser, Span, closed,
    closed_or, full_list, parse_sizes, required,
};
use wast_value_types::keyword::Shared;
use wast_value_types::{Limits, MemoryType, address_type, optional, page_size};

/// A memory (6.6, memories): `(memory $m 1 2)`.
///
/// It is taken apart by [`Memory::into_parts`] alone.
pub struct Memory<'a> {
    /// Where the word `memory` stands.
    pub span: Span,
    pub id: Option<Id<'a>>,
    /// The name that an annotation gives it.
    pub name: Option<NameAnnotation<'a>>,
    /// The names under which it is exported.
    pub exports: InlineExport<'a>,
    pub kind: MemoryKind<'a>,
}

// By hand, so that what drops one is proved here once, and not in each crate that holds one.
impl Drop for Memory<'_> {
    fn drop(self) {
        let Memory {
            span: _,
            id: _,
            name: _,
            exports: _,
            kind: _,
        } = self;
    }
}

/// What a value of [`Memory`] holds, in the order of its fields.
type MemoryParts<'a> = (
    Span,
    Option<Id<'a>>,
    Option<NameAnnotation<'a>>,
    InlineExport<'a>,
    MemoryKind<'a>,
);

impl<'a> Memory<'a> {
    /// Its fields, in their order.
    pub fn into_parts(self) -> MemoryParts<'a>
        ensures { result ≡ (self.entry.span, self.entry.id, self.entry.name, self.entry.exports, self.entry.kind) }
    {
        let Memory {
            span,
            id,
            name,
            exports,
            kind,
        } = self;
        (span, id, name, exports, kind)
    }
}

/// Where a memory and its contents come from.
#[derive(Drop)]
pub enum MemoryKind<'a> {
    /// `(memory (import "module" "field") 1)`
    Import {
        import: InlineImport<'a>,
        ty: MemoryType,
    },
    /// One of zeros.
    Normal(MemoryType),
    /// One with a segment that gives its size: `(memory (data "bytes"))`.
    Inline {
        /// Whether its addresses have 64 bits.
        is_64: bool,
        data: Vec<DataVal<'a>>,
        /// The page size, where one is written, is 2 to this power, in bytes.
        page_size_log2: Option<u32>,
    },
}

impl<'a> Meaning for Memory<'a> {
    ghost Tree = { spec.Definition Name ℕ };

    ghost tree = { memory_definition };

    ghost syntax = { memory };

    fn lawful()
        ensures { Lawful (memory {N = Name} {P = ℕ}) }
    {}
}

impl<'a> Parse<'a> for Memory<'a> {
    fn parse(parser: &mut Parser<'a>) -> Result<Self, Error> {
        LParen::parse(parser)?;
        let span = parser.word("memory")?;
        let head = Head::parse(parser)?;
        let exports = InlineExport::parse(parser)?;
        let kind = parse_defined(parser)?;
        let (head, exports, kind) = closed(parser, (head, exports, kind))?;
        Ok(Memory {
            span,
            id: head.id,
            name: head.name,
            exports,
            kind,
        })
    }
}

/// Reads what stands behind the exports of a memory.
fn parse_defined<'a>(parser: &mut Parser<'a>) -> Result<MemoryKind<'a>, Error>
    ensures read { Gives defined_memory result parser.new (memory_defined.reads (ahead parser.old)) }
    ensures keeps { Keeps parser.old parser.new }
{
    if parser.peek::<InlineImport<'a>>()? {
        let import = InlineImport::parse(parser)?;
        let ty = MemoryType::parse(parser)?;
        Ok(MemoryKind::Import { import, ty })
    } else {
        let is_64 = address_type(parser)?;
        parse_with(parser, is_64)
    }
}

/// Reads what stands behind the address type of a memory that is not imported.
fn parse_with<'a>(parser: &mut Parser<'a>, is_64: bool) -> Result<MemoryKind<'a>, Error>
    ensures read { Gives defined_memory result parser.new ((memory_with is_64).reads (ahead parser.old)) }
    ensures keeps { Keeps parser.old parser.new }
{
    if parser.peek::<u64>()? {
        parse_sized(parser, is_64)
    } else {
        let page_size_log2 = page_size(parser)?;
        let data = parse_data(parser)?;
        Ok(MemoryKind::Inline {
            is_64,
            data,
            page_size_log2,
        })
    }
}

/// Reads the rest of a memory type, behind the address type.
fn parse_sized<'a>(parser: &mut Parser<'a>, is_64: bool) -> Result<MemoryKind<'a>, Error>
    ensures read { Gives defined_memory result parser.new ((seen (as_sized_memory is_64) (seq sizes (seq (optional (codes "shared")) page_size))).reads (ahead parser.old)) }
    ensures keeps { Keeps parser.old parser.new }
{
    let (min, max) = parse_sizes(parser)?;
    let shared = optional::<Shared>(parser)?;
    let page_size_log2 = page_size(parser)?;
    Ok(MemoryKind::Normal(MemoryType {
        limits: Limits {
            is64: is_64,
            min,
            max,
        },
        shared,
        page_size_log2,
    }))
}

/// Reads `(data ..)`.
fn parse_data<'a>(parser: &mut Parser<'a>) -> Result<Vec<DataVal<'a>>, Error>
    ensures read { Gives (λ d. map value_tree d.items) result parser.new ((group (codes "data") values).reads (ahead parser.old)) }
    ensures keeps { Keeps parser.old parser.new }
{
    required::<LParen>(parser, "expected a number of pages or `(data`")?;
    parser.word("data")?;
    let data = full_list(parser)?;
    closed_or(parser, data, "expected a string or `)`")
}
