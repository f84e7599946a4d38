//! Data segments.
ghost use Rattle.std.specs.Prelude.{◌≡◌, ℕ, map};
ghost use Rattle.wast_field_syntax.specs.Tokens.{Name};
ghost use Rattle.wast_field_syntax.specs.Look.{ask};
ghost use Rattle.wast_field_syntax.specs.Lawful.{Lawful};
ghost use Rattle.wast_field_syntax.specs.State.{ahead, Keeps};
ghost use Rattle.wast_field_syntax.specs.Reading.{Asks, Gives};
ghost use Rattle.wast_field_syntax.specs.DataViews.{value_tree};
ghost use Rattle.wast_field_syntax.specs.FieldTree as spec;
ghost use Rattle.wast_field_syntax.specs.DataSyntax.{active_starts, active, segment, data_segment};
ghost use Rattle.wast_memory_fields.specs.MemoryViews.{mode_tree, data_tree};

use wast_exports::keyword;
use wast_field_syntax::keyword::Offset;
use wast_field_syntax::{
    DataVal, Error, Expression, Head, Id, Index, InstructionGroup, LParen, Meaning, NameAnnotation,
    Parse, Parser, Span, UseOf, closed_or, full_list, or_begins, parse_use,
};
use wast_value_types::Group;

/// A data segment (6.6, data segments): `(data (i32.const 8) "bytes")`.
///
/// It is taken apart by [`Data::into_parts`] alone.
pub struct Data<'a> {
    /// Where the word `data` stands.
    pub span: Span,
    pub id: Option<Id<'a>>,
    /// The name that an annotation gives it.
    pub name: Option<NameAnnotation<'a>>,
    pub kind: DataKind<'a>,
    pub data: Vec<DataVal<'a>>,
}

// By hand, so that what drops one is proved here once, and not in each crate that holds one.
impl Drop for Data<'_> {
    fn drop(self) {
        let Data {
            span: _,
            id: _,
            name: _,
            kind: _,
            data: _,
        } = self;
    }
}

/// What a value of [`Data`] holds, in the order of its fields.
type DataParts<'a> = (
    Span,
    Option<Id<'a>>,
    Option<NameAnnotation<'a>>,
    DataKind<'a>,
    Vec<DataVal<'a>>,
);

impl<'a> Data<'a> {
    /// Its fields, in their order.
    pub fn into_parts(self) -> DataParts<'a>
        ensures { result ≡ (self.entry.span, self.entry.id, self.entry.name, self.entry.kind, self.entry.data) }
    {
        let Data {
            span,
            id,
            name,
            kind,
            data,
        } = self;
        (span, id, name, kind, data)
    }
}

/// What is done with a data segment when its module is instantiated.
#[derive(Drop)]
pub enum DataKind<'a> {
    /// Nothing.
    Passive,
    /// It is copied into a memory, the first where none is written, from the offset on.
    Active {
        memory: Option<Index<'a>>,
        offset: Expression<'a>,
    },
}

impl<'a> Meaning for Data<'a> {
    ghost Tree = { spec.Data Name ℕ };

    ghost tree = { data_tree };

    ghost syntax = { data_segment };

    fn lawful()
        ensures { Lawful (data_segment {N = Name} {P = ℕ}) }
    {}
}

impl<'a> Parse<'a> for Data<'a> {
    fn parse(parser: &mut Parser<'a>) -> Result<Self, Error> {
        LParen::parse(parser)?;
        let span = parser.word("data")?;
        let head = Head::parse(parser)?;
        let (kind, data) = parse_segment(parser)?;
        let (head, kind, data) = closed_or(parser, (head, kind, data), "expected a string or `)`")?;
        Ok(Data {
            span,
            id: head.id,
            name: head.name,
            kind,
            data,
        })
    }
}

/// Reads what stands behind what a segment is called.
fn parse_segment<'a>(parser: &mut Parser<'a>) -> Result<(DataKind<'a>, Vec<DataVal<'a>>), Error>
    ensures read { Gives (λ s. (mode_tree s.0, map value_tree s.1.items)) result parser.new (segment.reads (ahead parser.old)) }
    ensures keeps { Keeps parser.old parser.new }
{
    if peek_active(parser)? {
        parse_active(parser)
    } else {
        let data = full_list(parser)?;
        Ok((DataKind::Passive, data))
    }
}

/// Whether an active segment begins here.
fn peek_active(parser: &Parser<'_>) -> Result<bool, Error>
    ensures { Asks result parser.now.source (ask active_starts (ahead parser.now)) }
{
    let memory = parser.peek::<UseOf<keyword::Memory>>();
    let offset = or_begins::<Group<Offset>>(memory, parser);
    or_begins::<InstructionGroup>(offset, parser)
}

/// Reads the memory of an active segment, its offset and its values.
fn parse_active<'a>(parser: &mut Parser<'a>) -> Result<(DataKind<'a>, Vec<DataVal<'a>>), Error>
    ensures read { Gives (λ s. (mode_tree s.0, map value_tree s.1.items)) result parser.new (active.reads (ahead parser.old)) }
    ensures keeps { Keeps parser.old parser.new }
{
    let memory = parse_use::<keyword::Memory>(parser)?;
    let offset = Expression::parse_offset(parser)?;
    let data = full_list(parser)?;
    Ok((DataKind::Active { memory, offset }, data))
}
