//! Element segments.
ghost use Rattle.std.specs.Prelude.{◌≡◌, ℕ};
ghost use Rattle.wast_field_syntax.specs.Tokens.{Name};
ghost use Rattle.wast_field_syntax.specs.Look.{ask};
ghost use Rattle.wast_field_syntax.specs.Grammar.{either, seen};
ghost use Rattle.wast_field_syntax.specs.Lawful.{Lawful};
ghost use Rattle.wast_field_syntax.specs.State.{ahead, Keeps};
ghost use Rattle.wast_field_syntax.specs.Reading.{Asks, Gives};
ghost use Rattle.wast_field_syntax.specs.FieldTree as spec;
ghost use Rattle.wast_field_syntax.specs.DefinitionSyntax.{elem_offset};
ghost use Rattle.wast_field_syntax.specs.ElemSyntax.{list_starts, indices, elem_list, active, segment, elem};
ghost use Rattle.wast_field_syntax.specs.ExpressionViews.{expression_tree};
ghost use Rattle.wast_table_fields.specs.ElemViews.{elements_tree, mode_tree, elem_tree};

use crate::element::{parse_elements, parse_led_or_plain};
use wast_exports::keyword::{Func, Table};
use wast_field_syntax::keyword::{Declare, Offset};
use wast_field_syntax::{
    Error, Expression, Head, Id, Index, Keyword, LParen, Meaning, NameAnnotation, Parse, Parser,
    Span, closed_or, full_list, or_begins, parse_use,
};
use wast_value_types::RefType;

/// An element segment (6.6, element segments).
///
/// It is taken apart by [`Elem::into_parts`] alone.
pub struct Elem<'a> {
    /// Where the word `elem` stands.
    pub span: Span,
    pub id: Option<Id<'a>>,
    /// The name that an annotation gives it.
    pub name: Option<NameAnnotation<'a>>,
    pub kind: ElemKind<'a>,
    pub payload: ElemPayload<'a>,
}

// By hand, so that what drops one is proved here once, and not in each crate that holds one.
impl Drop for Elem<'_> {
    fn drop(self) {
        let Elem {
            span: _,
            id: _,
            name: _,
            kind: _,
            payload: _,
        } = self;
    }
}

/// What a value of [`Elem`] holds, in the order of its fields.
type ElemParts<'a> = (
    Span,
    Option<Id<'a>>,
    Option<NameAnnotation<'a>>,
    ElemKind<'a>,
    ElemPayload<'a>,
);

impl<'a> Elem<'a> {
    /// Its fields, in their order.
    pub fn into_parts(self) -> ElemParts<'a>
        ensures { result ≡ (self.entry.span, self.entry.id, self.entry.name, self.entry.kind, self.entry.payload) }
    {
        let Elem {
            span,
            id,
            name,
            kind,
            payload,
        } = self;
        (span, id, name, kind, payload)
    }
}

/// What becomes of a segment when a module is instantiated.
#[derive(Drop)]
pub enum ElemKind<'a> {
    /// `(elem func 0 1)`: it is kept for instructions.
    Passive,
    /// `(elem declare func 0 1)`: its functions may be referred to.
    Declared,
    /// `(elem (offset i32.const 0) func 0 1)`: it is copied into a table, the first where none is written.
    Active {
        table: Option<Index<'a>>,
        offset: Expression<'a>,
    },
}

/// The elements of a segment or a table.
#[derive(Drop)]
pub enum ElemPayload<'a> {
    /// Functions.
    Indices(Vec<Index<'a>>),
    /// Expressions of a type.
    Exprs {
        ty: RefType<'a>,
        exprs: Vec<Expression<'a>>,
    },
}

impl ElemPayload<'_> {
    /// What is said where neither one more of them nor the end of their group is read.
    pub(crate) fn expected_behind(&self) -> &'static str {
        match self {
            ElemPayload::Indices(_) => "expected an index or `)`",
            ElemPayload::Exprs { .. } => "expected a folded instruction, `(item` or `)`",
        }
    }
}

impl<'a> Meaning for Elem<'a> {
    ghost Tree = { spec.Elem Name ℕ };

    ghost tree = { elem_tree };

    ghost syntax = { elem };

    fn lawful()
        ensures { Lawful (elem {N = Name} {P = ℕ}) }
    {}
}

impl<'a> Parse<'a> for Elem<'a> {
    fn parse(parser: &mut Parser<'a>) -> Result<Self, Error> {
        LParen::parse(parser)?;
        let span = parser.word("elem")?;
        let head = Head::parse(parser)?;
        let (kind, payload) = parse_segment(parser)?;
        let expected = payload.expected_behind();
        let (head, kind, payload) = closed_or(parser, (head, kind, payload), expected)?;
        Ok(Elem {
            span,
            id: head.id,
            name: head.name,
            kind,
            payload,
        })
    }
}

/// Reads what stands behind the name of a segment.
fn parse_segment<'a>(parser: &mut Parser<'a>) -> Result<(ElemKind<'a>, ElemPayload<'a>), Error>
    ensures read { Gives (λ s. (mode_tree s.0, elements_tree s.1)) result parser.new (segment.reads (ahead parser.old)) }
    ensures keeps { Keeps parser.old parser.new }
{
    if parser.peek::<Keyword<Declare>>()? {
        parser.word("declare")?;
        let payload = parse_list(parser)?;
        Ok((ElemKind::Declared, payload))
    } else if peek_list(parser)? {
        let payload = parse_list(parser)?;
        Ok((ElemKind::Passive, payload))
    } else {
        parse_active(parser)
    }
}

/// Reads a segment that is copied into a table.
fn parse_active<'a>(parser: &mut Parser<'a>) -> Result<(ElemKind<'a>, ElemPayload<'a>), Error>
    ensures read { Gives (λ s. (mode_tree s.0, elements_tree s.1)) result parser.new (active.reads (ahead parser.old)) }
    ensures keeps { Keeps parser.old parser.new }
{
    let table = parse_use::<Table>(parser)?;
    let offset = parse_offset(parser, expected_at(&table))?;
    let payload = parse_copied(parser)?;
    Ok((ElemKind::Active { table, offset }, payload))
}

/// What is said where no offset is read behind this table.
fn expected_at(table: &Option<Index<'_>>) -> &'static str {
    match table {
        Some(_) => "expected an offset",
        None => "expected elements, `declare`, a table or an offset",
    }
}

/// Reads the offset of a segment. Refused with this message where a token comes next that is no parenthesis, or none.
fn parse_offset<'a>(parser: &mut Parser<'a>, message: &str) -> Result<Expression<'a>, Error>
    ensures read { Gives expression_tree result parser.new (elem_offset.reads (ahead parser.old)) }
    ensures keeps { Keeps parser.old parser.new }
{
    match parser.peek::<LParen>() {
        Ok(true) => parse_led_or_plain::<Offset>(parser),
        Ok(false) => Err(parser.error(message)),
        Err(e) => Err(e),
    }
}

/// Reads the elements of such a segment, which may be indices by themselves.
fn parse_copied<'a>(parser: &mut Parser<'a>) -> Result<ElemPayload<'a>, Error>
    ensures read { Gives elements_tree result parser.new ((either list_starts elem_list (seen spec.Indices indices)).reads (ahead parser.old)) }
    ensures keeps { Keeps parser.old parser.new }
{
    if peek_list(parser)? {
        parse_list(parser)
    } else {
        let indices = full_list(parser)?;
        Ok(ElemPayload::Indices(indices))
    }
}

/// Whether a list of elements begins here.
fn peek_list(parser: &Parser<'_>) -> Result<bool, Error>
    ensures { Asks result parser.now.source (ask list_starts (ahead parser.now)) }
{
    or_begins::<RefType>(parser.peek::<Keyword<Func>>(), parser)
}

/// Reads a list of elements: indices behind the word `func`, or expressions behind their type.
fn parse_list<'a>(parser: &mut Parser<'a>) -> Result<ElemPayload<'a>, Error>
    ensures read { Gives elements_tree result parser.new (elem_list.reads (ahead parser.old)) }
    ensures keeps { Keeps parser.old parser.new }
{
    if parser.peek::<Keyword<Func>>()? {
        parser.word("func")?;
        let indices = full_list(parser)?;
        Ok(ElemPayload::Indices(indices))
    } else {
        let ty = RefType::parse(parser)?;
        let exprs = parse_elements(parser)?;
        Ok(ElemPayload::Exprs { ty, exprs })
    }
}
