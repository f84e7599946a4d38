//! Tables.
ghost use Rattle.std.specs.Prelude.{◌≡◌, ℕ, false, true, codes, Some, None, option_map};
ghost use Rattle.wast_field_syntax.specs.Tokens.{Name};
ghost use Rattle.wast_field_syntax.specs.Grammar.{seen, led, seq};
ghost use Rattle.wast_field_syntax.specs.Lawful.{Lawful};
ghost use Rattle.wast_field_syntax.specs.State.{ahead, Keeps};
ghost use Rattle.wast_field_syntax.specs.Reading.{Gives};
ghost use Rattle.wast_value_types.specs.ValueSyntax.{limits};
ghost use Rattle.wast_value_types.specs.ValueViews.{limits_tree, ref_tree};
ghost use Rattle.wast_field_syntax.specs.ExpressionViews.{expression_tree};
ghost use Rattle.wast_field_syntax.specs.FieldTree as spec;
ghost use Rattle.wast_field_syntax.specs.TableSyntax.{where_any, typed, as_table, elements, as_filled_table, filled_table, table_with, table_defined, table};
ghost use Rattle.wast_table_fields.specs.ElemViews.{elements_tree, defined_table, table_definition};

use crate::elem::ElemPayload;
use crate::element::{parse_elements, peek_element};
use wast_exports::{InlineExport, InlineImport};
use wast_field_syntax::{
    Error, Expression, Head, Id, Keyword, LParen, Meaning, NameAnnotation, Parse, Parser, Span,
    closed_or, full_list, parse_sizes, required,
};
use wast_value_types::keyword::Shared;
use wast_value_types::{Limits, RefType, TableType, address_type};

/// A table (6.6, tables).
///
/// It is taken apart by [`Table::into_parts`] alone.
pub struct Table<'a> {
    /// Where the word `table` stands.
    pub span: Span,
    pub id: Option<Id<'a>>,
    /// The name that an annotation gives it.
    pub name: Option<NameAnnotation<'a>>,
    /// The names under which it is exported.
    pub exports: InlineExport<'a>,
    pub kind: TableKind<'a>,
}

// By hand, so that what drops one is proved here once, and not in each crate that holds one.
impl Drop for Table<'_> {
    fn drop(self) {
        let Table {
            span: _,
            id: _,
            name: _,
            exports: _,
            kind: _,
        } = self;
    }
}

/// What a value of [`Table`] holds, in the order of its fields.
type TableParts<'a> = (
    Span,
    Option<Id<'a>>,
    Option<NameAnnotation<'a>>,
    InlineExport<'a>,
    TableKind<'a>,
);

impl<'a> Table<'a> {
    /// Its fields, in their order.
    pub fn into_parts(self) -> TableParts<'a>
        ensures { result ≡ (self.entry.span, self.entry.id, self.entry.name, self.entry.exports, self.entry.kind) }
    {
        let Table {
            span,
            id,
            name,
            exports,
            kind,
        } = self;
        (span, id, name, exports, kind)
    }
}

/// What a table is.
#[derive(Drop)]
pub enum TableKind<'a> {
    /// `(table (import "m" "n") 0 funcref)`
    Import {
        import: InlineImport<'a>,
        ty: TableType<'a>,
    },
    /// `(table 0 funcref (ref.null func))`; without an expression its elements are null at first.
    Normal {
        ty: TableType<'a>,
        init_expr: Option<Expression<'a>>,
    },
    /// `(table funcref (elem 0 1))`: as many elements as are written.
    Inline {
        /// Whether its addresses have 64 bits.
        is_64: bool,
        elem: RefType<'a>,
        payload: ElemPayload<'a>,
    },
}

impl TableKind<'_> {
    /// What is said where a table of this kind doesn't go on.
    fn expected_behind(&self) -> &'static str {
        match self {
            TableKind::Normal { .. } => "expected an instruction or `)`",
            TableKind::Import { .. } | TableKind::Inline { .. } => "expected `)`",
        }
    }
}

impl<'a> Meaning for Table<'a> {
    ghost Tree = { spec.Definition Name ℕ };

    ghost tree = { table_definition };

    ghost syntax = { table };

    fn lawful()
        ensures { Lawful (table {N = Name} {P = ℕ}) }
    {}
}

impl<'a> Parse<'a> for Table<'a> {
    fn parse(parser: &mut Parser<'a>) -> Result<Self, Error> {
        LParen::parse(parser)?;
        let span = parser.word("table")?;
        let head = Head::parse(parser)?;
        let exports = InlineExport::parse(parser)?;
        let kind = parse_defined(parser)?;
        let expected = kind.expected_behind();
        let (head, exports, kind) = closed_or(parser, (head, exports, kind), expected)?;
        Ok(Table {
            span,
            id: head.id,
            name: head.name,
            exports,
            kind,
        })
    }
}

/// Reads what stands behind the exports of a table.
fn parse_defined<'a>(parser: &mut Parser<'a>) -> Result<TableKind<'a>, Error>
    ensures read { Gives defined_table result parser.new (table_defined.reads (ahead parser.old)) }
    ensures keeps { Keeps parser.old parser.new }
{
    if parser.peek::<InlineImport<'a>>()? {
        let import = InlineImport::parse(parser)?;
        let ty = TableType::parse(parser)?;
        Ok(TableKind::Import { import, ty })
    } else if parser.peek::<Keyword<Shared>>()? {
        parse_shared(parser)
    } else {
        let is_64 = address_type(parser)?;
        parse_with(parser, is_64)
    }
}

/// Reads a table that is shared, which has its size written.
fn parse_shared<'a>(parser: &mut Parser<'a>) -> Result<TableKind<'a>, Error>
    ensures read { Gives defined_table result parser.new ((seen (as_table true) (led (codes "shared") (seq limits typed))).reads (ahead parser.old)) }
    ensures keeps { Keeps parser.old parser.new }
{
    parser.word("shared")?;
    let limits = Limits::parse(parser)?;
    let (elem, init) = parse_typed(parser)?;
    Ok(sized(limits, true, elem, init))
}

/// Reads what stands behind the address type of a table that is not imported.
fn parse_with<'a>(parser: &mut Parser<'a>, is_64: bool) -> Result<TableKind<'a>, Error>
    ensures read { Gives defined_table result parser.new ((table_with is_64).reads (ahead parser.old)) }
    ensures keeps { Keeps parser.old parser.new }
{
    if parser.peek::<u64>()? {
        let (min, max) = parse_sizes(parser)?;
        let limits = Limits {
            is64: is_64,
            min,
            max,
        };
        let (elem, init) = parse_typed(parser)?;
        Ok(sized(limits, false, elem, init))
    } else {
        parse_filled(parser, is_64)
    }
}

/// Reads the type of a table's elements, and what they are at first.
fn parse_typed<'a>(parser: &mut Parser<'a>) -> Result<(RefType<'a>, Expression<'a>), Error>
    ensures read { Gives (λ t. (ref_tree t.0, expression_tree t.1)) result parser.new (typed.reads (ahead parser.old)) }
    ensures keeps { Keeps parser.old parser.new }
{
    let elem = RefType::parse(parser)?;
    let init = Expression::parse(parser)?;
    Ok((elem, init))
}

/// A table of these limits, whose elements are so at first.
fn sized<'a>(limits: Limits, shared: bool, elem: RefType<'a>, init: Expression<'a>) -> TableKind<'a>
    ensures { defined_table result ≡ as_table shared (limits_tree limits, (ref_tree elem.entry, expression_tree init.entry)) }
{
    TableKind::Normal {
        ty: TableType {
            limits,
            elem,
            shared,
        },
        init_expr: where_any(init),
    }
}

/// An expression, where it has an instruction.
fn where_any<'a>(expression: Expression<'a>) -> Option<Expression<'a>>
    ensures { option_map expression_tree result ≡ where_any (expression_tree expression.entry).instrs (expression_tree expression.entry) }
{
    let empty = expression.instrs.is_empty();
    unless(empty, expression)
}

/// A value, where it is not left out.
fn unless<T: Drop>(left_out: bool, value: T) -> Option<T>
    ensures none { left_out ≡ true → result ≡ None }
    ensures some { left_out ≡ false → result ≡ Some value }
{
    if left_out { None } else { Some(value) }
}

/// Reads a table whose elements are written, from their type on.
fn parse_filled<'a>(parser: &mut Parser<'a>, is_64: bool) -> Result<TableKind<'a>, Error>
    ensures read { Gives defined_table result parser.new ((seen (as_filled_table is_64) filled_table).reads (ahead parser.old)) }
    ensures keeps { Keeps parser.old parser.new }
{
    let elem = RefType::parse(parser)?;
    required::<LParen>(parser, "expected `(elem`")?;
    parser.word("elem")?;
    let ty = elem.clone(parser.alloc())?;
    let payload = parse_payload(parser, ty)?;
    let expected = payload.expected_behind();
    let (elem, payload) = closed_or(parser, (elem, payload), expected)?;
    Ok(TableKind::Inline {
        is_64,
        elem,
        payload,
    })
}

/// Reads the elements of a table: expressions of this type, or indices of functions.
fn parse_payload<'a>(parser: &mut Parser<'a>, ty: RefType<'a>) -> Result<ElemPayload<'a>, Error>
    ensures read { Gives elements_tree result parser.new ((elements (ref_tree ty.entry)).reads (ahead parser.old)) }
    ensures keeps { Keeps parser.old parser.new }
{
    if peek_element(parser)? {
        let exprs = parse_elements(parser)?;
        Ok(ElemPayload::Exprs { ty, exprs })
    } else {
        let indices = full_list(parser)?;
        Ok(ElemPayload::Indices(indices))
    }
}
