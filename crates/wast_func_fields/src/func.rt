//! Functions.
ghost use Rattle.std.specs.Prelude.{◌≡◌, ℕ};
ghost use Rattle.wast_field_syntax.specs.Tokens.{Name};
ghost use Rattle.wast_field_syntax.specs.Grammar.{seen, seq};
ghost use Rattle.wast_field_syntax.specs.Lawful.{Lawful};
ghost use Rattle.wast_field_syntax.specs.State.{ahead, Keeps};
ghost use Rattle.wast_field_syntax.specs.Reading.{Gives};
ghost use Rattle.wast_field_syntax.specs.Exports.{inline_import};
ghost use Rattle.wast_imports.specs.ImportSyntax.{func_type};
ghost use Rattle.wast_field_syntax.specs.FieldTree as spec;
ghost use Rattle.wast_field_syntax.specs.DefinitionSyntax.{as_imported};
ghost use Rattle.wast_field_syntax.specs.FuncSyntax.{function, func, func_defined};
ghost use Rattle.wast_func_fields.specs.FuncViews.{func_type_tree, defined_func, func_definition};

use crate::local::Local;
use wast_field_syntax::{
    Error, Expression, Id, InlineExport, InlineImport, LParen, Meaning, NameAnnotation, Parse,
    Parser, Span, closed_or,
};
use wast_imports::{Head, expected_behind_use, parse_exact};
use wast_signatures::{FunctionType, TypeUse};
use wast_value_types::Group;
use wast_value_types::keyword::Exact;

/// A function (6.6, functions): `(func $f (param $x i32) (result i32) (local i64) local.get $x)`.
///
/// It is taken apart by [`Func::into_parts`] alone.
pub struct Func<'a> {
    /// Where the word `func` stands.
    pub span: Span,
    pub id: Option<Id<'a>>,
    /// The name that an annotation gives it.
    pub name: Option<NameAnnotation<'a>>,
    /// The names under which it is exported.
    pub exports: InlineExport<'a>,
    pub kind: FuncKind<'a>,
    pub ty: TypeUse<'a, FunctionType<'a>>,
}

// By hand, so that what drops one is proved here once, and not in each crate that holds one.
impl Drop for Func<'_> {
    fn drop(self) {
        let Func {
            span: _,
            id: _,
            name: _,
            exports: _,
            kind: _,
            ty: _,
        } = self;
    }
}

/// What a value of [`Func`] holds, in the order of its fields.
type FuncParts<'a> = (
    Span,
    Option<Id<'a>>,
    Option<NameAnnotation<'a>>,
    InlineExport<'a>,
    FuncKind<'a>,
    TypeUse<'a, FunctionType<'a>>,
);

impl<'a> Func<'a> {
    /// Its fields, in their order.
    pub fn into_parts(self) -> FuncParts<'a>
        ensures { result ≡ (self.entry.span, self.entry.id, self.entry.name, self.entry.exports, self.entry.kind, self.entry.ty) }
    {
        let Func {
            span,
            id,
            name,
            exports,
            kind,
            ty,
        } = self;
        (span, id, name, exports, kind, ty)
    }
}

/// Where a function comes from.
#[derive(Drop)]
pub enum FuncKind<'a> {
    /// `(func (import "module" "field") (param i32))`
    Import {
        import: InlineImport<'a>,
        /// Whether it is of exactly this type, `(exact (type 0))`; a proposal's.
        is_exact: bool,
    },
    /// Its locals, without the parameters, and its body.
    Inline {
        locals: Vec<Local<'a>>,
        expression: Expression<'a>,
    },
}

impl<'a> Meaning for Func<'a> {
    ghost Tree = { spec.Definition Name ℕ };

    ghost tree = { func_definition };

    ghost syntax = { func };

    fn lawful()
        ensures { Lawful (func {N = Name} {P = ℕ}) }
    {}
}

impl<'a> Parse<'a> for Func<'a> {
    fn parse(parser: &mut Parser<'a>) -> Result<Self, Error> {
        LParen::parse(parser)?;
        let span = parser.word("func")?;
        let head = Head::parse(parser)?;
        let exports = InlineExport::parse(parser)?;
        let (kind, ty) = parse_defined(parser)?;
        let expected = expected_behind(&kind, &ty);
        let (head, exports, kind, ty) = closed_or(parser, (head, exports, kind, ty), expected)?;
        Ok(Func {
            span,
            id: head.id,
            name: head.name,
            exports,
            kind,
            ty,
        })
    }
}

/// What is said where a function of this kind and type doesn't go on.
fn expected_behind(kind: &FuncKind<'_>, ty: &TypeUse<'_, FunctionType<'_>>) -> &'static str {
    match kind {
        FuncKind::Inline { .. } => "expected an instruction or `)`",
        FuncKind::Import { is_exact: true, .. } => "expected `)`",
        FuncKind::Import { .. } => expected_behind_use(ty),
    }
}

/// A function as far as it stands behind its exports.
type Defined<'a> = (FuncKind<'a>, TypeUse<'a, FunctionType<'a>>);

/// Reads what stands behind the exports of a function.
fn parse_defined<'a>(parser: &mut Parser<'a>) -> Result<Defined<'a>, Error>
    ensures read { Gives (λ f. defined_func f.0 f.1) result parser.new (func_defined.reads (ahead parser.old)) }
    ensures keeps { Keeps parser.old parser.new }
{
    if parser.peek::<InlineImport<'a>>()? {
        parse_imported(parser)
    } else {
        parse_function(parser)
    }
}

/// Reads what a function is imported as, and its type.
fn parse_imported<'a>(parser: &mut Parser<'a>) -> Result<Defined<'a>, Error>
    ensures read { Gives (λ f. defined_func f.0 f.1) result parser.new ((seen as_imported (seq inline_import func_type)).reads (ahead parser.old)) }
    ensures keeps { Keeps parser.old parser.new }
{
    let import = InlineImport::parse(parser)?;
    let (is_exact, ty) = parse_type(parser)?;
    Ok((FuncKind::Import { import, is_exact }, ty))
}

/// Reads the type of an imported function, and whether it is of exactly that type.
fn parse_type<'a>(parser: &mut Parser<'a>) -> Result<(bool, TypeUse<'a, FunctionType<'a>>), Error>
    ensures read { Gives (λ t. func_type_tree t.0 t.1) result parser.new (func_type.reads (ahead parser.old)) }
    ensures keeps { Keeps parser.old parser.new }
{
    if parser.peek::<Group<Exact>>()? {
        Ok((true, parse_exact(parser)?))
    } else {
        Ok((false, TypeUse::parse(parser)?))
    }
}

/// Reads the type of a function, its locals and its body.
fn parse_function<'a>(parser: &mut Parser<'a>) -> Result<Defined<'a>, Error>
    ensures read { Gives (λ f. defined_func f.0 f.1) result parser.new ((seen spec.Func function).reads (ahead parser.old)) }
    ensures keeps { Keeps parser.old parser.new }
{
    let ty = TypeUse::parse(parser)?;
    let locals = Local::parse_remainder(parser)?;
    let expression = Expression::parse(parser)?;
    Ok((FuncKind::Inline { locals, expression }, ty))
}
