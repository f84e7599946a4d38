//! Globals.
ghost use Rattle.std.specs.Prelude.{◌≡◌, ℕ};
ghost use Rattle.wast_field_syntax.specs.Tokens.{Name};
ghost use Rattle.wast_field_syntax.specs.Lawful.{Lawful};
ghost use Rattle.wast_field_syntax.specs.State.{ahead, Keeps};
ghost use Rattle.wast_field_syntax.specs.Reading.{Gives};
ghost use Rattle.wast_field_syntax.specs.FieldTree as spec;
ghost use Rattle.wast_field_syntax.specs.FuncSyntax.{global, global_defined};
ghost use Rattle.wast_func_fields.specs.FuncViews.{defined_global, global_definition};

use wast_field_syntax::{
    Error, Expression, Id, InlineExport, InlineImport, LParen, Meaning, NameAnnotation, Parse,
    Parser, Span, closed_or,
};
use wast_imports::Head;
use wast_value_types::GlobalType;

/// A global (6.6, globals): `(global $g (mut i32) (i32.const 0))`.
///
/// It is taken apart by [`Global::into_parts`] alone.
pub struct Global<'a> {
    /// Where the word `global` stands.
    pub span: Span,
    pub id: Option<Id<'a>>,
    /// The name that an annotation gives it.
    pub name: Option<NameAnnotation<'a>>,
    /// The names under which it is exported.
    pub exports: InlineExport<'a>,
    pub ty: GlobalType<'a>,
    pub kind: GlobalKind<'a>,
}

// By hand, so that what drops one is proved here once, and not in each crate that holds one.
impl Drop for Global<'_> {
    fn drop(self) {
        let Global {
            span: _,
            id: _,
            name: _,
            exports: _,
            ty: _,
            kind: _,
        } = self;
    }
}

/// What a value of [`Global`] holds, in the order of its fields.
type GlobalParts<'a> = (
    Span,
    Option<Id<'a>>,
    Option<NameAnnotation<'a>>,
    InlineExport<'a>,
    GlobalType<'a>,
    GlobalKind<'a>,
);

impl<'a> Global<'a> {
    /// Its fields, in their order.
    pub fn into_parts(self) -> GlobalParts<'a>
        ensures { result ≡ (self.entry.span, self.entry.id, self.entry.name, self.entry.exports, self.entry.ty, self.entry.kind) }
    {
        let Global {
            span,
            id,
            name,
            exports,
            ty,
            kind,
        } = self;
        (span, id, name, exports, ty, kind)
    }
}

/// Where the value of a global comes from.
#[derive(Drop)]
pub enum GlobalKind<'a> {
    /// `(global (import "module" "field") i32)`
    Import(InlineImport<'a>),
    /// The expression with whose value it begins.
    Inline(Expression<'a>),
}

impl GlobalKind<'_> {
    /// What is said where a global of this kind doesn't go on.
    fn expected_behind(&self) -> &'static str {
        match self {
            GlobalKind::Import(_) => "expected `)`",
            GlobalKind::Inline(_) => "expected an instruction or `)`",
        }
    }
}

impl<'a> Meaning for Global<'a> {
    ghost Tree = { spec.Definition Name ℕ };

    ghost tree = { global_definition };

    ghost syntax = { global };

    fn lawful()
        ensures { Lawful (global {N = Name} {P = ℕ}) }
    {}
}

impl<'a> Parse<'a> for Global<'a> {
    fn parse(parser: &mut Parser<'a>) -> Result<Self, Error> {
        LParen::parse(parser)?;
        let span = parser.word("global")?;
        let head = Head::parse(parser)?;
        let exports = InlineExport::parse(parser)?;
        let (ty, kind) = parse_defined(parser)?;
        let expected = kind.expected_behind();
        let (head, exports, ty, kind) = closed_or(parser, (head, exports, ty, kind), expected)?;
        Ok(Global {
            span,
            id: head.id,
            name: head.name,
            exports,
            ty,
            kind,
        })
    }
}

/// Reads what stands behind the exports of a global.
fn parse_defined<'a>(parser: &mut Parser<'a>) -> Result<(GlobalType<'a>, GlobalKind<'a>), Error>
    ensures read { Gives (λ g. defined_global g.0 g.1) result parser.new (global_defined.reads (ahead parser.old)) }
    ensures keeps { Keeps parser.old parser.new }
{
    if parser.peek::<InlineImport<'a>>()? {
        let import = InlineImport::parse(parser)?;
        let ty = GlobalType::parse(parser)?;
        Ok((ty, GlobalKind::Import(import)))
    } else {
        let ty = GlobalType::parse(parser)?;
        let init = Expression::parse(parser)?;
        Ok((ty, GlobalKind::Inline(init)))
    }
}
