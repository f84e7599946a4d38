//! Tags.
ghost use Rattle.std.specs.Prelude.{◌≡◌, ℕ};
ghost use Rattle.wast_field_syntax.specs.Tokens.{Name};
ghost use Rattle.wast_field_syntax.specs.Lawful.{Lawful};
ghost use Rattle.wast_field_syntax.specs.State.{ahead, Keeps};
ghost use Rattle.wast_field_syntax.specs.Reading.{Gives};
ghost use Rattle.wast_field_syntax.specs.FieldTree as spec;
ghost use Rattle.wast_field_syntax.specs.FuncSyntax.{tag, tag_defined};
ghost use Rattle.wast_func_fields.specs.FuncViews.{defined_tag, tag_definition};

use wast_field_syntax::{
    Error, Id, InlineExport, InlineImport, LParen, Meaning, NameAnnotation, Parse, Parser, Span,
    closed_or,
};
use wast_imports::{Head, TagType, expected_behind_use};

/// A tag (6.6, tags): `(tag $t (param i32))`.
///
/// It is taken apart by [`Tag::into_parts`] alone.
pub struct Tag<'a> {
    /// Where the word `tag` stands.
    pub span: Span,
    pub id: Option<Id<'a>>,
    /// The name that an annotation gives it.
    pub name: Option<NameAnnotation<'a>>,
    pub ty: TagType<'a>,
    /// The names under which it is exported.
    pub exports: InlineExport<'a>,
    pub kind: TagKind<'a>,
}

// By hand, so that what drops one is proved here once, and not in each crate that holds one.
impl Drop for Tag<'_> {
    fn drop(self) {
        let Tag {
            span: _,
            id: _,
            name: _,
            ty: _,
            exports: _,
            kind: _,
        } = self;
    }
}

/// What a value of [`Tag`] holds, in the order of its fields.
type TagParts<'a> = (
    Span,
    Option<Id<'a>>,
    Option<NameAnnotation<'a>>,
    TagType<'a>,
    InlineExport<'a>,
    TagKind<'a>,
);

impl<'a> Tag<'a> {
    /// Its fields, in their order.
    pub fn into_parts(self) -> TagParts<'a>
        ensures { result ≡ (self.entry.span, self.entry.id, self.entry.name, self.entry.ty, self.entry.exports, self.entry.kind) }
    {
        let Tag {
            span,
            id,
            name,
            ty,
            exports,
            kind,
        } = self;
        (span, id, name, ty, exports, kind)
    }
}

/// Whether a tag is imported.
#[derive(Drop)]
pub enum TagKind<'a> {
    /// `(tag (import "module" "field") (param i32))`
    Import(InlineImport<'a>),
    Inline,
}

impl<'a> Meaning for Tag<'a> {
    ghost Tree = { spec.Definition Name ℕ };

    ghost tree = { tag_definition };

    ghost syntax = { tag };

    fn lawful()
        ensures { Lawful (tag {N = Name} {P = ℕ}) }
    {}
}

impl<'a> Parse<'a> for Tag<'a> {
    fn parse(parser: &mut Parser<'a>) -> Result<Self, Error> {
        LParen::parse(parser)?;
        let span = parser.word("tag")?;
        let head = Head::parse(parser)?;
        let exports = InlineExport::parse(parser)?;
        let (kind, ty) = parse_defined(parser)?;
        let TagType::Exception(signature) = &ty;
        let expected = expected_behind_use(signature);
        let (head, exports, kind, ty) = closed_or(parser, (head, exports, kind, ty), expected)?;
        Ok(Tag {
            span,
            id: head.id,
            name: head.name,
            ty,
            exports,
            kind,
        })
    }
}

/// Reads what stands behind the exports of a tag.
fn parse_defined<'a>(parser: &mut Parser<'a>) -> Result<(TagKind<'a>, TagType<'a>), Error>
    ensures read { Gives (λ t. defined_tag t.0 t.1) result parser.new (tag_defined.reads (ahead parser.old)) }
    ensures keeps { Keeps parser.old parser.new }
{
    if parser.peek::<InlineImport<'a>>()? {
        let import = InlineImport::parse(parser)?;
        let ty = TagType::parse(parser)?;
        Ok((TagKind::Import(import), ty))
    } else {
        let ty = TagType::parse(parser)?;
        Ok((TagKind::Inline, ty))
    }
}
