//! Type definitions.
ghost use Rattle.std.specs.Prelude.{◌≡◌, ℕ, List, Option, option_map, refl};
ghost use Rattle.wast_grammar.specs.Tokens.{Name};
ghost use Rattle.wast_parser.specs.Look.{ask, type_starts};
ghost use Rattle.wast_parser.specs.Lawful.{Lawful, Leads};
ghost use Rattle.wast_parser.specs.Significant.{TextToken};
ghost use Rattle.wast_parser.specs.State.{ahead};
ghost use Rattle.wast_parser.specs.Reading.{Asks};
ghost use Rattle.wast_parser.specs.Cursors.{stands};
ghost use Rattle.wast_parser.specs.Identifiers.{Reference, index_tree};
ghost use Rattle.wast_signatures.specs.TypeTree as spec;
ghost use Rattle.wast_signatures.specs.TypeSyntax.{described, sub_type, type_def, type_body, type_item, rec_group, as_definition};
ghost use Rattle.wast_core_types.specs.TypeViews.{comp_tree, definition_tree, item_tree, rec_tree};

use crate::composite::{CompositeType, InnerTypeKind};
use crate::keyword;
use wast_lexer::Span;
use wast_parser::{
    Cursor, Error, Id, Index, Item, Keyword, LParen, Meaning, NameAnnotation, Parse, Parser, Peek,
    closed_or, list_of,
};
use wast_signatures::{Body, Grouped, value_of};

/// What a type is defined as (6.4.7).
#[derive(Drop)]
pub struct TypeDef<'a> {
    pub kind: InnerTypeKind<'a>,
    /// Whether `(shared ..)` stands around it; a proposal's.
    pub shared: bool,
    /// The type of which it is a subtype.
    pub parent: Option<Index<'a>>,
    /// The type that describes it; a proposal's.
    pub descriptor: Option<Index<'a>>,
    /// The type that it describes; a proposal's.
    pub describes: Option<Index<'a>>,
    /// Whether it has no subtypes: `final` is written, or no `sub`.
    pub final_type: bool,
}

impl<'a> Meaning for TypeDef<'a> {
    ghost Tree = { spec.TypeDef Name ℕ };

    ghost tree = { definition_tree };

    ghost syntax = { type_def };

    fn lawful()
        ensures { Lawful (type_def {N = Name} {P = ℕ}) }
    {}
}

impl<'a> Parse<'a> for TypeDef<'a> {
    fn parse(parser: &mut Parser<'a>) -> Result<Self, Error> {
        if parser.peek::<Grouped<keyword::Sub, SubType>>()? {
            let group: Grouped<keyword::Sub, SubType> = parser.parse()?;
            Ok(group.value.def)
        } else {
            let described = Described::parse(parser)?;
            Ok(described.define(true, None))
        }
    }
}

/// What stands in `(sub ..)`.
#[derive(Drop)]
struct SubType<'a> {
    def: TypeDef<'a>,
}

impl<'a> Meaning for SubType<'a> {
    ghost Tree = { spec.TypeDef Name ℕ };

    ghost tree = { λ s. definition_tree s.def };

    ghost syntax = { sub_type };

    fn lawful()
        ensures { Lawful (sub_type {N = Name} {P = ℕ}) }
    {}
}

impl<'a> Parse<'a> for SubType<'a> {
    fn parse(parser: &mut Parser<'a>) -> Result<Self, Error> {
        let last: Option<Keyword<keyword::Final>> = parser.parse()?;
        let parent: Option<Index> = parser.parse()?;
        let described = Described::parse(parser)?;
        Ok(SubType {
            def: described.define(last.is_some(), parent),
        })
    }
}

impl<'a> Body for SubType<'a> {
    fn spelled()
        ensures { (d : spec.TypeDef Name ℕ) × (us : List TextToken) × sub_type.spells d us }
    {}

    ghost plain = { refl };

    ghost ended = { refl };
}

/// A composite type, and what stands before it.
#[derive(Drop)]
struct Described<'a> {
    describes: Option<Index<'a>>,
    descriptor: Option<Index<'a>>,
    comp: CompositeType<'a>,
}

impl<'a> Described<'a> {
    /// The definition with that.
    fn define(self, final_type: bool, parent: Option<Index<'a>>) -> TypeDef<'a>
        ensures { definition_tree result ≡ as_definition (final_type, (option_map index_tree parent.entry, (option_map index_tree self.entry.describes, (option_map index_tree self.entry.descriptor, comp_tree self.entry.comp)))) }
    {
        TypeDef {
            kind: self.comp.kind,
            shared: self.comp.shared,
            parent,
            descriptor: self.descriptor,
            describes: self.describes,
            final_type,
        }
    }
}

impl<'a> Meaning for Described<'a> {
    ghost Tree = { Option (Reference Name ℕ) × (Option (Reference Name ℕ) × spec.CompType Name ℕ) };

    ghost tree = { λ d. (option_map index_tree d.describes, (option_map index_tree d.descriptor, comp_tree d.comp)) };

    ghost syntax = { described };

    fn lawful()
        ensures { Lawful (described {N = Name} {P = ℕ}) }
    {}
}

impl<'a> Parse<'a> for Described<'a> {
    fn parse(parser: &mut Parser<'a>) -> Result<Self, Error> {
        let describes: Option<Grouped<keyword::Describes, Index>> = parser.parse()?;
        let descriptor: Option<Grouped<keyword::Descriptor, Index>> = parser.parse()?;
        let comp = CompositeType::parse(parser)?;
        Ok(Described {
            describes: value_of(describes),
            descriptor: value_of(descriptor),
            comp,
        })
    }
}

/// The field that defines a type (6.4.7).
///
/// It is taken apart by [`TypeItem::into_parts`] alone.
pub struct TypeItem<'a> {
    /// Where the word `type` stands.
    pub span: Span,
    pub id: Option<Id<'a>>,
    /// The name that an annotation gives it.
    pub name: Option<NameAnnotation<'a>>,
    pub def: TypeDef<'a>,
}

// By hand, so that what drops one is proved here once, and not in each crate that holds one.
impl Drop for TypeItem<'_> {
    fn drop(self) {
        let TypeItem {
            span: _,
            id: _,
            name: _,
            def: _,
        } = self;
    }
}

/// What a value of [`TypeItem`] holds, in the order of its fields.
type TypeItemParts<'a> = (
    Span,
    Option<Id<'a>>,
    Option<NameAnnotation<'a>>,
    TypeDef<'a>,
);

impl<'a> TypeItem<'a> {
    /// Its fields, in their order.
    pub fn into_parts(self) -> TypeItemParts<'a>
        ensures { result ≡ (self.entry.span, self.entry.id, self.entry.name, self.entry.def) }
    {
        let TypeItem {
            span,
            id,
            name,
            def,
        } = self;
        (span, id, name, def)
    }
}

impl<'a> Meaning for TypeItem<'a> {
    ghost Tree = { spec.TypeItem Name ℕ };

    ghost tree = { item_tree };

    ghost syntax = { type_item };

    fn lawful()
        ensures { Lawful (type_item {N = Name} {P = ℕ}) }
    {}
}

impl<'a> Parse<'a> for TypeItem<'a> {
    fn parse(parser: &mut Parser<'a>) -> Result<Self, Error> {
        let body: TypeBody = parser.parens_of()?;
        Ok(body.item)
    }
}

impl<'a> Peek for TypeItem<'a> {
    ghost plain = { refl };

    ghost sure = { refl };

    fn leads()
        ensures { Leads (type_item {N = Name} {P = ℕ}).spells type_starts }
    {}

    fn peek(cursor: Cursor<'_, '_>) -> Result<bool, Error>
        ensures { Asks result (stands cursor.entry).source (ask type_starts (ahead (stands cursor.entry))) }
    {
        cursor.peek_group("type")
    }

    fn display() -> &'static str {
        "a type definition"
    }
}

impl<'a> Item for TypeItem<'a> {
    ghost inside = { refl };
}

/// What stands between the parentheses of a type definition.
#[derive(Drop)]
struct TypeBody<'a> {
    item: TypeItem<'a>,
}

impl<'a> Meaning for TypeBody<'a> {
    ghost Tree = { spec.TypeItem Name ℕ };

    ghost tree = { λ b. item_tree b.item };

    ghost syntax = { type_body };

    fn lawful()
        ensures { Lawful (type_body {N = Name} {P = ℕ}) }
    {}
}

impl<'a> Parse<'a> for TypeBody<'a> {
    fn parse(parser: &mut Parser<'a>) -> Result<Self, Error> {
        let span = parser.word("type")?;
        let id = Option::parse(parser)?;
        let name = Option::parse(parser)?;
        let def = TypeDef::parse(parser)?;
        Ok(TypeBody {
            item: TypeItem {
                span,
                id,
                name,
                def,
            },
        })
    }
}

/// A group of type definitions, which may refer to each other (6.4.7).
///
/// It is taken apart by [`Rec::into_parts`] alone.
pub struct Rec<'a> {
    /// Where the word `rec` stands.
    pub span: Span,
    pub types: Vec<TypeItem<'a>>,
}

// By hand, so that what drops one is proved here once, and not in each crate that holds one.
impl Drop for Rec<'_> {
    fn drop(self) {
        let Rec { span: _, types: _ } = self;
    }
}

impl<'a> Rec<'a> {
    /// Where it stands, and its types.
    pub fn into_parts(self) -> (Span, Vec<TypeItem<'a>>)
        ensures { result ≡ (self.entry.span, self.entry.types) }
    {
        let Rec { span, types } = self;
        (span, types)
    }
}

impl<'a> Meaning for Rec<'a> {
    ghost Tree = { spec.Rec Name ℕ };

    ghost tree = { rec_tree };

    ghost syntax = { rec_group };

    fn lawful()
        ensures { Lawful (rec_group {N = Name} {P = ℕ}) }
    {}
}

impl<'a> Parse<'a> for Rec<'a> {
    fn parse(parser: &mut Parser<'a>) -> Result<Self, Error> {
        LParen::parse(parser)?;
        let span = parser.word("rec")?;
        let types = list_of(parser)?;
        let types = closed_or(parser, types, "expected `(type` or `)`")?;
        Ok(Rec { span, types })
    }
}
