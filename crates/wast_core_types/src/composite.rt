//! Composite types.
ghost use Rattle.std.specs.Prelude.{◌≡◌, ℕ, List, map, IfOk, IfErr, Some, false, refl};
ghost use Rattle.wast_grammar.specs.Tokens.{Name};
ghost use Rattle.wast_parser.specs.Look.{ask, join};
ghost use Rattle.wast_parser.specs.Lawful.{Lawful};
ghost use Rattle.wast_parser.specs.Significant.{TextToken};
ghost use Rattle.wast_parser.specs.State.{ahead, Keeps};
ghost use Rattle.wast_parser.specs.Reading.{Gives, Refuses};
ghost use Rattle.wast_parser.specs.Identifiers.{Reference, index, index_tree};
ghost use Rattle.wast_value_types.specs.ValueTree as spec_value;
ghost use Rattle.wast_value_types.specs.ValueSyntax.{field_type};
ghost use Rattle.wast_signatures.specs.TypeTree as spec;
ghost use Rattle.wast_signatures.specs.TypeSyntax.{shared_starts, struct_type, inner_type, comp_type};
ghost use Rattle.wast_signatures.specs.SignatureViews.{struct_field_tree};
ghost use Rattle.wast_core_types.specs.TypeViews.{array_tree, inner_tree, comp_tree};
ghost use Rattle.wast_core_types.specs.Depths.{closed, opened, within};

use crate::keyword;
use std::alloc::AllocError;
use wast_parser::{
    Error, Index, Keyword, KeywordName, LParen, Meaning, Parse, Parser, RParen, list_of, required,
};
use wast_signatures::{Body, FunctionType, Grouped, Several, StructField, join_groups as join};
use wast_value_types::keyword::Shared;
use wast_value_types::{FieldType, Group, StorageType};

/// The fields of a structure (6.4.6), in the order of their text. They are read as they stand behind `(struct`.
#[derive(Drop)]
pub struct StructType<'a> {
    pub fields: Vec<StructField<'a>>,
}

impl<'a> Meaning for StructType<'a> {
    ghost Tree = { List (spec.StructField Name ℕ) };

    ghost tree = { λ t. map struct_field_tree t.fields.items };

    ghost syntax = { struct_type };

    fn lawful()
        ensures { Lawful (struct_type {N = Name} {P = ℕ}) }
    {}
}

impl<'a> Parse<'a> for StructType<'a> {
    fn parse(parser: &mut Parser<'a>) -> Result<Self, Error> {
        let groups: Vec<Grouped<keyword::Field, Several<StructField<'a>>>> = list_of(parser)?;
        let fields = join(parser.alloc(), groups)?;
        Ok(StructType { fields })
    }
}

impl<'a> Body for StructType<'a> {
    fn spelled()
        ensures { (s : List (spec.StructField Name ℕ)) × (us : List TextToken) × struct_type.spells s us }
    {}

    ghost plain = { refl };

    ghost ended = { refl };

    fn expected_behind(&self) -> &'static str {
        "expected `(field` or `)`"
    }
}

/// The type of an array's elements (6.4.6), and whether they may be written. It is read as it stands behind `(array`.
#[derive(Drop)]
pub struct ArrayType<'a> {
    pub mutable: bool,
    pub ty: StorageType<'a>,
}

impl<'a> Meaning for ArrayType<'a> {
    ghost Tree = { spec_value.FieldType Name ℕ };

    ghost tree = { array_tree };

    ghost syntax = { field_type };

    fn lawful()
        ensures { Lawful (field_type {N = Name} {P = ℕ}) }
    {}
}

impl<'a> Parse<'a> for ArrayType<'a> {
    fn parse(parser: &mut Parser<'a>) -> Result<Self, Error> {
        let field = FieldType::parse(parser)?;
        Ok(ArrayType {
            mutable: field.mutable,
            ty: field.ty,
        })
    }
}

impl<'a> Body for ArrayType<'a> {
    fn spelled()
        ensures { (t : spec_value.FieldType Name ℕ) × (us : List TextToken) × field_type.spells t us }
    {}

    ghost plain = { refl };

    ghost ended = { refl };
}

/// The function type of a continuation; a proposal's. It is read as it stands behind `(cont`.
#[derive(Drop)]
pub struct ContType<'a>(pub Index<'a>);

impl<'a> Meaning for ContType<'a> {
    ghost Tree = { Reference Name ℕ };

    ghost tree = { λ t. index_tree t.0 };

    ghost syntax = { index };

    fn lawful()
        ensures { Lawful (index {N = Name} {P = ℕ}) }
    {}
}

impl<'a> Parse<'a> for ContType<'a> {
    fn parse(parser: &mut Parser<'a>) -> Result<Self, Error> {
        Ok(ContType(Index::parse(parser)?))
    }
}

impl<'a> Body for ContType<'a> {
    fn spelled()
        ensures { (i : Reference Name ℕ) × (us : List TextToken) × index.spells i us }
    {}

    ghost plain = { refl };

    ghost ended = { refl };
}

/// A composite type (6.4.6) in its parentheses, without `shared` around it.
#[derive(Drop)]
pub enum InnerTypeKind<'a> {
    Func(FunctionType<'a>),
    Struct(StructType<'a>),
    Array(ArrayType<'a>),
    Cont(ContType<'a>),
}

impl<'a> Meaning for InnerTypeKind<'a> {
    ghost Tree = { spec.InnerType Name ℕ };

    ghost tree = { inner_tree };

    ghost syntax = { inner_type };

    fn lawful()
        ensures { Lawful (inner_type {N = Name} {P = ℕ}) }
    {}
}

impl<'a> Parse<'a> for InnerTypeKind<'a> {
    fn parse(parser: &mut Parser<'a>) -> Result<Self, Error> {
        if parser.peek::<Grouped<keyword::Func, FunctionType>>()? {
            let group: Grouped<keyword::Func, FunctionType> = parser.parse()?;
            Ok(InnerTypeKind::Func(group.value))
        } else if parser.peek::<Grouped<keyword::Struct, StructType>>()? {
            let group: Grouped<keyword::Struct, StructType> = parser.parse()?;
            Ok(InnerTypeKind::Struct(group.value))
        } else if parser.peek::<Grouped<keyword::Array, ArrayType>>()? {
            let group: Grouped<keyword::Array, ArrayType> = parser.parse()?;
            Ok(InnerTypeKind::Array(group.value))
        } else {
            let group: Grouped<keyword::Cont, ContType> = required(
                parser,
                "expected `(func`, `(struct`, `(array` or `(cont`",
            )?;
            Ok(InnerTypeKind::Cont(group.value))
        }
    }
}

/// A composite type, and whether `(shared ..)` stands around it, once or often; a proposal's.
#[derive(Drop)]
pub struct CompositeType<'a> {
    pub shared: bool,
    pub kind: InnerTypeKind<'a>,
}

impl<'a> Meaning for CompositeType<'a> {
    ghost Tree = { spec.CompType Name ℕ };

    ghost tree = { comp_tree };

    ghost syntax = { comp_type };

    fn lawful()
        ensures { Lawful (comp_type {N = Name} {P = ℕ}) }
    {}
}

impl<'a> Parse<'a> for CompositeType<'a> {
    fn parse(parser: &mut Parser<'a>) -> Result<Self, Error> {
        let depth = open_shared(parser)?;
        let kind = InnerTypeKind::parse(parser)?;
        let comp = CompositeType {
            shared: false,
            kind,
        };
        close_shared(parser, depth, comp)
    }
}

/// Takes each `(shared`; answers how many.
fn open_shared(parser: &mut Parser<'_>) -> Result<usize, Error>
    ensures ok { IfOk result (λ depth. (ask shared_starts (ahead parser.new) ≡ Some false) × (within depth (ahead parser.new) ≡ comp_type.reads (ahead parser.old))) }
    ensures refused { IfErr result (λ e. Refuses e (comp_type.reads (ahead parser.old))) }
    ensures keeps { Keeps parser.old parser.new }
{
    let mut depth: usize = 0;
    'groups: loop {
        match parser.peek::<Group<Shared>>() {
            Ok(true) => match open_group::<Shared>(parser) {
                Ok(_) => match depth.checked_add(1) {
                    Some(deeper) => depth = deeper,
                    None => return Err(Error::from(AllocError)),
                },
                Err(e) => return Err(e),
            },
            Ok(false) => return Ok(depth),
            Err(e) => return Err(e),
        }
    }
}

/// Takes the parentheses that close so many groups; the type is shared where there is one.
fn close_shared<'a>(
    parser: &mut Parser<'a>,
    depth: usize,
    comp: CompositeType<'a>,
) -> Result<CompositeType<'a>, Error>
    ensures read { Gives comp_tree result parser.new (closed depth (comp_tree comp.entry, ahead parser.old)) }
    ensures keeps { Keeps parser.old parser.new }
{
    let mut comp = comp;
    let mut left = depth;
    'groups: while left > 0 {
        match RParen::parse(parser) {
            Ok(_) => {
                comp.shared = true;
                left -= 1;
            }
            Err(e) => return Err(e),
        }
    }
    Ok(comp)
}

/// Takes a parenthesis that opens, and the word behind it.
fn open_group<N: KeywordName>(parser: &mut Parser<'_>) -> Result<(), Error>
    ensures read { Gives (λ _. tt) result parser.new (opened N.word (ahead parser.old)) }
    ensures keeps { Keeps parser.old parser.new }
{
    LParen::parse(parser)?;
    Keyword::<N>::parse(parser)?;
    Ok(())
}
