//! Reference types as operands, and branches on casts.
ghost use Rattle.std.specs.Prelude.{ℕ};
ghost use Rattle.wast_signatures.specs.Tokens.{Name};
ghost use Rattle.wast_signatures.specs.Lawful.{Lawful};
ghost use Rattle.wast_signatures.specs.State.{ahead, Keeps};
ghost use Rattle.wast_signatures.specs.Reading.{Gives};
ghost use Rattle.wast_signatures.specs.ValueSyntax.{ref_type};
ghost use Rattle.wast_signatures.specs.ValueTree as values;
ghost use Rattle.wast_signatures.specs.ValueViews.{ref_tree};
ghost use Rattle.wast_typed_operands.specs.TypedTree as spec;
ghost use Rattle.wast_typed_operands.specs.TypedSyntax.{cast};
ghost use Rattle.wast_typed_operands.specs.TypedViews.{cast_tree};

use wast_signatures::{Error, Index, Meaning, Parse, Parser, RefType};

/// The type that `ref.test` tests for.
#[derive(Drop)]
pub struct RefTest<'a> {
    pub ty: RefType<'a>,
}

impl<'a> Meaning for RefTest<'a> {
    ghost Tree = { values.RefType Name ℕ };

    ghost tree = { λ t. ref_tree t.ty };

    ghost syntax = { ref_type };

    fn lawful()
        ensures { Lawful (ref_type {N = Name} {P = ℕ}) }
    {
        RefType::lawful();
    }
}

impl<'a> Parse<'a> for RefTest<'a> {
    fn parse(parser: &mut Parser<'a>) -> Result<Self, Error> {
        let ty = RefType::parse(parser)?;
        Ok(RefTest { ty })
    }
}

/// The type that `ref.cast` casts to.
#[derive(Drop)]
pub struct RefCast<'a> {
    pub ty: RefType<'a>,
}

impl<'a> Meaning for RefCast<'a> {
    ghost Tree = { values.RefType Name ℕ };

    ghost tree = { λ t. ref_tree t.ty };

    ghost syntax = { ref_type };

    fn lawful()
        ensures { Lawful (ref_type {N = Name} {P = ℕ}) }
    {
        RefType::lawful();
    }
}

impl<'a> Parse<'a> for RefCast<'a> {
    fn parse(parser: &mut Parser<'a>) -> Result<Self, Error> {
        let ty = RefType::parse(parser)?;
        Ok(RefCast { ty })
    }
}

/// The type that `ref.cast_desc_eq` casts to.
#[derive(Drop)]
pub struct RefCastDescEq<'a> {
    pub ty: RefType<'a>,
}

impl<'a> Meaning for RefCastDescEq<'a> {
    ghost Tree = { values.RefType Name ℕ };

    ghost tree = { λ t. ref_tree t.ty };

    ghost syntax = { ref_type };

    fn lawful()
        ensures { Lawful (ref_type {N = Name} {P = ℕ}) }
    {
        RefType::lawful();
    }
}

impl<'a> Parse<'a> for RefCastDescEq<'a> {
    fn parse(parser: &mut Parser<'a>) -> Result<Self, Error> {
        let ty = RefType::parse(parser)?;
        Ok(RefCastDescEq { ty })
    }
}

/// The label of `br_on_cast`, and the types from which and to which it casts.
#[derive(Drop)]
pub struct BrOnCast<'a> {
    pub label: Index<'a>,
    pub from_type: RefType<'a>,
    pub to_type: RefType<'a>,
}

impl<'a> Meaning for BrOnCast<'a> {
    ghost Tree = { spec.Cast Name ℕ };

    ghost tree = { λ c. cast_tree c.label c.from_type c.to_type };

    ghost syntax = { cast };

    fn lawful()
        ensures { Lawful (cast {N = Name} {P = ℕ}) }
    {
        cast_lawful();
    }
}

impl<'a> Parse<'a> for BrOnCast<'a> {
    fn parse(parser: &mut Parser<'a>) -> Result<Self, Error> {
        let (label, from_type, to_type) = label_and_types(parser)?;
        Ok(BrOnCast {
            label,
            from_type,
            to_type,
        })
    }
}

/// The label of `br_on_cast_fail`, and the types from which and to which it casts.
#[derive(Drop)]
pub struct BrOnCastFail<'a> {
    pub label: Index<'a>,
    pub from_type: RefType<'a>,
    pub to_type: RefType<'a>,
}

impl<'a> Meaning for BrOnCastFail<'a> {
    ghost Tree = { spec.Cast Name ℕ };

    ghost tree = { λ c. cast_tree c.label c.from_type c.to_type };

    ghost syntax = { cast };

    fn lawful()
        ensures { Lawful (cast {N = Name} {P = ℕ}) }
    {
        cast_lawful();
    }
}

impl<'a> Parse<'a> for BrOnCastFail<'a> {
    fn parse(parser: &mut Parser<'a>) -> Result<Self, Error> {
        let (label, from_type, to_type) = label_and_types(parser)?;
        Ok(BrOnCastFail {
            label,
            from_type,
            to_type,
        })
    }
}

/// The label of `br_on_cast_desc_eq`, and the types from which and to which it casts.
#[derive(Drop)]
pub struct BrOnCastDescEq<'a> {
    pub label: Index<'a>,
    pub from_type: RefType<'a>,
    pub to_type: RefType<'a>,
}

impl<'a> Meaning for BrOnCastDescEq<'a> {
    ghost Tree = { spec.Cast Name ℕ };

    ghost tree = { λ c. cast_tree c.label c.from_type c.to_type };

    ghost syntax = { cast };

    fn lawful()
        ensures { Lawful (cast {N = Name} {P = ℕ}) }
    {
        cast_lawful();
    }
}

impl<'a> Parse<'a> for BrOnCastDescEq<'a> {
    fn parse(parser: &mut Parser<'a>) -> Result<Self, Error> {
        let (label, from_type, to_type) = label_and_types(parser)?;
        Ok(BrOnCastDescEq {
            label,
            from_type,
            to_type,
        })
    }
}

/// The label of `br_on_cast_desc_eq_fail`, and the types from which and to which it casts.
#[derive(Drop)]
pub struct BrOnCastDescEqFail<'a> {
    pub label: Index<'a>,
    pub from_type: RefType<'a>,
    pub to_type: RefType<'a>,
}

impl<'a> Meaning for BrOnCastDescEqFail<'a> {
    ghost Tree = { spec.Cast Name ℕ };

    ghost tree = { λ c. cast_tree c.label c.from_type c.to_type };

    ghost syntax = { cast };

    fn lawful()
        ensures { Lawful (cast {N = Name} {P = ℕ}) }
    {
        cast_lawful();
    }
}

impl<'a> Parse<'a> for BrOnCastDescEqFail<'a> {
    fn parse(parser: &mut Parser<'a>) -> Result<Self, Error> {
        let (label, from_type, to_type) = label_and_types(parser)?;
        Ok(BrOnCastDescEqFail {
            label,
            from_type,
            to_type,
        })
    }
}

/// The law of a label and two reference types.
fn cast_lawful()
    ensures { Lawful (cast {N = Name} {P = ℕ}) }
{}

/// Reads a label and two reference types.
fn label_and_types<'a>(
    parser: &mut Parser<'a>,
) -> Result<(Index<'a>, RefType<'a>, RefType<'a>), Error>
    ensures read { Gives (λ x. cast_tree x.0 x.1 x.2) result parser.new (cast.reads (ahead parser.old)) }
    ensures keeps { Keeps parser.old parser.new }
{
    let label = Index::parse(parser)?;
    let from_type = RefType::parse(parser)?;
    let to_type = RefType::parse(parser)?;
    Ok((label, from_type, to_type))
}
