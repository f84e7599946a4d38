//! Signatures.
ghost use Rattle.std.specs.Prelude.{◌≡◌, ℕ, List, [], ◌∷◌, map, IfOk, refl};
ghost use Rattle.wast_value_types.specs.Tokens.{Name};
ghost use Rattle.wast_value_types.specs.Look.{ask};
ghost use Rattle.wast_value_types.specs.Grammar.{either, map_reads, seen, seq};
ghost use Rattle.wast_value_types.specs.Lawful.{Lawful, Leads};
ghost use Rattle.wast_value_types.specs.Significant.{TextToken};
ghost use Rattle.wast_value_types.specs.State.{ahead, Keeps};
ghost use Rattle.wast_value_types.specs.Reading.{Asks, Gives};
ghost use Rattle.wast_value_types.specs.Cursors.{stands};
ghost use Rattle.wast_value_types.specs.Identifiers.{identifier};
ghost use Rattle.wast_value_types.specs.ValueTree as spec_value;
ghost use Rattle.wast_value_types.specs.ValueSyntax.{val_type};
ghost use Rattle.wast_value_types.specs.ValueViews.{val_tree};
ghost use Rattle.wast_signatures.specs.TypeTree as spec;
ghost use Rattle.wast_signatures.specs.TypeSyntax.{sig_starts, given_starts, given_name, as_given, unnamed, val_types, named_locals, sig, bare_sig};
ghost use Rattle.wast_signatures.specs.SignatureViews.{name_tree, param_tree, sig_tree};

use crate::group::{Body, Grouped};
use crate::join::{Several, join};
use crate::keyword;
use std::alloc::{AllocError, Global};
use wast_value_types::{
    Cursor, Error, Group, Id, Meaning, NameAnnotation, Parse, Parser, Peek, ValType, list_of,
    or_peek,
};

/// A parameter (6.4.5): its identifier, the name that an annotation gives it, and its type.
pub type Param<'a> = (Option<Id<'a>>, Option<NameAnnotation<'a>>, ValType<'a>);

/// Parameters and results (6.4.5), in the order of their text.
#[derive(Drop)]
pub struct FunctionType<'a> {
    pub params: Vec<Param<'a>>,
    pub results: Vec<ValType<'a>>,
}

impl<'a> Meaning for FunctionType<'a> {
    ghost Tree = { spec.Sig Name ℕ };

    ghost tree = { sig_tree };

    ghost syntax = { sig };

    fn lawful()
        ensures { Lawful (sig {N = Name} {P = ℕ}) }
    {}
}

impl<'a> Parse<'a> for FunctionType<'a> {
    fn parse(parser: &mut Parser<'a>) -> Result<Self, Error> {
        let params: Vec<Grouped<keyword::Param, Several<Param<'a>>>> = list_of(parser)?;
        let results: Vec<Grouped<keyword::Result, Several<ValType<'a>>>> = list_of(parser)?;
        let params = join(parser.alloc(), params)?;
        let results = join(parser.alloc(), results)?;
        Ok(FunctionType { params, results })
    }
}

/// Where a group of parameters or results is written.
impl<'a> Peek for FunctionType<'a> {
    ghost plain = { refl };

    ghost sure = { refl };

    fn leads()
        ensures { Leads (sig {N = Name} {P = ℕ}).spells sig_starts }
    {}

    fn peek(cursor: Cursor<'_, '_>) -> Result<bool, Error>
        ensures { Asks result (stands cursor.entry).source (ask sig_starts (ahead (stands cursor.entry))) }
    {
        peek_sig(cursor)
    }

    fn display() -> &'static str {
        "a signature"
    }
}

impl<'a> Body for FunctionType<'a> {
    fn spelled()
        ensures { (s : spec.Sig Name ℕ) × (us : List TextToken) × sig.spells s us }
    {}

    ghost plain = { refl };

    ghost ended = { refl };

    fn expected_behind(&self) -> &'static str {
        if self.results.is_empty() {
            "expected `(param`, `(result` or `)`"
        } else {
            "expected `(result` or `)`"
        }
    }
}

/// A signature that is written without identifiers and names.
#[derive(Drop)]
pub struct FunctionTypeNoNames<'a>(pub FunctionType<'a>);

impl<'a> From<FunctionTypeNoNames<'a>> for FunctionType<'a> {
    ghost from_gives = { λ bare named. named ≡ bare.0 };

    fn from(bare: FunctionTypeNoNames<'a>) -> Self {
        bare.0
    }
}

impl<'a> Meaning for FunctionTypeNoNames<'a> {
    ghost Tree = { spec.Sig Name ℕ };

    ghost tree = { λ t. sig_tree t.0 };

    ghost syntax = { bare_sig };

    fn lawful()
        ensures { Lawful (bare_sig {N = Name} {P = ℕ}) }
    {}
}

impl<'a> Parse<'a> for FunctionTypeNoNames<'a> {
    fn parse(parser: &mut Parser<'a>) -> Result<Self, Error> {
        let params: Vec<Grouped<keyword::Param, Several<ValType<'a>>>> = list_of(parser)?;
        let results: Vec<Grouped<keyword::Result, Several<ValType<'a>>>> = list_of(parser)?;
        let params = join(parser.alloc(), params)?;
        let params = without_names(parser.alloc(), params)?;
        let results = join(parser.alloc(), results)?;
        Ok(FunctionTypeNoNames(FunctionType { params, results }))
    }
}

/// Where a group of parameters or results is written.
impl<'a> Peek for FunctionTypeNoNames<'a> {
    ghost plain = { refl };

    ghost sure = { refl };

    fn leads()
        ensures { Leads (bare_sig {N = Name} {P = ℕ}).spells sig_starts }
    {}

    fn peek(cursor: Cursor<'_, '_>) -> Result<bool, Error>
        ensures { Asks result (stands cursor.entry).source (ask sig_starts (ahead (stands cursor.entry))) }
    {
        peek_sig(cursor)
    }

    fn display() -> &'static str {
        "a signature without names"
    }
}

/// Whether a group of parameters or results begins here.
fn peek_sig(cursor: Cursor<'_, '_>) -> Result<bool, Error>
    ensures { Asks result (stands cursor.entry).source (ask sig_starts (ahead (stands cursor.entry))) }
{
    or_peek::<Group<keyword::Result>>(cursor.peek_group("param"), cursor)
}

/// The parameters, or locals, of one group.
impl<'a> Meaning for Several<Param<'a>> {
    ghost Tree = { List (spec.Local Name ℕ) };

    ghost tree = { λ g. map param_tree g.items.items };

    ghost syntax = { named_locals };

    fn lawful()
        ensures { Lawful (named_locals {N = Name} {P = ℕ}) }
    {}
}

impl<'a> Parse<'a> for Several<Param<'a>> {
    fn parse(parser: &mut Parser<'a>) -> Result<Self, Error> {
        if parser.peek::<Id>()? {
            let id = Id::parse(parser)?;
            let name = Option::parse(parser)?;
            let ty = ValType::parse(parser)?;
            Ok(one(parser.alloc(), (Some(id), name, ty))?)
        } else {
            no_id(parser)
        }
    }
}

impl<'a> Body for Several<Param<'a>> {
    fn spelled()
        ensures { (s : List (spec.Local Name ℕ)) × (us : List TextToken) × named_locals.spells s us }
    {}

    ghost plain = { refl };

    ghost ended = { refl };

    fn expected_behind(&self) -> &'static str {
        match self.items.first() {
            None => "expected an identifier, a value type or `)`",
            Some((None, None, _)) => "expected a value type or `)`",
            Some(_) => "expected `)`",
        }
    }
}

/// One parameter with a name and no identifier, or any number without either.
fn no_id<'a>(parser: &mut Parser<'a>) -> Result<Several<Param<'a>>, Error>
    ensures read { Gives (λ g. map param_tree g.items.items) result parser.new ((either given_starts (seen as_given (seq given_name val_type)) (seen (map unnamed) val_types)).reads (ahead parser.old)) }
    ensures keeps { Keeps parser.old parser.new }
{
    match Option::parse(parser) {
        Ok(Some(name)) => one_given(parser, name),
        Ok(None) => unnamed(parser),
        Err(e) => Err(e),
    }
}

/// One parameter behind its name.
fn one_given<'a>(
    parser: &mut Parser<'a>,
    name: NameAnnotation<'a>,
) -> Result<Several<Param<'a>>, Error>
    ensures read { Gives (λ g. map param_tree g.items.items) result parser.new (map_reads (λ t. as_given (name_tree name.entry, t)) val_type.reads (ahead parser.old)) }
    ensures keeps { Keeps parser.old parser.new }
{
    let ty = ValType::parse(parser)?;
    Ok(one(parser.alloc(), (None, Some(name), ty))?)
}

/// Any number of parameters without identifiers and names.
fn unnamed<'a>(parser: &mut Parser<'a>) -> Result<Several<Param<'a>>, Error>
    ensures read { Gives (λ g. map param_tree g.items.items) result parser.new (map_reads (map unnamed) val_types.reads (ahead parser.old)) }
    ensures keeps { Keeps parser.old parser.new }
{
    let types = list_of(parser)?;
    let items = without_names(parser.alloc(), types)?;
    Ok(Several { items })
}

/// One alone.
fn one<'a>(alloc: Global, param: Param<'a>) -> Result<Several<Param<'a>>, AllocError>
    ensures { IfOk result (λ g. g.items.items ≡ param.entry ∷ []) }
{
    let mut items = Vec::new(alloc);
    items.push(param)?;
    Ok(Several { items })
}

/// Parameters of these types, without identifiers and names.
fn without_names<'a>(alloc: Global, types: Vec<ValType<'a>>) -> Result<Vec<Param<'a>>, AllocError>
    ensures { IfOk result (λ params. map param_tree params.items ≡ map unnamed (map val_tree types.entry.items)) }
{
    let mut params = Vec::new(alloc);
    for ty in types {
        params.push((None, None, ty))?;
    }
    Ok(params)
}

/// The types of one group.
impl<'a> Meaning for Several<ValType<'a>> {
    ghost Tree = { List (spec_value.ValType Name ℕ) };

    ghost tree = { λ g. map val_tree g.items.items };

    ghost syntax = { val_types };

    fn lawful()
        ensures { Lawful (val_types {N = Name} {P = ℕ}) }
    {}
}

impl<'a> Parse<'a> for Several<ValType<'a>> {
    fn parse(parser: &mut Parser<'a>) -> Result<Self, Error> {
        let items = list_of(parser)?;
        Ok(Several { items })
    }
}

impl<'a> Body for Several<ValType<'a>> {
    fn spelled()
        ensures { (s : List (spec_value.ValType Name ℕ)) × (us : List TextToken) × val_types.spells s us }
    {}

    ghost plain = { refl };

    ghost ended = { refl };

    fn expected_behind(&self) -> &'static str {
        "expected a value type or `)`"
    }
}
