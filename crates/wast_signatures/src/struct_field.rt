//! Fields of structures, in groups. They stand beside `Several`, since only its crate may read them into it.
ghost use Rattle.std.specs.Prelude.{◌≡◌, ℕ, List, map, IfOk, refl};
ghost use Rattle.wast_value_types.specs.Tokens.{Name};
ghost use Rattle.wast_value_types.specs.Lawful.{Lawful};
ghost use Rattle.wast_value_types.specs.Significant.{TextToken};
ghost use Rattle.wast_value_types.specs.Identifiers.{identifier_tree};
ghost use Rattle.wast_value_types.specs.ValueViews.{field_tree};
ghost use Rattle.wast_signatures.specs.TypeTree as spec;
ghost use Rattle.wast_signatures.specs.TypeSyntax.{as_field, unnamed_field, named_fields};
ghost use Rattle.wast_signatures.specs.SignatureViews.{struct_field_tree};

use crate::group::Body;
use crate::join::Several;
use std::alloc::{AllocError, Global};
use wast_value_types::{Error, FieldType, Id, Meaning, Parse, Parser, StorageType, list_of};

/// A field of a structure (6.4.6).
#[derive(Drop)]
pub struct StructField<'a> {
    pub id: Option<Id<'a>>,
    pub mutable: bool,
    pub ty: StorageType<'a>,
}

/// The fields of one group.
impl<'a> Meaning for Several<StructField<'a>> {
    ghost Tree = { List (spec.StructField Name ℕ) };

    ghost tree = { λ g. map struct_field_tree g.items.items };

    ghost syntax = { named_fields };

    fn lawful()
        ensures { Lawful (named_fields {N = Name} {P = ℕ}) }
    {}
}

impl<'a> Parse<'a> for Several<StructField<'a>> {
    fn parse(parser: &mut Parser<'a>) -> Result<Self, Error> {
        if parser.peek::<Id>()? {
            let id = Id::parse(parser)?;
            let ty = FieldType::parse(parser)?;
            let items = one_field(parser.alloc(), id, ty)?;
            Ok(Several { items })
        } else {
            let types = list_of(parser)?;
            let items = fields_of(parser.alloc(), types)?;
            Ok(Several { items })
        }
    }
}

impl<'a> Body for Several<StructField<'a>> {
    fn spelled()
        ensures { (s : List (spec.StructField Name ℕ)) × (us : List TextToken) × named_fields.spells s us }
    {}

    ghost plain = { refl };

    ghost ended = { refl };

    fn expected_behind(&self) -> &'static str {
        match self.items.first() {
            None => "expected an identifier, a field type or `)`",
            Some(StructField { id: None, .. }) => "expected a field type or `)`",
            Some(_) => "expected `)`",
        }
    }
}

/// A field with an identifier, alone.
fn one_field<'a>(
    alloc: Global,
    id: Id<'a>,
    ty: FieldType<'a>,
) -> Result<Vec<StructField<'a>>, AllocError>
    ensures { IfOk result (λ fields. map struct_field_tree fields.items ≡ as_field (identifier_tree id.entry, field_tree ty.entry)) }
{
    let mut fields = Vec::new(alloc);
    fields.push(StructField {
        id: Some(id),
        mutable: ty.mutable,
        ty: ty.ty,
    })?;
    Ok(fields)
}

/// Fields of these types, without identifiers.
fn fields_of<'a>(
    alloc: Global,
    types: Vec<FieldType<'a>>,
) -> Result<Vec<StructField<'a>>, AllocError>
    ensures { IfOk result (λ fields. map struct_field_tree fields.items ≡ map unnamed_field (map field_tree types.entry.items)) }
{
    let mut fields = Vec::new(alloc);
    for ty in types {
        fields.push(StructField {
            id: None,
            mutable: ty.mutable,
            ty: ty.ty,
        })?;
    }
    Ok(fields)
}
