//! The names of fields and parameters.
ghost use Rattle.std.specs.Prelude.{map};
ghost use Rattle.wast_signatures.specs.SignatureViews.{param_tree, struct_field_tree};
ghost use Rattle.wast_core_types.specs.TypeViews.{inner_tree};
ghost use Rattle.wast_imports.specs.ImportViews.{tag_tree};
ghost use Rattle.wast_meaning.specs.Implied.{func_sig};
ghost use Rattle.wast_meaning.specs.Spaces.{fields_of};
ghost use Rattle.wast_name_maps.specs.Given.{identified, local_names, sig_names};
ghost use Rattle.wast_name_maps.specs.Numbered.{BuildsNames, NamesJoin};

use crate::given::{add_given, add_identified};
use crate::names::Names;
use std::alloc::Global;
use wasm_encoder_base::EncodeError;
use wast_core_types::InnerTypeKind;
use wast_module_fields::TagType;
use wast_signatures::{Param, StructField};

/// The names of the fields of a type; one that is no structure has no fields.
pub(crate) fn names_of_fields(alloc: Global, kind: &InnerTypeKind<'_>) -> Result<Names, EncodeError>
    ensures { BuildsNames result (map identified (fields_of (inner_tree kind.now))) }
{
    match kind {
        InnerTypeKind::Struct(structure) => field_names(alloc, &structure.fields),
        _ => Ok(Names::new(alloc)),
    }
}

/// Those of a structure.
fn field_names(alloc: Global, fields: &[StructField<'_>]) -> Result<Names, EncodeError>
    ensures { BuildsNames result (map identified (map (λ f. f.id) (map struct_field_tree fields.now))) }
{
    let mut names = Names::new(alloc);
    add_fields(fields, &mut names)?;
    Ok(names)
}

/// The fields of a structure, one after the other.
fn add_fields(fields: &[StructField<'_>], names: &mut Names) -> Result<(), EncodeError>
    ensures { NamesJoin result names.old names.new (map identified (map (λ f. f.id) (map struct_field_tree fields.now))) }
{
    for field in fields {
        add_identified(&field.id, names)?;
    }
    Ok(())
}

/// The names of the parameters of a type; one that is no function type has none.
pub(crate) fn names_of_params(alloc: Global, kind: &InnerTypeKind<'_>) -> Result<Names, EncodeError>
    ensures { BuildsNames result (sig_names (func_sig (inner_tree kind.now))) }
{
    match kind {
        InnerTypeKind::Func(signature) => param_names(alloc, &signature.params),
        _ => Ok(Names::new(alloc)),
    }
}

/// The names of the parameters that a tag writes.
pub(crate) fn names_of_tag_params(alloc: Global, ty: &TagType<'_>) -> Result<Names, EncodeError>
    ensures { BuildsNames result (sig_names (tag_tree ty.now).inline) }
{
    let TagType::Exception(ty) = ty;
    match &ty.inline {
        Some(signature) => param_names(alloc, &signature.params),
        None => Ok(Names::new(alloc)),
    }
}

/// The names of parameters.
fn param_names(alloc: Global, params: &[Param<'_>]) -> Result<Names, EncodeError>
    ensures { BuildsNames result (local_names (map param_tree params.now)) }
{
    let mut names = Names::new(alloc);
    add_params(params, &mut names)?;
    Ok(names)
}

/// Parameters, one after the other.
pub(crate) fn add_params(params: &[Param<'_>], names: &mut Names) -> Result<(), EncodeError>
    ensures { NamesJoin result names.old names.new (local_names (map param_tree params.now)) }
{
    for param in params {
        add_given(&param.1, &param.0, names)?;
    }
    Ok(())
}
