//! The names of locals.
ghost use Rattle.std.specs.Prelude.{◌++◌, map};
ghost use Rattle.wast_signatures.specs.SignatureViews.{use_tree};
ghost use Rattle.wast_module_fields.specs.FuncViews.{local_tree};
ghost use Rattle.wast_name_maps.specs.Given.{local_names};
ghost use Rattle.wast_name_maps.specs.Locals.{params_by};
ghost use Rattle.wast_name_maps.specs.Numbered.{BuildsNames, NamesJoin};

use crate::given::add_given;
use crate::names::Names;
use crate::params::count_by;
use crate::types::add_params;
use std::alloc::Global;
use wasm_encoder_base::EncodeError;
use wast_module_fields::{FunctionType, Local, TypeUse};

/// The names of the locals of a function (6.6, functions): of the parameters, and then of its own. A use without a signature has the parameters of
/// its type, by these counts, without names.
pub(crate) fn names_of_locals<'a>(
    alloc: Global,
    counts: &[usize],
    ty: &TypeUse<'a, FunctionType<'a>>,
    locals: &[Local<'a>],
) -> Result<Names, EncodeError>
    ensures { BuildsNames result (params_by counts.now (use_tree ty.now) ++ local_names (map local_tree locals.now)) }
{
    let mut names = Names::new(alloc);
    add_use(ty, &mut names, counts)?;
    add_locals(locals, &mut names)?;
    Ok(names)
}

/// The parameters of a use.
fn add_use<'a>(
    ty: &TypeUse<'a, FunctionType<'a>>,
    names: &mut Names,
    counts: &[usize],
) -> Result<(), EncodeError>
    ensures { NamesJoin result names.old names.new (params_by counts.now (use_tree ty.now)) }
{
    match &ty.inline {
        Some(signature) => add_params(&signature.params, names),
        None => names.pass(count_by(counts, &ty.index)),
    }
}

/// Locals, one after the other.
fn add_locals(locals: &[Local<'_>], names: &mut Names) -> Result<(), EncodeError>
    ensures { NamesJoin result names.old names.new (local_names (map local_tree locals.now)) }
{
    for local in locals {
        add_given(&local.name, &local.id, names)?;
    }
    Ok(())
}
