//! The locals of a function.
ghost use Rattle.std.specs.Prelude.{◌≡◌, ◌++◌, IfOk, OnOk, Some, None, map, option_map, replicate};
ghost use Rattle.wast_grammar.specs.Spelling.{same_name};
ghost use Rattle.wast_parser.specs.Identifiers.{identifier_tree};
ghost use Rattle.wast_signatures.specs.SignatureViews.{param_tree, use_tree};
ghost use Rattle.wast_module_fields.specs.FuncViews.{local_tree};
ghost use Rattle.wast_names.specs.Space.{empty, grown, name_in};
ghost use Rattle.wast_names.specs.Views.{space};
ghost use Rattle.wast_meaning.specs.Scope.{params_of};
ghost use Rattle.wast_numbered.specs.Place.{joined, scope};

use crate::place::Numbering;
use std::alloc::{AllocError, Global};
use wast_module_fields::{FunctionType, Local, TypeUse};
use wast_names::Namespace;
use wast_parser::Id;
use wast_signatures::Param;

/// The space of the parameters and locals of a function (6.6, functions); of two that bear one name the first counts. Fails only where no memory
/// is found, or there are more than 4294967295, which is told as want of memory.
pub(crate) fn locals_of<'a>(
    alloc: Global,
    numbering: &Numbering<'_, 'a>,
    ty: &TypeUse<'a, FunctionType<'a>>,
    locals: &[Local<'a>],
) -> Result<Namespace<'a>, AllocError>
    ensures { IfOk result (λ names. space names ≡ joined empty (params_of (scope numbering.now) (use_tree ty.now) ++ map (λ l. l.id) (map local_tree locals.now))) }
{
    let mut names = Namespace::new(alloc);
    match add_params(alloc, numbering, ty, &mut names) {
        Ok(()) => {}
        Err(e) => return Err(e),
    }
    match add_locals(alloc, locals, &mut names) {
        Ok(()) => Ok(names),
        Err(e) => Err(e),
    }
}

/// The parameters that a type use writes, or, without names, those of its type.
fn add_params<'a>(
    alloc: Global,
    numbering: &Numbering<'_, 'a>,
    ty: &TypeUse<'a, FunctionType<'a>>,
    names: &mut Namespace<'a>,
) -> Result<(), AllocError>
    ensures { OnOk result (space names.new ≡ joined (space names.old) (params_of (scope numbering.now) (use_tree ty.now))) }
{
    match (&ty.inline, &ty.index) {
        (Some(signature), _) => add_written(alloc, &signature.params, names),
        (None, Some(index)) => add_nameless(numbering.param_count(index), names),
        (None, None) => Ok(()),
    }
}

/// Parameters that are written.
fn add_written<'a>(
    alloc: Global,
    params: &[Param<'a>],
    names: &mut Namespace<'a>,
) -> Result<(), AllocError>
    ensures { OnOk result (space names.new ≡ joined (space names.old) (map (λ p. p.id) (map param_tree params.now))) }
{
    for param in params {
        match add(alloc, &param.0, names) {
            Ok(()) => {}
            Err(e) => return Err(e),
        }
    }
    Ok(())
}

/// So many without names.
fn add_nameless(count: usize, names: &mut Namespace<'_>) -> Result<(), AllocError>
    ensures { OnOk result (space names.new ≡ joined (space names.old) (replicate count None)) }
{
    for _number in 0..count {
        match add_one(names) {
            Ok(()) => {}
            Err(e) => return Err(e),
        }
    }
    Ok(())
}

/// Locals that are written.
fn add_locals<'a>(
    alloc: Global,
    locals: &[Local<'a>],
    names: &mut Namespace<'a>,
) -> Result<(), AllocError>
    ensures { OnOk result (space names.new ≡ joined (space names.old) (map (λ l. l.id) (map local_tree locals.now))) }
{
    for local in locals {
        match add(alloc, &local.id, names) {
            Ok(()) => {}
            Err(e) => return Err(e),
        }
    }
    Ok(())
}

/// One more, with its identifier or none; a name that means one already keeps that.
fn add<'a>(alloc: Global, id: &Option<Id<'a>>, names: &mut Namespace<'a>) -> Result<(), AllocError>
    ensures { OnOk result (space names.new ≡ grown same_name (space names.old) (name_in (option_map identifier_tree id.now))) }
{
    match id {
        Some(id) => add_named(alloc, id, names),
        None => add_one(names),
    }
}

/// One more that has a name.
fn add_named<'a>(alloc: Global, id: &Id<'a>, names: &mut Namespace<'a>) -> Result<(), AllocError>
    ensures { OnOk result (space names.new ≡ grown same_name (space names.old) (Some (identifier_tree id.now).0)) }
{
    if names.get(id).is_some() {
        return add_one(names);
    }
    let id = id.clone(alloc)?;
    register(id, names)
}

/// One more that has a name which means none yet.
fn register<'a>(id: Id<'a>, names: &mut Namespace<'a>) -> Result<(), AllocError>
    ensures { OnOk result (space names.new ≡ grown same_name (space names.old) (Some (identifier_tree id.entry).0)) }
{
    if names.count() == u32::MAX {
        return Err(AllocError);
    }
    match names.register(Some(id), "local") {
        Ok(_) => Ok(()),
        Err(_) => Err(AllocError),
    }
}

/// One more without a name.
fn add_one(names: &mut Namespace<'_>) -> Result<(), AllocError>
    ensures { OnOk result (space names.new ≡ grown same_name (space names.old) None) }
{
    if names.count() == u32::MAX {
        return Err(AllocError);
    }
    names.alloc();
    Ok(())
}
