//! Fields of implied types.
ghost use Rattle.std.specs.Prelude.{◌≡◌, IfOk, map, option_map};
ghost use Rattle.wast_signatures.specs.SignatureViews.{name_tree, param_tree, sig_tree};
ghost use Rattle.wast_module_fields.specs.ModuleFieldViews.{field_tree};
ghost use Rattle.wast_meaning.specs.Numbered.{implied_field};
ghost use Rattle.wast_implied.specs.Views.{implied_tree};

use std::alloc::{AllocError, Global};
use wast_core_types::{InnerTypeKind, TypeDef};
use wast_implied::{ImpliedType, copied_types};
use wast_module_fields::{FunctionType, ModuleField, TypeItem};
use wast_names::copied_id;
use wast_parser::{NameAnnotation, Span};
use wast_signatures::Param;

/// The field of an implied type: a final function type without a name. Fails only where no memory is found for its signature.
pub(crate) fn implied_field<'a>(
    alloc: Global,
    ty: &ImpliedType<'a>,
) -> Result<ModuleField<'a>, AllocError>
    ensures { IfOk result (λ field. field_tree field ≡ implied_field (implied_tree ty.now)) }
{
    match copy_signature(alloc, &ty.signature) {
        Ok(signature) => Ok(type_field(ty.span, signature)),
        Err(e) => Err(e),
    }
}

/// The field of a plain function type, at a place.
fn type_field<'a>(span: Span, signature: FunctionType<'a>) -> ModuleField<'a>
    ensures { field_tree result ≡ implied_field (span, sig_tree signature.entry) }
{
    ModuleField::TypeItem(TypeItem {
        span,
        id: None,
        name: None,
        def: TypeDef {
            kind: InnerTypeKind::Func(signature),
            shared: false,
            parent: None,
            descriptor: None,
            describes: None,
            final_type: true,
        },
    })
}

/// The same signature.
fn copy_signature<'a>(
    alloc: Global,
    signature: &FunctionType<'a>,
) -> Result<FunctionType<'a>, AllocError>
    ensures { IfOk result (λ copy. sig_tree copy ≡ sig_tree signature.now) }
{
    let params = copy_params(alloc, &signature.params)?;
    let results = copied_types(alloc, &signature.results)?;
    Ok(FunctionType { params, results })
}

/// The same parameters.
fn copy_params<'a>(alloc: Global, params: &[Param<'a>]) -> Result<Vec<Param<'a>>, AllocError>
    ensures { IfOk result (λ copies. map param_tree copies.items ≡ map param_tree params.now) }
{
    let mut copies = Vec::with_capacity(alloc, params.len())?;
    for param in params {
        let id = copied_id(alloc, &param.0)?;
        let name = copy_name(&param.1)?;
        let ty = param.2.clone(alloc)?;
        copies.push((id, name, ty))?;
    }
    Ok(copies)
}

/// The same name of an annotation, where there is one.
fn copy_name<'a>(
    name: &Option<NameAnnotation<'a>>,
) -> Result<Option<NameAnnotation<'a>>, AllocError>
    ensures { IfOk result (λ copy. option_map name_tree copy ≡ option_map name_tree name.now) }
{
    match name {
        Some(annotation) => {
            let name = annotation.name.clone()?;
            Ok(Some(NameAnnotation { name }))
        }
        None => Ok(None),
    }
}
