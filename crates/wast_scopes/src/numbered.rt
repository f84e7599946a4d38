//! Signatures in which each index is the number that it means.
ghost use Rattle.std.specs.Prelude.{◌≡◌, map, IfOk};
ghost use Rattle.std.specs.Cmp.Lexicographic.{pointwise};
ghost use Rattle.wast_value_types.specs.ValueViews.{heap_tree, val_tree};
ghost use Rattle.wast_signatures.specs.SignatureViews.{param_tree, sig_tree};
ghost use Rattle.wast_names.specs.Views.{space};
ghost use Rattle.wast_scopes.specs.Numbered.{numbered_heap, numbered_sig, numbered_value, same_numbered_sig, same_numbered_value};
ghost use Rattle.wast_scopes.specs.NumberedViews.{sig_of_numbered, value_of_numbered};

use std::alloc::{AllocError, Global};
use wast_implied::word_code;
use wast_names::Namespace;
use wast_signatures::{FunctionType, Param};
use wast_value_types::{HeapType, ValType};

/// A value type. An abstract heap type is there as its byte in a binary, or a number of its own where it has none; an index as the
/// number that it means, or as none where its name means nothing.
#[derive(Clone, Copy, PartialEq, Eq, Drop)]
pub(crate) enum NumberedType {
    I32,
    I64,
    F32,
    F64,
    V128,
    Abstract {
        nullable: bool,
        shared: bool,
        word: u8,
    },
    Defined {
        nullable: bool,
        exact: bool,
        number: Option<u32>,
    },
}

/// A signature, without the names of its parameters.
#[derive(Drop)]
pub(crate) struct NumberedSignature {
    pub(crate) params: Vec<NumberedType>,
    pub(crate) results: Vec<NumberedType>,
}

impl NumberedSignature {
    /// That of a signature, where names mean what they do in this space of types. Fails only where no memory is found for it.
    pub(crate) fn of<'a>(
        alloc: Global,
        signature: &FunctionType<'a>,
        types: &Namespace<'a>,
    ) -> Result<Self, AllocError>
        ensures { IfOk result (λ s. sig_of_numbered s ≡ numbered_sig (space types.now).look (sig_tree signature.now)) }
    {
        let params = numbered_params(alloc, &signature.params, types)?;
        let results = numbered_results(alloc, &signature.results, types)?;
        Ok(NumberedSignature { params, results })
    }

    /// Whether it is that of a signature.
    pub(crate) fn is_of<'a>(&self, signature: &FunctionType<'a>, types: &Namespace<'a>) -> bool
        ensures { result ≡ same_numbered_sig (numbered_sig (space types.now).look (sig_tree signature.now)) (sig_of_numbered self.now) }
    {
        are_params(&self.params, &signature.params, types)
            && are_results(&self.results, &signature.results, types)
    }
}

/// Whether these are the types of parameters.
fn are_params<'a>(numbered: &[NumberedType], params: &[Param<'a>], types: &Namespace<'a>) -> bool
    ensures { result ≡ pointwise same_numbered_value (map (λ l. numbered_value (space types.now).look l.val_type) (map param_tree params.now)) (map value_of_numbered numbered.now) }
{
    let mut index = 0;
    for param in params {
        if index >= numbered.len() {
            return false;
        }
        let expected = numbered[index];
        if !is_type(expected, &param.2, types) {
            return false;
        }
        index += 1;
    }
    index == numbered.len()
}

/// Whether these are the types of results.
fn are_results<'a>(
    numbered: &[NumberedType],
    results: &[ValType<'a>],
    types: &Namespace<'a>,
) -> bool
    ensures { result ≡ pointwise same_numbered_value (map (numbered_value (space types.now).look) (map val_tree results.now)) (map value_of_numbered numbered.now) }
{
    let mut index = 0;
    for ty in results {
        if index >= numbered.len() {
            return false;
        }
        let expected = numbered[index];
        if !is_type(expected, ty, types) {
            return false;
        }
        index += 1;
    }
    index == numbered.len()
}

/// Whether it is that of a value type.
fn is_type<'a>(numbered: NumberedType, ty: &ValType<'a>, types: &Namespace<'a>) -> bool
    ensures { result ≡ same_numbered_value (numbered_value (space types.now).look (val_tree ty.now)) (value_of_numbered numbered) }
{
    numbered_type(ty, types) == numbered
}

/// The types of parameters.
fn numbered_params<'a>(
    alloc: Global,
    params: &[Param<'a>],
    types: &Namespace<'a>,
) -> Result<Vec<NumberedType>, AllocError>
    ensures { IfOk result (λ numbered. map value_of_numbered numbered.items ≡ map (λ l. numbered_value (space types.now).look l.val_type) (map param_tree params.now)) }
{
    let mut numbered = Vec::new(alloc);
    for param in params {
        numbered.push(numbered_type(&param.2, types))?;
    }
    Ok(numbered)
}

/// The types of results.
fn numbered_results<'a>(
    alloc: Global,
    results: &[ValType<'a>],
    types: &Namespace<'a>,
) -> Result<Vec<NumberedType>, AllocError>
    ensures { IfOk result (λ numbered. map value_of_numbered numbered.items ≡ map (numbered_value (space types.now).look) (map val_tree results.now)) }
{
    let mut numbered = Vec::new(alloc);
    for ty in results {
        numbered.push(numbered_type(ty, types))?;
    }
    Ok(numbered)
}

/// That of a value type.
fn numbered_type<'a>(ty: &ValType<'a>, types: &Namespace<'a>) -> NumberedType
    ensures { value_of_numbered result ≡ numbered_value (space types.now).look (val_tree ty.now) }
{
    match ty {
        ValType::I32 => NumberedType::I32,
        ValType::I64 => NumberedType::I64,
        ValType::F32 => NumberedType::F32,
        ValType::F64 => NumberedType::F64,
        ValType::V128 => NumberedType::V128,
        ValType::Ref(ty) => numbered_reference(ty.nullable, &ty.heap, types),
    }
}

/// That of a reference to a heap type.
fn numbered_reference<'a>(
    nullable: bool,
    heap: &HeapType<'a>,
    types: &Namespace<'a>,
) -> NumberedType
    ensures { value_of_numbered result ≡ numbered_heap (space types.now).look nullable (heap_tree heap.now) }
{
    match heap {
        HeapType::Abstract { shared, ty } => NumberedType::Abstract {
            nullable,
            shared: *shared,
            word: word_code(*ty),
        },
        HeapType::Concrete(index) => NumberedType::Defined {
            nullable,
            exact: false,
            number: types.number_of(index),
        },
        HeapType::Exact(index) => NumberedType::Defined {
            nullable,
            exact: true,
            number: types.number_of(index),
        },
    }
}
