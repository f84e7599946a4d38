//! Signatures as keys: what is the same in two of them that are equal, in an order.
ghost use Rattle.std.specs.Prelude.{◌≡◌, map, IfOk};
ghost use Rattle.wast_parser.specs.Identifiers.{index_tree};
ghost use Rattle.wast_value_types.specs.Unplaced.{unplaced_index};
ghost use Rattle.wast_value_types.specs.ValueViews.{heap_word, heap_tree, val_tree};
ghost use Rattle.wast_signatures.specs.SignatureViews.{param_tree, sig_tree};
ghost use Rattle.wast_meaning.specs.Implied.{word_code};
ghost use Rattle.wast_implied.specs.Shapes.{heap_shape, index_of_key, shape, shape_of_key, value_of_key, value_shape};

use std::alloc::{AllocError, Global};
use wast_parser::{Id, Index};
use wast_signatures::{FunctionType, Param};
use wast_value_types::{AbstractHeapType, HeapType, ValType};

/// An index, wherever it stands.
#[derive(PartialEq, Eq, PartialOrd, Ord, Drop)]
pub(crate) enum IndexKey<'a> {
    Num(u32),
    Id(Id<'a>),
}

/// A value type. An abstract heap type is there as its byte in a binary, or a number of its own where it has none.
#[derive(PartialEq, Eq, PartialOrd, Ord, Drop)]
pub(crate) enum ValueKey<'a> {
    I32,
    I64,
    F32,
    F64,
    V128,
    Abstract {
        nullable: bool,
        shared: bool,
        word: u8,
    },
    Defined {
        nullable: bool,
        exact: bool,
        index: IndexKey<'a>,
    },
}

/// A signature without the names of its parameters. Two are equal exactly where the signatures are, as they are written.
#[derive(PartialEq, Eq, PartialOrd, Ord, Drop)]
pub(crate) struct Key<'a> {
    params: Vec<ValueKey<'a>>,
    results: Vec<ValueKey<'a>>,
}

impl<'a> Key<'a> {
    /// That of a signature. Fails only where no memory is found for it.
    pub(crate) fn of(alloc: Global, signature: &FunctionType<'a>) -> Result<Self, AllocError>
        ensures { IfOk result (λ key. shape_of_key key ≡ shape (sig_tree signature.now)) }
    {
        let params = keys_of_params(alloc, &signature.params)?;
        let results = keys_of_results(alloc, &signature.results)?;
        Ok(Key { params, results })
    }
}

/// The types of parameters.
fn keys_of_params<'a>(alloc: Global, params: &[Param<'a>]) -> Result<Vec<ValueKey<'a>>, AllocError>
    ensures { IfOk result (λ keys. map value_of_key keys.items ≡ map (λ l. value_shape l.val_type) (map param_tree params.now)) }
{
    let mut keys = Vec::new(alloc);
    for param in params {
        keys.push(key_of_value(alloc, &param.2)?)?;
    }
    Ok(keys)
}

/// The types of results.
fn keys_of_results<'a>(
    alloc: Global,
    results: &[ValType<'a>],
) -> Result<Vec<ValueKey<'a>>, AllocError>
    ensures { IfOk result (λ keys. map value_of_key keys.items ≡ map value_shape (map val_tree results.now)) }
{
    let mut keys = Vec::new(alloc);
    for ty in results {
        keys.push(key_of_value(alloc, ty)?)?;
    }
    Ok(keys)
}

/// That of a value type.
fn key_of_value<'a>(alloc: Global, ty: &ValType<'a>) -> Result<ValueKey<'a>, AllocError>
    ensures { IfOk result (λ key. value_of_key key ≡ value_shape (val_tree ty.now)) }
{
    match ty {
        ValType::I32 => Ok(ValueKey::I32),
        ValType::I64 => Ok(ValueKey::I64),
        ValType::F32 => Ok(ValueKey::F32),
        ValType::F64 => Ok(ValueKey::F64),
        ValType::V128 => Ok(ValueKey::V128),
        ValType::Ref(ty) => key_of_heap(alloc, ty.nullable, &ty.heap),
    }
}

/// That of a reference to a heap type.
fn key_of_heap<'a>(
    alloc: Global,
    nullable: bool,
    heap: &HeapType<'a>,
) -> Result<ValueKey<'a>, AllocError>
    ensures { IfOk result (λ key. value_of_key key ≡ heap_shape nullable (heap_tree heap.now)) }
{
    match heap {
        HeapType::Abstract { shared, ty } => Ok(ValueKey::Abstract {
            nullable,
            shared: *shared,
            word: word_code(*ty),
        }),
        HeapType::Concrete(index) => Ok(ValueKey::Defined {
            nullable,
            exact: false,
            index: key_of_index(alloc, index)?,
        }),
        HeapType::Exact(index) => Ok(ValueKey::Defined {
            nullable,
            exact: true,
            index: key_of_index(alloc, index)?,
        }),
    }
}

/// That of an index.
fn key_of_index<'a>(alloc: Global, index: &Index<'a>) -> Result<IndexKey<'a>, AllocError>
    ensures { IfOk result (λ key. index_of_key key ≡ unplaced_index (index_tree index.now)) }
{
    match index {
        Index::Num(number, _) => Ok(IndexKey::Num(*number)),
        Index::Id(id) => Ok(IndexKey::Id(id.clone(alloc)?)),
    }
}

/// The byte of an abstract heap type in a binary (5.3.3), or a number below those where it is of a proposal.
pub fn word_code(ty: AbstractHeapType) -> u8
    ensures { result ≡ word_code (heap_word ty) }
{
    match ty {
        AbstractHeapType::Func => 0x70,
        AbstractHeapType::Extern => 0x6f,
        AbstractHeapType::Exn => 0x69,
        AbstractHeapType::Cont => 0,
        AbstractHeapType::Any => 0x6e,
        AbstractHeapType::Eq => 0x6d,
        AbstractHeapType::Struct => 0x6b,
        AbstractHeapType::Array => 0x6a,
        AbstractHeapType::I31 => 0x6c,
        AbstractHeapType::NoFunc => 0x73,
        AbstractHeapType::NoExtern => 0x72,
        AbstractHeapType::None => 0x71,
        AbstractHeapType::NoExn => 0x74,
        AbstractHeapType::NoCont => 1,
    }
}
