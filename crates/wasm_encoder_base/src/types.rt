//! Types and their spellings (WebAssembly 3.0, 5.3).

ghost use Rattle.std.specs.Prelude.{◌≡◌, ◌<◌, ◌^◌, ◌∷◌, [], length, map, IfOk};
ghost use Rattle.wasm_encoder_bytes.specs.Bytes.{counted};
ghost use Rattle.wasm_encoder_bytes.specs.Encodes.{Encodes, Puts};
ghost use Rattle.wasm_encoder_base.specs.Types.{abstract_heap_byte, heap_bytes, ref_bytes, val_bytes, storage_bytes, field_bytes, func_bytes, struct_bytes, array_bytes, composite_bytes, supertype_bytes, sub_bytes};
ghost use Rattle.wasm_encoder_base.specs.Views.{abstract_view, heap_view, ref_view, val_view, storage_view, field_view, func_params, func_results, func_view, struct_view, array_view, composite_view, sub_view, func_fits, struct_fits, composite_fits};

use item_lists::OwnedItems;
use std::alloc::{AllocError, Global};
use wasm_encoder_bytes::{Encode, EncodeError, encode_both, rolled_back};

/// A heap type with a name of its own (5.3); each number is its byte.
#[derive(Clone, Copy, Debug, PartialEq, Eq, Hash)]
pub enum AbstractHeapType {
    Func = 0x70,
    Extern = 0x6F,
    Any = 0x6E,
    Eq = 0x6D,
    I31 = 0x6C,
    Struct = 0x6B,
    Array = 0x6A,
    Exn = 0x69,
    NoFunc = 0x73,
    NoExtern = 0x72,
    None = 0x71,
    NoExn = 0x74,
}

impl Encode for AbstractHeapType {
    ghost can_encode = { λ _. Unit {0} };

    ghost fits = { λ _. Unit {0} };

    ghost spelling = { λ t. abstract_heap_byte (abstract_view t) ∷ [] };

    fn encode(&self, sink: &mut Vec<u8>) -> Result<(), EncodeError> {
        (*self as u8).encode(sink)
    }
}

/// A heap type (5.3): abstract, or the index of a type.
#[derive(Clone, Copy, Debug, PartialEq, Eq, Hash)]
pub enum HeapType {
    Abstract(AbstractHeapType),
    Concrete(u32),
}

impl Encode for HeapType {
    ghost can_encode = { λ _. Unit {0} };

    ghost fits = { λ _. Unit {0} };

    ghost spelling = { λ t. heap_bytes (heap_view t) };

    fn encode(&self, sink: &mut Vec<u8>) -> Result<(), EncodeError> {
        match self {
            HeapType::Abstract(heap_type) => heap_type.encode(sink),
            HeapType::Concrete(index) => i64::from(*index).encode(sink),
        }
    }
}

/// A type of references to a heap type, nullable or not (5.3).
#[derive(Clone, Copy, Debug, PartialEq, Eq, Hash)]
pub struct RefType {
    pub nullable: bool,
    pub heap_type: HeapType,
}

impl RefType {
    /// `funcref`
    pub const FUNCREF: RefType = RefType {
        nullable: true,
        heap_type: HeapType::Abstract(AbstractHeapType::Func),
    };

    /// `externref`
    pub const EXTERNREF: RefType = RefType {
        nullable: true,
        heap_type: HeapType::Abstract(AbstractHeapType::Extern),
    };

    /// `exnref`
    pub const EXNREF: RefType = RefType {
        nullable: true,
        heap_type: HeapType::Abstract(AbstractHeapType::Exn),
    };
}

impl Encode for RefType {
    ghost can_encode = { λ _. Unit {0} };

    ghost fits = { λ _. Unit {0} };

    ghost spelling = { λ t. ref_bytes (ref_view t) };

    fn encode(&self, sink: &mut Vec<u8>) -> Result<(), EncodeError> {
        match (self.nullable, self.heap_type) {
            (true, HeapType::Abstract(heap_type)) => heap_type.encode(sink),
            (true, HeapType::Concrete(_)) => encode_both(&0x63u8, &self.heap_type, sink),
            (false, _) => encode_both(&0x64u8, &self.heap_type, sink),
        }
    }
}

/// A type of values (5.3).
#[derive(Clone, Copy, Debug, PartialEq, Eq, Hash)]
pub enum ValType {
    I32,
    I64,
    F32,
    F64,
    V128,
    Ref(RefType),
}

impl Encode for ValType {
    ghost can_encode = { λ _. Unit {0} };

    ghost fits = { λ _. Unit {0} };

    ghost spelling = { λ t. val_bytes (val_view t) };

    fn encode(&self, sink: &mut Vec<u8>) -> Result<(), EncodeError> {
        match self {
            ValType::I32 => 0x7Fu8.encode(sink),
            ValType::I64 => 0x7Eu8.encode(sink),
            ValType::F32 => 0x7Du8.encode(sink),
            ValType::F64 => 0x7Cu8.encode(sink),
            ValType::V128 => 0x7Bu8.encode(sink),
            ValType::Ref(ref_type) => ref_type.encode(sink),
        }
    }
}

/// What a field holds (5.3): a value, or an integer of 8 or 16 bits.
#[derive(Clone, Copy, Debug, PartialEq, Eq, Hash)]
pub enum StorageType {
    I8,
    I16,
    Val(ValType),
}

impl Encode for StorageType {
    ghost can_encode = { λ _. Unit {0} };

    ghost fits = { λ _. Unit {0} };

    ghost spelling = { λ t. storage_bytes (storage_view t) };

    fn encode(&self, sink: &mut Vec<u8>) -> Result<(), EncodeError> {
        match self {
            StorageType::I8 => 0x78u8.encode(sink),
            StorageType::I16 => 0x77u8.encode(sink),
            StorageType::Val(val_type) => val_type.encode(sink),
        }
    }
}

/// A field of a structure or an array (5.3).
#[derive(Clone, Copy, Debug, PartialEq, Eq, Hash)]
pub struct FieldType {
    pub element_type: StorageType,
    pub mutable: bool,
}

impl Encode for FieldType {
    ghost can_encode = { λ _. Unit {0} };

    ghost fits = { λ _. Unit {0} };

    ghost spelling = { λ t. field_bytes (field_view t) };

    fn encode(&self, sink: &mut Vec<u8>) -> Result<(), EncodeError> {
        encode_both(&self.element_type, &u8::from(self.mutable), sink)
    }
}

/// A function's parameters and results (5.3).
#[derive(Clone, Debug, Drop)]
pub struct FuncType {
    params: OwnedItems<ValType>,
    results: OwnedItems<ValType>,
}

impl FuncType {
    /// The type with these parameters and results. Fails only where no memory is found.
    pub fn new(alloc: Global, params: &[ValType], results: &[ValType]) -> Result<Self, AllocError>
        ensures params { IfOk result (λ f. func_params f ≡ params.now) }
        ensures results { IfOk result (λ f. func_results f ≡ results.now) }
    {
        let params = Vec::from_slice(alloc, params)?;
        let results = Vec::from_slice(alloc, results)?;
        Ok(FuncType {
            params: OwnedItems::new(params),
            results: OwnedItems::new(results),
        })
    }

    /// The parameters.
    pub fn params(&self) -> &[ValType]
        ensures { result.now ≡ func_params self.now }
    {
        self.params.as_slice()
    }

    /// The results.
    pub fn results(&self) -> &[ValType]
        ensures { result.now ≡ func_results self.now }
    {
        self.results.as_slice()
    }
}

impl Encode for FuncType {
    ghost can_encode = { λ _. Unit {0} };

    ghost fits = { func_fits };

    ghost spelling = { λ f. func_bytes (func_view f) };

    fn encode(&self, sink: &mut Vec<u8>) -> Result<(), EncodeError> {
        let start = sink.len();
        let answer = put_func_type(self, sink);
        rolled_back(sink, start, answer)
    }
}

/// Appends the bytes; refused, the sink is as it was and what was appended.
fn put_func_type(func_type: &FuncType, sink: &mut Vec<u8>) -> Result<(), EncodeError>
    ensures { Puts (func_bytes (func_view func_type.now)) (func_fits func_type.now) sink.old.items sink.new.items result }
{
    0x60u8.encode(sink)?;
    encode_val_types(func_type.params(), sink)?;
    encode_val_types(func_type.results(), sink)
}

/// Appends the count and the types.
#[tactic(auto, using(crate::proofs::Mapped::counted_view))]
fn encode_val_types(types: &[ValType], sink: &mut Vec<u8>) -> Result<(), EncodeError>
    ensures { Encodes (counted val_bytes (map val_view types.now)) (length types.now < 2 ^ 32) sink.old.items sink.new.items result }
{
    types.encode(sink)
}

/// A structure's fields (5.3).
#[derive(Clone, Debug, Drop)]
pub struct StructType {
    pub fields: OwnedItems<FieldType>,
}

impl Encode for StructType {
    ghost can_encode = { λ _. Unit {0} };

    ghost fits = { struct_fits };

    ghost spelling = { λ s. struct_bytes (struct_view s) };

    #[tactic(auto, using(crate::proofs::Mapped::counted_view))]
    fn encode(&self, sink: &mut Vec<u8>) -> Result<(), EncodeError> {
        encode_both(&0x5Fu8, &self.fields.as_slice(), sink)
    }
}

/// A type of arrays, by their elements (5.3).
#[derive(Clone, Copy, Debug, PartialEq, Eq, Hash)]
pub struct ArrayType(pub FieldType);

impl Encode for ArrayType {
    ghost can_encode = { λ _. Unit {0} };

    ghost fits = { λ _. Unit {0} };

    ghost spelling = { λ a. array_bytes (array_view a) };

    fn encode(&self, sink: &mut Vec<u8>) -> Result<(), EncodeError> {
        encode_both(&0x5Eu8, &self.0, sink)
    }
}

/// A function, array or structure type (5.3).
#[derive(Clone, Debug, Drop)]
pub enum CompositeType {
    Func(FuncType),
    Array(ArrayType),
    Struct(StructType),
}

impl Encode for CompositeType {
    ghost can_encode = { λ _. Unit {0} };

    ghost fits = { composite_fits };

    ghost spelling = { λ t. composite_bytes (composite_view t) };

    fn encode(&self, sink: &mut Vec<u8>) -> Result<(), EncodeError> {
        match self {
            CompositeType::Func(func) => func.encode(sink),
            CompositeType::Array(array) => array.encode(sink),
            CompositeType::Struct(fields) => fields.encode(sink),
        }
    }
}

/// A composite type with its place below another (5.3).
#[derive(Clone, Debug, Drop)]
pub struct SubType {
    pub is_final: bool,
    pub supertype_idx: Option<u32>,
    pub composite_type: CompositeType,
}

impl SubType {
    /// What stands before the composite type.
    fn supertypes(&self) -> Supertypes
        ensures is_final { result.is_final ≡ self.now.is_final }
        ensures index { result.index ≡ self.now.supertype_idx }
    {
        Supertypes {
            is_final: self.is_final,
            index: self.supertype_idx,
        }
    }
}

impl Encode for SubType {
    ghost can_encode = { λ _. Unit {0} };

    ghost fits = { λ t. composite_fits t.composite_type };

    ghost spelling = { λ t. sub_bytes (sub_view t) };

    fn encode(&self, sink: &mut Vec<u8>) -> Result<(), EncodeError> {
        encode_both(&self.supertypes(), &self.composite_type, sink)
    }
}

/// Whether a type is final, and its supertype.
#[derive(Clone, Copy)]
struct Supertypes {
    is_final: bool,
    index: Option<u32>,
}

impl Encode for Supertypes {
    ghost can_encode = { λ _. Unit {0} };

    ghost fits = { λ _. Unit {0} };

    ghost spelling = { λ s. supertype_bytes s.is_final s.index };

    fn encode(&self, sink: &mut Vec<u8>) -> Result<(), EncodeError> {
        match (self.is_final, self.index) {
            (true, None) => Ok(()),
            (true, Some(index)) => encode_both(&0x4Fu8, &[index].as_slice(), sink),
            (false, Some(index)) => encode_both(&0x50u8, &[index].as_slice(), sink),
            (false, None) => encode_both(&0x50u8, &0usize, sink),
        }
    }
}
