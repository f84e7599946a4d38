//! Types of values, heaps, functions, structures and arrays, and their definitions.
ghost use Rattle.std.specs.Prelude.{◌≡◌, [], All, IfOk, OnOk, map, option_map};
ghost use Rattle.std.specs.List.{flat_map, AllByRecursion};
ghost use Rattle.wasm_encoder_base.specs.Types.{supertype_list, IsHeapType, IsValType, IsStorageType, IsFuncType, IsCompositeType, IsSubType};
ghost use Rattle.wasm_encoder_base.specs.Views.{abstract_view, heap_view, ref_view, val_view, storage_view, field_view, func_view, struct_view, array_view, composite_view, sub_view};
ghost use Rattle.wasm_layout.specs.IsModule.{IsU32};
ghost use Rattle.wast_parser.specs.Identifiers.{index_tree};
ghost use Rattle.wast_value_types.specs.ValueViews.{heap_word, heap_tree, ref_tree, val_tree, storage_tree, field_tree};
ghost use Rattle.wast_signatures.specs.SignatureViews.{param_tree, sig_tree, use_tree, struct_field_tree};
ghost use Rattle.wast_core_types.specs.TypeViews.{array_tree, inner_tree, definition_tree};
ghost use Rattle.wast_conversions.specs.Types.{number_of, word_meant, heap_meant, ref_meant, val_meant, storage_meant, field_meant, func_meant, inner_meant, sub_meant, use_meant};
ghost use Rattle.wast_conversions.specs.Resolved.{IsNumber, IfThere, HeapResolved, RefResolved, ValResolved, StorageResolved, SigResolved, InnerResolved, TypeResolved, UseResolved};
ghost use Rattle.wast_conversions.specs.Covered.{word_forms, heap_forms, ref_forms, val_forms, storage_forms, sig_forms, inner_forms, type_forms};

use crate::indices::index;
use std::alloc::{AllocError, Global};
use wasm_encoder_base::OwnedItems;
use wast_core_types::{ArrayType, InnerTypeKind, StructType, TypeDef};
use wast_parser::Index;
use wast_signatures::{FunctionType, Param, StructField, TypeUse};
use wast_value_types::{AbstractHeapType, FieldType, HeapType, RefType, StorageType, ValType};

/// The encoder's heap type that a heap type (6.4.2) stands for: an abstract one, or that of a type by its number.
#[tactic(auto, using(crate::proofs::Empty::back))]
pub fn heap_type(ty: &HeapType<'_>) -> wasm_encoder_base::HeapType
    requires resolved { HeapResolved (heap_tree ty.now) }
    requires covered { heap_forms (heap_tree ty.now) ≡ [] }
    ensures same { heap_view result ≡ heap_meant (heap_tree ty.now) }
    ensures sound { IsHeapType (heap_meant (heap_tree ty.now)) }
{
    match ty {
        HeapType::Abstract { ty, .. } => wasm_encoder_base::HeapType::Abstract(abstract_heap_type(
            *ty,
        )),
        HeapType::Concrete(number) => wasm_encoder_base::HeapType::Concrete(index(number)),
        HeapType::Exact(_) => unreachable!(),
    }
}

/// An abstract heap type (6.4.2) that isn't of continuations.
fn abstract_heap_type(ty: AbstractHeapType) -> wasm_encoder_base::AbstractHeapType
    requires { word_forms (heap_word ty) ≡ [] }
    ensures { abstract_view result ≡ word_meant (heap_word ty) }
{
    match ty {
        AbstractHeapType::Func => wasm_encoder_base::AbstractHeapType::Func,
        AbstractHeapType::Extern => wasm_encoder_base::AbstractHeapType::Extern,
        AbstractHeapType::Exn => wasm_encoder_base::AbstractHeapType::Exn,
        AbstractHeapType::Any => wasm_encoder_base::AbstractHeapType::Any,
        AbstractHeapType::Eq => wasm_encoder_base::AbstractHeapType::Eq,
        AbstractHeapType::Struct => wasm_encoder_base::AbstractHeapType::Struct,
        AbstractHeapType::Array => wasm_encoder_base::AbstractHeapType::Array,
        AbstractHeapType::I31 => wasm_encoder_base::AbstractHeapType::I31,
        AbstractHeapType::NoFunc => wasm_encoder_base::AbstractHeapType::NoFunc,
        AbstractHeapType::NoExtern => wasm_encoder_base::AbstractHeapType::NoExtern,
        AbstractHeapType::None => wasm_encoder_base::AbstractHeapType::None,
        AbstractHeapType::NoExn => wasm_encoder_base::AbstractHeapType::NoExn,
        AbstractHeapType::Cont | AbstractHeapType::NoCont => unreachable!(),
    }
}

/// The encoder's reference type that a reference type (6.4.3) stands for.
pub fn ref_type(ty: &RefType<'_>) -> wasm_encoder_base::RefType
    requires resolved { RefResolved (ref_tree ty.now) }
    requires covered { ref_forms (ref_tree ty.now) ≡ [] }
    ensures same { ref_view result ≡ ref_meant (ref_tree ty.now) }
    ensures sound { IsHeapType (ref_meant (ref_tree ty.now)).heap_type }
{
    wasm_encoder_base::RefType {
        nullable: ty.nullable,
        heap_type: heap_type(&ty.heap),
    }
}

/// The encoder's value type that a value type (6.4.4) stands for.
pub fn val_type(ty: &ValType<'_>) -> wasm_encoder_base::ValType
    requires resolved { ValResolved (val_tree ty.now) }
    requires covered { val_forms (val_tree ty.now) ≡ [] }
    ensures same { val_view result ≡ val_meant (val_tree ty.now) }
    ensures sound { IsValType (val_meant (val_tree ty.now)) }
{
    match ty {
        ValType::I32 => wasm_encoder_base::ValType::I32,
        ValType::I64 => wasm_encoder_base::ValType::I64,
        ValType::F32 => wasm_encoder_base::ValType::F32,
        ValType::F64 => wasm_encoder_base::ValType::F64,
        ValType::V128 => wasm_encoder_base::ValType::V128,
        ValType::Ref(ty) => wasm_encoder_base::ValType::Ref(ref_type(ty)),
    }
}

/// The encoder's storage type that a storage type (6.4.6) stands for.
pub fn storage_type(ty: &StorageType<'_>) -> wasm_encoder_base::StorageType
    requires resolved { StorageResolved (storage_tree ty.now) }
    requires covered { storage_forms (storage_tree ty.now) ≡ [] }
    ensures same { storage_view result ≡ storage_meant (storage_tree ty.now) }
    ensures sound { IsStorageType (storage_meant (storage_tree ty.now)) }
{
    match ty {
        StorageType::I8 => wasm_encoder_base::StorageType::I8,
        StorageType::I16 => wasm_encoder_base::StorageType::I16,
        StorageType::Val(ty) => wasm_encoder_base::StorageType::Val(val_type(ty)),
    }
}

/// The encoder's field type that a field type (6.4.6) stands for: what a field holds, and whether it can be set.
pub fn field_type(ty: &FieldType<'_>) -> wasm_encoder_base::FieldType
    requires resolved { StorageResolved (field_tree ty.now).storage }
    requires covered { storage_forms (field_tree ty.now).storage ≡ [] }
    ensures same { field_view result ≡ field_meant (field_tree ty.now) }
    ensures sound { IsStorageType (field_meant (field_tree ty.now)).element_type }
{
    wasm_encoder_base::FieldType {
        element_type: storage_type(&ty.ty),
        mutable: ty.mutable,
    }
}

/// The encoder's array type that an array type (6.4.6) stands for: the field type of its elements.
pub fn array_type(ty: &ArrayType<'_>) -> wasm_encoder_base::ArrayType
    requires resolved { StorageResolved (array_tree ty.now).storage }
    requires covered { storage_forms (array_tree ty.now).storage ≡ [] }
    ensures same { array_view result ≡ field_meant (array_tree ty.now) }
    ensures sound { IsStorageType (field_meant (array_tree ty.now)).element_type }
{
    wasm_encoder_base::ArrayType(wasm_encoder_base::FieldType {
        element_type: storage_type(&ty.ty),
        mutable: ty.mutable,
    })
}

/// The encoder's structure type that a structure type (6.4.6) stands for: the types of its fields, in order. Fails only for want of memory.
pub fn struct_type(
    alloc: Global,
    ty: &StructType<'_>,
) -> Result<wasm_encoder_base::StructType, AllocError>
    requires resolved { All (λ f. StorageResolved f.field_type.storage) (map struct_field_tree ty.now.fields.items) }
    requires covered { flat_map (λ f. storage_forms f.field_type.storage) (map struct_field_tree ty.now.fields.items) ≡ [] }
    ensures same { IfOk result (λ s. struct_view s ≡ map (λ f. field_meant f.field_type) (map struct_field_tree ty.now.fields.items)) }
    ensures sound { OnOk result (AllByRecursion (λ f. IsStorageType f.element_type) (map (λ f. field_meant f.field_type) (map struct_field_tree ty.now.fields.items))) }
{
    let fields = struct_fields(alloc, &ty.fields)?;
    Ok(wasm_encoder_base::StructType {
        fields: OwnedItems::new(fields),
    })
}

/// The fields of a structure type. Fails only for want of memory.
fn struct_fields(
    alloc: Global,
    fields: &[StructField<'_>],
) -> Result<Vec<wasm_encoder_base::FieldType>, AllocError>
    requires resolved { All (λ f. StorageResolved f.field_type.storage) (map struct_field_tree fields.now) }
    requires covered { flat_map (λ f. storage_forms f.field_type.storage) (map struct_field_tree fields.now) ≡ [] }
    ensures same { IfOk result (λ v. map field_view v.items ≡ map (λ f. field_meant f.field_type) (map struct_field_tree fields.now)) }
    ensures sound { OnOk result (AllByRecursion (λ f. IsStorageType f.element_type) (map (λ f. field_meant f.field_type) (map struct_field_tree fields.now))) }
{
    let mut types = Vec::with_capacity(alloc, fields.len())?;
    for field in fields {
        types.push(struct_field(field))?;
    }
    Ok(types)
}

/// A field of a structure type.
fn struct_field(field: &StructField<'_>) -> wasm_encoder_base::FieldType
    requires resolved { StorageResolved (struct_field_tree field.now).field_type.storage }
    requires covered { storage_forms (struct_field_tree field.now).field_type.storage ≡ [] }
    ensures same { field_view result ≡ field_meant (struct_field_tree field.now).field_type }
    ensures sound { IsStorageType (field_meant (struct_field_tree field.now).field_type).element_type }
{
    wasm_encoder_base::FieldType {
        element_type: storage_type(&field.ty),
        mutable: field.mutable,
    }
}

/// The encoder's function type that a signature (6.4.5) stands for, without names. Fails only for want of memory.
#[tactic(auto, using(crate::proofs::Empty::front, crate::proofs::Empty::back))]
pub fn func_type(
    alloc: Global,
    ty: &FunctionType<'_>,
) -> Result<wasm_encoder_base::FuncType, AllocError>
    requires resolved { SigResolved (sig_tree ty.now) }
    requires covered { sig_forms (sig_tree ty.now) ≡ [] }
    ensures same { IfOk result (λ f. func_view f ≡ func_meant (sig_tree ty.now)) }
    ensures sound { OnOk result (IsFuncType (func_meant (sig_tree ty.now))) }
{
    let params = param_types(alloc, &ty.params)?;
    let results = val_types(alloc, &ty.results)?;
    wasm_encoder_base::FuncType::new(alloc, &params, &results)
}

/// The types of parameters. Fails only for want of memory.
fn param_types(
    alloc: Global,
    params: &[Param<'_>],
) -> Result<Vec<wasm_encoder_base::ValType>, AllocError>
    requires resolved { All (λ p. ValResolved p.val_type) (map param_tree params.now) }
    requires covered { flat_map (λ p. val_forms p.val_type) (map param_tree params.now) ≡ [] }
    ensures same { IfOk result (λ v. map val_view v.items ≡ map (λ p. val_meant p.val_type) (map param_tree params.now)) }
    ensures sound { OnOk result (AllByRecursion IsValType (map (λ p. val_meant p.val_type) (map param_tree params.now))) }
{
    let mut types = Vec::with_capacity(alloc, params.len())?;
    for param in params {
        types.push(param_type(param))?;
    }
    Ok(types)
}

/// The type of a parameter.
fn param_type(param: &Param<'_>) -> wasm_encoder_base::ValType
    requires resolved { ValResolved (param_tree param.now).val_type }
    requires covered { val_forms (param_tree param.now).val_type ≡ [] }
    ensures same { val_view result ≡ val_meant (param_tree param.now).val_type }
    ensures sound { IsValType (val_meant (param_tree param.now).val_type) }
{
    val_type(&param.2)
}

/// Value types, one by one. Fails only for want of memory.
pub(crate) fn val_types(
    alloc: Global,
    types: &[ValType<'_>],
) -> Result<Vec<wasm_encoder_base::ValType>, AllocError>
    requires resolved { All ValResolved (map val_tree types.now) }
    requires covered { flat_map val_forms (map val_tree types.now) ≡ [] }
    ensures same { IfOk result (λ v. map val_view v.items ≡ map val_meant (map val_tree types.now)) }
    ensures sound { OnOk result (AllByRecursion IsValType (map val_meant (map val_tree types.now))) }
{
    let mut converted = Vec::with_capacity(alloc, types.len())?;
    for ty in types {
        converted.push(val_type(ty))?;
    }
    Ok(converted)
}

/// A composite type (6.4.6). Fails only for want of memory.
fn composite_type(
    alloc: Global,
    kind: &InnerTypeKind<'_>,
) -> Result<wasm_encoder_base::CompositeType, AllocError>
    requires resolved { InnerResolved (inner_tree kind.now) }
    requires covered { inner_forms (inner_tree kind.now) ≡ [] }
    ensures same { IfOk result (λ c. composite_view c ≡ inner_meant (inner_tree kind.now)) }
    ensures sound { OnOk result (IsCompositeType (inner_meant (inner_tree kind.now))) }
{
    match kind {
        InnerTypeKind::Func(ty) => Ok(wasm_encoder_base::CompositeType::Func(func_type(
            alloc, ty,
        )?)),
        InnerTypeKind::Struct(ty) => Ok(wasm_encoder_base::CompositeType::Struct(struct_type(
            alloc, ty,
        )?)),
        InnerTypeKind::Array(ty) => Ok(wasm_encoder_base::CompositeType::Array(array_type(ty))),
        InnerTypeKind::Cont(_) => unreachable!(),
    }
}

/// The encoder's type definition that a type definition (6.4.7) stands for, with the number of its supertype, where it has one. Fails only
/// for want of memory.
#[tactic(auto, using(crate::proofs::Empty::back))]
pub fn sub_type(alloc: Global, def: &TypeDef<'_>) -> Result<wasm_encoder_base::SubType, AllocError>
    requires resolved { TypeResolved (definition_tree def.now) }
    requires covered { type_forms (definition_tree def.now) ≡ [] }
    ensures same { IfOk result (λ t. sub_view t ≡ sub_meant (definition_tree def.now)) }
    ensures sound { OnOk result (IsSubType (sub_meant (definition_tree def.now))) }
{
    Ok(wasm_encoder_base::SubType {
        is_final: def.final_type,
        supertype_idx: supertype(&def.parent),
        composite_type: composite_type(alloc, &def.kind)?,
    })
}

/// The number of the supertype, where there is one.
fn supertype(parent: &Option<Index<'_>>) -> Option<u32>
    requires { IfThere IsNumber (option_map index_tree parent.now) }
    ensures same { result ≡ option_map number_of (option_map index_tree parent.now) }
    ensures sound { AllByRecursion IsU32 (supertype_list (option_map number_of (option_map index_tree parent.now))) }
{
    match parent {
        Some(parent) => Some(index(parent)),
        None => None,
    }
}

/// The number of the type of a use (6.6, type uses), which is no name.
pub fn type_index(ty: &TypeUse<'_, FunctionType<'_>>) -> u32
    requires { UseResolved (use_tree ty.now) }
    ensures same { result ≡ use_meant (use_tree ty.now) }
    ensures sound { IsU32 (use_meant (use_tree ty.now)) }
{
    match &ty.index {
        Some(number) => index(number),
        None => unreachable!(),
    }
}
