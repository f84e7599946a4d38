//! What types say of names (6.4).
ghost use Rattle.wast_value_types.specs.ValueViews.{heap_tree, ref_tree, storage_tree, val_tree};
ghost use Rattle.wast_signatures.specs.SignatureViews.{param_tree, sig_tree, use_tree, struct_field_tree};
ghost use Rattle.wast_core_types.specs.TypeViews.{inner_tree, item_tree};
ghost use Rattle.wast_meaning.specs.Mentions as spec;

use crate::judge::{Judge, Judgement};
use crate::tell::{Mentions, Tell, tell_each, tell_index, tell_index_if};
use wast_core_types::{InnerTypeKind, TypeItem};
use wast_meaning::Space;
use wast_signatures::{FunctionType, Param, StructField, TypeUse};
use wast_value_types::{HeapType, RefType, StorageType, ValType};

impl Mentions for HeapType<'_> {
    ghost mentions = { λ t. spec.heap_mentions (heap_tree t) };
}

impl<'a, J: Judge<'a>> Tell<'a, J> for HeapType<'a> {
    fn tell(&self, judge: &J) -> Result<(), J::Fault> {
        match self {
            HeapType::Abstract { .. } => Ok(()),
            HeapType::Concrete(index) => tell_index(Space::Types, index, judge),
            HeapType::Exact(index) => tell_index(Space::Types, index, judge),
        }
    }
}

impl Mentions for RefType<'_> {
    ghost mentions = { λ t. spec.ref_mentions (ref_tree t) };
}

impl<'a, J: Judge<'a>> Tell<'a, J> for RefType<'a> {
    fn tell(&self, judge: &J) -> Result<(), J::Fault> {
        self.heap.tell(judge)
    }
}

impl Mentions for ValType<'_> {
    ghost mentions = { λ t. spec.val_mentions (val_tree t) };
}

impl<'a, J: Judge<'a>> Tell<'a, J> for ValType<'a> {
    fn tell(&self, judge: &J) -> Result<(), J::Fault> {
        match self {
            ValType::I32 | ValType::I64 | ValType::F32 | ValType::F64 | ValType::V128 => Ok(()),
            ValType::Ref(ty) => ty.tell(judge),
        }
    }
}

impl Mentions for StorageType<'_> {
    ghost mentions = { λ t. spec.storage_mentions (storage_tree t) };
}

impl<'a, J: Judge<'a>> Tell<'a, J> for StorageType<'a> {
    fn tell(&self, judge: &J) -> Result<(), J::Fault> {
        match self {
            StorageType::I8 | StorageType::I16 => Ok(()),
            StorageType::Val(ty) => ty.tell(judge),
        }
    }
}

/// A parameter: its type.
impl Mentions for Param<'_> {
    ghost mentions = { λ p. spec.val_mentions (param_tree p).val_type };
}

impl<'a, J: Judge<'a>> Tell<'a, J> for Param<'a> {
    fn tell(&self, judge: &J) -> Result<(), J::Fault> {
        self.2.tell(judge)
    }
}

impl Mentions for FunctionType<'_> {
    ghost mentions = { λ t. spec.sig_mentions (sig_tree t) };
}

/// The types of parameters, then those of results.
impl<'a, J: Judge<'a>> Tell<'a, J> for FunctionType<'a> {
    fn tell(&self, judge: &J) -> Result<(), J::Fault> {
        tell_each(&self.params, judge)?;
        tell_each(&self.results, judge)
    }
}

/// What a type use says itself.
impl Mentions for TypeUse<'_, FunctionType<'_>> {
    ghost mentions = { λ u. spec.use_mentions (use_tree u) };
}

/// Its index, then its signature, where they are written.
impl<'a, J: Judge<'a>> Tell<'a, J> for TypeUse<'a, FunctionType<'a>> {
    fn tell(&self, judge: &J) -> Result<(), J::Fault> {
        tell_index_if(Space::Types, &self.index, judge)?;
        match &self.inline {
            Some(signature) => signature.tell(judge),
            None => Ok(()),
        }
    }
}

impl Mentions for StructField<'_> {
    ghost mentions = { λ f. spec.storage_mentions (struct_field_tree f).field_type.storage };
}

impl<'a, J: Judge<'a>> Tell<'a, J> for StructField<'a> {
    fn tell(&self, judge: &J) -> Result<(), J::Fault> {
        self.ty.tell(judge)
    }
}

impl Mentions for InnerTypeKind<'_> {
    ghost mentions = { λ t. spec.inner_mentions (inner_tree t) };
}

impl<'a, J: Judge<'a>> Tell<'a, J> for InnerTypeKind<'a> {
    fn tell(&self, judge: &J) -> Result<(), J::Fault> {
        match self {
            InnerTypeKind::Func(ty) => ty.tell(judge),
            InnerTypeKind::Struct(ty) => tell_each(&ty.fields, judge),
            InnerTypeKind::Array(ty) => ty.ty.tell(judge),
            InnerTypeKind::Cont(ty) => tell_index(Space::Types, &ty.0, judge),
        }
    }
}

impl Mentions for TypeItem<'_> {
    ghost mentions = { λ t. spec.type_mentions (item_tree t) };
}

/// The type of which it is a subtype, the one that it describes, the one that describes it, and what it is.
impl<'a, J: Judge<'a>> Tell<'a, J> for TypeItem<'a> {
    fn tell(&self, judge: &J) -> Result<(), J::Fault> {
        tell_index_if(Space::Types, &self.def.parent, judge)?;
        tell_index_if(Space::Types, &self.def.describes, judge)?;
        tell_index_if(Space::Types, &self.def.descriptor, judge)?;
        self.def.kind.tell(judge)
    }
}
