//! Types (6.4).
ghost use Rattle.std.specs.Prelude.{◌≡◌, ℕ};
ghost use Rattle.wast_grammar.specs.Tokens.{Name};
ghost use Rattle.wast_value_types.specs.ValueTree as values;
ghost use Rattle.wast_value_types.specs.ValueViews.{heap_word, heap_tree, ref_tree, val_tree, storage_tree, table_tree, global_tree};
ghost use Rattle.wast_signatures.specs.TypeTree as types;
ghost use Rattle.wast_signatures.specs.SignatureViews.{param_tree, sig_tree, use_tree, struct_field_tree};
ghost use Rattle.wast_core_types.specs.TypeViews.{inner_tree, item_tree};
ghost use Rattle.wast_conversions.specs.Covered.{word_forms, heap_forms, ref_forms, val_forms, storage_forms, sig_forms, inner_forms, type_forms, use_forms, table_forms, global_forms};
ghost use Rattle.wast_uncovered.specs.First.{first, said};

use crate::form::{HasForms, first_in};
use wast_core_types::{InnerTypeKind, TypeItem};
use wast_signatures::{FunctionType, Param, StructField, TypeUse};
use wast_value_types::{
    AbstractHeapType, GlobalType, HeapType, RefType, StorageType, TableType, ValType,
};

impl HasForms for HeapType<'_> {
    ghost Tree = { values.HeapType Name ℕ };

    ghost tree = { heap_tree };

    ghost forms = { heap_forms };

    fn first_form(&self) -> Option<&'static str> {
        match self {
            HeapType::Abstract { shared: true, .. } => Some("shared type"),
            HeapType::Abstract { ty, .. } => word_form(*ty),
            HeapType::Concrete(_) => None,
            HeapType::Exact(_) => Some("exact type"),
        }
    }
}

/// The form of an abstract heap type that isn't shared: one of continuations.
fn word_form(ty: AbstractHeapType) -> Option<&'static str>
    ensures { said result ≡ first (word_forms (heap_word ty)) }
{
    match ty {
        AbstractHeapType::Cont | AbstractHeapType::NoCont => Some("cont type"),
        _ => None,
    }
}

impl HasForms for RefType<'_> {
    ghost Tree = { values.RefType Name ℕ };

    ghost tree = { ref_tree };

    ghost forms = { ref_forms };

    fn first_form(&self) -> Option<&'static str> {
        self.heap.first_form()
    }
}

impl HasForms for ValType<'_> {
    ghost Tree = { values.ValType Name ℕ };

    ghost tree = { val_tree };

    ghost forms = { val_forms };

    fn first_form(&self) -> Option<&'static str> {
        match self {
            ValType::I32 | ValType::I64 | ValType::F32 | ValType::F64 | ValType::V128 => None,
            ValType::Ref(ty) => ty.first_form(),
        }
    }
}

impl HasForms for StorageType<'_> {
    ghost Tree = { values.StorageType Name ℕ };

    ghost tree = { storage_tree };

    ghost forms = { storage_forms };

    fn first_form(&self) -> Option<&'static str> {
        match self {
            StorageType::I8 | StorageType::I16 => None,
            StorageType::Val(ty) => ty.first_form(),
        }
    }
}

/// A parameter: its type.
impl HasForms for Param<'_> {
    ghost Tree = { types.Local Name ℕ };

    ghost tree = { param_tree };

    ghost forms = { λ p. val_forms p.val_type };

    fn first_form(&self) -> Option<&'static str> {
        self.2.first_form()
    }
}

/// The types of parameters, then those of results.
impl HasForms for FunctionType<'_> {
    ghost Tree = { types.Sig Name ℕ };

    ghost tree = { sig_tree };

    ghost forms = { sig_forms };

    #[tactic(auto, using(crate::proofs::First::first_joined))]
    fn first_form(&self) -> Option<&'static str> {
        first_in(&self.params).or(first_in(&self.results))
    }
}

/// A type use: its signature, where one is written.
impl HasForms for TypeUse<'_, FunctionType<'_>> {
    ghost Tree = { types.TypeUse Name ℕ };

    ghost tree = { use_tree };

    ghost forms = { use_forms };

    fn first_form(&self) -> Option<&'static str> {
        match &self.inline {
            Some(signature) => signature.first_form(),
            None => None,
        }
    }
}

impl HasForms for StructField<'_> {
    ghost Tree = { types.StructField Name ℕ };

    ghost tree = { struct_field_tree };

    ghost forms = { λ f. storage_forms f.field_type.storage };

    fn first_form(&self) -> Option<&'static str> {
        self.ty.first_form()
    }
}

impl HasForms for InnerTypeKind<'_> {
    ghost Tree = { types.InnerType Name ℕ };

    ghost tree = { inner_tree };

    ghost forms = { inner_forms };

    fn first_form(&self) -> Option<&'static str> {
        match self {
            InnerTypeKind::Func(ty) => ty.first_form(),
            InnerTypeKind::Struct(ty) => first_in(&ty.fields),
            InnerTypeKind::Array(ty) => ty.ty.first_form(),
            InnerTypeKind::Cont(_) => Some("cont type"),
        }
    }
}

/// A type that is defined: that it has or is a descriptor, that it is shared, then what it is.
impl HasForms for TypeItem<'_> {
    ghost Tree = { types.TypeItem Name ℕ };

    ghost tree = { item_tree };

    ghost forms = { λ t. type_forms t.definition };

    fn first_form(&self) -> Option<&'static str> {
        let def = &self.def;
        if def.describes.is_some() || def.descriptor.is_some() {
            Some("descriptor")
        } else if def.shared {
            Some("shared type")
        } else {
            def.kind.first_form()
        }
    }
}

impl HasForms for TableType<'_> {
    ghost Tree = { values.TableType Name ℕ };

    ghost tree = { table_tree };

    ghost forms = { table_forms };

    fn first_form(&self) -> Option<&'static str> {
        if self.shared {
            Some("shared type")
        } else {
            self.elem.first_form()
        }
    }
}

impl HasForms for GlobalType<'_> {
    ghost Tree = { values.GlobalType Name ℕ };

    ghost tree = { global_tree };

    ghost forms = { global_forms };

    fn first_form(&self) -> Option<&'static str> {
        if self.shared {
            Some("shared type")
        } else {
            self.ty.first_form()
        }
    }
}
