//! Imports (WebAssembly 3.0, 5.5.5), and groups of them, which the standard doesn't have.

ghost use Rattle.std.specs.Prelude.{◌≡◌, ◌++◌, ◌∷◌, length, IfOk};

use crate::copies::copied_items;
use crate::types::EntityType;
use std::alloc::AllocError;
use wasm_encoder_base::{Encode, EncodeError, Items};

/// An import (5.5.5).
#[derive(Clone, Debug, Drop)]
pub struct Import<'a> {
    pub module: &'a str,
    pub name: &'a str,
    pub ty: EntityType,
}

/// The module's name, the name and the type.
impl Encode for Import<'_> {
    ghost use Rattle.wasm_encoder_items.specs.Imports.{import_bytes};
    ghost use Rattle.wasm_encoder_items.specs.Views.{import_view, ImportFits};

    ghost can_encode = { λ _. Unit {0} };

    ghost fits = { ImportFits };

    ghost spelling = { λ i. import_bytes (import_view i) };

    fn encode(&self, sink: &mut Vec<u8>) -> Result<(), EncodeError> {
        (self.module, (self.name, self.ty)).encode(sink)
    }
}

/// An import of a group whose module name stands once: the name and the type.
#[derive(Clone, Debug, Drop)]
pub struct ImportCompact<'a> {
    pub name: &'a str,
    pub ty: EntityType,
}

/// The name and the type.
impl Encode for ImportCompact<'_> {
    ghost use Rattle.wasm_encoder_items.specs.Imports.{named_bytes};
    ghost use Rattle.wasm_encoder_items.specs.Views.{named_view, NamedFits};

    ghost can_encode = { λ _. Unit {0} };

    ghost fits = { NamedFits };

    ghost spelling = { λ i. named_bytes (named_view i) };

    fn encode(&self, sink: &mut Vec<u8>) -> Result<(), EncodeError> {
        (self.name, self.ty).encode(sink)
    }
}

/// An entry of an import section: an import, or a group of a proposal, which readers of WebAssembly 3.0 don't know.
#[derive(Debug, Drop)]
pub enum Imports<'a> {
    /// One import.
    Single(Import<'a>),
    /// Imports of one module.
    Compact1 {
        module: &'a str,
        items: Items<'a, ImportCompact<'a>>,
    },
    /// Imports of one module that have one type.
    Compact2 {
        module: &'a str,
        ty: EntityType,
        names: Items<'a, &'a str>,
    },
}

impl<'a> Imports<'a> {
    /// The same entry. Fails only where no memory is found.
    pub fn clone(&self) -> Result<Self, AllocError>
        ensures { IfOk result (λ imports. imports ≡ self.now) }
    {
        match self {
            Imports::Single(import) => Ok(Imports::Single(import.clone()?)),
            Imports::Compact1 { module, items } => Ok(Imports::Compact1 {
                module: *module,
                items: copied_items(items)?,
            }),
            Imports::Compact2 { module, ty, names } => Ok(Imports::Compact2 {
                module: *module,
                ty: *ty,
                names: names.clone()?,
            }),
        }
    }
}

/// The import; or the module's name, an empty name, 7F and the list of names and types; or the module's name, an empty
/// name, 7E, the type and the list of names.
impl Encode for Imports<'_> {
    ghost use Rattle.wasm_encoder_items.specs.Imports.{imports_bytes};
    ghost use Rattle.wasm_encoder_items.specs.Views.{imports_view, ImportsFit};

    ghost can_encode = { λ _. Unit {0} };

    ghost fits = { ImportsFit };

    ghost spelling = { λ i. imports_bytes (imports_view i) };

    #[tactic(auto, using(wasm_encoder_base::proofs::Mapped::counted_view))]
    fn encode(&self, sink: &mut Vec<u8>) -> Result<(), EncodeError> {
        match self {
            Imports::Single(import) => import.encode(sink),
            Imports::Compact1 { module, items } => {
                let group = (0x00u8, (0x7Fu8, items.as_slice()));
                (*module, group).encode(sink)
            }
            Imports::Compact2 { module, ty, names } => {
                let typed_group = (0x00u8, (0x7Eu8, (*ty, names.as_slice())));
                (*module, typed_group).encode(sink)
            }
        }
    }
}
