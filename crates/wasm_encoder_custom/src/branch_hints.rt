//! Branch hints (WebAssembly branch hinting).

ghost use Rattle.std.specs.Prelude.{◌≡◌, ◌+◌, ◌<◌, ◌^◌, length, codes, nat_eq};
ghost use Rattle.std.specs.Borrow.{sem};
ghost use Rattle.wasm_encoder_base.specs.Adds.{Adds, KeptIfRefused};
ghost use Rattle.wasm_encoder_base.specs.Lists.{no_items, with_item, list_bytes, HasRoom};
ghost use Rattle.wasm_encoder_custom.specs.BranchHints.{hints_section, hint_bytes, function_hints_bytes};
ghost use Rattle.wasm_encoder_custom.specs.Custom.{custom_bytes, CustomFits};
ghost use Rattle.wasm_encoder_custom.specs.contracts.branch_hints.BranchHints.{the_row};

use crate::custom::encode_custom;
use std::alloc::Global;
use std::marker::Model;
use wasm_encoder_base::{Added, Encode, EncodeError, EncodedList, Section, SectionId};

/// The custom section `metadata.code.branch_hint`: which branches of functions are likely.
///
/// The functions' indices and the offsets in each are to rise, and the values to be 0 or 1; that is left to the caller.
#[derive(Debug, Drop)]
pub struct BranchHints {
    functions: EncodedList,
}

impl Model for BranchHints {
    ghost use Rattle.wasm_encoder_base.specs.Lists.{Listed};

    ghost Value = { Listed };

    ghost view = { λ section. section.functions };
}

impl BranchHints {
    /// A section without hints.
    pub fn new(alloc: Global) -> Self
        ensures { result ≡ no_items }
    {
        BranchHints {
            functions: EncodedList::new(alloc),
        }
    }

    /// Appends the hints of the function with this index.
    pub fn function_hints(
        &mut self,
        function: u32,
        hints: &[BranchHint],
    ) -> Result<Added<'_, Self>, EncodeError>
        ensures* refused { sem 𝓛 (KeptIfRefused the_row self.entry result) }
        ensures adds { Adds self.entry (with_item self.old (function_hints_bytes (record { function_index = function; hints = hints.now }))) (HasRoom self.old × (length hints.now < 2 ^ 32)) result }
    {
        self.functions.append(&(function, hints))?;
        Ok(Added { target: self })
    }

    /// Whether no function has hints.
    pub fn is_empty(&self) -> bool
        ensures { result ≡ nat_eq self.now.count 0 }
    {
        self.functions.is_empty()
    }

    /// How many functions have hints.
    pub fn len(&self) -> u32
        ensures { result ≡ self.now.count }
    {
        self.functions.len()
    }
}

/// The size, `metadata.code.branch_hint`, and the list of functions with their hints.
impl Encode for BranchHints {
    ghost can_encode = { λ _. Unit {0} };

    ghost fits = { λ section. CustomFits (hints_section section) };

    ghost spelling = { λ section. custom_bytes (hints_section section) };

    fn encode(&self, sink: &mut Vec<u8>) -> Result<(), EncodeError> {
        encode_custom("metadata.code.branch_hint", &self.functions, sink)
    }
}

impl Section for BranchHints {
    ghost section_id = { λ _. 0 };

    fn id(&self) -> u8 {
        SectionId::Custom.into()
    }
}

/// A hint on a branch.
#[derive(Clone, Copy, Debug)]
pub struct BranchHint {
    /// How many bytes the branch is behind the beginning of the body, its locals included.
    pub branch_func_offset: u32,
    /// 0: the branch is likely not taken; 1: it is likely taken.
    pub branch_hint_value: u32,
}

/// The offset, the length 1, the value.
impl Encode for BranchHint {
    ghost can_encode = { λ _. Unit {0} };

    ghost fits = { λ _. Unit {0} };

    ghost spelling = { hint_bytes };

    fn encode(&self, sink: &mut Vec<u8>) -> Result<(), EncodeError> {
        (self.branch_func_offset, 1u8, self.branch_hint_value).encode(sink)
    }
}
