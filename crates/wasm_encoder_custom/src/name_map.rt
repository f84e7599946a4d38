//! Lists of names, the contents of subsections of the name section.

ghost use Rattle.std.specs.Prelude.{◌≡◌, ◌+◌, ◌<◌, ◌^◌, ◌++◌, length, nat_eq, IfOk};
ghost use Rattle.std.specs.Borrow.{sem};
ghost use Rattle.wasm_encoder_base.specs.Adds.{Adds, KeptIfRefused};
ghost use Rattle.wasm_encoder_base.specs.Leb.{uleb};
ghost use Rattle.wasm_encoder_base.specs.Lists.{no_items, with_item, list_bytes, HasRoom};
ghost use Rattle.wasm_encoder_custom.specs.Names.{naming_bytes};
ghost use Rattle.wasm_encoder_custom.specs.contracts.name_map.NameMap.{the_row};
ghost use Rattle.wasm_encoder_custom.specs.contracts.name_map.IndirectNameMap.{the_row as indirect_row};

use std::alloc::{AllocError, Global};
use std::marker::Model;
use wasm_encoder_base::{Added, Encode, EncodeError, EncodedList, Measure};

/// Names by index: a list of indices, each with its name.
///
/// The indices are to rise; that is left to the caller.
#[derive(Debug, Drop)]
pub struct NameMap {
    names: EncodedList,
}

impl Model for NameMap {
    ghost use Rattle.wasm_encoder_base.specs.Lists.{Listed};

    ghost Value = { Listed };

    ghost view = { λ map. map.names };
}

impl NameMap {
    /// A list without names.
    pub fn new(alloc: Global) -> Self
        ensures { result ≡ no_items }
    {
        NameMap {
            names: EncodedList::new(alloc),
        }
    }

    /// Appends an index and its name.
    pub fn append(&mut self, index: u32, name: &str) -> Result<Added<'_, Self>, EncodeError>
        ensures* refused { sem 𝓛 (KeptIfRefused the_row self.entry result) }
        ensures adds { Adds self.entry (with_item self.old (naming_bytes (record { index = index; name = name.now }))) (HasRoom self.old × (length name.now < 2 ^ 32)) result }
    {
        self.names.append(&(index, name))?;
        Ok(Added { target: self })
    }

    /// Whether there are no names.
    pub fn is_empty(&self) -> bool
        ensures { result ≡ nat_eq self.now.count 0 }
    {
        self.names.is_empty()
    }

    /// The same names, in memory of their own. Fails only where no memory is found.
    pub fn clone(&self) -> Result<Self, AllocError>
        ensures { IfOk result (λ map. map ≡ self.now) }
    {
        let names = self.names.clone()?;
        Ok(NameMap { names })
    }
}

/// The count, then each index and name.
impl Encode for NameMap {
    ghost can_encode = { λ _. Unit {0} };

    ghost fits = { λ _. Unit {0} };

    ghost spelling = { list_bytes };

    fn encode(&self, sink: &mut Vec<u8>) -> Result<(), EncodeError> {
        self.names.encode(sink)
    }
}

impl Measure for NameMap {
    fn byte_len(&self) -> Option<usize> {
        self.names.byte_len()
    }
}

/// Names by two indices: a list of indices, each with the names of what is inside it.
///
/// The indices are to rise; that is left to the caller.
#[derive(Debug, Drop)]
pub struct IndirectNameMap {
    maps: EncodedList,
}

impl Model for IndirectNameMap {
    ghost use Rattle.wasm_encoder_base.specs.Lists.{Listed};

    ghost Value = { Listed };

    ghost view = { λ map. map.maps };
}

impl IndirectNameMap {
    /// A list without names.
    pub fn new(alloc: Global) -> Self
        ensures { result ≡ no_items }
    {
        IndirectNameMap {
            maps: EncodedList::new(alloc),
        }
    }

    /// Appends an index and the names of what is inside it.
    pub fn append(&mut self, index: u32, names: &NameMap) -> Result<Added<'_, Self>, EncodeError>
        ensures* refused { sem 𝓛 (KeptIfRefused indirect_row self.entry result) }
        ensures adds { Adds self.entry (with_item self.old (uleb index ++ list_bytes names.now)) (HasRoom self.old) result }
    {
        self.maps.append(&(index, names))?;
        Ok(Added { target: self })
    }

    /// The same names, in memory of their own. Fails only where no memory is found.
    pub fn clone(&self) -> Result<Self, AllocError>
        ensures { IfOk result (λ map. map ≡ self.now) }
    {
        let maps = self.maps.clone()?;
        Ok(IndirectNameMap { maps })
    }
}

/// The count, then each index and list of names.
impl Encode for IndirectNameMap {
    ghost can_encode = { λ _. Unit {0} };

    ghost fits = { λ _. Unit {0} };

    ghost spelling = { list_bytes };

    fn encode(&self, sink: &mut Vec<u8>) -> Result<(), EncodeError> {
        self.maps.encode(sink)
    }
}

impl Measure for IndirectNameMap {
    fn byte_len(&self) -> Option<usize> {
        self.maps.byte_len()
    }
}
