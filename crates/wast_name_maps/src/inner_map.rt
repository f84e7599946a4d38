//! Maps of the names inside of items.
ghost use Rattle.std.specs.Prelude.{◌≡◌, ◌++◌, nat_eq, OnOk, IsErrOf};
ghost use Rattle.wasm_encoder_base.specs.Leb.{uleb};
ghost use Rattle.wasm_encoder_base.specs.Lists.{list_bytes, no_items, with_item, HasRoom};

use std::alloc::Global;
use std::marker::Model;
use wasm_encoder_base::EncodeError;
use wasm_encoder_custom::{IndirectNameMap, NameMap};

/// Names by two indices, and whether there are none. Contracts see the list that is encoded.
#[derive(Drop)]
pub(crate) struct InnerMap {
    maps: IndirectNameMap,
    is_empty: bool,
}

impl Model for InnerMap {
    ghost use Rattle.std.specs.Prelude.{◌≡◌, nat_eq};
    ghost use Rattle.wasm_encoder_base.specs.Lists.{Listed};

    ghost Value = { Listed };

    ghost view = { λ map. map.maps };

    ghost invariant = { λ map. map.is_empty ≡ nat_eq map.maps.count 0 };
}

impl InnerMap {
    /// A map without names.
    pub(crate) fn new(alloc: Global) -> Self
        ensures { result ≡ no_items }
    {
        InnerMap {
            maps: IndirectNameMap::new(alloc),
            is_empty: true,
        }
    }

    /// Appends an index and the names of what is inside the item.
    pub(crate) fn append(&mut self, index: u32, names: &NameMap) -> Result<(), EncodeError>
        ensures appended { OnOk result (self.new ≡ with_item self.old (uleb index ++ list_bytes names.now)) }
        ensures room { OnOk result (HasRoom self.old) }
        ensures too_large { IsErrOf result EncodeError.TooLarge → HasRoom self.old → ⊥ }
    {
        self.maps.append(index, names)?;
        self.is_empty = false;
        Ok(())
    }

    /// Whether it has no names.
    pub(crate) fn is_empty(&self) -> bool
        ensures { result ≡ nat_eq self.now.count 0 }
    {
        self.is_empty
    }

    /// The map as the encoder has it.
    pub(crate) fn as_map(&self) -> &IndirectNameMap
        ensures { result.now ≡ self.now }
    {
        &self.maps
    }
}
