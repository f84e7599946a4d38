//! The names inside of what stands in an order.
ghost use Rattle.std.specs.Prelude.{◌≡◌, ◌+◌, ◌<◌, ◌^◌, ◌++◌, ◌∷◌, [], ℕ, List, Option, nat_eq, OnOk, IsErrOf};
ghost use Rattle.wasm_encoder_base.specs.Leb.{uleb};
ghost use Rattle.wasm_encoder_base.specs.Lists.{list_bytes, with_item, HasRoom};
ghost use Rattle.wast_name_maps.specs.Numbered.{none_yet, GroupsJoin, NamesJoined};

use crate::inner_map::InnerMap;
use crate::names::Names;
use crate::number::number_behind;
use std::alloc::Global;
use std::marker::Model;
use wasm_encoder_base::EncodeError;
use wasm_encoder_custom::{IndirectNameMap, NameMap};
use wast_conversions::as_u32;

/// The names inside of what has come, each with its number. Contracts see the list that is written, and the number of what comes next.
#[derive(Drop)]
pub(crate) struct Groups {
    written: InnerMap,
    next: usize,
}

impl Model for Groups {
    ghost use Rattle.wast_name_maps.specs.Numbered.{Numbered};

    ghost Value = { Numbered };

    ghost view = { λ groups. record { list = groups.written; next = groups.next } };
}

impl Groups {
    /// Nothing has come.
    pub(crate) fn new(alloc: Global) -> Self
        ensures { result ≡ none_yet }
    {
        Groups {
            written: InnerMap::new(alloc),
            next: 0,
        }
    }

    /// What comes next, with the names inside of it; where there is none it is left out.
    pub(crate) fn add(&mut self, names: &Names) -> Result<(), EncodeError>
        ensures { (inside : List (Option (List ℕ))) → NamesJoined none_yet names.now inside → GroupsJoin result self.old self.new (inside ∷ []) }
    {
        let next = number_behind(self.next, 1)?;
        append_some(&mut self.written, self.next, names)?;
        self.next = next;
        Ok(())
    }

    /// What comes next and has nothing inside.
    pub(crate) fn pass(&mut self) -> Result<(), EncodeError>
        ensures { GroupsJoin result self.old self.new ([] ∷ []) }
    {
        self.next = number_behind(self.next, 1)?;
        Ok(())
    }

    /// Whether nothing that has come has a name inside.
    pub(crate) fn is_empty(&self) -> bool
        ensures { result ≡ nat_eq self.now.list.count 0 }
    {
        self.written.is_empty()
    }

    /// The names as the encoder has them.
    pub(crate) fn as_map(&self) -> &IndirectNameMap
        ensures { result.now ≡ self.now.list }
    {
        self.written.as_map()
    }
}

/// Appends names inside of what has this number, unless there is none.
fn append_some(written: &mut InnerMap, number: usize, names: &Names) -> Result<(), EncodeError>
    ensures { (inside : List (Option (List ℕ))) → NamesJoined none_yet names.now inside → GroupsJoin result (record { list = written.old; next = number }) (record { list = written.new; next = number + 1 }) (inside ∷ []) }
{
    if names.is_empty() {
        Ok(())
    } else {
        append(written, number, names.as_map())
    }
}

/// Appends the names inside of what has this number.
fn append(written: &mut InnerMap, number: usize, names: &NameMap) -> Result<(), EncodeError>
    ensures appended { OnOk result (written.new ≡ with_item written.old (uleb number ++ list_bytes names.now)) }
    ensures index { OnOk result (number < 2 ^ 32) }
    ensures room { OnOk result (HasRoom written.old) }
    ensures too_large { IsErrOf result EncodeError.TooLarge → number < 2 ^ 32 → HasRoom written.old → ⊥ }
{
    written.append(as_u32(number)?, names)
}
