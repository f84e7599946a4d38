//! The names of what stands in an order.
ghost use Rattle.std.specs.Prelude.{◌≡◌, ◌+◌, ◌<◌, ◌^◌, ◌∷◌, [], None, length, nat_eq, replicate, OnOk, IsErrOf, option_map};
ghost use Rattle.wasm_encoder_base.specs.Lists.{with_item, HasRoom};
ghost use Rattle.wasm_encoder_custom.specs.Names.{naming_bytes};
ghost use Rattle.wast_name_maps.specs.Numbered.{none_yet, NamesJoin};

use crate::number::number_behind;
use std::alloc::Global;
use std::marker::Model;
use wasm_encoder_base::EncodeError;
use wasm_encoder_custom::NameMap;
use wast_conversions::as_u32;

/// The names of what has come, each with its number. Contracts see the list that is written, and the number of what comes next.
#[derive(Drop)]
pub(crate) struct Names {
    written: NameMap,
    next: usize,
}

impl Model for Names {
    ghost use Rattle.wast_name_maps.specs.Numbered.{Numbered};

    ghost Value = { Numbered };

    ghost view = { λ names. record { list = names.written; next = names.next } };
}

impl Names {
    /// Nothing has come.
    pub(crate) fn new(alloc: Global) -> Self
        ensures { result ≡ none_yet }
    {
        Names {
            written: NameMap::new(alloc),
            next: 0,
        }
    }

    /// What comes next, with its name, if it has one.
    pub(crate) fn add(&mut self, name: Option<&str>) -> Result<(), EncodeError>
        ensures { NamesJoin result self.old self.new (option_map (λ s. s.now) name.entry ∷ []) }
    {
        let next = number_behind(self.next, 1)?;
        append_if(&mut self.written, self.next, name)?;
        self.next = next;
        Ok(())
    }

    /// So many that have no names.
    pub(crate) fn pass(&mut self, count: usize) -> Result<(), EncodeError>
        ensures { NamesJoin result self.old self.new (replicate count None) }
    {
        self.next = number_behind(self.next, count)?;
        Ok(())
    }

    /// Whether nothing that has come has a name.
    pub(crate) fn is_empty(&self) -> bool
        ensures { result ≡ nat_eq self.now.list.count 0 }
    {
        self.written.is_empty()
    }

    /// The names as the encoder has them.
    pub(crate) fn as_map(&self) -> &NameMap
        ensures { result.now ≡ self.now.list }
    {
        &self.written
    }
}

/// Appends a name with its number, if there is one.
fn append_if(written: &mut NameMap, number: usize, name: Option<&str>) -> Result<(), EncodeError>
    ensures { NamesJoin result (record { list = written.old; next = number }) (record { list = written.new; next = number + 1 }) (option_map (λ s. s.now) name.entry ∷ []) }
{
    match name {
        Some(name) => append(written, number, name),
        None => Ok(()),
    }
}

/// Appends a name with its number.
fn append(written: &mut NameMap, number: usize, name: &str) -> Result<(), EncodeError>
    ensures appended { OnOk result (written.new ≡ with_item written.old (naming_bytes (record { index = number; name = name.now }))) }
    ensures index { OnOk result (number < 2 ^ 32) }
    ensures room { OnOk result (HasRoom written.old) }
    ensures name { OnOk result (length name.now < 2 ^ 32) }
    ensures too_large { IsErrOf result EncodeError.TooLarge → number < 2 ^ 32 → HasRoom written.old → length name.now < 2 ^ 32 → ⊥ }
{
    written.append(as_u32(number)?, name)?;
    Ok(())
}
