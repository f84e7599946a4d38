//! Lists that are encoded item by item.

ghost use Rattle.std.specs.Prelude.{◌≡◌, IfOk, OnOk, OnErr, IsErrOf, nat_eq};
ghost use Rattle.wasm_encoder_bytes.specs.Lists.{no_items, with_item, list_bytes, HasRoom};

use crate::encode::{Encode, encode_both};
use crate::error::EncodeError;
use crate::part::RawBytes;
use std::alloc::{AllocError, Global};
use std::marker::Model;

/// A list whose items are encoded as they are appended: how many there are, and their bytes. Contracts see these.
#[derive(Debug, Drop)]
pub struct EncodedList {
    count: u32,
    bytes: Vec<u8>,
}

impl Model for EncodedList {
    ghost use Rattle.wasm_encoder_bytes.specs.Lists.{Listed};

    ghost Value = { Listed };

    ghost view = { λ list. record { count = list.count; bytes = list.bytes.items } };
}

/// The count, then the items (5.1.3).
impl Encode for EncodedList {
    ghost can_encode = { λ _. Unit {0} };

    ghost fits = { λ _. Unit {0} };

    ghost spelling = { list_bytes };

    fn encode(&self, sink: &mut Vec<u8>) -> Result<(), EncodeError> {
        encode_both(&self.count, &RawBytes(self.bytes.as_slice()), sink)
    }
}

impl EncodedList {
    /// A list without items.
    pub fn new(alloc: Global) -> Self
        ensures { result ≡ no_items }
    {
        EncodedList::from_parts(0, Vec::new(alloc))
    }

    /// A list of as many items, whose bytes these are.
    pub fn from_parts(count: u32, bytes: Vec<u8>) -> Self
        ensures { result ≡ record { count = count; bytes = bytes.items } }
    {
        EncodedList { count, bytes }
    }

    /// Appends an item.
    ///
    /// Answers [`EncodeError::TooLarge`] exactly where, memory found, a count or length in the item does not fit or
    /// the list has 4294967295 items, and [`EncodeError::Memory`] where a growth found no memory. Refused, the list is
    /// unchanged.
    pub fn append<T: Encode>(&mut self, item: &T) -> Result<(), EncodeError>
        requires { T.can_encode item.now }
        ensures ok { OnOk result (self.new ≡ with_item self.old (T.spelling item.now)) }
        ensures fits { OnOk result (HasRoom self.old × T.fits item.now) }
        ensures unchanged { OnErr result (self.new ≡ self.old) }
        ensures too_large { IsErrOf result EncodeError.TooLarge → HasRoom self.old → T.fits item.now → ⊥ }
    {
        if self.count == u32::MAX {
            return Err(EncodeError::TooLarge);
        }
        item.encode(&mut self.bytes)?;
        self.count += 1;
        Ok(())
    }

    /// How many items there are.
    pub fn len(&self) -> u32
        ensures { result ≡ self.now.count }
    {
        self.count
    }

    /// Whether there are no items.
    pub fn is_empty(&self) -> bool
        ensures { result ≡ nat_eq self.now.count 0 }
    {
        self.count == 0
    }

    /// The bytes of the items, without the count.
    pub fn as_bytes(&self) -> &[u8]
        ensures { result.now ≡ self.now.bytes }
    {
        self.bytes.as_slice()
    }

    /// What gives the list its memory.
    pub fn allocator(&self) -> Global {
        *self.bytes.allocator()
    }

    /// The same list, in memory of its own. Fails only where no memory is found.
    pub fn clone(&self) -> Result<Self, AllocError>
        ensures { IfOk result (λ list. list ≡ self.now) }
    {
        let bytes = self.bytes.clone()?;
        Ok(EncodedList {
            count: self.count,
            bytes,
        })
    }
}
