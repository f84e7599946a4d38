//! Copies of lists that may be borrowed.

ghost use Rattle.std.specs.Prelude.{◌≡◌, IfOk};

use crate::imports::ImportCompact;
use std::alloc::AllocError;
use std::borrow::CowSlice;
use wasm_encoder_base::Items;
use wasm_encoder_code::ConstExpr;

/// What is copied with the list that holds it.
pub trait CopyItem: Sized {
    /// The same item; what it owns is copied, what it borrows is borrowed again.
    fn copied(&self) -> Result<Self, AllocError>
        ensures { IfOk result (λ copy. copy ≡ self.now) };
}

impl CopyItem for ConstExpr {
    fn copied(&self) -> Result<Self, AllocError> {
        self.clone()
    }
}

impl CopyItem for ImportCompact<'_> {
    fn copied(&self) -> Result<Self, AllocError> {
        Ok(ImportCompact {
            name: self.name,
            ty: self.ty,
        })
    }
}

/// The same items. Fails only where no memory is found.
pub fn copied_items<'a, T: CopyItem + Drop>(
    items: &Items<'a, T>,
) -> Result<Items<'a, T>, AllocError>
    ensures { IfOk result (λ copy. copy ≡ items.now) }
{
    match items.as_cow() {
        CowSlice::Borrowed(items) => Ok(Items::borrowed(*items)),
        CowSlice::Owned(items) => Ok(Items::owned(copied_vec(items)?)),
    }
}

/// The same items, in a vector of their own.
fn copied_vec<T: CopyItem + Drop>(items: &Vec<T>) -> Result<Vec<T>, AllocError>
    ensures { IfOk result (λ copy. copy.items ≡ items.now.items) }
{
    let mut copies = Vec::new(*items.allocator());
    for item in items {
        let copy = item.copied()?;
        copies.push(copy)?;
    }
    Ok(copies)
}
