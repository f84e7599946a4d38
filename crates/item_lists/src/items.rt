//! Lists that contracts see by their items: borrowed or owned, or owned.

ghost use Rattle.std.specs.Prelude.{◌≡◌, ℕ, length, nat_eq};
ghost use Rattle.std.specs.Cow.{cow_slice_items};

use std::alloc::{AllocError, Global};
use std::borrow::CowSlice;
use std::marker::Model;

/// A list, borrowed or owned. Contracts see its items.
#[derive(Debug, Drop)]
pub struct Items<'a, T> {
    items: CowSlice<'a, T, Global>,
}

/// Bytes, borrowed or owned.
pub type Bytes<'a> = Items<'a, u8>;

impl<'a, T> Model for Items<'a, T> {
    ghost use Rattle.std.specs.Prelude.{List};
    ghost use Rattle.std.specs.Cow.{cow_slice_items};

    ghost Value = { List T };

    ghost view = { λ s. cow_slice_items s.items };
}

impl<'a, T> Items<'a, T> {
    /// The items of a slice, without a copy.
    pub fn borrowed(items: &'a [T]) -> Self
        ensures { result ≡ items.entry.now }
    {
        Items {
            items: CowSlice::Borrowed(items),
        }
    }

    /// The items of a vector, whose memory they keep.
    pub fn owned(items: Vec<T>) -> Self
        ensures { result ≡ items.items }
    {
        Items {
            items: CowSlice::Owned(items),
        }
    }

    /// Whether the items belong to somebody else.
    pub fn is_borrowed(&self) -> bool {
        match &self.items {
            CowSlice::Borrowed(_) => true,
            CowSlice::Owned(_) => false,
        }
    }

    /// The items, borrowed or owned as they are.
    pub fn into_cow(self) -> CowSlice<'a, T, Global>
        ensures { cow_slice_items result ≡ self.entry }
    {
        let Items { items } = self;
        items
    }

    /// The items as they are, borrowed or owned, lent.
    pub fn as_cow(&self) -> &CowSlice<'a, T, Global>
        ensures { cow_slice_items result.now ≡ self.now }
    {
        &self.items
    }

    /// The items.
    pub fn as_slice(&self) -> &[T]
        ensures { result.now ≡ self.now }
    {
        self.items.as_slice()
    }

    /// How many items there are.
    pub fn len(&self) -> usize
        ensures { result ≡ length self.now }
    {
        self.as_slice().len()
    }

    /// Whether there are no items.
    pub fn is_empty(&self) -> bool
        ensures { result ≡ nat_eq (length self.now) 0 }
    {
        self.as_slice().is_empty()
    }
}

/// The same items. Fails only where no memory is found.
impl<'a, T: Copy> Clone for Items<'a, T> {
    ghost is_clone = { λ items copy. copy ≡ items };

    fn clone(&self) -> Result<Self, AllocError> {
        match &self.items {
            CowSlice::Borrowed(items) => Ok(Items::borrowed(*items)),
            CowSlice::Owned(items) => {
                let items = Vec::from_slice(*items.allocator(), items.as_slice())?;
                Ok(Items::owned(items))
            }
        }
    }
}

/// The same items.
impl<'a, T: PartialEq> PartialEq for Items<'a, T> {
    ghost use Rattle.std.specs.Cmp.Lexicographic.{pointwise, lists_per};

    ghost eq = { pointwise T.eq };

    ghost laws = { lists_per T.laws };

    fn eq(&self, other: &Self) -> bool {
        self.as_slice() == other.as_slice()
    }
}

/// A list that owns its items. Contracts see the items.
#[derive(Debug, Drop)]
pub struct OwnedItems<T> {
    vector: Vec<T>,
}

impl<T> Model for OwnedItems<T> {
    ghost use Rattle.std.specs.Prelude.{List};

    ghost Value = { List T };

    ghost view = { λ s. s.vector.items };
}

impl<T> OwnedItems<T> {
    /// The items of a vector, whose memory they keep.
    pub fn new(items: Vec<T>) -> Self
        ensures { result ≡ items.items }
    {
        OwnedItems { vector: items }
    }

    /// The items.
    pub fn as_slice(&self) -> &[T]
        ensures { result.now ≡ self.now }
    {
        self.vector.as_slice()
    }
}

/// The same items once more, in memory of the same allocator. Fails only where no memory is found.
impl<T: Copy> Clone for OwnedItems<T> {
    ghost is_clone = { λ items copy. copy ≡ items };

    fn clone(&self) -> Result<Self, AllocError> {
        let items = Vec::from_slice(*self.vector.allocator(), self.as_slice())?;
        Ok(OwnedItems::new(items))
    }
}
