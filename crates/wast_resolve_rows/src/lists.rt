//! What is made of fields, by value. A function over any type of it holds none of their trees: that is quicker to prove.
ghost use Rattle.std.specs.Prelude.{◌≡◌};

use std::alloc::{AllocError, Global};
use wast_core::ModuleField;
use wast_parser::Error;
use wast_resolve::deinline_import_export::discard;

/// What stands in the place of fields.
pub trait Fields: Sized {
    /// Lets them go.
    fn let_go(self);
}

impl<'a> Fields for Vec<ModuleField<'a>> {
    fn let_go(self) {
        discard(self);
    }
}

/// Puts what was made into a place.
pub fn put<F: Fields>(made: Result<F, Error>, place: &mut F) -> Result<(), Error> {
    match made {
        Ok(new) => {
            std::mem::replace(place, new).let_go();
            Ok(())
        }
        Err(e) => Err(e),
    }
}

/// Takes a list out of its place, in which none of its items is left.
pub fn taken<T>(place: &mut Vec<T>, alloc: Global) -> Vec<T>
    ensures { result.items ≡ place.old.items }
{
    std::mem::replace(place, Vec::new(alloc))
}

/// What was made, or that there was no memory.
pub fn of_memory<T>(made: Result<T, AllocError>) -> Result<T, Error> {
    match made {
        Ok(value) => Ok(value),
        Err(e) => Err(Error::from(e)),
    }
}

/// The first of two that were made.
pub fn first<T, N: Drop>(made: Result<(T, N), Error>) -> Result<T, Error> {
    match made {
        Ok((value, _names)) => Ok(value),
        Err(e) => Err(e),
    }
}

/// Lets go what was made.
pub fn done<T: Drop>(made: Result<T, Error>) -> Result<(), Error> {
    match made {
        Ok(_) => Ok(()),
        Err(e) => Err(e),
    }
}
