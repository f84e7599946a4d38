//! What a row shows.

ghost use Rattle.std.specs.Prelude.{All};

use row_page::Page;
use std::alloc::Global;
use std::fmt::Debug;
use wasm_encoder_base::{Encode, EncodeError};

/// Prints the value's bytes, or the error.
pub fn print_spelled<T: Encode>(page: &Page, value: &T)
    requires { T.can_encode value.now }
{
    print_made(page, spelled(page.alloc(), value));
}

/// The value's bytes.
pub fn spelled<T: Encode>(alloc: Global, value: &T) -> Result<Vec<u8>, EncodeError>
    requires { T.can_encode value.now }
{
    let mut bytes = Vec::new(alloc);
    match value.encode(&mut bytes) {
        Ok(()) => Ok(bytes),
        Err(error) => Err(error),
    }
}

/// Prints the bytes that were made in hexadecimal, a space before each, or why there are none.
pub fn print_made(page: &Page, made: Result<Vec<u8>, EncodeError>) {
    match made {
        Ok(bytes) => page.put_bytes(bytes.as_slice()),
        Err(error) => write!(page, " {error}"),
    }
}

/// A row: the value, and its bytes.
pub fn print_value<T: Encode + Debug>(page: &Page, value: &T)
    requires { T.can_encode value.now }
{
    write!(page, "{value:?}");
    print_spelled(page, value);
    page.put("\n");
}

/// A row for each value.
pub fn print_values<T: Encode + Debug>(page: &Page, values: &[T])
    requires { All T.can_encode values.now }
{
    for value in values {
        print_value(page, value);
    }
}
