//! Values of data segments.
ghost use Rattle.std.specs.Prelude.{◌≡◌, ◌++◌, ℕ, List, [], Some, is_some, true, length, unwrap_or, OnOk, OnErr};
ghost use Rattle.wast_data.specs.DataTree.{bytes_of, byte_count};
ghost use Rattle.wast_data.specs.DataViews.{value_tree};

use std::alloc::AllocError;
use wasm_encoder_base::Bytes;

/// A value of a data segment (6.6, data segments).
pub enum DataVal<'a> {
    /// The bytes that a string stands for.
    String(Bytes<'a>),
    /// Integers, or vectors of integers, by their bytes, of each the low byte first.
    Integral(Vec<u8>),
    /// Floats, or vectors of which one has floats, by how many bytes they are. They aren't covered.
    Float(usize),
}

// By hand, so that what drops one is proved here once, and not in each crate that holds one.
impl Drop for DataVal<'_> {
    fn drop(self) {
        match self {
            DataVal::String(_) | DataVal::Integral(_) | DataVal::Float(_) => {}
        }
    }
}

impl<'a> DataVal<'a> {
    /// How many bytes it is: as many as [`DataVal::push_onto`] appends, and 4, 8 or 16 for each float or vector.
    pub fn len(&self) -> usize
        ensures count { result ≡ byte_count (value_tree self.now) }
        ensures appended { (bytes : List ℕ) → bytes_of (value_tree self.now) ≡ Some bytes → result ≡ length bytes }
    {
        match self {
            DataVal::String(bytes) => bytes.len(),
            DataVal::Integral(bytes) => bytes.len(),
            DataVal::Float(len) => *len,
        }
    }

    /// Appends its bytes, of a value that isn't `Float`. Refused for want of memory, and nothing is then appended.
    pub fn push_onto(&self, dst: &mut Vec<u8>) -> Result<(), AllocError>
        requires { is_some (bytes_of (value_tree self.now)) ≡ true }
        ensures pushed { OnOk result (dst.new.items ≡ dst.old.items ++ unwrap_or (bytes_of (value_tree self.now)) []) }
        ensures unchanged { OnErr result (dst.new.items ≡ dst.old.items) }
    {
        match self {
            DataVal::String(bytes) => dst.extend_from_slice(bytes.as_slice()),
            DataVal::Integral(bytes) => dst.extend_from_slice(bytes),
            DataVal::Float(_) => unreachable!(),
        }
    }
}
