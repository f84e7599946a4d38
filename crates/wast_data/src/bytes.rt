//! Numbers as their bytes.
ghost use Rattle.std.specs.Prelude.{◌≡◌, ◌++◌, ◌*◌, List, ℕ, map, option_map, IfOk, OnOk};
ghost use Rattle.std.specs.Int.{w8, w16, w32, w64};
ghost use Rattle.std.specs.List.{flat_map};
ghost use Rattle.wast_vector_operands.specs.VectorViews.{lane_bytes, vector_tree};
ghost use Rattle.wast_data.specs.DataTree.{vectors_bytes, of_vectors};
ghost use Rattle.wast_data.specs.DataViews.{value_tree};

use crate::value::DataVal;
use std::alloc::{AllocError, Global};
use wast_parser::Item;
use wast_vector_operands::V128Const;

/// An integer that data may hold.
pub(crate) trait DataInteger: Item {
    /// Its bytes, the low byte first.
    ghost bytes: { Self → List ℕ };

    /// Appends its bytes.
    fn push_onto(&self, dst: &mut Vec<u8>) -> Result<(), AllocError>
        ensures { OnOk result (dst.new.items ≡ dst.old.items ++ bytes self.now) };
}

impl DataInteger for i8 {
    ghost bytes = { lane_bytes w8 };

    fn push_onto(&self, dst: &mut Vec<u8>) -> Result<(), AllocError> {
        let one = self.cast_unsigned().to_le_bytes();
        dst.extend_from_slice(&one)
    }
}

impl DataInteger for i16 {
    ghost bytes = { lane_bytes w16 };

    fn push_onto(&self, dst: &mut Vec<u8>) -> Result<(), AllocError> {
        let two = self.cast_unsigned().to_le_bytes();
        dst.extend_from_slice(&two)
    }
}

impl DataInteger for i32 {
    ghost bytes = { lane_bytes w32 };

    fn push_onto(&self, dst: &mut Vec<u8>) -> Result<(), AllocError> {
        let four = self.cast_unsigned().to_le_bytes();
        dst.extend_from_slice(&four)
    }
}

impl DataInteger for i64 {
    ghost bytes = { lane_bytes w64 };

    fn push_onto(&self, dst: &mut Vec<u8>) -> Result<(), AllocError> {
        let eight = self.cast_unsigned().to_le_bytes();
        dst.extend_from_slice(&eight)
    }
}

/// The bytes of integers, one after the other.
pub(crate) fn integers_bytes<T: DataInteger>(
    alloc: Global,
    integers: &[T],
) -> Result<Vec<u8>, AllocError>
    ensures { IfOk result (λ bytes. bytes.items ≡ flat_map T.bytes integers.now) }
{
    let mut bytes = Vec::new(alloc);
    for integer in integers {
        integer.push_onto(&mut bytes)?;
    }
    Ok(bytes)
}

/// Vectors as a value.
pub(crate) fn of_vectors<'a>(
    alloc: Global,
    vectors: &[V128Const<'a>],
) -> Result<DataVal<'a>, AllocError>
    ensures { IfOk result (λ value. value_tree value ≡ of_vectors (map vector_tree vectors.now)) }
{
    match vectors_bytes(alloc, vectors)? {
        Some(bytes) => Ok(DataVal::Integral(bytes)),
        None => Ok(DataVal::Float(total(vectors.len(), 16)?)),
    }
}

/// The bytes of vectors, one after the other; none where one has lanes that are floats.
fn vectors_bytes<'a>(
    alloc: Global,
    vectors: &[V128Const<'a>],
) -> Result<Option<Vec<u8>>, AllocError>
    ensures { IfOk result (λ found. option_map (λ bytes. bytes.items) found ≡ vectors_bytes (map vector_tree vectors.now)) }
{
    let mut bytes = Vec::new(alloc);
    for vector in vectors {
        match vector.to_le_bytes() {
            Some(sixteen) => bytes.extend_from_slice(&sixteen)?,
            None => return Ok(None),
        }
    }
    Ok(Some(bytes))
}

/// How many bytes so many numbers of a width are.
pub(crate) fn total(count: usize, width: usize) -> Result<usize, AllocError>
    ensures { IfOk result (λ n. n ≡ count * width) }
{
    match count.checked_mul(width) {
        Some(total) => Ok(total),
        None => Err(AllocError),
    }
}
