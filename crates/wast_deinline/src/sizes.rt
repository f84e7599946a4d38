//! Sizes of memories and tables whose contents stand inline.
ghost use Rattle.std.specs.Prelude.{◌≡◌, ◌+◌, IfOk, map};
ghost use Rattle.std.specs.List.{sum_by};
ghost use Rattle.wast_value_types.specs.ValueViews.{limits_tree};
ghost use Rattle.wast_data.specs.DataTree.{byte_count};
ghost use Rattle.wast_data.specs.DataViews.{value_tree};
ghost use Rattle.wast_module_fields.specs.ElemViews.{elements_tree};
ghost use Rattle.wast_meaning.specs.Written.{elements_len, exactly, pages};

use std::alloc::AllocError;
use wast_module_fields::{DataVal, ElemPayload};
use wast_value_types::Limits;

/// The power of 2 that a page has in bytes where none is written.
const PAGE_SIZE_LOG2: u32 = 16;

/// How many bytes values are together. Refused where these are 2^64 or more.
pub(crate) fn total_len(values: &[DataVal<'_>]) -> Result<u64, AllocError>
    ensures { IfOk result (λ n. n ≡ sum_by byte_count (map value_tree values.now)) }
{
    let mut total = 0u64;
    for value in values {
        total = add(total, value.len())?;
    }
    Ok(total)
}

fn add(total: u64, len: usize) -> Result<u64, AllocError>
    ensures { IfOk result (λ n. n ≡ total + len) }
{
    match total.checked_add(len as u64) {
        Some(sum) => Ok(sum),
        None => Err(AllocError),
    }
}

/// As many pages as hold so many bytes. A page that is larger than any number of bytes holds all of them.
pub(crate) fn pages(len: u64, page_size_log2: Option<u32>) -> u64
    ensures { result ≡ pages page_size_log2 len }
{
    let log2 = page_size_log2.unwrap_or(PAGE_SIZE_LOG2);
    match 1u64.checked_shl(log2) {
        Some(page_size) => len.div_ceil(page_size),
        None => len.min(1),
    }
}

/// How many elements a segment has.
pub(crate) fn elements_len(payload: &ElemPayload<'_>) -> usize
    ensures { result ≡ elements_len (elements_tree payload.now) }
{
    match payload {
        ElemPayload::Indices(indices) => indices.len(),
        ElemPayload::Exprs { exprs, .. } => exprs.len(),
    }
}

/// Limits of a size that is the least and the greatest.
pub(crate) fn exactly(is_64: bool, size: u64) -> Limits
    ensures { limits_tree result ≡ exactly is_64 size }
{
    Limits {
        is64: is_64,
        min: size,
        max: Some(size),
    }
}
