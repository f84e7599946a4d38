//! Indices.
ghost use Rattle.std.specs.Prelude.{◌≡◌, ◌<◌, ◌^◌, option_map, IfErr, IfOk, IsErrOf, OnOk, All, map};
ghost use Rattle.std.specs.List.{AllByRecursion};
ghost use Rattle.wasm_layout.specs.IsModule.{IsU32};
ghost use Rattle.wast_parser.specs.Identifiers.{index_tree};
ghost use Rattle.wast_conversions.specs.Types.{number_of};
ghost use Rattle.wast_conversions.specs.Operands.{optional_meant};
ghost use Rattle.wast_conversions.specs.Resolved.{IsNumber, IfThere};

use std::alloc::{AllocError, Global};
use wasm_encoder_base::EncodeError;
use wast_parser::Index;

/// The number that an index is (6.6.1), which is no name.
pub fn index(index: &Index<'_>) -> u32
    requires { IsNumber (index_tree index.now) }
    ensures same { result ≡ number_of (index_tree index.now) }
    ensures sound { IsU32 (number_of (index_tree index.now)) }
{
    match index {
        Index::Num(number, _) => *number,
        Index::Id(_) => unreachable!(),
    }
}

/// The number of an index that may be left out, and is 0 then.
pub fn optional_index(written: &Option<Index<'_>>) -> u32
    requires { IfThere IsNumber (option_map index_tree written.now) }
    ensures same { result ≡ optional_meant (option_map index_tree written.now) }
    ensures sound { IsU32 (optional_meant (option_map index_tree written.now)) }
{
    match written {
        Some(written) => index(written),
        None => 0,
    }
}

/// The numbers that indices are, none of which is a name. Fails only for want of memory.
pub fn all_indices(alloc: Global, indices: &[Index<'_>]) -> Result<Vec<u32>, AllocError>
    requires { All IsNumber (map index_tree indices.now) }
    ensures same { IfOk result (λ v. v.items ≡ map number_of (map index_tree indices.now)) }
    ensures sound { OnOk result (AllByRecursion IsU32 (map number_of (map index_tree indices.now))) }
{
    let mut numbers = Vec::with_capacity(alloc, indices.len())?;
    for number in indices {
        numbers.push(index(number))?;
    }
    Ok(numbers)
}

/// The same number, which is a place, a count or an index, in 32 bits; too large where it doesn't fit in them.
pub fn as_u32(number: usize) -> Result<u32, EncodeError>
    ensures same { IfOk result (λ n. n ≡ number) }
    ensures fits { OnOk result (number < 2 ^ 32) }
    ensures refused { IfErr result (λ e. e ≡ EncodeError.TooLarge) }
    ensures too_large { IsErrOf result EncodeError.TooLarge → number < 2 ^ 32 → ⊥ }
{
    match u32::try_from(number) {
        Ok(number) => Ok(number),
        Err(_) => Err(EncodeError::TooLarge),
    }
}
