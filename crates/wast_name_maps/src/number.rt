//! Numbers of what stands in an order.
ghost use Rattle.std.specs.Prelude.{◌≡◌, ◌+◌, IfErr, IfOk};

use wasm_encoder_base::EncodeError;

/// The number behind so many more. Refused where it is 2^64 or more, as for want of memory: none holds as many.
pub(crate) fn number_behind(number: usize, count: usize) -> Result<usize, EncodeError>
    ensures sum { IfOk result (λ n. n ≡ number + count) }
    ensures refused { IfErr result (λ e. e ≡ EncodeError.Memory) }
{
    match number.checked_add(count) {
        Some(sum) => Ok(sum),
        None => Err(EncodeError::Memory),
    }
}
