//! What callers of instructions, sinks and bodies know of the bytes: the examples of the pages of `wasm_encoder_instr`
//! and `wasm_encoder_code`.

ghost use Rattle.std.specs.Prelude.{◌≡◌, ◌++◌, ◌∷◌, [], OnOk, OnErr, IsErrOf};

use wasm_encoder_base::{Encode, EncodeError};
use wasm_encoder_code::{Function, Instruction, InstructionSink, NumericOp};

/// `f64.sqrt` behind what is there.
pub fn push_root(bytes: &mut Vec<u8>) -> Result<(), EncodeError>
    ensures ok { OnOk result (bytes.new.items ≡ bytes.old.items ++ 0x9F ∷ []) }
    ensures refused { OnErr result (bytes.new.items ≡ bytes.old.items) }
    ensures too_large { IsErrOf result EncodeError.TooLarge → ⊥ }
{
    Instruction::Numeric(NumericOp::F64Sqrt).encode(bytes)
}

/// `i32.add` and `end` behind what is there.
pub fn push_sum(bytes: &mut Vec<u8>) -> Result<(), EncodeError>
    ensures ok { OnOk result (bytes.new.items ≡ bytes.old.items ++ 0x6A ∷ 0x0B ∷ []) }
    ensures too_large { IsErrOf result EncodeError.TooLarge → ⊥ }
{
    InstructionSink::new(bytes).i32_add()?.end()?;
    Ok(())
}

/// `end` behind what is there.
pub fn close(function: &mut Function) -> Result<(), EncodeError>
    ensures ok { OnOk result (function.new ≡ function.old ++ 0x0B ∷ []) }
    ensures refused { OnErr result (function.new ≡ function.old) }
{
    function.instruction(&Instruction::End)?;
    Ok(())
}
