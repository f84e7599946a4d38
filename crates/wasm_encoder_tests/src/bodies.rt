//! The calls of a `Function`.

use std::test::Fail;
use wasm_encoder_base::EncodeError;
use wasm_encoder_code::{Function, Instruction};

#[test]
fn refused_growths_of_bodies(rt: HostRuntime) -> Result<(), Fail> {
    let mut function = Function::new(rt.alloc(), &[])?;
    let long = [0x01u8; 100];
    if function.raw(&long).is_err() {
        assert_eq!(rt; function.byte_len(), 1);
        return Err(EncodeError::Memory.into());
    }
    if function.instruction(&Instruction::End).is_err() {
        assert_eq!(rt; function.byte_len(), 101);
        return Err(EncodeError::Memory.into());
    }
    assert_eq!(rt; function.byte_len(), 102);
    Ok(())
}
