//! `encode`.

use std::test::Fail;
use wasm_encoder_base::{Encode, EncodeError, EncodedList, Items};
use wasm_encoder_code::{Instruction, VectorFloatOp};

#[test]
fn ample_clone_of_instructions(rt: HostRuntime) -> Result<(), Fail> {
    let instruction = Instruction::BrTable(Items::owned(vec![in rt.alloc(); 1, 2]?), 0);
    let mut sink = Vec::new(rt.alloc());
    instruction.clone()?.encode(&mut sink)?;
    assert_eq!(rt; sink.as_slice(), b"\x0e\x02\x01\x02\x00".as_slice());
    Ok(())
}

/// A list of names: the third and the fourth grow the sink once more.
#[test]
fn refused_growths_of_lists(rt: HostRuntime) -> Result<(), Fail> {
    let mut sink = Vec::new(rt.alloc());
    let long = "0123456789012345678901234567890123456789";
    let names = [long, "a", long, long];
    if let Err(error) = names.as_slice().encode(&mut sink) {
        assert_eq!(rt; error, EncodeError::Memory);
        assert!(rt; sink.is_empty());
        return Err(error.into());
    }
    assert_eq!(rt; sink.len(), 126);
    Ok(())
}

/// The prefix finds room, so that its number is what is refused.
#[test]
fn refused_growths_of_opcodes(rt: HostRuntime) -> Result<(), Fail> {
    let mut sink = Vec::with_capacity(rt.alloc(), 1)?;
    if let Err(error) = VectorFloatOp::F32x4RelaxedMadd.encode(&mut sink) {
        assert_eq!(rt; error, EncodeError::Memory);
        assert!(rt; sink.is_empty());
        return Err(error.into());
    }
    assert_eq!(rt; sink.len(), 3);
    Ok(())
}

#[test]
fn refused_growths_of_instructions(rt: HostRuntime) -> Result<(), Fail> {
    let mut sink = Vec::new(rt.alloc());
    let labels = [0; 100];
    if let Err(error) = Instruction::BrTable(Items::borrowed(&labels), 0).encode(&mut sink) {
        assert_eq!(rt; error, EncodeError::Memory);
        assert!(rt; sink.is_empty());
        return Err(error.into());
    }
    assert_eq!(rt; sink.len(), 103);
    Ok(())
}

/// As many items as a list can have.
#[test]
fn one_item_too_many(rt: HostRuntime) {
    let mut list = EncodedList::from_parts(u32::MAX, Vec::new(rt.alloc()));
    let is_refused = matches!(list.append(&0u32), Err(EncodeError::TooLarge));
    assert!(rt; is_refused);
    assert_eq!(rt; list.len(), u32::MAX);
    assert_eq!(rt; list.as_bytes().len(), 0);
}
