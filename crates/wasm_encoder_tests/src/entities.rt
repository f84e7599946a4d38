//! Sections of functions.

use std::test::Fail;
use wasm_encoder::{EncodeError, FunctionSection};

/// With a growth refused (`bin/refuse`) the answer is `Memory` and the section is as it was, and the test then fails by its
/// result.
#[test]
fn refused_growths(rt: HostRuntime) -> Result<(), Fail> {
    let mut section = FunctionSection::new(rt.alloc());
    if let Err(error) = section.function(0) {
        assert_eq!(rt; error, EncodeError::Memory);
        assert!(rt; section.is_empty());
        return Err(error.into());
    }
    Ok(())
}
