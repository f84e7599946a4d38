//! Name sections and lists of names.

use std::test::Fail;
use wasm_encoder_base::EncodeError;
use wasm_encoder_custom::{NameMap, NameSection};

/// With a growth refused (`bin/refuse`) the answer is `Memory` and the section is as it was, and the test then fails by its
/// result.
#[test]
fn refused_growths(rt: HostRuntime) -> Result<(), Fail> {
    let mut names = NameMap::new(rt.alloc());
    let mut section = NameSection::new(rt.alloc());
    section.module("m")?;
    if let Err(error) = names.append(0, "0123456789012345678901234567890123456789") {
        assert_eq!(rt; error, EncodeError::Memory);
        assert!(rt; names.is_empty());
        return Err(error.into());
    }
    if let Err(error) = section.functions(&names) {
        assert_eq!(rt; error, EncodeError::Memory);
        assert_eq!(rt; section.as_custom().bytes.len(), 4);
        return Err(error.into());
    }
    Ok(())
}
