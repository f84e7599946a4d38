//! Modules.

use std::test::Fail;
use wasm_encoder::{EncodeError, FunctionSection, Module};

/// With a growth refused (`bin/refuse`) the answer is `Memory` and the module is as it was, and the test then fails by its
/// result.
#[test]
fn refused_growths(rt: HostRuntime) -> Result<(), Fail> {
    let mut functions = FunctionSection::new(rt.alloc());
    functions.function(0)?;
    let mut module = Module::new(rt.alloc())?;
    if let Err(error) = module.section(&functions) {
        assert_eq!(rt; error, EncodeError::Memory);
        assert_eq!(rt; module.finish().len(), 8);
        return Err(error.into());
    }
    Ok(())
}
