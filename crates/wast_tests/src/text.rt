//! Texts of tests.

use std::alloc::Global;
use std::test::Fail;
use wast_parser::{Error, ParseBuffer};

/// How a test ends where a call is refused: it fails by its result.
pub fn failed(error: Error) -> Fail {
    if error.is_memory() {
        "out of memory".into()
    } else {
        "refused".into()
    }
}

pub fn buffer(alloc: Global, text: &'static str) -> Result<ParseBuffer<'static>, Fail> {
    if text.len() < 1_000 {
        if let Ok(buffer) = ParseBuffer::new(alloc, text) {
            return Ok(buffer);
        }
    }
    Err("out of memory".into())
}
