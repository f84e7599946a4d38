//! Custom sections as they are given.

use std::borrow::CowStr;
use std::test::Fail;
use wasm_encoder_base::Bytes;
use wasm_encoder_custom::CustomSection;

/// A section `a` of one byte.
fn section(byte: &[u8; 1]) -> CustomSection<'_> {
    CustomSection {
        name: CowStr::Borrowed("a"),
        bytes: Bytes::borrowed(byte),
    }
}

#[test]
fn copies_are_equal(rt: HostRuntime) -> Result<(), Fail> {
    let one = section(&[7]);
    let copy = one.clone()?;
    assert!(rt; copy == one);
    assert!(rt; copy != section(&[8]));
    Ok(())
}
