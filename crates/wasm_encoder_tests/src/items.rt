//! Lists that are borrowed or owned: what contracts don't say of them.

use std::test::Fail;
use wasm_encoder_base::Items;

#[test]
fn borrowed(rt: HostRuntime) {
    assert!(rt; Items::borrowed(&[1u8, 2, 3]).is_borrowed());
}

#[test]
fn owned(rt: HostRuntime) -> Result<(), Fail> {
    assert!(rt; !Items::owned(vec![in rt.alloc(); 4u8]?).is_borrowed());
    Ok(())
}
