//! Calls that want memory: each finds it, and where a growth is refused (`bin/refuse`) answers so and changes nothing; a test
//! whose name begins with `refused_growths` then fails by its result.

use std::alloc::{AllocError, Global};
use std::borrow::CowStr;
use std::test::Fail;
use wast_lexer::Span;
use wast_parser::{Encode, EncodeError, Error, Id, Index, push_place};

#[test]
fn ample_clone_of_an_error(rt: HostRuntime) -> Result<(), Fail> {
    let mut error = Error::new(Span::from_offset(3), String::from_str(rt.alloc(), "no")?);
    error.set_text("func")?;
    let copy = error.clone(rt.alloc())?;
    assert_eq!(rt; copy.message(rt.alloc())?.as_str(), "no");
    assert_eq!(rt; copy.span().offset(), 3);
    Ok(())
}

#[test]
fn ample_push_place(rt: HostRuntime) -> Result<(), Fail> {
    let mut lines = String::new(rt.alloc());
    push_place(rt.alloc(), &mut lines, "a", 1)?;
    assert_eq!(rt;
        lines.as_str(),
        "\n     --> <anon>:1:2\n      |\n    1 | a\n      |  ^"
    );
    Ok(())
}

#[test]
fn ample_encode(rt: HostRuntime) -> Result<(), Fail> {
    let mut sink = Vec::new(rt.alloc());
    (624485u32, -123456i32, "ab").encode(&mut sink)?;
    assert_eq!(rt;
        sink.as_slice(),
        b"\xE5\x8E\x26\xC0\xBB\x78\x02ab".as_slice()
    );
    sink.clear();
    let lists = vec![in rt.alloc(); (1u8, 300usize), (2, 0)]?;
    Box::new(rt.alloc(), lists)?.encode(&mut sink)?;
    assert_eq!(rt; sink.as_slice(), b"\x02\x01\xAC\x02\x02\x00".as_slice());
    Ok(())
}

#[test]
fn too_large_leaves_the_sink(rt: HostRuntime) -> Result<(), Fail> {
    let mut sink = Vec::new(rt.alloc());
    sink.push(7)?;
    let answer = (1u8, 4294967296usize).encode(&mut sink);
    assert_eq!(rt; answer, Err(EncodeError::TooLarge));
    assert_eq!(rt; sink.as_slice(), b"\x07".as_slice());
    Ok(())
}

#[test]
fn refused_growths_of_an_error(rt: HostRuntime) -> Result<(), Fail> {
    let alloc = rt.alloc();
    let mut error = Error::new(Span::from_offset(1), String::from_str(alloc, "no")?);
    if error.set_text("ab").is_err() {
        assert!(rt; !error.is_memory() && error.span().offset() == 1);
        return Err("out of memory".into());
    }
    assert_eq!(rt; error.message(alloc)?.as_str(), "no");
    Ok(())
}

#[test]
fn refused_growths_of_a_copy(rt: HostRuntime) -> Result<(), Fail> {
    let index = owned_index(rt.alloc())?;
    assert!(rt; index.clone(rt.alloc())? == index);
    Ok(())
}

#[test]
fn refused_growths_of_a_sink(rt: HostRuntime) -> Result<(), Fail> {
    let mut sink = Vec::new(rt.alloc());
    if let Err(error) = ("some text", 5u64).encode(&mut sink) {
        assert_eq!(rt; error, EncodeError::Memory);
        assert!(rt; sink.is_empty());
        return Err("out of memory".into());
    }
    Ok(())
}

fn owned_index(alloc: Global) -> Result<Index<'static>, AllocError> {
    let name = CowStr::Owned(String::from_str(alloc, "name")?);
    Ok(Index::from(Id::decoded(alloc, name, Span::from_offset(0))?))
}
