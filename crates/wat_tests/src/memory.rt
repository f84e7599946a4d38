//! Calls that want memory: each finds it, as the rows of `wat_rows` show too, and where a growth is refused (`bin/refuse`) answers so and
//! nothing else; a test whose name begins with `refused_growths` then fails by its result.

use std::alloc::Global;
use std::process::Abort;
use std::test::Fail;
use wast_parser::{Parse, ParseBuffer, Parser};
use wat::{Error, Fault, Span, Wat, assemble, render};

/// Refused at what stands behind its module, a text leaves no annotation registered: that one is passed then.
#[test]
fn annotations_are_taken_back(rt: HostRuntime) -> Result<(), Fail> {
    match ParseBuffer::new(rt.alloc(), "(module) (@custom \"x\")") {
        Ok(buffer) => {
            let mut parser = Parser::new(&buffer);
            assert!(rt; is_refused(&mut parser));
            assert!(rt; parser.is_empty());
            Ok(())
        }
        Err(_) => Err("out of memory".into()),
    }
}

fn is_refused(parser: &mut Parser<'_>) -> bool {
    Wat::parse(parser).is_err()
}

/// 100,000 comments in one another, and as many in a row.
#[test]
fn many_comments(rt: HostRuntime) -> Result<(), Fail> {
    let mut text = String::from_str(rt.alloc(), "(module ")?;
    for part in ["(;", ";)", "(;;) "] {
        for _ in 0..100_000 {
            text.push_str(part)?;
        }
    }
    text.push_str(")")?;
    assert_eq!(rt; assemble(rt.alloc(), text.as_str().as_bytes())?.len(), 8);
    Ok(())
}

#[test]
fn refused_growths_of_a_binary(rt: HostRuntime) -> Result<(), Fail> {
    let text =
        b"(module (@\"\\61\") (@custom \"c\" \"x\") (memory (export \"\\6d\") (data \"ab\")) (func $f (param i32) (block $l (br $l))))";
    match assemble(rt.alloc(), text) {
        Ok(binary) => assert_eq!(rt; binary.len(), 79),
        Err(fault) => {
            assert!(rt; matches!(&fault, Fault::Memory));
            return Err(fault.into());
        }
    }
    Ok(())
}

#[test]
fn refused_growths_of_a_fault(rt: HostRuntime) -> Result<(), Fail> {
    match assemble(rt.alloc(), b"(module (func (export \"a\") drop) $)") {
        Err(Fault::Memory) => Err("out of memory".into()),
        Err(Fault::Spelling(error)) => {
            assert_eq!(rt; error.span().offset(), 33);
            Ok(())
        }
        _ => {
            assert!(rt; false);
            Ok(())
        }
    }
}

#[test]
fn refused_growths_of_an_unmet_demand(rt: HostRuntime) -> Result<(), Fail> {
    match assemble(rt.alloc(), b"(module (memory (export \"a\") 1) (start $x))") {
        Err(Fault::Memory) => Err("out of memory".into()),
        Err(Fault::Unmet(error)) => {
            assert_eq!(rt; error.span().offset(), 39);
            Ok(())
        }
        _ => {
            assert!(rt; false);
            Ok(())
        }
    }
}

#[test]
fn refused_growths_of_a_message(rt: HostRuntime) -> Result<(), Fail> {
    assert_message(&rt, rt.alloc())
}

fn assert_message(rt: &impl Abort, alloc: Global) -> Result<(), Fail> {
    let error = Error::new(Span::from_offset(0), String::from_str(alloc, "x")?);
    assert_eq!(rt; error.message(alloc)?.as_str(), "x");
    Ok(())
}

#[test]
fn refused_growths_of_a_text(rt: HostRuntime) -> Result<(), Fail> {
    let fault = Fault::NotWellFormed(Span::from_offset(1));
    let text = render(rt.alloc(), &fault, b"\t(")?;
    assert_eq!(rt;
        text.as_str(),
        "module isn't well formed\n     --> <anon>:1:2\n      |\n    1 |     (\n      |     ^"
    );
    Ok(())
}
