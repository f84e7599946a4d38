//! Calls on trees, beside those by which texts are read: what these answer with memory found, the rows of `wat_rows` show.

use crate::text::{buffer, failed};
use std::alloc::Global;
use std::test::Fail;
use wast_core_instr::{Expression, Instruction};
use wast_customs::Dylink0Subsection;
use wast_data::DataVal;
use wast_parser::{Encode, parse};
use wast_value_types::RefType;

#[test]
fn ample_clone(rt: HostRuntime) -> Result<(), Fail> {
    let buffer = buffer(rt.alloc(), "(ref $\"\\41\")")?;
    let ty: RefType = parse(&buffer).map_err(failed)?;
    assert!(rt; is_copied(rt.alloc(), &ty));
    Ok(())
}

/// Whether a copy of a type is equal to it.
fn is_copied(alloc: Global, ty: &RefType<'_>) -> bool {
    match ty.clone(alloc) {
        Ok(copy) => copy == *ty,
        Err(_) => false,
    }
}

#[test]
fn ample_encode(rt: HostRuntime) -> Result<(), Fail> {
    let buffer = buffer(rt.alloc(), "(needed \"a\")")?;
    let subsection: Dylink0Subsection = parse(&buffer).map_err(failed)?;
    assert!(rt; is_encoded(rt.alloc(), &subsection, b"\x01\x01a"));
    Ok(())
}

/// Whether a subsection is encoded so.
fn is_encoded(alloc: Global, subsection: &Dylink0Subsection<'_>, bytes: &[u8]) -> bool {
    let mut sink = Vec::new(alloc);
    subsection.encode(&mut sink).is_ok() && sink.as_slice() == bytes
}

#[test]
fn ample_push_onto(rt: HostRuntime) -> Result<(), Fail> {
    let buffer = buffer(rt.alloc(), "(i16 -1 2)")?;
    let value: DataVal = parse(&buffer).map_err(failed)?;
    let mut bytes = Vec::new(rt.alloc());
    if let DataVal::Integral(_) = &value {
        value.push_onto(&mut bytes)?;
    }
    assert_eq!(rt; bytes.as_slice(), b"\xFF\xFF\x02\x00".as_slice());
    Ok(())
}

#[test]
fn ample_one(rt: HostRuntime) {
    assert!(rt; is_made_of_one(rt.alloc()));
}

/// Whether the expression of one instruction has one.
fn is_made_of_one(alloc: Global) -> bool {
    match Expression::one(alloc, Instruction::Nop) {
        Ok(expression) => has_one(&expression),
        Err(_) => false,
    }
}

fn has_one(expression: &Expression<'_>) -> bool {
    expression.instrs.len() == 1
}
