//! Bodies of functions and constant expressions.

use crate::callers::{close, push_root, push_sum};
use crate::row::{print_made, spelled};
use row_page::Page;
use std::alloc::Global;
use wasm_encoder_base::{EncodeError, RefType, ValType};
use wasm_encoder_code::{ConstExpr, Function, GcOp, Instruction, NumericOp};

pub fn print_bodies(page: &Page) {
    print_body(page, "runs of locals", locals(page.alloc()));
    print_body(page, "locals joined", joined(page.alloc()));
    print_body(page, "an empty body", empty_body(page.alloc()));
    print_body(page, "a body", body(page.alloc()));
    print_body(page, "calls of a sink", lent(page.alloc()));
    print_body(page, "an expression", expression(page.alloc()));
}

fn print_body(page: &Page, name: &str, made: Result<Vec<u8>, EncodeError>) {
    page.put(name);
    page.put(":");
    print_made(page, made);
    page.put("\n");
}

fn locals(alloc: Global) -> Result<Vec<u8>, EncodeError> {
    raw_body(Function::new(
        alloc,
        &[(2, ValType::I32), (300, ValType::Ref(RefType::FUNCREF))],
    ))
}

fn joined(alloc: Global) -> Result<Vec<u8>, EncodeError> {
    let types = [
        ValType::I32,
        ValType::I32,
        ValType::I64,
        ValType::F32,
        ValType::F32,
        ValType::F32,
        ValType::I32,
        ValType::I64,
        ValType::I64,
        ValType::Ref(RefType::FUNCREF),
        ValType::Ref(RefType::FUNCREF),
        ValType::Ref(RefType::EXTERNREF),
    ];
    raw_body(Function::new_with_locals_types(alloc, &types))
}

fn raw_body(made: Result<Function, EncodeError>) -> Result<Vec<u8>, EncodeError> {
    match made {
        Ok(function) => Ok(function.into_raw_body()),
        Err(error) => Err(error),
    }
}

/// The body of a function that does nothing.
fn empty_body(alloc: Global) -> Result<Vec<u8>, EncodeError> {
    let mut function = Function::new(alloc, &[])?;
    close(&mut function)?;
    Ok(function.into_raw_body())
}

/// The empty body, and more bytes behind it.
fn body(alloc: Global) -> Result<Vec<u8>, EncodeError> {
    let mut bytes = empty_body(alloc)?;
    push_root(&mut bytes)?;
    push_sum(&mut bytes)?;
    Ok(bytes)
}

/// The function that answers its parameter.
fn lent(alloc: Global) -> Result<Vec<u8>, EncodeError> {
    let mut function = Function::new(alloc, &[])?;
    function.instructions().local_get(0)?.end()?;
    Ok(function.into_raw_body())
}

fn expression(alloc: Global) -> Result<Vec<u8>, EncodeError> {
    match doubled(alloc) {
        Ok(expression) => spelled(alloc, &expression),
        Err(error) => Err(error),
    }
}

/// The second global, doubled, as an `i31`.
fn doubled(alloc: Global) -> Result<ConstExpr, EncodeError> {
    ConstExpr::extended(
        alloc,
        &[
            Instruction::GlobalGet(1),
            Instruction::I32Const(2),
            Instruction::Numeric(NumericOp::I32Mul),
            Instruction::Gc(GcOp::RefI31),
        ],
    )
}
