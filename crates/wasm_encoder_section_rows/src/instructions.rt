//! Instructions that are added by calls, of a sink and of a constant expression: a row for each call.

use crate::calls::Calls;
use crate::print_row;
use row_page::Page;
use std::alloc::Global;
use wasm_encoder::{
    BlockType, ConstExpr, Encode, EncodeError, HeapType, Ieee32, Ieee64, Instruction,
    InstructionSink,
};

pub fn print_rows(page: &Page) {
    for number in 0..33 {
        print_row(page, "call of a sink", sunk(page.alloc(), number));
    }
    for number in 0..14 {
        print_row(page, "call of an expression", grown(page.alloc(), number));
    }
    print_row(
        page,
        "a global",
        spelled(page.alloc(), ConstExpr::global_get(page.alloc(), 7)),
    );
    print_row(
        page,
        "a vector",
        spelled(page.alloc(), ConstExpr::v128_const(page.alloc(), 1)),
    );
}

/// What the call of this number adds.
fn sunk(alloc: Global, number: u32) -> Result<Vec<u8>, EncodeError> {
    let mut bytes = Vec::new(alloc);
    let mut calls = Calls::new();
    calls.note(call(InstructionSink::new(&mut bytes), number));
    calls.with(bytes)
}

fn call(sink: InstructionSink<'_>, number: u32) -> Result<InstructionSink<'_>, EncodeError> {
    if number < 11 {
        control(sink, number)
    } else if number < 20 {
        variable(sink, number)
    } else if number < 31 {
        numeric(sink, number)
    } else {
        listed(sink, number)
    }
}

fn control(sink: InstructionSink<'_>, number: u32) -> Result<InstructionSink<'_>, EncodeError> {
    match number {
        0 => sink.unreachable(),
        1 => sink.nop(),
        2 => sink.block(BlockType::Empty),
        3 => sink.loop_(BlockType::Empty),
        4 => sink.if_(BlockType::Empty),
        5 => sink.else_(),
        6 => sink.end(),
        7 => sink.br(1),
        8 => sink.br_if(2),
        9 => sink.return_(),
        _ => sink.call(3),
    }
}

fn variable(sink: InstructionSink<'_>, number: u32) -> Result<InstructionSink<'_>, EncodeError> {
    match number {
        11 => sink.drop(),
        12 => sink.select(),
        13 => sink.local_get(4),
        14 => sink.local_set(5),
        15 => sink.local_tee(6),
        16 => sink.global_get(7),
        17 => sink.global_set(8),
        18 => sink.ref_null(HeapType::Concrete(9)),
        _ => sink.ref_func(9),
    }
}

fn numeric(sink: InstructionSink<'_>, number: u32) -> Result<InstructionSink<'_>, EncodeError> {
    match number {
        20 => sink.i32_const(-1),
        21 => sink.i64_const(64),
        22 => sink.f32_const(Ieee32::new(0)),
        23 => sink.f64_const(Ieee64::new(0)),
        24 => sink.v128_const(1),
        25 => sink.i32_add(),
        26 => sink.i32_sub(),
        27 => sink.i32_mul(),
        28 => sink.i64_add(),
        29 => sink.i64_sub(),
        _ => sink.i64_mul(),
    }
}

fn listed(sink: InstructionSink<'_>, number: u32) -> Result<InstructionSink<'_>, EncodeError> {
    if number == 31 { nop(sink) } else { end(sink) }
}

fn nop(sink: InstructionSink<'_>) -> Result<InstructionSink<'_>, EncodeError> {
    sink.instruction(&Instruction::Nop)
}

fn end(sink: InstructionSink<'_>) -> Result<InstructionSink<'_>, EncodeError> {
    sink.instruction(&Instruction::End)
}

/// The expression that the call of this number makes of an empty one.
fn grown(alloc: Global, number: u32) -> Result<Vec<u8>, EncodeError> {
    let empty = ConstExpr::empty(alloc);
    if number < 8 {
        spelled(alloc, with_constant(empty, number))
    } else {
        spelled(alloc, with_operation(empty, number))
    }
}

fn with_constant(expression: ConstExpr, number: u32) -> Result<ConstExpr, EncodeError> {
    match number {
        0 => expression.with_global_get(7),
        1 => expression.with_ref_null(HeapType::Concrete(64)),
        2 => expression.with_ref_func(9),
        3 => expression.with_i32_const(-1),
        4 => expression.with_i64_const(64),
        5 => expression.with_f32_const(Ieee32::new(0)),
        6 => expression.with_f64_const(Ieee64::new(0)),
        _ => expression.with_v128_const(1),
    }
}

fn with_operation(expression: ConstExpr, number: u32) -> Result<ConstExpr, EncodeError> {
    match number {
        8 => expression.with_i32_add(),
        9 => expression.with_i32_sub(),
        10 => expression.with_i32_mul(),
        11 => expression.with_i64_add(),
        12 => expression.with_i64_sub(),
        _ => expression.with_i64_mul(),
    }
}

fn spelled(
    alloc: Global,
    expression: Result<ConstExpr, EncodeError>,
) -> Result<Vec<u8>, EncodeError> {
    match expression {
        Ok(expression) => bytes_of(alloc, &expression),
        Err(error) => Err(error),
    }
}

fn bytes_of(alloc: Global, expression: &ConstExpr) -> Result<Vec<u8>, EncodeError> {
    let mut bytes = Vec::new(alloc);
    expression.encode(&mut bytes)?;
    Ok(bytes)
}
