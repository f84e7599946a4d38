//! A module that is built by calls: it exports the function `f`, which adds two numbers of 32 bits. Its binary goes to
//! standard output.
#![tactic(auto)]

use std::alloc::Global;
use std::io::Write;
use std::process::ExitCode;
use wasm_encoder::{
    CodeSection, EncodeError, ExportKind, ExportSection, Function, FunctionSection, Module,
    TypeSection, ValType,
};

fn main(rt: HostRuntime) -> ExitCode {
    match adder(rt.alloc()) {
        Ok(binary) if rt.stdout().write_all(binary.as_slice()).is_ok() => ExitCode::SUCCESS,
        _ => ExitCode::FAILURE,
    }
}

/// The binary of the module.
fn adder(alloc: Global) -> Result<Vec<u8>, EncodeError> {
    let mut module = Module::new(alloc)?;
    module.section(&types(alloc)?)?;
    module.section(&functions(alloc)?)?;
    module.section(&exports(alloc)?)?;
    module.section(&codes(alloc)?)?;
    Ok(module.finish())
}

/// One type: two numbers, and a number that is answered.
fn types(alloc: Global) -> Result<TypeSection, EncodeError> {
    let mut types = TypeSection::new(alloc);
    types
        .ty()
        .function(&[ValType::I32, ValType::I32], &[ValType::I32])?;
    Ok(types)
}

fn functions(alloc: Global) -> Result<FunctionSection, EncodeError> {
    let mut functions = FunctionSection::new(alloc);
    functions.function(0)?;
    Ok(functions)
}

fn exports(alloc: Global) -> Result<ExportSection, EncodeError> {
    let mut exports = ExportSection::new(alloc);
    exports.export("f", ExportKind::Func, 0)?;
    Ok(exports)
}

fn codes(alloc: Global) -> Result<CodeSection, EncodeError> {
    let mut codes = CodeSection::new(alloc);
    codes.function(&sum(alloc)?)?;
    Ok(codes)
}

/// The body: both parameters, and their sum.
fn sum(alloc: Global) -> Result<Function, EncodeError> {
    let mut body = Function::new(alloc, &[])?;
    body.instructions()
        .local_get(0)?
        .local_get(1)?
        .i32_add()?
        .end()?;
    Ok(body)
}
