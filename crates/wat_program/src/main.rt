//! The assembler as a program: a text on standard input, its binary on standard output.
//!
//! Arguments are ignored. Nothing is buffered here: each `write` is handed all that is left, so that what a fault says
//! went out did.
#![tactic(auto)]

use std::process::ExitCode;
use wat::{Counted, run_program};

fn main(rt: HostRuntime) -> ExitCode {
    let mut input = Counted::new(rt.stdin());
    let mut output = Counted::new(rt.stdout());
    let status = run_program(rt.alloc(), &mut input, &mut output, &mut rt.stderr());
    ExitCode::from(status)
}
