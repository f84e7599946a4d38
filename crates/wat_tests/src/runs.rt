//! Runs over readers and writers, some of which fail.

use crate::failing::{Endless, Feeder, Taker, Then};
use std::alloc::Global;
use std::process::Abort;
use std::test::Fail;
use wat::{Counted, Fault, run, run_program};
use wat_io::read_within;

const MODULE: &[u8] = b"(module)";

/// The binary of `MODULE`.
const HEADER: &[u8] = b"\0asm\x01\0\0\0";

const REPORT: &[u8] = b"input isn't UTF-8 at byte 0\n";

/// The answer of a run over `MODULE`.
fn ran(alloc: Global, writer: &mut Taker) -> Result<u64, Fault> {
    let mut reader = Counted::new(Feeder::whole(MODULE));
    run(alloc, &mut reader, &mut Counted::new(writer))
}

/// The status of the program on this input.
fn status(alloc: Global, input: &'static [u8], writer: &mut Taker, errors: &mut Taker) -> u8 {
    let mut reader = Counted::new(Feeder::whole(input));
    run_program(alloc, &mut reader, &mut Counted::new(writer), errors)
}

#[test]
fn ample_run(rt: HostRuntime) -> Result<(), Fail> {
    let mut writer = Taker::new(8, Then::Fails);
    assert_eq!(rt; ran(rt.alloc(), &mut writer)?, 8);
    assert_eq!(rt; writer.taken(), HEADER);
    Ok(())
}

#[test]
fn ample_run_program(rt: HostRuntime) {
    let mut errors = Taker::new(64, Then::Fails);
    let status = status(
        rt.alloc(),
        MODULE,
        &mut Taker::new(8, Then::Fails),
        &mut errors,
    );
    assert_eq!(rt; status, 0);
    assert!(rt; errors.taken().is_empty());
}

#[test]
fn reads_that_fail(rt: HostRuntime) {
    // 8 bytes, one a call, and the call that gives none
    for calls in 0..9 {
        let mut reader = Counted::new(Feeder::failing_after(MODULE, calls));
        let mut writer = Taker::new(8, Then::Fails);
        let answer = run(rt.alloc(), &mut reader, &mut Counted::new(&mut writer));
        assert!(rt; matches!(answer, Err(Fault::Read)), "after {calls}");
        assert!(rt; writer.taken().is_empty());
    }
}

#[test]
fn no_more_than_the_bound(rt: HostRuntime) {
    let mut endless = Endless { given: 0 };
    let mut input = Vec::new(rt.alloc());
    let answer = read_within(rt.alloc(), &mut input, &mut Counted::new(&mut endless), 16);
    assert!(rt; answer.is_ok());
    assert_eq!(rt; (endless.given, input.len()), (16, 16));
}

fn assert_written(rt: &impl Abort, alloc: Global, mut writer: Taker, bytes: usize) {
    match ran(alloc, &mut writer) {
        Err(Fault::Write { written }) => assert_eq!(rt; written, bytes as u64),
        _ => assert!(rt; false, "no failed write after {bytes}"),
    }
    assert_eq!(rt; writer.taken(), &HEADER[..bytes.min(8)]);
}

#[test]
fn writes_that_fail(rt: HostRuntime) {
    for room in 0..8 {
        assert_written(&rt, rt.alloc(), Taker::new(room, Then::Fails), room);
        assert_written(&rt, rt.alloc(), Taker::new(room, Then::TakesNothing), room);
    }
    assert_written(&rt, rt.alloc(), Taker::new(8, Then::FailsToFlush), 8);
    // two bytes are taken, then one
    assert_written(&rt, rt.alloc(), Taker::by(2, 3, Then::Fails), 3);
}

/// A report goes out as far as the error writer takes it.
#[test]
fn reports(rt: HostRuntime) {
    for (room, then) in [
        (64, Then::FailsToFlush),
        (28, Then::Fails),
        (6, Then::Fails),
        (6, Then::TakesNothing),
    ] {
        let mut errors = Taker::new(room, then);
        let status = status(
            rt.alloc(),
            b"\xff",
            &mut Taker::new(0, Then::Fails),
            &mut errors,
        );
        assert_eq!(rt; status, 1);
        assert_eq!(rt; errors.taken(), &REPORT[..room.min(28)]);
    }
}

#[test]
fn reports_a_failed_write(rt: HostRuntime) {
    let mut errors = Taker::new(64, Then::Fails);
    let status = status(
        rt.alloc(),
        MODULE,
        &mut Taker::new(5, Then::Fails),
        &mut errors,
    );
    assert_eq!(rt; status, 1);
    assert_eq!(rt;
        errors.taken(),
        b"cannot write the output after 5 bytes\n".as_slice()
    );
}

/// With a growth refused (`bin/refuse`) nothing is written, and the test then fails by its result.
#[test]
fn refused_growths_of_a_run(rt: HostRuntime) -> Result<(), Fail> {
    let mut writer = Taker::new(8, Then::Fails);
    match ran(rt.alloc(), &mut writer) {
        Ok(count) => {
            assert_eq!(rt; count, 8);
            assert_eq!(rt; writer.taken().len(), 8);
            Ok(())
        }
        Err(fault) => {
            assert!(rt; matches!(&fault, Fault::Memory));
            assert!(rt; writer.taken().is_empty());
            Err(fault.into())
        }
    }
}

/// The program reports the fault, or that there is no memory.
#[test]
fn refused_growths_of_a_report(rt: HostRuntime) -> Result<(), Fail> {
    let mut errors = Taker::new(64, Then::Fails);
    let status = status(
        rt.alloc(),
        b"\xff",
        &mut Taker::new(0, Then::Fails),
        &mut errors,
    );
    assert_eq!(rt; status, 1);
    if errors.taken() == b"out of memory\n".as_slice() {
        return Err("out of memory".into());
    }
    assert_eq!(rt; errors.taken(), REPORT);
    Ok(())
}
