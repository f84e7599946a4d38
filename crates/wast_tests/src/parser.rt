//! Buffers and parsers. A buffer is lent in the arm that gives it.

ghost use Rattle.wast_parser.specs.State.{Keeps};

use crate::text::failed;
use std::alloc::Global;
use std::process::Abort;
use std::test::Fail;
use wast_parser::{Error, Id, LParen, ParseBuffer, Parser, RParen, parse, required};

#[test]
fn ample_name_and_text(rt: HostRuntime) -> Result<(), Fail> {
    match ParseBuffer::new(rt.alloc(), "\"\\41\"") {
        Ok(buffer) => {
            reads_name(&rt, &buffer)?;
            reads_text(&rt, &buffer)
        }
        Err(error) => Err(failed(error)),
    }
}

fn reads_name<'a>(rt: &impl Abort, buffer: &'a ParseBuffer<'a>) -> Result<(), Fail> {
    match Parser::new(buffer).name() {
        Ok(name) => {
            assert_eq!(rt; name.as_str(), "A");
            Ok(())
        }
        Err(error) => Err(failed(error)),
    }
}

fn reads_text(rt: &impl Abort, buffer: &ParseBuffer<'_>) -> Result<(), Fail> {
    match parse::<String>(buffer) {
        Ok(text) => {
            assert_eq!(rt; text.as_str(), "A");
            Ok(())
        }
        Err(error) => Err(failed(error)),
    }
}

#[test]
fn ample_with_annotation_and_box(rt: HostRuntime) -> Result<(), Fail> {
    match ParseBuffer::new(rt.alloc(), "7") {
        Ok(buffer) => {
            reads_with_annotation(&rt, &buffer)?;
            reads_box(&rt, &buffer)
        }
        Err(error) => Err(failed(error)),
    }
}

fn reads_with_annotation(rt: &impl Abort, buffer: &ParseBuffer<'_>) -> Result<(), Fail> {
    match Parser::new(buffer).with_annotation::<u8>("a") {
        Ok(number) => {
            assert_eq!(rt; number, 7);
            Ok(())
        }
        Err(error) => Err(failed(error)),
    }
}

fn reads_box(rt: &impl Abort, buffer: &ParseBuffer<'_>) -> Result<(), Fail> {
    match parse::<Box<u8>>(buffer) {
        Ok(number) => {
            assert_eq!(rt; *number, 7);
            Ok(())
        }
        Err(error) => Err(failed(error)),
    }
}

#[test]
fn ample_parens(rt: HostRuntime) -> Result<(), Fail> {
    match ParseBuffer::new(rt.alloc(), "(7)") {
        Ok(buffer) => match Parser::new(&buffer).parens(number) {
            Ok(value) => {
                assert_eq!(rt; value, 7);
                Ok(())
            }
            Err(error) => Err(failed(error)),
        },
        Err(error) => Err(failed(error)),
    }
}

fn number(parser: &mut Parser<'_>) -> Result<u8, Error>
    ensures { Keeps parser.old parser.new }
{
    parser.parse()
}

/// A refused call tells its message and its place.
#[test]
fn ample_error(rt: HostRuntime) -> Result<(), Fail> {
    match ParseBuffer::new(rt.alloc(), " x") {
        Ok(buffer) => {
            let error = Parser::new(&buffer).error("expected y");
            assert_told(&rt, rt.alloc(), &error, "expected y")
        }
        Err(error) => Err(failed(error)),
    }
}

/// The error has this message, and stands at the place 1.
fn assert_told(rt: &impl Abort, alloc: Global, error: &Error, expected: &str) -> Result<(), Fail> {
    let message = error.message(alloc)?;
    assert_eq!(rt; message.as_str(), expected);
    assert_eq!(rt; error.span().offset(), 1);
    Ok(())
}

/// What isn't there is told with the message that is given, and nothing is read; what is there is read.
#[test]
fn ample_required(rt: HostRuntime) -> Result<(), Fail> {
    match ParseBuffer::new(rt.alloc(), " )") {
        Ok(buffer) => reads_required(&rt, rt.alloc(), &mut Parser::new(&buffer)),
        Err(error) => Err(failed(error)),
    }
}

fn reads_required(rt: &impl Abort, alloc: Global, parser: &mut Parser<'_>) -> Result<(), Fail> {
    match required::<Id>(parser, "expected y") {
        Ok(_) => Err("an identifier is read".into()),
        Err(error) => {
            assert_told(rt, alloc, &error, "expected y")?;
            assert!(rt; required::<RParen>(parser, "expected z").is_ok());
            assert!(rt; parser.is_empty());
            Ok(())
        }
    }
}

/// The error names what was looked for.
#[test]
fn ample_lookahead(rt: HostRuntime) -> Result<(), Fail> {
    match ParseBuffer::new(rt.alloc(), " )") {
        Ok(buffer) => {
            let expected = "expected one of: `(`, an identifier";
            assert_told(
                &rt,
                rt.alloc(),
                &looked(&rt, &Parser::new(&buffer)),
                expected,
            )
        }
        Err(error) => Err(failed(error)),
    }
}

/// What a look at three kinds of tokens tells; the second stands there.
fn looked(rt: &impl Abort, parser: &Parser<'_>) -> Error {
    let mut lookahead = parser.lookahead1();
    assert!(rt; matches!(lookahead.peek::<LParen>(), Ok(false)));
    assert!(rt; matches!(lookahead.peek::<RParen>(), Ok(true)));
    assert!(rt; matches!(lookahead.peek::<Id>(), Ok(false)));
    assert!(rt; parser.closes() && !parser.opens());
    lookahead.error()
}

/// Each answer is want of memory where a growth is refused, and the parser stands where it did.
#[test]
fn refused_growths_of_a_parser(rt: HostRuntime) -> Result<(), Fail> {
    match ParseBuffer::new(rt.alloc(), "(@a) $\"\\41\" \"\\42\"") {
        Ok(buffer) => {
            registers(&rt, &mut Parser::new(&buffer))?;
            reads_all(&rt, &mut Parser::new(&buffer))
        }
        Err(error) => Err(failed(error)),
    }
}

fn reads_all(rt: &impl Abort, parser: &mut Parser<'_>) -> Result<(), Fail> {
    reads_id(rt, parser)?;
    reads_string(rt, parser)?;
    assert!(rt; parser.is_empty());
    Ok(())
}

/// The group in front shows only where its annotation is registered.
fn registers(rt: &impl Abort, parser: &mut Parser<'_>) -> Result<(), Fail> {
    match parser.register_annotation("a") {
        Ok(()) => {
            assert!(rt; shows_annotation(parser));
            Ok(())
        }
        Err(error) => {
            assert!(rt; error.is_memory() && !shows_group(parser));
            Err(failed(error))
        }
    }
}

/// Whether an annotation opens next, which is no group of a field or an instruction.
fn shows_annotation(parser: &mut Parser<'_>) -> bool {
    shows_group(parser) && parser.opens() && !parser.opens_group() && !parser.closes()
}

fn shows_group(parser: &mut Parser<'_>) -> bool {
    matches!(parser.peek::<LParen>(), Ok(true))
}

fn reads_id(rt: &impl Abort, parser: &mut Parser<'_>) -> Result<(), Fail> {
    match parser.id() {
        Ok((name, _)) => {
            assert_eq!(rt; name.as_str(), "A");
            Ok(())
        }
        Err(error) => {
            assert!(rt; error.is_memory() && parser.cur_span().offset() == 5);
            Err(failed(error))
        }
    }
}

fn reads_string(rt: &impl Abort, parser: &mut Parser<'_>) -> Result<(), Fail> {
    match parser.string() {
        Ok(bytes) => {
            assert_eq!(rt; bytes.as_slice(), b"B".as_slice());
            Ok(())
        }
        Err(error) => {
            assert!(rt; error.is_memory() && parser.cur_span().offset() == 12);
            Err(failed(error))
        }
    }
}
