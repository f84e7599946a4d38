//! Tests of the lexer.
ghost use Rattle.std.specs.Prelude.{◌<◌, ◌^◌, length};
ghost use Rattle.wast_lexer.specs.TokenText.{GivesTokenOf};

use std::alloc::{AllocError, Global};
use std::test::Fail;
use wast_lexer::{LexError, LexFault, Lexer, Span, Token, TokenKind, TokenTable};
use wast_lexer_strings::string_value;

/// The first token of a text.
fn first(text: &str) -> Result<Option<Token>, LexFault>
    requires { length text.now < 2 ^ 32 }
    ensures { GivesTokenOf text.now result }
{
    let mut pos = 0;
    Lexer::new(text).parse(&mut pos)
}

/// The bytes of a string; none where the text is no string.
fn string_of(alloc: Global, text: &str) -> Result<Vec<u8>, AllocError>
    requires { length text.now < 2 ^ 32 }
{
    let mut copy = Vec::new(alloc);
    if let Ok(Some(token)) = first(text) {
        if let TokenKind::String = token.kind {
            copy.extend_from_slice(token.string(alloc, text)?.as_slice())?;
        }
    }
    Ok(copy)
}

/// The name of an identifier; empty where the text is none.
fn id_of(alloc: Global, text: &str) -> Result<String, LexFault>
    requires { length text.now < 2 ^ 32 }
{
    if let Some(token) = first(text)? {
        if let TokenKind::Id = token.kind {
            return match token.id(alloc, text)?.into_owned(alloc) {
                Ok(name) => Ok(name),
                Err(_) => Err(LexFault::Memory),
            };
        }
    }
    Ok(String::new(alloc))
}

/// The name of the annotation behind a first `(`; empty where there is none.
fn annotation_of(alloc: Global, text: &str) -> Result<String, AllocError>
    requires { length text.now < 2 ^ 32 }
{
    if text.is_char_boundary(1) {
        if let Ok(Some(token)) = Lexer::new(text).annotation(1) {
            if let TokenKind::Annotation = token.kind {
                return Ok(token.annotation(alloc, text)?.into_owned(alloc)?);
            }
        }
    }
    Ok(String::new(alloc))
}

#[test]
fn ample_string_value(rt: HostRuntime) -> Result<(), Fail> {
    let text = "\"\\41\"";
    if let Ok(Some(token)) = first(text) {
        if let TokenKind::String = token.kind {
            let bytes = string_value(rt.alloc(), token.src(text).as_bytes())?;
            assert_eq!(rt; bytes.as_slice(), b"A".as_slice());
            return Ok(());
        }
    }
    Err("no string".into())
}

/// With a growth refused (`bin/refuse`) the answer is want of memory, and the test then fails by its result.
#[test]
fn refused_growths(rt: HostRuntime) -> Result<(), Fail> {
    let alloc = rt.alloc();
    match id_of(alloc, "$\"\\41\"") {
        Ok(name) => assert_eq!(rt; name.as_str(), "A"),
        Err(fault) => {
            assert_eq!(rt; fault, LexFault::Memory);
            return Err("out of memory".into());
        }
    }
    let table = TokenTable::new(alloc, Lexer::new("(a)"))?;
    assert_eq!(rt; (table.len(), table.group_end(0)), (3, Some(2)));
    let bytes = string_of(alloc, "\"\\42\"")?;
    assert_eq!(rt; bytes.as_slice(), b"B".as_slice());
    let name = annotation_of(alloc, "(@\"\\43\")")?;
    assert_eq!(rt; name.as_str(), "C");
    Ok(())
}

#[test]
fn tokens_end_after_a_fault(rt: HostRuntime) {
    let mut tokens = Lexer::new("a \u{e9} b").iter(2);
    assert_eq!(rt;
        tokens.next(),
        Some(Err(LexFault::Lex {
            span: Span::from_offset(2),
            error: LexError::Unexpected
        }))
    );
    assert_eq!(rt; tokens.next(), None);
}

/// Depth takes time alone.
#[test]
fn deep_groups(rt: HostRuntime) -> Result<(), Fail> {
    let alloc = rt.alloc();
    let mut bytes = Vec::from_elem(alloc, b'(', 100_000)?;
    bytes.extend_from_slice(Vec::from_elem(alloc, b')', 100_000)?.as_slice())?;
    if let Ok(text) = std::str::from_utf8(bytes.as_slice()) {
        if text.len() < 1_000_000 {
            let table = TokenTable::new(alloc, Lexer::new(text))?;
            assert_eq!(rt; table.group_end(0), Some(199_999));
            return Ok(());
        }
    }
    Err("no text".into())
}
