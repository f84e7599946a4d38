//! What calls answer for values by hand.

use std::alloc::Global;
use std::hash::{DefaultHasher, Hash, Hasher};
use std::process::Abort;
use std::test::Fail;
use wast_lexer::{LexError, LexFault, Span};
use wast_parser::{Error, Gensym, Id, Index};

/// The error displays so.
fn assert_displayed(
    rt: &impl Abort,
    alloc: Global,
    error: &Error,
    expected: &str,
) -> Result<(), Fail> {
    let text = format!(in alloc; "{error}")?;
    assert_eq!(rt; text.as_str(), expected);
    Ok(())
}

#[test]
fn displays_an_error(rt: HostRuntime) -> Result<(), Fail> {
    let message = String::from_str(rt.alloc(), "expected `(`")?;
    let mut error = Error::new(Span::from_offset(1), message);
    assert_displayed(&rt, rt.alloc(), &error, "expected `(` at byte offset 1")?;
    error.set_text("\t(")?;
    assert_displayed(
        &rt,
        rt.alloc(),
        &error,
        "expected `(`\n     --> <anon>:1:2\n      |\n    1 |     (\n      |     ^",
    )
}

#[test]
fn displays_a_lexical_error(rt: HostRuntime) -> Result<(), Fail> {
    let fault = LexFault::Lex {
        span: Span::from_offset(5),
        error: LexError::InvalidHexDigit,
    };
    let error = Error::from_fault(rt.alloc(), fault);
    assert_eq!(rt; error.lex_error(), Some(LexError::InvalidHexDigit));
    assert_displayed(
        &rt,
        rt.alloc(),
        &error,
        "invalid hexadecimal digit at byte offset 5",
    )
}

#[test]
fn displays_want_of_memory(rt: HostRuntime) -> Result<(), Fail> {
    let mut error = Error::from_fault(rt.alloc(), LexFault::Memory);
    assert!(rt; error.is_memory());
    error.set_text("(module)")?;
    assert_displayed(&rt, rt.alloc(), &error, "out of memory")
}

#[test]
fn makes_names(rt: HostRuntime) -> Result<(), Fail> {
    let mut gensym = Gensym::new();
    let mut slot = None;
    let first = gensym.generate(Span::from_offset(1)).unwrap();
    let second = gensym.fill(Span::from_offset(1), &mut slot).unwrap();
    let read = Id::new("gensym", Span::from_offset(1));
    assert!(rt; first != *second && first != read);
    gensym.reset();
    let again = gensym.generate(Span::from_offset(2)).unwrap();
    assert!(rt; first == again);
    Ok(())
}

#[test]
fn hashes_equal_names_alike(rt: HostRuntime) {
    let one = Index::from(Id::new("a", Span::from_offset(1)));
    let other = Index::from(Id::new("a", Span::from_offset(2)));
    assert!(rt; one == other && hash_of(&one) == hash_of(&other));
}

fn hash_of(index: &Index<'_>) -> u64 {
    let mut hasher = DefaultHasher::new();
    index.hash(&mut hasher);
    hasher.finish()
}
