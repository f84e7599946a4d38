//! The words that stand in the syntax of types.
ghost use Rattle.std.specs.Prelude.{codes};

use wast_words::KeywordName;

/// `ref`
#[derive(Drop)]
pub struct Ref;

impl KeywordName for Ref {
    ghost word = { codes "ref" };

    fn text() -> &'static str {
        "ref"
    }
}

/// `null`
#[derive(Drop)]
pub struct Null;

impl KeywordName for Null {
    ghost word = { codes "null" };

    fn text() -> &'static str {
        "null"
    }
}

/// `exact`
#[derive(Drop)]
pub struct Exact;

impl KeywordName for Exact {
    ghost word = { codes "exact" };

    fn text() -> &'static str {
        "exact"
    }
}

/// `shared`
#[derive(Drop)]
pub struct Shared;

impl KeywordName for Shared {
    ghost word = { codes "shared" };

    fn text() -> &'static str {
        "shared"
    }
}

/// `mut`
#[derive(Drop)]
pub struct Mut;

impl KeywordName for Mut {
    ghost word = { codes "mut" };

    fn text() -> &'static str {
        "mut"
    }
}

/// `pagesize`
#[derive(Drop)]
pub struct PageSize;

impl KeywordName for PageSize {
    ghost word = { codes "pagesize" };

    fn text() -> &'static str {
        "pagesize"
    }
}
