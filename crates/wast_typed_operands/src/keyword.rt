//! The words that stand in the syntax of clauses.
ghost use Rattle.std.specs.Prelude.{codes};

use wast_signatures::KeywordName;

/// `catch`
#[derive(Drop)]
pub struct Catch;

impl KeywordName for Catch {
    ghost word = { codes "catch" };

    fn text() -> &'static str {
        "catch"
    }
}

/// `catch_ref`
#[derive(Drop)]
pub struct CatchRef;

impl KeywordName for CatchRef {
    ghost word = { codes "catch_ref" };

    fn text() -> &'static str {
        "catch_ref"
    }
}

/// `catch_all`
#[derive(Drop)]
pub struct CatchAll;

impl KeywordName for CatchAll {
    ghost word = { codes "catch_all" };

    fn text() -> &'static str {
        "catch_all"
    }
}

/// `catch_all_ref`
#[derive(Drop)]
pub struct CatchAllRef;

impl KeywordName for CatchAllRef {
    ghost word = { codes "catch_all_ref" };

    fn text() -> &'static str {
        "catch_all_ref"
    }
}
