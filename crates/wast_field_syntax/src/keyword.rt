//! The words of the syntax of fields that define something, and of segments.
ghost use Rattle.std.specs.Prelude.{codes};

use wast_parser::KeywordName;

/// `local`
#[derive(Drop)]
pub struct Local;

impl KeywordName for Local {
    ghost word = { codes "local" };

    fn text() -> &'static str {
        "local"
    }
}

/// `offset`
#[derive(Drop)]
pub struct Offset;

impl KeywordName for Offset {
    ghost word = { codes "offset" };

    fn text() -> &'static str {
        "offset"
    }
}

/// `item`
#[derive(Drop)]
pub struct Item;

impl KeywordName for Item {
    ghost word = { codes "item" };

    fn text() -> &'static str {
        "item"
    }
}

/// `declare`
#[derive(Drop)]
pub struct Declare;

impl KeywordName for Declare {
    ghost word = { codes "declare" };

    fn text() -> &'static str {
        "declare"
    }
}
