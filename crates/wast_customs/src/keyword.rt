//! Words of the grammar that stand for themselves.
ghost use Rattle.std.specs.Prelude.{codes};

use wast_parser::KeywordName;

/// The word `first`.
#[derive(Clone, Copy)]
pub(crate) struct First;

impl KeywordName for First {
    ghost word = { codes "first" };

    fn text() -> &'static str {
        "first"
    }
}

/// The word `last`.
#[derive(Clone, Copy)]
pub(crate) struct Last;

impl KeywordName for Last {
    ghost word = { codes "last" };

    fn text() -> &'static str {
        "last"
    }
}

/// The word `memory`.
#[derive(Clone, Copy)]
pub(crate) struct Memory;

impl KeywordName for Memory {
    ghost word = { codes "memory" };

    fn text() -> &'static str {
        "memory"
    }
}

/// The word `table`.
#[derive(Clone, Copy)]
pub(crate) struct Table;

impl KeywordName for Table {
    ghost word = { codes "table" };

    fn text() -> &'static str {
        "table"
    }
}
