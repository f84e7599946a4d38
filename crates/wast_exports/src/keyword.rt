//! Words of the grammar that stand for themselves.
ghost use Rattle.std.specs.Prelude.{codes};

use wast_parser::KeywordName;

/// The word `func`.
#[derive(Clone, Copy)]
pub struct Func;

impl KeywordName for Func {
    ghost word = { codes "func" };

    fn text() -> &'static str {
        "func"
    }
}

/// The word `table`.
#[derive(Clone, Copy)]
pub struct Table;

impl KeywordName for Table {
    ghost word = { codes "table" };

    fn text() -> &'static str {
        "table"
    }
}

/// The word `memory`.
#[derive(Clone, Copy)]
pub struct Memory;

impl KeywordName for Memory {
    ghost word = { codes "memory" };

    fn text() -> &'static str {
        "memory"
    }
}

/// The word `global`.
#[derive(Clone, Copy)]
pub struct Global;

impl KeywordName for Global {
    ghost word = { codes "global" };

    fn text() -> &'static str {
        "global"
    }
}

/// The word `tag`.
#[derive(Clone, Copy)]
pub struct Tag;

impl KeywordName for Tag {
    ghost word = { codes "tag" };

    fn text() -> &'static str {
        "tag"
    }
}
