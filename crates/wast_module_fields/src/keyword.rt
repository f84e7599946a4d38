//! The words of the syntax of fields.
ghost use Rattle.std.specs.Prelude.{codes};

pub use wast_exports::keyword::{Func, Global, Memory, Table, Tag};
pub use wast_fields::keyword::{Declare, Item, Local, Offset};
use wast_parser::KeywordName;

/// `rec`
#[derive(Drop)]
pub struct Rec;

impl KeywordName for Rec {
    ghost word = { codes "rec" };

    fn text() -> &'static str {
        "rec"
    }
}

/// `start`
#[derive(Drop)]
pub struct Start;

impl KeywordName for Start {
    ghost word = { codes "start" };

    fn text() -> &'static str {
        "start"
    }
}

/// `elem`
#[derive(Drop)]
pub struct Elem;

impl KeywordName for Elem {
    ghost word = { codes "elem" };

    fn text() -> &'static str {
        "elem"
    }
}

/// `data`
#[derive(Drop)]
pub struct Data;

impl KeywordName for Data {
    ghost word = { codes "data" };

    fn text() -> &'static str {
        "data"
    }
}
