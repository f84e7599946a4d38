//! The words of the syntax of signatures and type uses.
ghost use Rattle.std.specs.Prelude.{codes};

use wast_value_types::KeywordName;

/// `param`
#[derive(Drop)]
pub struct Param;

impl KeywordName for Param {
    ghost word = { codes "param" };

    fn text() -> &'static str {
        "param"
    }
}

/// `result`
#[derive(Drop)]
pub struct Result;

impl KeywordName for Result {
    ghost word = { codes "result" };

    fn text() -> &'static str {
        "result"
    }
}

/// `type`
#[derive(Drop)]
pub struct Type;

impl KeywordName for Type {
    ghost word = { codes "type" };

    fn text() -> &'static str {
        "type"
    }
}
