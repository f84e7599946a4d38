//! The words of the syntax of composite types and type definitions.
ghost use Rattle.std.specs.Prelude.{codes};

use wast_parser::KeywordName;

/// `field`
#[derive(Drop)]
pub struct Field;

impl KeywordName for Field {
    ghost word = { codes "field" };

    fn text() -> &'static str {
        "field"
    }
}

/// `func`
#[derive(Drop)]
pub struct Func;

impl KeywordName for Func {
    ghost word = { codes "func" };

    fn text() -> &'static str {
        "func"
    }
}

/// `struct`
#[derive(Drop)]
pub struct Struct;

impl KeywordName for Struct {
    ghost word = { codes "struct" };

    fn text() -> &'static str {
        "struct"
    }
}

/// `array`
#[derive(Drop)]
pub struct Array;

impl KeywordName for Array {
    ghost word = { codes "array" };

    fn text() -> &'static str {
        "array"
    }
}

/// `cont`
#[derive(Drop)]
pub struct Cont;

impl KeywordName for Cont {
    ghost word = { codes "cont" };

    fn text() -> &'static str {
        "cont"
    }
}

/// `describes`
#[derive(Drop)]
pub struct Describes;

impl KeywordName for Describes {
    ghost word = { codes "describes" };

    fn text() -> &'static str {
        "describes"
    }
}

/// `descriptor`
#[derive(Drop)]
pub struct Descriptor;

impl KeywordName for Descriptor {
    ghost word = { codes "descriptor" };

    fn text() -> &'static str {
        "descriptor"
    }
}

/// `sub`
#[derive(Drop)]
pub struct Sub;

impl KeywordName for Sub {
    ghost word = { codes "sub" };

    fn text() -> &'static str {
        "sub"
    }
}

/// `final`
#[derive(Drop)]
pub struct Final;

impl KeywordName for Final {
    ghost word = { codes "final" };

    fn text() -> &'static str {
        "final"
    }
}
