//! The words of the syntax of modules and fields, and those from which an [`ExportKind`](crate::ExportKind) is made.
ghost use Rattle.std.specs.Prelude.{codes};

pub use wast_module_fields::keyword::{
    Data, Declare, Elem, Func, Global, Item, Local, Memory, Offset, Rec, Start, Table, Tag,
};
use wast_parser::KeywordName;

/// `binary`
#[derive(Drop)]
pub struct Binary;

impl KeywordName for Binary {
    ghost word = { codes "binary" };

    fn text() -> &'static str {
        "binary"
    }
}

/// `module`
#[derive(Drop)]
pub struct Module;

impl KeywordName for Module {
    ghost word = { codes "module" };

    fn text() -> &'static str {
        "module"
    }
}
