//! Blocks that are open.
use wast_parser::Id;

/// A block that is open.
#[derive(Drop)]
pub(crate) struct OpenBlock<'a> {
    pub(crate) label: Option<Id<'a>>,
    /// The level that its name has outside it, where a block bears it there.
    pub(crate) outer: Option<u32>,
}
