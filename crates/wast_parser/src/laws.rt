//! Laws of what is parsed and of identifiers: functions whose contracts are the laws. They do nothing.

pub use wast_parser_base::laws::{equal_identifiers, made_names_differ};
pub use wast_parser_core::laws::{one_value, read_where_spelled, stays_or_stands_behind};
