//! Laws of what is encoded: functions whose contracts are the laws. They do nothing.

pub use wast_encode_laws::laws::{
    covered_when_resolved, formed_when_resolved, functions_placed, meant_hints_fit,
    meant_names_fit, ready_when_resolved, trees_ordered, uncovered_again,
};
pub use wast_meant_laws::laws::{
    at_stops, names_apart, renamed_binary, renamed_conditions, renamed_meaning, renamings_carry,
};
