//! Laws of what is resolved: functions whose contracts are the laws. They do nothing.

pub use wast_deinline::laws::{fresh_names, written_again};
pub use wast_names::laws::{distinct, numbers, one_place};
pub use wast_resolve_laws::laws::{
    demands_kept, fields_kept, labels_handed_on, namings_alike, nothing_implied, numbered_settled,
    orders_agree, renamed_demands, renamed_numbers, resolved_again, resolved_met, resolved_settled,
    scope_kept, signatures_kept, spaces_apart, spaces_kept, tested_on_the_way, types_taken,
    written_demands, written_names, written_signatures, written_types,
};
