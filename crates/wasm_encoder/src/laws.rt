//! Laws of the bytes of modules: functions without parameters whose contracts are the laws. They do nothing.

pub use wasm_encoder_base::laws::{
    distinct_entries, distinct_uncovered, examples, lists, one_instruction, one_reading, one_type,
    short_forms, shortest, spelling_examples,
};
pub use wasm_encoder_code::laws::{bodies, listed, one_body, one_expression, places, runs};
pub use wasm_encoder_custom::laws::{
    one_core_dump, one_custom, one_field, one_hint, one_name_subsection, symbol_flags,
};
pub use wasm_encoder_items::laws::{item_examples, one_entity, one_item, one_written_item};
pub use wasm_encoder_sections::laws::one_section;
