//! Laws over the definitions that the contract of `assemble` cites: functions without parameters whose contracts are the laws. They
//! do nothing. Those of whole texts and of binaries are handed on.

ghost use Rattle.wast_grammar.specs.Laws.{StringValue};
ghost use Rattle.wat.specs.Laws.{OneTree};

pub use wasm_encoder::laws::one_section;
pub use wasm_layout::laws::{one_binary, one_reading};
pub use wat_laws::laws::{
    flat_examples, folding, hint_example, hint_places, renamed_examples, without_names,
    written_examples, written_out,
};
pub use wat_verdict::laws::{equal_binaries, one_meaning, one_verdict, renaming, tokens_decide};

/// The bytes that a string stands for are those that the definition of tokens reads.
pub fn string_value()
    ensures { StringValue }
{}

/// No tokens spell two modules, places included.
pub fn one_tree()
    ensures { OneTree }
{}
