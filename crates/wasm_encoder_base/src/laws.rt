//! Laws of the spellings: functions without parameters whose contracts are the laws. They do nothing.

ghost use Rattle.wasm_encoder_base.specs.Samples.{SamplesListed, DoublesListed};
ghost use Rattle.wasm_encoder_base.specs.Examples.{FunctionType, CallIndirect, MemoryInit, BrTable, Load, BrOnCast, Try, Float};
ghost use Rattle.std.specs.Prelude.{◌≡◌, ◌∷◌, []};
ghost use Rattle.wasm_encoder_base.specs.Types.{ref_bytes};
ghost use Rattle.wasm_encoder_base.specs.Views.{ref_view};
ghost use Rattle.wasm_encoder_base.specs.Laws.{OneHeapType, OneRefType, OneValType, OneFieldType, OneFuncType, OneCompositeType, OneSubType, OneInstruction, OneExpression, EntryCount, OpcodesDistinct, OpcodesApart, MnemonicsDistinct, EntriesDistinct, UncoveredDistinct, UncoveredUnlisted};

use crate::types::RefType;
pub use wasm_encoder_bytes::laws::{lists, one_reading, shortest, spelling_examples};

/// Types are told apart by their bytes, whatever follows these.
pub fn one_type()
    ensures heap_types { OneHeapType }
    ensures reference_types { OneRefType }
    ensures value_types { OneValType }
    ensures field_types { OneFieldType }
    ensures function_types { OneFuncType }
    ensures composite_types { OneCompositeType }
    ensures sub_types { OneSubType }
{}

/// The constants of [`RefType`](crate::RefType) are the short forms of the text format: `funcref`, `externref`
/// and `exnref`.
pub fn short_forms()
    ensures funcref { ref_bytes (ref_view RefType.FUNCREF) ≡ 0x70 ∷ [] }
    ensures externref { ref_bytes (ref_view RefType.EXTERNREF) ≡ 0x6F ∷ [] }
    ensures exnref { ref_bytes (ref_view RefType.EXNREF) ≡ 0x69 ∷ [] }
{}

/// Instructions are told apart by their bytes, whatever follows these; so are expressions, whose last byte
/// is the end that closes no block opened in them.
pub fn one_instruction()
    ensures instructions { OneInstruction }
    ensures expressions { OneExpression }
{}

/// The table of instructions has 575 entries; their opcodes are distinct and none begins another; their
/// mnemonics are distinct, save `select`, `ref.test` and `ref.cast`, which have two entries each, and no two
/// entries have a mnemonic and the operands in common.
pub fn distinct_entries()
    ensures entries { EntryCount }
    ensures opcodes { OpcodesDistinct }
    ensures none_begins_another { OpcodesApart }
    ensures mnemonics { MnemonicsDistinct }
    ensures doubles { DoublesListed }
    ensures operands { EntriesDistinct }
{}

/// The mnemonics of the instructions that are refused as uncovered are distinct from each other and from the
/// table's.
pub fn distinct_uncovered()
    ensures mnemonics { UncoveredDistinct }
    ensures unlisted { UncoveredUnlisted }
{}

/// A function type and its bytes, entries of the table of each operand syntax, and a few instructions and their
/// bytes, by hand.
pub fn examples()
    ensures function_type { FunctionType }
    ensures entries { SamplesListed }
    ensures indices { CallIndirect }
    ensures segments { MemoryInit }
    ensures labels { BrTable }
    ensures memory_argument { Load }
    ensures reference_types { BrOnCast }
    ensures catch_clauses { Try }
    ensures float { Float }
{}
