//! A law of the instructions: a function without parameters whose contract is the law. It does nothing.

ghost use Rattle.wasm_encoder_instr.specs.Laws.{AllListed, NullabilityListed};

/// Each instruction's opcode is that of an entry in the table of instructions that has its mnemonic, and there the operands are of
/// its kind. The mnemonics `select`, `ref.test` and `ref.cast` have two entries each: those of `select` differ in the operands'
/// kind, and the tests and casts have the entry whose operand is `(ref null ht)` exactly where they are nullable.
pub fn listed()
    ensures entries { AllListed }
    ensures nullability { NullabilityListed }
{}
