//! A law of the opcodes: a function without parameters whose contract is the law. It does nothing.

ghost use Rattle.wasm_encoder_base.specs.Instr.{Nothing, OfMemory, AreListed};
ghost use Rattle.wasm_encoder_opcodes.specs.Access.{access_mnemonic, access_opcode};
ghost use Rattle.wasm_encoder_opcodes.specs.Atomic.{atomic_mnemonic, atomic_opcode};
ghost use Rattle.wasm_encoder_opcodes.specs.AtomicRmw.{atomic_rmw_mnemonic, atomic_rmw_opcode};
ghost use Rattle.wasm_encoder_opcodes.specs.Compare.{compare_mnemonic, compare_opcode};
ghost use Rattle.wasm_encoder_opcodes.specs.Convert.{convert_mnemonic, convert_opcode};
ghost use Rattle.wasm_encoder_opcodes.specs.Numeric.{numeric_mnemonic, numeric_opcode};
ghost use Rattle.wasm_encoder_opcodes.specs.Vector.{vector_mnemonic, vector_opcode};
ghost use Rattle.wasm_encoder_opcodes.specs.VectorFloat.{vector_float_mnemonic, vector_float_opcode};
ghost use Rattle.wasm_encoder_opcodes.specs.VectorNarrow.{vector_narrow_mnemonic, vector_narrow_opcode};
ghost use Rattle.wasm_encoder_opcodes.specs.VectorWide.{vector_wide_mnemonic, vector_wide_opcode};

/// Each opcode is that of the entry in the table of instructions that has the operation's mnemonic. There a load, a
/// store and an atomic instruction has a memory argument, and any other instruction of this crate no operands.
pub fn listed()
    ensures compare { AreListed compare_mnemonic compare_opcode (λ _. Nothing) }
    ensures numeric { AreListed numeric_mnemonic numeric_opcode (λ _. Nothing) }
    ensures convert { AreListed convert_mnemonic convert_opcode (λ _. Nothing) }
    ensures vector { AreListed vector_mnemonic vector_opcode (λ _. Nothing) }
    ensures vector_narrow { AreListed vector_narrow_mnemonic vector_narrow_opcode (λ _. Nothing) }
    ensures vector_wide { AreListed vector_wide_mnemonic vector_wide_opcode (λ _. Nothing) }
    ensures vector_float { AreListed vector_float_mnemonic vector_float_opcode (λ _. Nothing) }
    ensures access { AreListed access_mnemonic access_opcode (λ _. OfMemory) }
    ensures atomic { AreListed atomic_mnemonic atomic_opcode (λ _. OfMemory) }
    ensures atomic_rmw { AreListed atomic_rmw_mnemonic atomic_rmw_opcode (λ _. OfMemory) }
{}
