//! Alignments.
ghost use Rattle.std.specs.Prelude.{◌≡◌};
ghost use Rattle.wast_core_instr.specs.InstructionViews.{instruction_operands};
ghost use Rattle.wast_meaning.specs.WellFormed as spec;

use wast_core_instr::Instruction;

/// Whether the alignment of an instruction that has one is a power of two below 65536, in bytes (6.5, memory instructions).
pub(crate) fn is_aligned(instruction: &Instruction<'_>) -> bool
    ensures { result ≡ spec.is_aligned (instruction_operands instruction.now) }
{
    match instruction.memarg() {
        Some(memarg) => is_power(memarg.align),
        None => true,
    }
}

/// Whether a number of bytes is a power of two below 65536.
fn is_power(bytes: u64) -> bool
    ensures { result ≡ spec.is_power bytes }
{
    bytes.is_power_of_two() && bytes < 65536
}
