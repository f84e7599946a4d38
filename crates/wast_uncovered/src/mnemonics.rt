//! The mnemonics of families of instructions (6.5).
ghost use Rattle.std.specs.Prelude.{◌≡◌};
ghost use Rattle.wasm_encoder_opcodes.specs.Access.{access_mnemonic};
ghost use Rattle.wasm_encoder_opcodes.specs.Atomic.{atomic_mnemonic};
ghost use Rattle.wasm_encoder_opcodes.specs.AtomicRmw.{atomic_rmw_mnemonic};
ghost use Rattle.wast_mnemonics.specs.Mnemonics.{word_mnemonic};
ghost use Rattle.wast_core_instr.specs.WordViews.{proposal_word};

use wasm_encoder_opcodes::{AccessOp, AtomicOp, AtomicRmwOp};
use wast_core_instr::ProposalOp;

/// The mnemonic of a load or a store of numbers.
pub(crate) fn access_mnemonic(op: AccessOp) -> &'static str
    ensures { result.now ≡ access_mnemonic op }
{
    match op {
        AccessOp::I32Load => "i32.load",
        AccessOp::I64Load => "i64.load",
        AccessOp::F32Load => "f32.load",
        AccessOp::F64Load => "f64.load",
        AccessOp::I32Load8S => "i32.load8_s",
        AccessOp::I32Load8U => "i32.load8_u",
        AccessOp::I32Load16S => "i32.load16_s",
        AccessOp::I32Load16U => "i32.load16_u",
        AccessOp::I64Load8S => "i64.load8_s",
        AccessOp::I64Load8U => "i64.load8_u",
        AccessOp::I64Load16S => "i64.load16_s",
        AccessOp::I64Load16U => "i64.load16_u",
        AccessOp::I64Load32S => "i64.load32_s",
        AccessOp::I64Load32U => "i64.load32_u",
        AccessOp::I32Store => "i32.store",
        AccessOp::I64Store => "i64.store",
        AccessOp::F32Store => "f32.store",
        AccessOp::F64Store => "f64.store",
        AccessOp::I32Store8 => "i32.store8",
        AccessOp::I32Store16 => "i32.store16",
        AccessOp::I64Store8 => "i64.store8",
        AccessOp::I64Store16 => "i64.store16",
        AccessOp::I64Store32 => "i64.store32",
    }
}

/// The mnemonic of an atomic wait, load or store.
pub(crate) fn atomic_mnemonic(op: AtomicOp) -> &'static str
    ensures { result.now ≡ atomic_mnemonic op }
{
    match op {
        AtomicOp::MemoryAtomicNotify => "memory.atomic.notify",
        AtomicOp::MemoryAtomicWait32 => "memory.atomic.wait32",
        AtomicOp::MemoryAtomicWait64 => "memory.atomic.wait64",
        AtomicOp::I32AtomicLoad => "i32.atomic.load",
        AtomicOp::I64AtomicLoad => "i64.atomic.load",
        AtomicOp::I32AtomicLoad8U => "i32.atomic.load8_u",
        AtomicOp::I32AtomicLoad16U => "i32.atomic.load16_u",
        AtomicOp::I64AtomicLoad8U => "i64.atomic.load8_u",
        AtomicOp::I64AtomicLoad16U => "i64.atomic.load16_u",
        AtomicOp::I64AtomicLoad32U => "i64.atomic.load32_u",
        AtomicOp::I32AtomicStore => "i32.atomic.store",
        AtomicOp::I64AtomicStore => "i64.atomic.store",
        AtomicOp::I32AtomicStore8 => "i32.atomic.store8",
        AtomicOp::I32AtomicStore16 => "i32.atomic.store16",
        AtomicOp::I64AtomicStore8 => "i64.atomic.store8",
        AtomicOp::I64AtomicStore16 => "i64.atomic.store16",
        AtomicOp::I64AtomicStore32 => "i64.atomic.store32",
    }
}

/// The mnemonic of an atomic instruction that reads, changes and writes.
pub(crate) fn atomic_rmw_mnemonic(op: AtomicRmwOp) -> &'static str
    ensures { result.now ≡ atomic_rmw_mnemonic op }
{
    match op {
        AtomicRmwOp::I32AtomicRmwAdd => "i32.atomic.rmw.add",
        AtomicRmwOp::I64AtomicRmwAdd => "i64.atomic.rmw.add",
        AtomicRmwOp::I32AtomicRmw8AddU => "i32.atomic.rmw8.add_u",
        AtomicRmwOp::I32AtomicRmw16AddU => "i32.atomic.rmw16.add_u",
        AtomicRmwOp::I64AtomicRmw8AddU => "i64.atomic.rmw8.add_u",
        AtomicRmwOp::I64AtomicRmw16AddU => "i64.atomic.rmw16.add_u",
        AtomicRmwOp::I64AtomicRmw32AddU => "i64.atomic.rmw32.add_u",
        AtomicRmwOp::I32AtomicRmwSub => "i32.atomic.rmw.sub",
        AtomicRmwOp::I64AtomicRmwSub => "i64.atomic.rmw.sub",
        AtomicRmwOp::I32AtomicRmw8SubU => "i32.atomic.rmw8.sub_u",
        AtomicRmwOp::I32AtomicRmw16SubU => "i32.atomic.rmw16.sub_u",
        AtomicRmwOp::I64AtomicRmw8SubU => "i64.atomic.rmw8.sub_u",
        AtomicRmwOp::I64AtomicRmw16SubU => "i64.atomic.rmw16.sub_u",
        AtomicRmwOp::I64AtomicRmw32SubU => "i64.atomic.rmw32.sub_u",
        AtomicRmwOp::I32AtomicRmwAnd => "i32.atomic.rmw.and",
        AtomicRmwOp::I64AtomicRmwAnd => "i64.atomic.rmw.and",
        AtomicRmwOp::I32AtomicRmw8AndU => "i32.atomic.rmw8.and_u",
        AtomicRmwOp::I32AtomicRmw16AndU => "i32.atomic.rmw16.and_u",
        AtomicRmwOp::I64AtomicRmw8AndU => "i64.atomic.rmw8.and_u",
        AtomicRmwOp::I64AtomicRmw16AndU => "i64.atomic.rmw16.and_u",
        AtomicRmwOp::I64AtomicRmw32AndU => "i64.atomic.rmw32.and_u",
        AtomicRmwOp::I32AtomicRmwOr => "i32.atomic.rmw.or",
        AtomicRmwOp::I64AtomicRmwOr => "i64.atomic.rmw.or",
        AtomicRmwOp::I32AtomicRmw8OrU => "i32.atomic.rmw8.or_u",
        AtomicRmwOp::I32AtomicRmw16OrU => "i32.atomic.rmw16.or_u",
        AtomicRmwOp::I64AtomicRmw8OrU => "i64.atomic.rmw8.or_u",
        AtomicRmwOp::I64AtomicRmw16OrU => "i64.atomic.rmw16.or_u",
        AtomicRmwOp::I64AtomicRmw32OrU => "i64.atomic.rmw32.or_u",
        AtomicRmwOp::I32AtomicRmwXor => "i32.atomic.rmw.xor",
        AtomicRmwOp::I64AtomicRmwXor => "i64.atomic.rmw.xor",
        AtomicRmwOp::I32AtomicRmw8XorU => "i32.atomic.rmw8.xor_u",
        AtomicRmwOp::I32AtomicRmw16XorU => "i32.atomic.rmw16.xor_u",
        AtomicRmwOp::I64AtomicRmw8XorU => "i64.atomic.rmw8.xor_u",
        AtomicRmwOp::I64AtomicRmw16XorU => "i64.atomic.rmw16.xor_u",
        AtomicRmwOp::I64AtomicRmw32XorU => "i64.atomic.rmw32.xor_u",
        AtomicRmwOp::I32AtomicRmwXchg => "i32.atomic.rmw.xchg",
        AtomicRmwOp::I64AtomicRmwXchg => "i64.atomic.rmw.xchg",
        AtomicRmwOp::I32AtomicRmw8XchgU => "i32.atomic.rmw8.xchg_u",
        AtomicRmwOp::I32AtomicRmw16XchgU => "i32.atomic.rmw16.xchg_u",
        AtomicRmwOp::I64AtomicRmw8XchgU => "i64.atomic.rmw8.xchg_u",
        AtomicRmwOp::I64AtomicRmw16XchgU => "i64.atomic.rmw16.xchg_u",
        AtomicRmwOp::I64AtomicRmw32XchgU => "i64.atomic.rmw32.xchg_u",
        AtomicRmwOp::I32AtomicRmwCmpxchg => "i32.atomic.rmw.cmpxchg",
        AtomicRmwOp::I64AtomicRmwCmpxchg => "i64.atomic.rmw.cmpxchg",
        AtomicRmwOp::I32AtomicRmw8CmpxchgU => "i32.atomic.rmw8.cmpxchg_u",
        AtomicRmwOp::I32AtomicRmw16CmpxchgU => "i32.atomic.rmw16.cmpxchg_u",
        AtomicRmwOp::I64AtomicRmw8CmpxchgU => "i64.atomic.rmw8.cmpxchg_u",
        AtomicRmwOp::I64AtomicRmw16CmpxchgU => "i64.atomic.rmw16.cmpxchg_u",
        AtomicRmwOp::I64AtomicRmw32CmpxchgU => "i64.atomic.rmw32.cmpxchg_u",
    }
}

/// The mnemonic of an instruction of a proposal.
pub(crate) fn proposal_mnemonic(op: &ProposalOp<'_>) -> &'static str
    ensures { result.now ≡ word_mnemonic (proposal_word op.now) }
{
    match op {
        ProposalOp::Pause => "pause",
        ProposalOp::RefI31Shared => "ref.i31_shared",
        ProposalOp::ContNew(_) => "cont.new",
        ProposalOp::Suspend(_) => "suspend",
        ProposalOp::StructNewDesc(_) => "struct.new_desc",
        ProposalOp::StructNewDefaultDesc(_) => "struct.new_default_desc",
        ProposalOp::RefGetDesc(_) => "ref.get_desc",
        ProposalOp::ContBind(_) => "cont.bind",
        ProposalOp::Switch(_) => "switch",
        ProposalOp::MemoryDiscard(_) => "memory.discard",
        ProposalOp::RefCastDescEq(_) => "ref.cast_desc_eq",
        ProposalOp::BrOnCastDescEq(_) => "br_on_cast_desc_eq",
        ProposalOp::BrOnCastDescEqFail(_) => "br_on_cast_desc_eq_fail",
        ProposalOp::Resume(_) => "resume",
        ProposalOp::ResumeThrowRef(_) => "resume_throw_ref",
        ProposalOp::ResumeThrow(_) => "resume_throw",
        ProposalOp::GlobalAtomicGet(_) => "global.atomic.get",
        ProposalOp::GlobalAtomicSet(_) => "global.atomic.set",
        ProposalOp::GlobalAtomicRmwAdd(_) => "global.atomic.rmw.add",
        ProposalOp::GlobalAtomicRmwSub(_) => "global.atomic.rmw.sub",
        ProposalOp::GlobalAtomicRmwAnd(_) => "global.atomic.rmw.and",
        ProposalOp::GlobalAtomicRmwOr(_) => "global.atomic.rmw.or",
        ProposalOp::GlobalAtomicRmwXor(_) => "global.atomic.rmw.xor",
        ProposalOp::GlobalAtomicRmwXchg(_) => "global.atomic.rmw.xchg",
        ProposalOp::GlobalAtomicRmwCmpxchg(_) => "global.atomic.rmw.cmpxchg",
        ProposalOp::ArrayAtomicGet(_) => "array.atomic.get",
        ProposalOp::ArrayAtomicGetS(_) => "array.atomic.get_s",
        ProposalOp::ArrayAtomicGetU(_) => "array.atomic.get_u",
        ProposalOp::ArrayAtomicSet(_) => "array.atomic.set",
        ProposalOp::ArrayAtomicRmwAdd(_) => "array.atomic.rmw.add",
        ProposalOp::ArrayAtomicRmwSub(_) => "array.atomic.rmw.sub",
        ProposalOp::ArrayAtomicRmwAnd(_) => "array.atomic.rmw.and",
        ProposalOp::ArrayAtomicRmwOr(_) => "array.atomic.rmw.or",
        ProposalOp::ArrayAtomicRmwXor(_) => "array.atomic.rmw.xor",
        ProposalOp::ArrayAtomicRmwXchg(_) => "array.atomic.rmw.xchg",
        ProposalOp::ArrayAtomicRmwCmpxchg(_) => "array.atomic.rmw.cmpxchg",
        ProposalOp::TableAtomicGet(_) => "table.atomic.get",
        ProposalOp::TableAtomicSet(_) => "table.atomic.set",
        ProposalOp::TableAtomicRmwXchg(_) => "table.atomic.rmw.xchg",
        ProposalOp::TableAtomicRmwCmpxchg(_) => "table.atomic.rmw.cmpxchg",
        ProposalOp::StructAtomicGet(_) => "struct.atomic.get",
        ProposalOp::StructAtomicGetS(_) => "struct.atomic.get_s",
        ProposalOp::StructAtomicGetU(_) => "struct.atomic.get_u",
        ProposalOp::StructAtomicSet(_) => "struct.atomic.set",
        ProposalOp::StructAtomicRmwAdd(_) => "struct.atomic.rmw.add",
        ProposalOp::StructAtomicRmwSub(_) => "struct.atomic.rmw.sub",
        ProposalOp::StructAtomicRmwAnd(_) => "struct.atomic.rmw.and",
        ProposalOp::StructAtomicRmwOr(_) => "struct.atomic.rmw.or",
        ProposalOp::StructAtomicRmwXor(_) => "struct.atomic.rmw.xor",
        ProposalOp::StructAtomicRmwXchg(_) => "struct.atomic.rmw.xchg",
        ProposalOp::StructAtomicRmwCmpxchg(_) => "struct.atomic.rmw.cmpxchg",
    }
}
