//! Instructions (6.5).
ghost use Rattle.std.specs.Prelude.{◌≡◌, ℕ, option_map};
ghost use Rattle.wast_grammar.specs.Tokens.{Name};
ghost use Rattle.wast_core_instr.specs.InstructionTree as spec;
ghost use Rattle.wast_core_instr.specs.InstructionViews.{instruction_tree};
ghost use Rattle.wast_core_instr.specs.declared.instruction.Instruction.TheVariants as instructions;
ghost use Rattle.wast_conversions.specs.Covered.{instr_forms};
ghost use Rattle.wast_uncovered.specs.First.{said};
ghost use Rattle.wast_uncovered.specs.Told.{told};

use crate::form::HasForms;
use crate::mnemonics::{access_mnemonic, atomic_mnemonic, atomic_rmw_mnemonic, proposal_mnemonic};
use crate::operands::{cast_form, fence_form};
use wast_core_instr::{GcOp, Instruction, VectorArgOp};

/// An instruction: its mnemonic, where its operands have a form or it is of a proposal.
impl HasForms for Instruction<'_> {
    ghost Tree = { spec.Instruction Name ℕ };

    ghost tree = { instruction_tree };

    ghost forms = { instr_forms };

    fn first_form(&self) -> Option<&'static str> {
        instruction_form(self)
    }
}

fn instruction_form(instruction: &Instruction<'_>) -> Option<&'static str>
    ensures { said result ≡ told instruction.now }
{
    match instruction {
        Instruction::Block(block) => named(block.first_form(), "block"),
        Instruction::Loop(block) => named(block.first_form(), "loop"),
        Instruction::If(block) => named(block.first_form(), "if"),
        Instruction::Try(block) => named(block.first_form(), "try"),
        Instruction::TryTable(block) => named(block.first_form(), "try_table"),
        Instruction::CallIndirect(call) => named(call.first_form(), "call_indirect"),
        Instruction::ReturnCallIndirect(call) => named(call.first_form(), "return_call_indirect"),
        Instruction::Select(types) => named(types.first_form(), "select"),
        Instruction::F32Const(_) => Some("f32.const"),
        Instruction::F64Const(_) => Some("f64.const"),
        Instruction::Access(op, memarg) => named(memarg.first_form(), access_mnemonic(*op)),
        Instruction::Atomic(op, memarg) => named(memarg.first_form(), atomic_mnemonic(*op)),
        Instruction::AtomicRmw(op, memarg) => named(memarg.first_form(), atomic_rmw_mnemonic(*op)),
        Instruction::AtomicFence(ordering) => named(fence_form(*ordering), "atomic.fence"),
        Instruction::Gc(op) => gc_form(op),
        Instruction::VectorArg(op) => vector_arg_form(op),
        Instruction::Proposal(op) => Some(proposal_mnemonic(op)),
        Instruction::Unreachable
        | Instruction::Nop
        | Instruction::Else(_)
        | Instruction::Catch(_)
        | Instruction::Throw(_)
        | Instruction::Rethrow(_)
        | Instruction::ThrowRef
        | Instruction::End(_)
        | Instruction::Br(_)
        | Instruction::BrIf(_)
        | Instruction::BrTable(_)
        | Instruction::Return
        | Instruction::Call(_)
        | Instruction::ReturnCall(_)
        | Instruction::CallRef(_)
        | Instruction::ReturnCallRef(_)
        | Instruction::Delegate(_)
        | Instruction::CatchAll
        | Instruction::Drop
        | Instruction::LocalGet(_)
        | Instruction::LocalSet(_)
        | Instruction::LocalTee(_)
        | Instruction::GlobalGet(_)
        | Instruction::GlobalSet(_)
        | Instruction::TableGet(_)
        | Instruction::TableSet(_)
        | Instruction::MemorySize(_)
        | Instruction::MemoryGrow(_)
        | Instruction::I32Const(_)
        | Instruction::I64Const(_)
        | Instruction::Compare(_)
        | Instruction::Numeric(_)
        | Instruction::Convert(_)
        | Instruction::Vector(_)
        | Instruction::VectorNarrow(_)
        | Instruction::VectorWide(_)
        | Instruction::VectorFloat(_)
        | Instruction::Bulk(_) => None,
    }
}

/// The mnemonic, where there is a form.
fn named(form: Option<&'static str>, mnemonic: &'static str) -> Option<&'static str>
    ensures { said result ≡ option_map (λ _. mnemonic.now) (said form.entry) }
{
    form.and(Some(mnemonic))
}

fn gc_form(op: &GcOp<'_>) -> Option<&'static str>
    ensures { said result ≡ told (instructions.Gc op.now) }
{
    match op {
        GcOp::RefNull(heap) => named(heap.first_form(), "ref.null"),
        GcOp::RefTest(test) => named(test.ty.first_form(), "ref.test"),
        GcOp::RefCast(cast) => named(cast.ty.first_form(), "ref.cast"),
        GcOp::BrOnCast(cast) => named(cast_form(&cast.from_type, &cast.to_type), "br_on_cast"),
        GcOp::BrOnCastFail(cast) => {
            named(cast_form(&cast.from_type, &cast.to_type), "br_on_cast_fail")
        }
        GcOp::RefIsNull
        | GcOp::RefEq
        | GcOp::RefAsNonNull
        | GcOp::ArrayLen
        | GcOp::AnyConvertExtern
        | GcOp::ExternConvertAny
        | GcOp::RefI31
        | GcOp::I31GetS
        | GcOp::I31GetU
        | GcOp::RefFunc(_)
        | GcOp::BrOnNull(_)
        | GcOp::BrOnNonNull(_)
        | GcOp::StructNew(_)
        | GcOp::StructNewDefault(_)
        | GcOp::ArrayNew(_)
        | GcOp::ArrayNewDefault(_)
        | GcOp::ArrayGet(_)
        | GcOp::ArrayGetS(_)
        | GcOp::ArrayGetU(_)
        | GcOp::ArraySet(_)
        | GcOp::ArrayFill(_)
        | GcOp::StructGet(_)
        | GcOp::StructGetS(_)
        | GcOp::StructGetU(_)
        | GcOp::StructSet(_)
        | GcOp::ArrayNewData(_)
        | GcOp::ArrayNewElem(_)
        | GcOp::ArrayCopy(_)
        | GcOp::ArrayInitData(_)
        | GcOp::ArrayInitElem(_)
        | GcOp::ArrayNewFixed(_) => None,
    }
}

fn vector_arg_form(op: &VectorArgOp<'_>) -> Option<&'static str>
    ensures { said result ≡ told (instructions.VectorArg op.now) }
{
    match op {
        VectorArgOp::V128Const(value) => named(value.first_form(), "v128.const"),
        VectorArgOp::V128Load(memarg) => named(memarg.first_form(), "v128.load"),
        VectorArgOp::V128Load8x8S(memarg) => named(memarg.first_form(), "v128.load8x8_s"),
        VectorArgOp::V128Load8x8U(memarg) => named(memarg.first_form(), "v128.load8x8_u"),
        VectorArgOp::V128Load16x4S(memarg) => named(memarg.first_form(), "v128.load16x4_s"),
        VectorArgOp::V128Load16x4U(memarg) => named(memarg.first_form(), "v128.load16x4_u"),
        VectorArgOp::V128Load32x2S(memarg) => named(memarg.first_form(), "v128.load32x2_s"),
        VectorArgOp::V128Load32x2U(memarg) => named(memarg.first_form(), "v128.load32x2_u"),
        VectorArgOp::V128Load8Splat(memarg) => named(memarg.first_form(), "v128.load8_splat"),
        VectorArgOp::V128Load16Splat(memarg) => named(memarg.first_form(), "v128.load16_splat"),
        VectorArgOp::V128Load32Splat(memarg) => named(memarg.first_form(), "v128.load32_splat"),
        VectorArgOp::V128Load64Splat(memarg) => named(memarg.first_form(), "v128.load64_splat"),
        VectorArgOp::V128Store(memarg) => named(memarg.first_form(), "v128.store"),
        VectorArgOp::V128Load32Zero(memarg) => named(memarg.first_form(), "v128.load32_zero"),
        VectorArgOp::V128Load64Zero(memarg) => named(memarg.first_form(), "v128.load64_zero"),
        VectorArgOp::V128Load8Lane(access) => named(access.memarg.first_form(), "v128.load8_lane"),
        VectorArgOp::V128Load16Lane(access) => named(
            access.memarg.first_form(),
            "v128.load16_lane",
        ),
        VectorArgOp::V128Load32Lane(access) => named(
            access.memarg.first_form(),
            "v128.load32_lane",
        ),
        VectorArgOp::V128Load64Lane(access) => named(
            access.memarg.first_form(),
            "v128.load64_lane",
        ),
        VectorArgOp::V128Store8Lane(access) => named(
            access.memarg.first_form(),
            "v128.store8_lane",
        ),
        VectorArgOp::V128Store16Lane(access) => named(
            access.memarg.first_form(),
            "v128.store16_lane",
        ),
        VectorArgOp::V128Store32Lane(access) => named(
            access.memarg.first_form(),
            "v128.store32_lane",
        ),
        VectorArgOp::V128Store64Lane(access) => named(
            access.memarg.first_form(),
            "v128.store64_lane",
        ),
        VectorArgOp::I8x16ExtractLaneS(_)
        | VectorArgOp::I8x16ExtractLaneU(_)
        | VectorArgOp::I8x16ReplaceLane(_)
        | VectorArgOp::I16x8ExtractLaneS(_)
        | VectorArgOp::I16x8ExtractLaneU(_)
        | VectorArgOp::I16x8ReplaceLane(_)
        | VectorArgOp::I32x4ExtractLane(_)
        | VectorArgOp::I32x4ReplaceLane(_)
        | VectorArgOp::I64x2ExtractLane(_)
        | VectorArgOp::I64x2ReplaceLane(_)
        | VectorArgOp::F32x4ExtractLane(_)
        | VectorArgOp::F32x4ReplaceLane(_)
        | VectorArgOp::F64x2ExtractLane(_)
        | VectorArgOp::F64x2ReplaceLane(_)
        | VectorArgOp::I8x16Shuffle(_) => None,
    }
}
