//! The memory arguments of instructions.
ghost use Rattle.std.specs.Prelude.{◌≡◌, option_map};
ghost use Rattle.wast_operands.specs.OperandViews.{mem_arg_tree};
ghost use Rattle.wast_core_instr.specs.InstructionTree.{mem_arg_in, with_mem_arg};
ghost use Rattle.wast_core_instr.specs.InstructionViews.{vector_arg_operands, instruction_operands};
ghost use Rattle.wast_core_instr.specs.WordViews.{vector_arg_word, instruction_word};

use crate::instruction::Instruction;
use crate::vector_arg::VectorArgOp;
use wast_operands::{LoadOrStoreLane, MemArg};

impl<'a> Instruction<'a> {
    /// The memory argument of a load, a store or an atomic access (6.5, memory instructions), also where a lane stands behind it. Other
    /// instructions have none.
    pub fn memarg(&self) -> Option<&MemArg<'a>>
        ensures { option_map (λ m. mem_arg_tree m.now) result ≡ mem_arg_in (instruction_operands self.now) }
    {
        match self {
            Instruction::Access(_, memarg) => Some(memarg),
            Instruction::Atomic(_, memarg) => Some(memarg),
            Instruction::AtomicRmw(_, memarg) => Some(memarg),
            Instruction::VectorArg(op) => vector_memarg(op),
            _ => None,
        }
    }

    /// The same instruction with another memory argument; one that has none is as it was.
    pub fn with_memarg(self, memarg: MemArg<'a>) -> Instruction<'a>
        ensures word { instruction_word result ≡ instruction_word self.entry }
        ensures operands { instruction_operands result ≡ with_mem_arg (mem_arg_tree memarg.entry) (instruction_operands self.entry) }
    {
        match self {
            Instruction::Access(op, _) => Instruction::Access(op, memarg),
            Instruction::Atomic(op, _) => Instruction::Atomic(op, memarg),
            Instruction::AtomicRmw(op, _) => Instruction::AtomicRmw(op, memarg),
            Instruction::VectorArg(op) => Instruction::VectorArg(vector_with_memarg(op, memarg)),
            other => other,
        }
    }
}

/// The same of a vector instruction.
fn vector_memarg<'t, 'a>(op: &'t VectorArgOp<'a>) -> Option<&'t MemArg<'a>>
    ensures { option_map (λ m. mem_arg_tree m.now) result ≡ mem_arg_in (vector_arg_operands op.now) }
{
    match op {
        VectorArgOp::V128Load(memarg)
        | VectorArgOp::V128Load8x8S(memarg)
        | VectorArgOp::V128Load8x8U(memarg)
        | VectorArgOp::V128Load16x4S(memarg)
        | VectorArgOp::V128Load16x4U(memarg)
        | VectorArgOp::V128Load32x2S(memarg)
        | VectorArgOp::V128Load32x2U(memarg)
        | VectorArgOp::V128Load8Splat(memarg)
        | VectorArgOp::V128Load16Splat(memarg)
        | VectorArgOp::V128Load32Splat(memarg)
        | VectorArgOp::V128Load64Splat(memarg)
        | VectorArgOp::V128Store(memarg)
        | VectorArgOp::V128Load32Zero(memarg)
        | VectorArgOp::V128Load64Zero(memarg) => Some(memarg),
        VectorArgOp::V128Load8Lane(access)
        | VectorArgOp::V128Load16Lane(access)
        | VectorArgOp::V128Load32Lane(access)
        | VectorArgOp::V128Load64Lane(access)
        | VectorArgOp::V128Store8Lane(access)
        | VectorArgOp::V128Store16Lane(access)
        | VectorArgOp::V128Store32Lane(access)
        | VectorArgOp::V128Store64Lane(access) => Some(&access.memarg),
        VectorArgOp::V128Const(_)
        | VectorArgOp::I8x16ExtractLaneS(_)
        | VectorArgOp::I8x16ExtractLaneU(_)
        | VectorArgOp::I8x16ReplaceLane(_)
        | VectorArgOp::I16x8ExtractLaneS(_)
        | VectorArgOp::I16x8ExtractLaneU(_)
        | VectorArgOp::I16x8ReplaceLane(_)
        | VectorArgOp::I32x4ExtractLane(_)
        | VectorArgOp::I32x4ReplaceLane(_)
        | VectorArgOp::I64x2ExtractLane(_)
        | VectorArgOp::I64x2ReplaceLane(_)
        | VectorArgOp::F32x4ExtractLane(_)
        | VectorArgOp::F32x4ReplaceLane(_)
        | VectorArgOp::F64x2ExtractLane(_)
        | VectorArgOp::F64x2ReplaceLane(_)
        | VectorArgOp::I8x16Shuffle(_) => None,
    }
}

fn vector_with_memarg<'a>(op: VectorArgOp<'a>, memarg: MemArg<'a>) -> VectorArgOp<'a>
    ensures word { vector_arg_word result ≡ vector_arg_word op.entry }
    ensures operands { vector_arg_operands result ≡ with_mem_arg (mem_arg_tree memarg.entry) (vector_arg_operands op.entry) }
{
    match op {
        VectorArgOp::V128Load(_) => VectorArgOp::V128Load(memarg),
        VectorArgOp::V128Load8x8S(_) => VectorArgOp::V128Load8x8S(memarg),
        VectorArgOp::V128Load8x8U(_) => VectorArgOp::V128Load8x8U(memarg),
        VectorArgOp::V128Load16x4S(_) => VectorArgOp::V128Load16x4S(memarg),
        VectorArgOp::V128Load16x4U(_) => VectorArgOp::V128Load16x4U(memarg),
        VectorArgOp::V128Load32x2S(_) => VectorArgOp::V128Load32x2S(memarg),
        VectorArgOp::V128Load32x2U(_) => VectorArgOp::V128Load32x2U(memarg),
        VectorArgOp::V128Load8Splat(_) => VectorArgOp::V128Load8Splat(memarg),
        VectorArgOp::V128Load16Splat(_) => VectorArgOp::V128Load16Splat(memarg),
        VectorArgOp::V128Load32Splat(_) => VectorArgOp::V128Load32Splat(memarg),
        VectorArgOp::V128Load64Splat(_) => VectorArgOp::V128Load64Splat(memarg),
        VectorArgOp::V128Store(_) => VectorArgOp::V128Store(memarg),
        VectorArgOp::V128Load32Zero(_) => VectorArgOp::V128Load32Zero(memarg),
        VectorArgOp::V128Load64Zero(_) => VectorArgOp::V128Load64Zero(memarg),
        VectorArgOp::V128Load8Lane(access) => VectorArgOp::V128Load8Lane(moved(access, memarg)),
        VectorArgOp::V128Load16Lane(access) => VectorArgOp::V128Load16Lane(moved(access, memarg)),
        VectorArgOp::V128Load32Lane(access) => VectorArgOp::V128Load32Lane(moved(access, memarg)),
        VectorArgOp::V128Load64Lane(access) => VectorArgOp::V128Load64Lane(moved(access, memarg)),
        VectorArgOp::V128Store8Lane(access) => VectorArgOp::V128Store8Lane(moved(access, memarg)),
        VectorArgOp::V128Store16Lane(access) => VectorArgOp::V128Store16Lane(moved(access, memarg)),
        VectorArgOp::V128Store32Lane(access) => VectorArgOp::V128Store32Lane(moved(access, memarg)),
        VectorArgOp::V128Store64Lane(access) => VectorArgOp::V128Store64Lane(moved(access, memarg)),
        VectorArgOp::V128Const(value) => VectorArgOp::V128Const(value),
        VectorArgOp::I8x16ExtractLaneS(lane) => VectorArgOp::I8x16ExtractLaneS(lane),
        VectorArgOp::I8x16ExtractLaneU(lane) => VectorArgOp::I8x16ExtractLaneU(lane),
        VectorArgOp::I8x16ReplaceLane(lane) => VectorArgOp::I8x16ReplaceLane(lane),
        VectorArgOp::I16x8ExtractLaneS(lane) => VectorArgOp::I16x8ExtractLaneS(lane),
        VectorArgOp::I16x8ExtractLaneU(lane) => VectorArgOp::I16x8ExtractLaneU(lane),
        VectorArgOp::I16x8ReplaceLane(lane) => VectorArgOp::I16x8ReplaceLane(lane),
        VectorArgOp::I32x4ExtractLane(lane) => VectorArgOp::I32x4ExtractLane(lane),
        VectorArgOp::I32x4ReplaceLane(lane) => VectorArgOp::I32x4ReplaceLane(lane),
        VectorArgOp::I64x2ExtractLane(lane) => VectorArgOp::I64x2ExtractLane(lane),
        VectorArgOp::I64x2ReplaceLane(lane) => VectorArgOp::I64x2ReplaceLane(lane),
        VectorArgOp::F32x4ExtractLane(lane) => VectorArgOp::F32x4ExtractLane(lane),
        VectorArgOp::F32x4ReplaceLane(lane) => VectorArgOp::F32x4ReplaceLane(lane),
        VectorArgOp::F64x2ExtractLane(lane) => VectorArgOp::F64x2ExtractLane(lane),
        VectorArgOp::F64x2ReplaceLane(lane) => VectorArgOp::F64x2ReplaceLane(lane),
        VectorArgOp::I8x16Shuffle(lanes) => VectorArgOp::I8x16Shuffle(lanes),
    }
}

/// The same lane, with another memory argument.
fn moved<'a>(access: LoadOrStoreLane<'a>, memarg: MemArg<'a>) -> LoadOrStoreLane<'a>
    ensures { result ≡ record access.entry { memarg = memarg.entry } }
{
    LoadOrStoreLane {
        memarg,
        lane: access.lane,
    }
}
