//! Instructions.
ghost use Rattle.std.specs.Prelude.{◌≡◌, ℕ, false, OnOk, IsOk};
ghost use Rattle.wast_core_instr.specs.InstructionViews.{instruction_operands, instruction_tree};
ghost use Rattle.wast_core_instr.specs.WordViews.{instruction_word};
ghost use Rattle.wast_grammar.specs.Tokens.{Name};
ghost use Rattle.wast_core_instr.specs.InstructionTree as spec;
ghost use Rattle.wast_meaning.specs.Changed.{operands_changed, instr_changed};
ghost use Rattle.wast_changed.specs.Instructions.{has_type_use};
ghost use Rattle.wast_changed.specs.Memory.{may_take};
ghost use Rattle.wast_changed.specs.Rows.{row_of};

use crate::bulk::change_bulk;
use crate::changing::Changing;
use crate::gc::change_gc;
use crate::list::{ByChange, TryEach};
use crate::operands::{change_label_table, change_mem_arg, change_memory_arg, change_table_arg};
use crate::proposal::change_proposal;
use crate::typed_operands::{
    change_block_type, change_call_indirect, change_select_types, change_try_table,
};
use crate::vector_arg::change_vector_arg;
use std::alloc::AllocError;
use wast_core_instr::Instruction;
use wast_meaning::Space;

/// An instruction (6.5). Fails only for want of memory, of which none is asked but for a block with a signature and no index of its type,
/// or an indirect call without one.
#[tactic(auto, using(crate::proofs::Trees::as_changed))]
pub fn change_instruction<'a, C: Changing<'a>>(
    change: &C,
    instruction: &mut Instruction<'a>,
) -> Result<(), AllocError>
    ensures changed { OnOk result (instruction_tree instruction.new ≡ instr_changed (C.change change.now) (instruction_tree instruction.old)) }
    ensures unasked { may_take instruction.old ≡ false → IsOk result }
{
    change_operands(change, instruction)
}

impl<'a, C: Changing<'a>> TryEach<Instruction<'a>> for ByChange<'_, C> {
    ghost Tree = { spec.Instruction Name ℕ };

    ghost tree = { instruction_tree };

    ghost turned = { λ b. instr_changed (C.change b.change.now) };

    fn try_turn(&self, item: &mut Instruction<'a>) -> Result<(), AllocError> {
        change_instruction(self.change, item)
    }
}

/// The operands of an instruction; its word stays.
fn change_operands<'a, C: Changing<'a>>(
    change: &C,
    instruction: &mut Instruction<'a>,
) -> Result<(), AllocError>
    ensures unasked { may_take instruction.old ≡ false → IsOk result }
    ensures word { OnOk result (instruction_word instruction.new ≡ instruction_word instruction.old) }
    ensures operands { OnOk result (instruction_operands instruction.new ≡ operands_changed (C.change change.now) (row_of (instruction_word instruction.old)) (instruction_operands instruction.old)) }
{
    match instruction {
        Instruction::Block(block) => change_block_type(change, block.as_mut()),
        Instruction::Loop(block) => change_block_type(change, block.as_mut()),
        Instruction::If(block) => change_block_type(change, block.as_mut()),
        Instruction::Try(block) => change_block_type(change, block.as_mut()),
        Instruction::TryTable(table) => change_try_table(change, table),
        Instruction::CallIndirect(call) => change_call_indirect(change, call.as_mut()),
        Instruction::ReturnCallIndirect(call) => change_call_indirect(change, call.as_mut()),
        _ => {
            change_plain(change, instruction);
            Ok(())
        }
    }
}

/// The same where no type use stands. A block and an indirect call stay as they are.
#[tactic(auto, using(crate::proofs::Rows::index_row, crate::proofs::Rows::optional_row))]
fn change_plain<'a, C: Changing<'a>>(change: &C, instruction: &mut Instruction<'a>)
    ensures word { instruction_word instruction.new ≡ instruction_word instruction.old }
    ensures operands { has_type_use instruction.old ≡ false → instruction_operands instruction.new ≡ operands_changed (C.change change.now) (row_of (instruction_word instruction.old)) (instruction_operands instruction.old) }
{
    match instruction {
        Instruction::Catch(index) => change.index(Space::Tags, index),
        Instruction::Throw(index) => change.index(Space::Tags, index),
        Instruction::Rethrow(index) => change.index(Space::Labels, index),
        Instruction::Br(index) => change.index(Space::Labels, index),
        Instruction::BrIf(index) => change.index(Space::Labels, index),
        Instruction::Delegate(index) => change.index(Space::Labels, index),
        Instruction::Call(index) => change.index(Space::Functions, index),
        Instruction::ReturnCall(index) => change.index(Space::Functions, index),
        Instruction::CallRef(index) => change.index(Space::Types, index),
        Instruction::ReturnCallRef(index) => change.index(Space::Types, index),
        Instruction::LocalGet(index) => change.index(Space::Locals, index),
        Instruction::LocalSet(index) => change.index(Space::Locals, index),
        Instruction::LocalTee(index) => change.index(Space::Locals, index),
        Instruction::GlobalGet(index) => change.index(Space::Globals, index),
        Instruction::GlobalSet(index) => change.index(Space::Globals, index),
        Instruction::TableGet(table) => change_table_arg(change, table),
        Instruction::TableSet(table) => change_table_arg(change, table),
        Instruction::MemorySize(memory) => change_memory_arg(change, memory),
        Instruction::MemoryGrow(memory) => change_memory_arg(change, memory),
        Instruction::Access(_, memarg) => change_mem_arg(change, memarg),
        Instruction::Atomic(_, memarg) => change_mem_arg(change, memarg),
        Instruction::AtomicRmw(_, memarg) => change_mem_arg(change, memarg),
        Instruction::Bulk(op) => change_bulk(change, op),
        Instruction::Gc(op) => change_gc(change, op),
        Instruction::VectorArg(op) => change_vector_arg(change, op),
        Instruction::BrTable(table) => change_label_table(change, table.as_mut()),
        Instruction::Select(types) => change_select_types(change, types),
        Instruction::Proposal(op) => change_proposal(change, op.as_mut()),
        Instruction::Unreachable
        | Instruction::Nop
        | Instruction::ThrowRef
        | Instruction::Return
        | Instruction::CatchAll
        | Instruction::Drop
        | Instruction::Else(_)
        | Instruction::End(_)
        | Instruction::I32Const(_)
        | Instruction::I64Const(_)
        | Instruction::F32Const(_)
        | Instruction::F64Const(_)
        | Instruction::Compare(_)
        | Instruction::Numeric(_)
        | Instruction::Convert(_)
        | Instruction::Vector(_)
        | Instruction::VectorNarrow(_)
        | Instruction::VectorWide(_)
        | Instruction::VectorFloat(_)
        | Instruction::AtomicFence(_)
        | Instruction::Block(_)
        | Instruction::Loop(_)
        | Instruction::If(_)
        | Instruction::Try(_)
        | Instruction::TryTable(_)
        | Instruction::CallIndirect(_)
        | Instruction::ReturnCallIndirect(_) => {}
    }
}
