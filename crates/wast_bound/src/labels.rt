//! Labels.
ghost use Rattle.std.specs.Prelude.{◌≡◌, ◌≤◌, ◌<◌, ◌+◌, ◌^◌, ℕ, [], ⊤, map, reverse};
ghost use Rattle.std.specs.List.{list_any};
ghost use Rattle.wast_grammar.specs.Tokens.{Name};
ghost use Rattle.wast_grammar.specs.Spelling.{same_name};
ghost use Rattle.wast_parser.specs.Identifiers.{identifier_tree};
ghost use Rattle.wast_core_instr.specs.InstructionTree as spec;
ghost use Rattle.wast_core_instr.specs.InstructionViews.{instruction_tree};
ghost use Rattle.wast_names.specs.Position.{bears};
ghost use Rattle.wast_names.specs.Space.{name_in};
ghost use Rattle.wast_meaning.specs.Scope.{labels_from, labels_seen, own_label, turn_of_head, turned};
ghost use Rattle.wast_well_formed.specs.Views.{turn_view};
ghost use Rattle.wast_bound.specs.Bound.{closed_before};
ghost use Rattle.wast_bound.specs.Places.{among};

use crate::known::Known;
use std::alloc::AllocError;
use wast_core::Instruction;
use wast_meaning::Space;
use wast_names::is_borne;
use wast_parser::{Id, Index};
use wast_well_formed::Turn;

/// What opens blocks: instructions. The code above knows no more of them, since slices of trees in a value are dear to prove.
pub(crate) trait Opens {
    /// The instruction.
    ghost tree: { Self → spec.Instruction Name ℕ };

    /// What it does to the blocks that are open.
    fn turn(&self) -> Turn
        ensures { turn_view result ≡ turn_of_head (Self.tree self.now).head };

    /// Whether it opens a block that bears a name and, where so many blocks behind it are closed, is still open.
    fn is_opened(&self, closed: u128, id: &Id<'_>) -> bool
        ensures { result ≡ list_any (bears same_name (identifier_tree id.now).0) (map name_in (turned (turn_of_head (Self.tree self.now).head) (own_label (Self.tree self.now).operands) closed (λ outside. []))) };
}

impl Opens for Instruction<'_> {
    ghost tree = { instruction_tree };

    fn turn(&self) -> Turn {
        Turn::of(self)
    }

    fn is_opened(&self, closed: u128, id: &Id<'_>) -> bool {
        if closed > 0 {
            return false;
        }
        match self {
            Instruction::Block(block) => is_borne(&block.label, id),
            Instruction::Loop(block) => is_borne(&block.label, id),
            Instruction::If(block) => is_borne(&block.label, id),
            Instruction::Try(block) => is_borne(&block.label, id),
            Instruction::TryTable(try_table) => is_borne(&try_table.block.label, id),
            Instruction::End(_) => false,
            Instruction::Delegate(_) => false,
            _ => false,
        }
    }
}

/// The place of an instruction behind others, in a function or outside all.
pub(crate) struct Among<'i, K, I> {
    pub(crate) around: K,
    pub(crate) before: &'i [I],
    pub(crate) instruction: &'i I,
}

impl<K: Copy, I> Clone for Among<'_, K, I> {
    ghost is_clone = { λ x y. y ≡ x };

    ghost is_infallible = { λ _. ⊤ };

    fn clone(&self) -> Result<Self, AllocError> {
        Ok(Among {
            around: self.around,
            before: self.before,
            instruction: self.instruction,
        })
    }
}

impl<K: Copy, I> Copy for Among<'_, K, I> {}

impl<K: Known, I: Opens> Known for Among<'_, K, I> {
    ghost scope = { λ i. among (K.scope i.around) (map I.tree i.before.now) (I.tree i.instruction.now) };

    fn has(&self, space: Space, id: &Id<'_>) -> bool {
        match space {
            Space::Labels => is_label(self.before, self.instruction, id),
            _ => self.around.has(space, id),
        }
    }

    fn has_member(&self, owner: &Index<'_>, id: &Id<'_>) -> bool {
        self.around.has_member(owner, id)
    }
}

/// Whether a block that is open at an instruction behind others bears a name: outside the one that the instruction opens or closes.
fn is_label<I: Opens>(before: &[I], instruction: &I, id: &Id<'_>) -> bool
    ensures { result ≡ list_any (bears same_name (identifier_tree id.now).0) (map name_in (labels_seen (turn_of_head (I.tree instruction.now).head) (reverse (map I.tree before.now)))) }
{
    match instruction.turn() {
        Turn::Closes => is_open(before, 1, id),
        Turn::Opens | Turn::Stays => is_open(before, 0, id),
    }
}

/// Whether a block that is open behind instructions bears a name, where the innermost so many are closed. These may come to be one more
/// than there are instructions, so they are counted in 128 bits.
fn is_open<I: Opens>(instructions: &[I], closed: u128, id: &Id<'_>) -> bool
    requires { closed ≤ 1 }
    ensures { result ≡ list_any (bears same_name (identifier_tree id.now).0) (map name_in (labels_from (reverse (map I.tree instructions.now)) closed)) }
{
    let mut closed = closed;
    let mut index = instructions.len();
    while index > 0 {
        index -= 1;
        let instruction = &instructions[index];
        if instruction.is_opened(closed, id) {
            return true;
        }
        closed = closed_before(instruction.turn(), closed);
    }
    false
}

/// From the back: how many of the blocks that are open before an instruction are closed later, where so many are of those open after it.
fn closed_before(turn: Turn, closed: u128) -> u128
    requires { closed + 1 < 2 ^ 128 }
    ensures { result ≡ closed_before (turn_view turn) closed }
{
    match turn {
        Turn::Opens => closed.saturating_sub(1),
        Turn::Closes => closed + 1,
        Turn::Stays => closed,
    }
}
