//! What operands of instructions say of names (6.5).
ghost use Rattle.std.specs.Prelude.{[], ◌∷◌, option_map};
ghost use Rattle.wasm_encoder_base.specs.OperandSyntax as syntax;
ghost use Rattle.wast_parser.specs.Identifiers.{index_tree};
ghost use Rattle.wast_operands.specs.OperandViews.{handle_tree, handlers_tree, label_table_tree, mem_arg_tree, pair_tree, struct_access_tree, target_tree};
ghost use Rattle.wast_typed_operands.specs.TypedViews.{block_tree, cast_tree, catch_tree, indirect_tree, select_types_tree, try_table_tree};
ghost use Rattle.wast_core_instr.specs.InstructionTree as operands;
ghost use Rattle.wast_meaning.specs.Mentions as spec;
ghost use Rattle.wast_mentions.specs.Judging.{Judged};
ghost use Rattle.wast_meaning.specs.Views.{space_view};

use crate::judge::{Judge, Judgement};
use crate::mention::Mention;
use crate::tell::{Mentions, Tell, tell_each, tell_index, tell_index_if, tell_indices};
use wast_core_instr::{
    BlockType, BrTableIndices, CallIndirect, Handle, MemArg, MemArgTarget, ResumeTable,
    SelectTypes, StructAccess, TryTable, TryTableCatch, TryTableCatchKind,
};
use wast_meaning::Space;
use wast_parser::Index;
use wast_value_types::RefType;

// BLOCKS AND CALLS

impl Mentions for BlockType<'_> {
    ghost mentions = { λ b. spec.operand_mentions syntax.Block (operands.Block (block_tree b)) };
}

impl<'a, J: Judge<'a>> Tell<'a, J> for BlockType<'a> {
    fn tell(&self, judge: &J) -> Result<(), J::Fault> {
        judge.judge(Mention::UsesInBlock(&self.ty))
    }
}

impl Mentions for TryTableCatch<'_> {
    ghost mentions = { λ c. spec.catch_mentions (catch_tree c) };
}

/// The tag, where the clause is of one, then the label.
impl<'a, J: Judge<'a>> Tell<'a, J> for TryTableCatch<'a> {
    fn tell(&self, judge: &J) -> Result<(), J::Fault> {
        match &self.kind {
            TryTableCatchKind::Catch(tag) => {
                tell_two(Space::Tags, tag, Space::Labels, &self.label, judge)
            }
            TryTableCatchKind::CatchRef(tag) => {
                tell_two(Space::Tags, tag, Space::Labels, &self.label, judge)
            }
            TryTableCatchKind::CatchAll => tell_index(Space::Labels, &self.label, judge),
            TryTableCatchKind::CatchAllRef => tell_index(Space::Labels, &self.label, judge),
        }
    }
}

impl Mentions for TryTable<'_> {
    ghost mentions = { λ t. spec.operand_mentions syntax.TryTable (operands.TryTable (try_table_tree t)) };
}

/// The type of the block, then the clauses.
impl<'a, J: Judge<'a>> Tell<'a, J> for TryTable<'a> {
    fn tell(&self, judge: &J) -> Result<(), J::Fault> {
        self.block.tell(judge)?;
        tell_each(&self.catches, judge)
    }
}

impl Mentions for CallIndirect<'_> {
    ghost mentions = { λ c. spec.operand_mentions syntax.Indirect (operands.Indirect (indirect_tree c)) };
}

/// The table, where it is written, then the type of what is called.
impl<'a, J: Judge<'a>> Tell<'a, J> for CallIndirect<'a> {
    fn tell(&self, judge: &J) -> Result<(), J::Fault> {
        tell_index_if(Space::Tables, &self.table, judge)?;
        judge.judge(Mention::Uses(&self.ty))
    }
}

impl Mentions for SelectTypes<'_> {
    ghost mentions = { λ s. spec.operand_mentions syntax.Results (operands.Types (select_types_tree s)) };
}

impl<'a, J: Judge<'a>> Tell<'a, J> for SelectTypes<'a> {
    fn tell(&self, judge: &J) -> Result<(), J::Fault> {
        match &self.tys {
            Some(types) => tell_each(types, judge),
            None => Ok(()),
        }
    }
}

impl Mentions for BrTableIndices<'_> {
    ghost mentions = { λ t. spec.operand_mentions syntax.BrTable (operands.LabelTable (label_table_tree t).0 (label_table_tree t).1) };
}

/// The labels, of which the default is the last.
impl<'a, J: Judge<'a>> Tell<'a, J> for BrTableIndices<'a> {
    fn tell(&self, judge: &J) -> Result<(), J::Fault> {
        tell_indices(Space::Labels, &self.labels, judge)?;
        tell_index(Space::Labels, &self.default, judge)
    }
}

// MEMORY ARGUMENTS

impl Mentions for MemArg<'_> {
    ghost mentions = { λ m. spec.mem_arg_mentions (mem_arg_tree m) };
}

/// The memory or the array type, where it is written.
impl<'a, J: Judge<'a>> Tell<'a, J> for MemArg<'a> {
    fn tell(&self, judge: &J) -> Result<(), J::Fault> {
        match &self.target {
            Some(target) => target.tell(judge),
            None => Ok(()),
        }
    }
}

impl Mentions for MemArgTarget<'_> {
    ghost mentions = { λ t. spec.target_mention (target_tree t) ∷ [] };
}

impl<'a, J: Judge<'a>> Tell<'a, J> for MemArgTarget<'a> {
    fn tell(&self, judge: &J) -> Result<(), J::Fault> {
        match self {
            MemArgTarget::Memory(memory) => tell_index(Space::Memories, memory, judge),
            MemArgTarget::Array(ty) => tell_index(Space::Types, ty, judge),
        }
    }
}

// CONTINUATIONS

impl Mentions for Handle<'_> {
    ghost mentions = { λ h. spec.handle_mentions (handle_tree h) };
}

/// The tag, then the label to which it branches.
impl<'a, J: Judge<'a>> Tell<'a, J> for Handle<'a> {
    fn tell(&self, judge: &J) -> Result<(), J::Fault> {
        match self {
            Handle::OnLabel { tag, label } => {
                tell_two(Space::Tags, tag, Space::Labels, label, judge)
            }
            Handle::OnSwitch { tag } => tell_index(Space::Tags, tag, judge),
        }
    }
}

/// Tells of the type of a continuation that is resumed, then of the handlers.
pub(crate) fn tell_resume<'a, J: Judge<'a>>(
    ty: &Index<'a>,
    table: &ResumeTable<'a>,
    judge: &J,
) -> Result<(), J::Fault>
    ensures { Judged (J.asks judge.now) J.holds J.tells result (spec.operand_mentions syntax.Plain (operands.Resume (index_tree ty.now) (handlers_tree table.now))) }
{
    tell_index(Space::Types, ty, judge)?;
    tell_each(&table.handlers, judge)
}

/// The same, of one in which an exception of a tag is thrown.
pub(crate) fn tell_resume_throw<'a, J: Judge<'a>>(
    ty: &Index<'a>,
    tag: &Index<'a>,
    table: &ResumeTable<'a>,
    judge: &J,
) -> Result<(), J::Fault>
    ensures { Judged (J.asks judge.now) J.holds J.tells result (spec.operand_mentions syntax.Plain (operands.ResumeThrow (index_tree ty.now) (index_tree tag.now) (handlers_tree table.now))) }
{
    tell_index(Space::Types, ty, judge)?;
    tell_index(Space::Tags, tag, judge)?;
    tell_each(&table.handlers, judge)
}

// INDICES

/// Tells of two indices.
pub(crate) fn tell_two<'a, J: Judge<'a>>(
    first_space: Space,
    first: &Index<'a>,
    second_space: Space,
    second: &Index<'a>,
    judge: &J,
) -> Result<(), J::Fault>
    ensures { Judged (J.asks judge.now) J.holds J.tells result (spec.Refers (space_view first_space) (index_tree first.now) ∷ spec.Refers (space_view second_space) (index_tree second.now) ∷ []) }
{
    tell_index(first_space, first, judge)?;
    tell_index(second_space, second, judge)
}

/// Tells of a struct type, then of its field.
pub(crate) fn tell_member<'a, J: Judge<'a>>(
    access: &StructAccess<'a>,
    judge: &J,
) -> Result<(), J::Fault>
    ensures { Judged (J.asks judge.now) J.holds J.tells result (spec.Refers (space_view Space.Types) (struct_access_tree access.now).0 ∷ spec.Member (struct_access_tree access.now).0 (struct_access_tree access.now).1 ∷ []) }
{
    tell_index(Space::Types, &access.struct_type, judge)?;
    judge.judge(Mention::Member {
        owner: &access.struct_type,
        field: &access.field,
    })
}

/// Tells of two indices of one space, where they are written.
pub(crate) fn tell_copy<'a, J: Judge<'a>>(
    space: Space,
    indices: &Option<Box<(Index<'a>, Index<'a>)>>,
    judge: &J,
) -> Result<(), J::Fault>
    ensures { Judged (J.asks judge.now) J.holds J.tells result (spec.operand_mentions (syntax.Copy (space_view space)) (operands.OptionalTwo (option_map (λ p. pair_tree p.value) indices.now))) }
{
    match indices {
        Some(indices) => tell_two(space, &indices.0, space, &indices.1, judge),
        None => Ok(()),
    }
}

/// Tells of an index, where it is written, then of that of a segment.
pub(crate) fn tell_init<'a, J: Judge<'a>>(
    space: Space,
    index: &Option<Index<'a>>,
    segment_space: Space,
    segment: &Index<'a>,
    judge: &J,
) -> Result<(), J::Fault>
    ensures { Judged (J.asks judge.now) J.holds J.tells result (spec.operand_mentions (syntax.Init (space_view space) (space_view segment_space)) (operands.OptionalThen (option_map index_tree index.now) (index_tree segment.now))) }
{
    tell_index_if(space, index, judge)?;
    tell_index(segment_space, segment, judge)
}

// CASTS

/// Tells of the label of a branch on a cast, then of the types from which and to which is cast.
pub(crate) fn tell_cast<'a, J: Judge<'a>>(
    label: &Index<'a>,
    from_type: &RefType<'a>,
    to_type: &RefType<'a>,
    judge: &J,
) -> Result<(), J::Fault>
    ensures { Judged (J.asks judge.now) J.holds J.tells result (spec.operand_mentions syntax.Cast (operands.Cast (cast_tree label.now from_type.now to_type.now))) }
{
    tell_index(Space::Labels, label, judge)?;
    from_type.tell(judge)?;
    to_type.tell(judge)
}
