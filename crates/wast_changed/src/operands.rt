//! Operands in which no type stands.
ghost use Rattle.std.specs.Prelude.{◌≡◌, ℕ, map, option_map};
ghost use Rattle.wast_grammar.specs.Tokens.{Name};
ghost use Rattle.wasm_encoder_base.specs.Table.{Labels, Types, Tables, Memories};
ghost use Rattle.wast_parser.specs.Identifiers.{index_tree};
ghost use Rattle.wast_operands.specs.OperandTree as spec;
ghost use Rattle.wast_operands.specs.OperandViews.{table_arg_tree, memory_arg_tree, target_tree, mem_arg_tree, handle_tree, handlers_tree};
ghost use Rattle.wast_meaning.specs.Changed.{target_changed, mem_arg_changed, handle_changed};
ghost use Rattle.wast_meaning.specs.Views.{space_view};

use crate::changing::{Changing, change_optional};
use crate::list::{ByChange, Each, change_indices, turn_list};
use wast_meaning::Space;
use wast_operands::{
    BrTableIndices, Handle, MemArg, MemArgTarget, MemoryArg, ResumeTable, StructAccess, TableArg,
};
use wast_parser::Index;

/// A table that may be left out (6.5, table instructions).
pub(crate) fn change_table_arg<'a, C: Changing<'a>>(change: &C, arg: &mut TableArg<'a>)
    ensures { table_arg_tree arg.new ≡ option_map ((C.change change.now).index Tables) (table_arg_tree arg.old) }
{
    change_optional(change, Space::Tables, &mut arg.dst);
}

/// A memory that may be left out (6.5, memory instructions).
pub(crate) fn change_memory_arg<'a, C: Changing<'a>>(change: &C, arg: &mut MemoryArg<'a>)
    ensures { memory_arg_tree arg.new ≡ option_map ((C.change change.now).index Memories) (memory_arg_tree arg.old) }
{
    change_optional(change, Space::Memories, &mut arg.mem);
}

/// The labels of `br_table`, and its default (6.5, control instructions).
pub(crate) fn change_label_table<'a, C: Changing<'a>>(change: &C, table: &mut BrTableIndices<'a>)
    ensures labels { map index_tree table.new.labels.items ≡ map ((C.change change.now).index Labels) (map index_tree table.old.labels.items) }
    ensures default { index_tree table.new.default ≡ (C.change change.now).index Labels (index_tree table.old.default) }
{
    change_indices(change, Space::Labels, &mut table.labels);
    change.index(Space::Labels, &mut table.default);
}

/// A structure type and one of its fields (6.5, aggregate instructions).
pub(crate) fn change_struct_access<'a, C: Changing<'a>>(change: &C, access: &mut StructAccess<'a>)
    ensures owner { index_tree access.new.struct_type ≡ (C.change change.now).index Types (index_tree access.old.struct_type) }
    ensures field { index_tree access.new.field ≡ (C.change change.now).member (index_tree access.old.struct_type) (index_tree access.old.field) }
{
    change.member(&access.struct_type, &mut access.field);
    change.index(Space::Types, &mut access.struct_type);
}

/// A type and an index of another space, or another type (6.5, aggregate instructions).
pub(crate) fn change_type_and_index<'a, C: Changing<'a>>(
    change: &C,
    ty: &mut Index<'a>,
    space: Space,
    other: &mut Index<'a>,
)
    ensures ty { index_tree ty.new ≡ (C.change change.now).index Types (index_tree ty.old) }
    ensures other { index_tree other.new ≡ (C.change change.now).index (space_view space) (index_tree other.old) }
{
    change.index(Space::Types, ty);
    change.index(space, other);
}

/// What a memory argument is of (6.5, memory instructions).
pub(crate) fn change_target<'a, C: Changing<'a>>(change: &C, target: &mut MemArgTarget<'a>)
    ensures { target_tree target.new ≡ target_changed (C.change change.now) (target_tree target.old) }
{
    match target {
        MemArgTarget::Memory(index) => change.index(Space::Memories, index),
        MemArgTarget::Array(index) => change.index(Space::Types, index),
    }
}

/// A memory argument (6.5, memory instructions).
pub(crate) fn change_mem_arg<'a, C: Changing<'a>>(change: &C, memarg: &mut MemArg<'a>)
    ensures { mem_arg_tree memarg.new ≡ mem_arg_changed (C.change change.now) (mem_arg_tree memarg.old) }
{
    if let Some(target) = &mut memarg.target {
        change_target(change, target.as_mut());
    }
}

/// A handler of a continuation that is resumed.
pub(crate) fn change_handle<'a, C: Changing<'a>>(change: &C, handle: &mut Handle<'a>)
    ensures { handle_tree handle.new ≡ handle_changed (C.change change.now) (handle_tree handle.old) }
{
    if let Handle::OnLabel { label, .. } = handle {
        change.index(Space::Labels, label);
    }
    match handle {
        Handle::OnLabel { tag, .. } => change.index(Space::Tags, tag),
        Handle::OnSwitch { tag } => change.index(Space::Tags, tag),
    }
}

/// Handlers.
pub(crate) fn change_handlers<'a, C: Changing<'a>>(change: &C, table: &mut ResumeTable<'a>)
    ensures { handlers_tree table.new ≡ map (handle_changed (C.change change.now)) (handlers_tree table.old) }
{
    turn_list(&ByChange { change }, &mut table.handlers);
}

impl<'a, C: Changing<'a>> Each<Handle<'a>> for ByChange<'_, C> {
    ghost Tree = { spec.Handle Name ℕ };

    ghost tree = { handle_tree };

    ghost turned = { λ b. handle_changed (C.change b.change.now) };

    fn turn(&self, item: &mut Handle<'a>) {
        change_handle(self.change, item);
    }
}
