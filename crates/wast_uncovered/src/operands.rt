//! Operands of instructions (6.5).
ghost use Rattle.std.specs.Prelude.{◌≡◌, ◌++◌, ℕ, List, Option, option_map};
ghost use Rattle.wast_grammar.specs.Tokens.{Name};
ghost use Rattle.wast_value_types.specs.ValueTree as values;
ghost use Rattle.wast_value_types.specs.ValueViews.{ref_tree};
ghost use Rattle.wast_vector_operands.specs.VectorTree as vectors;
ghost use Rattle.wast_vector_operands.specs.VectorViews.{vector_tree};
ghost use Rattle.wast_operands.specs.OperandTree as operands;
ghost use Rattle.wast_operands.specs.OperandViews.{mem_arg_tree, mem_arg_ordering_tree, ordering_tree};
ghost use Rattle.wast_typed_operands.specs.TypedTree as typed;
ghost use Rattle.wast_typed_operands.specs.TypedViews.{block_tree, indirect_tree, select_types_tree, try_table_tree};
ghost use Rattle.wast_conversions.specs.Covered.{ref_forms, use_forms, vector_forms, access_forms, fence_forms, mem_arg_forms, select_forms};
ghost use Rattle.wast_uncovered.specs.First.{first, said};

use crate::form::{HasForms, first_in};
use wast_operands::{MemArg, MemArgOrdering, MemArgTarget, Ordering, V128Const};
use wast_typed_operands::{BlockType, CallIndirect, SelectTypes, TryTable};
use wast_value_types::RefType;

impl HasForms for BlockType<'_> {
    ghost Tree = { typed.Block Name ℕ };

    ghost tree = { block_tree };

    ghost forms = { λ b. use_forms b.type_use };

    fn first_form(&self) -> Option<&'static str> {
        self.ty.first_form()
    }
}

impl HasForms for TryTable<'_> {
    ghost Tree = { typed.TryTable Name ℕ };

    ghost tree = { try_table_tree };

    ghost forms = { λ t. use_forms t.block.type_use };

    fn first_form(&self) -> Option<&'static str> {
        self.block.first_form()
    }
}

impl HasForms for CallIndirect<'_> {
    ghost Tree = { typed.Indirect Name ℕ };

    ghost tree = { indirect_tree };

    ghost forms = { λ c. use_forms c.type_use };

    fn first_form(&self) -> Option<&'static str> {
        self.ty.first_form()
    }
}

impl HasForms for SelectTypes<'_> {
    ghost Tree = { Option (List (values.ValType Name ℕ)) };

    ghost tree = { select_types_tree };

    ghost forms = { select_forms };

    fn first_form(&self) -> Option<&'static str> {
        match &self.tys {
            Some(types) => first_in(types),
            None => None,
        }
    }
}

/// The first form in the types between which is cast.
#[tactic(auto, using(crate::proofs::First::first_joined))]
pub(crate) fn cast_form(from: &RefType<'_>, to: &RefType<'_>) -> Option<&'static str>
    ensures { said result ≡ first (ref_forms (ref_tree from.now) ++ ref_forms (ref_tree to.now)) }
{
    from.first_form().or(to.first_form())
}

impl HasForms for V128Const<'_> {
    ghost Tree = { vectors.Vector };

    ghost tree = { vector_tree };

    ghost forms = { vector_forms };

    fn first_form(&self) -> Option<&'static str> {
        match self {
            V128Const::I8x16(_) | V128Const::I16x8(_) | V128Const::I32x4(_) | V128Const::I64x2(_) =>
                None,
            V128Const::F32x4(..) | V128Const::F64x2(..) => Some("float"),
        }
    }
}

/// That it is of an array, then its ordering.
impl HasForms for MemArg<'_> {
    ghost Tree = { operands.MemArg Name ℕ };

    ghost tree = { mem_arg_tree };

    ghost forms = { mem_arg_forms };

    fn first_form(&self) -> Option<&'static str> {
        match &self.target {
            Some(target) => match &**target {
                MemArgTarget::Array(_) => Some("array"),
                MemArgTarget::Memory(_) => access_form(&self.ordering),
            },
            None => access_form(&self.ordering),
        }
    }
}

fn access_form(ordering: &Option<MemArgOrdering>) -> Option<&'static str>
    ensures { said result ≡ first (access_forms (option_map mem_arg_ordering_tree ordering.now)) }
{
    match ordering {
        Some(_) => Some("ordering"),
        None => None,
    }
}

/// The form of a fence: an ordering that isn't sequentially consistent.
pub(crate) fn fence_form(ordering: Option<Ordering>) -> Option<&'static str>
    ensures { said result ≡ first (fence_forms (option_map ordering_tree ordering)) }
{
    match ordering {
        Some(Ordering::AcqRel) => Some("ordering"),
        Some(Ordering::SeqCst) | None => None,
    }
}
