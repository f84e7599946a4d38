//! Expressions and functions.
ghost use Rattle.std.specs.Prelude.{◌≡◌, ◌&&◌, ◌<◌, [], length, map, slice_index_or, take};
ghost use Rattle.std.specs.List.{flat_map};
ghost use Rattle.wast_grammar.specs.Spelling.{same_name};
ghost use Rattle.wast_value_types.specs.ValueViews.{val_tree};
ghost use Rattle.wast_signatures.specs.SignatureViews.{use_tree};
ghost use Rattle.wast_core_instr.specs.ExpressionViews.{expression_tree};
ghost use Rattle.wast_core_instr.specs.InstructionViews.{instruction_tree};
ghost use Rattle.wast_fields.specs.FuncViews.{function_tree, local_tree};
ghost use Rattle.wast_meaning.specs.Demands.{func_demands, instrs_demands, mention_demands, use_demands};
ghost use Rattle.wast_meaning.specs.Mentions.{instr_mentions, local_mentions, val_mentions};
ghost use Rattle.wast_bound.specs.Bound.{are_kept};
ghost use Rattle.wast_bound.specs.Places.{among};

use crate::known::Known;
use crate::labels::{Among, Opens};
use crate::locals::Inside;
use crate::place::{Place, is_use_bound};
use wast_core::{Expression, FunctionType, Instruction, Local, TypeUse};
use wast_mentions::Tell;
use wast_value_types::ValType;

/// Whether the names in a function that are made up are bound: in its type use, in the types of its locals, and in its instructions.
#[tactic(auto, using(crate::proofs::Function::func_kept))]
pub(crate) fn is_function_bound<'a, K: Known>(
    known: K,
    ty: &TypeUse<'a, FunctionType<'a>>,
    locals: &[Local<'a>],
    body: &Expression<'a>,
) -> bool
    ensures { result ≡ are_kept (func_demands same_name (K.scope known) (function_tree ty.now locals.now body.now)) }
{
    is_head_bound(known, ty, locals)
        && is_expression_bound(
            Inside {
                outside: known,
                ty,
                locals,
            },
            body,
        )
}

/// The same of what stands before the instructions.
fn is_head_bound<'a, K: Known>(
    known: K,
    ty: &TypeUse<'a, FunctionType<'a>>,
    locals: &[Local<'a>],
) -> bool
    ensures { result ≡ (are_kept (use_demands same_name (K.scope known) (use_tree ty.now)) && are_kept (flat_map (mention_demands same_name (K.scope known)) (local_mentions (map local_tree locals.now)))) }
{
    is_use_bound(known, ty) && are_locals_bound(known, locals)
}

/// The same of what the types of locals mention.
fn are_locals_bound<'a, K: Known>(known: K, locals: &[Local<'a>]) -> bool
    ensures { result ≡ are_kept (flat_map (mention_demands same_name (K.scope known)) (local_mentions (map local_tree locals.now))) }
{
    for local in locals {
        if !is_type_bound(known, &local.ty) {
            return false;
        }
    }
    true
}

/// The same of what a type of values mentions.
fn is_type_bound<'a, K: Known>(known: K, ty: &ValType<'a>) -> bool
    ensures { result ≡ are_kept (flat_map (mention_demands same_name (K.scope known)) (val_mentions (val_tree ty.now))) }
{
    ty.tell(&Place { known }).is_ok()
}

/// The same of the instructions of an expression.
pub(crate) fn is_expression_bound<'a, K: Known>(known: K, expression: &Expression<'a>) -> bool
    ensures { result ≡ are_kept (instrs_demands same_name (K.scope known) [] (expression_tree expression.now).instrs) }
{
    are_instructions_bound(known, &expression.instrs)
}

/// The same of instructions.
fn are_instructions_bound<'a, K: Known>(known: K, instructions: &[Instruction<'a>]) -> bool
    ensures { result ≡ are_kept (instrs_demands same_name (K.scope known) [] (map instruction_tree instructions.now)) }
{
    for (index, instruction) in instructions.iter().enumerate() {
        if !is_next_bound(known, instructions, index, instruction) {
            return false;
        }
    }
    true
}

/// The same of an instruction that stands at a place behind so many of these.
fn is_next_bound<'a, K: Known, I: Opens>(
    known: K,
    instructions: &[I],
    index: usize,
    instruction: &Instruction<'a>,
) -> bool
    requires { index < length instructions.now }
    ensures { (place : _) → place ≡ slice_index_or instructions.now index place → result ≡ are_kept (flat_map (mention_demands same_name (among (K.scope known) (map I.tree (take index instructions.now)) (I.tree place))) (instr_mentions (instruction_tree instruction.now))) }
{
    is_instruction_bound(
        Among {
            around: known,
            before: &instructions[..index],
            instruction: &instructions[index],
        },
        instruction,
    )
}

/// The same of an instruction at a place.
fn is_instruction_bound<'a, K: Known>(known: K, instruction: &Instruction<'a>) -> bool
    ensures { result ≡ are_kept (flat_map (mention_demands same_name (K.scope known)) (instr_mentions (instruction_tree instruction.now))) }
{
    instruction.tell(&Place { known }).is_ok()
}
