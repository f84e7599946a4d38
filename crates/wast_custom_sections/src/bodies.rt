//! Where the instructions of a function's body begin, and the branch hints there (branch hinting).
ghost use Rattle.std.specs.Prelude.{◌≡◌, ◌+◌, ◌<◌, ◌^◌, ◌++◌, [], ◌∷◌, length, map, take, All, IfOk, OnOk, IsErrOf};
ghost use Rattle.std.specs.List.{flat_map, range_with_len};
ghost use Rattle.wasm_encoder_code.specs.Body.{locals_bytes};
ghost use Rattle.wasm_encoder_code.specs.Locals.{LocalsFit};
ghost use Rattle.wasm_encoder_code.specs.Sink.{IsMade};
ghost use Rattle.wast_module_fields.specs.FuncViews.{local_tree};
ghost use Rattle.wast_expressions.specs.Partial.{hint_tree};
ghost use Rattle.wast_core_instr.specs.InstructionViews.{instruction_operands, instruction_tree};
ghost use Rattle.wast_core_instr.specs.ExpressionViews.{expression_tree};
ghost use Rattle.wast_conversions.specs.Types.{val_meant};
ghost use Rattle.wast_conversions.specs.Operands.{OperandsAligned};
ghost use Rattle.wast_conversions.specs.Resolved.{ValResolved, InstrResolved, InstrsResolved};
ghost use Rattle.wast_conversions.specs.Covered.{val_forms, instr_forms, instrs_forms};
ghost use Rattle.wast_conversions.specs.Rows.{bytes_meant};
ghost use Rattle.wast_custom_sections.specs.Hints.{PlacesFit, BodyReady};
ghost use Rattle.wast_custom_sections.specs.Hinted.{places_of, placed_at, among, body_meant};

use std::alloc::{AllocError, Global};
use wasm_encoder_base::EncodeError;
use wasm_encoder_code::Function;
use wasm_encoder_custom::BranchHint;
use wast_conversions::{as_u32, push_instruction};
use wast_core_instr::{Expression, Instruction};
use wast_module_fields::Local;
use wast_section_items::local_types;

/// The hints of a body, at the places of their instructions. A hint of no instruction is at the end.
pub(crate) fn placed_hints(
    alloc: Global,
    locals: &[Local<'_>],
    expression: &Expression<'_>,
) -> Result<Vec<BranchHint>, EncodeError>
    requires { BodyReady (map local_tree locals.now) (expression_tree expression.now) }
    ensures placed { IfOk result (λ v. v.items ≡ map (placed_at (body_meant (map local_tree locals.now) (expression_tree expression.now))) (expression_tree expression.now).hints) }
    ensures fits { OnOk result (PlacesFit (body_meant (map local_tree locals.now) (expression_tree expression.now))) }
    ensures too_large { IsErrOf result EncodeError.TooLarge → PlacesFit (body_meant (map local_tree locals.now) (expression_tree expression.now)) → ⊥ }
{
    let places = places(alloc, locals, expression)?;
    let hints = at_places(alloc, &expression.branch_hints, &places)?;
    Ok(hints)
}

/// Where the instructions of a body begin and where they end, in bytes from the start of the body.
fn places(
    alloc: Global,
    locals: &[Local<'_>],
    expression: &Expression<'_>,
) -> Result<Vec<u32>, EncodeError>
    requires { BodyReady (map local_tree locals.now) (expression_tree expression.now) }
    ensures places { IfOk result (λ v. v.items ≡ places_of (body_meant (map local_tree locals.now) (expression_tree expression.now))) }
    ensures fits { OnOk result (PlacesFit (body_meant (map local_tree locals.now) (expression_tree expression.now))) }
    ensures too_large { IsErrOf result EncodeError.TooLarge → PlacesFit (body_meant (map local_tree locals.now) (expression_tree expression.now)) → ⊥ }
{
    let mut body = with_locals(alloc, locals)?;
    let mut places = Vec::new(alloc);
    put_place(&body, &mut places)?;
    put_expression(alloc, expression, &mut body, &mut places)?;
    Ok(places)
}

/// A body with these locals, and no instructions.
fn with_locals(alloc: Global, locals: &[Local<'_>]) -> Result<Function, EncodeError>
    requires resolved { All (λ l. ValResolved l.val_type) (map local_tree locals.now) }
    requires covered { flat_map (λ l. val_forms l.val_type) (map local_tree locals.now) ≡ [] }
    ensures { IsMade (locals_bytes (map (λ l. val_meant l.val_type) (map local_tree locals.now))) (LocalsFit (map (λ l. val_meant l.val_type) (map local_tree locals.now))) result }
{
    let types = local_types(alloc, locals)?;
    Function::new_with_locals_types(alloc, &types)
}

/// Appends the instructions of an expression to a body, and to places where each of them ends.
fn put_expression(
    alloc: Global,
    expression: &Expression<'_>,
    body: &mut Function,
    places: &mut Vec<u32>,
) -> Result<(), EncodeError>
    requires resolved { InstrsResolved (expression_tree expression.now).instrs }
    requires covered { instrs_forms (expression_tree expression.now).instrs ≡ [] }
    requires aligned { All (λ i. OperandsAligned i.operands) (expression_tree expression.now).instrs }
    requires fits { length body.old < 2 ^ 32 }
    ensures places { OnOk result (places.new.items ≡ places.old.items ++ map (λ k. length body.old + length (flat_map bytes_meant (take k expression.now.instrs.items))) (range_with_len 1 (length expression.now.instrs.items))) }
    ensures fits { OnOk result (length body.old + length (flat_map bytes_meant expression.now.instrs.items) < 2 ^ 32) }
    ensures too_large { IsErrOf result EncodeError.TooLarge → length body.old + length (flat_map bytes_meant expression.now.instrs.items) < 2 ^ 32 → ⊥ }
{
    put_instructions(alloc, &expression.instrs, body, places)
}

/// Appends instructions to a body, and to places where each of them ends.
fn put_instructions(
    alloc: Global,
    instrs: &[Instruction<'_>],
    body: &mut Function,
    places: &mut Vec<u32>,
) -> Result<(), EncodeError>
    requires resolved { All (λ i. InstrResolved (instruction_tree i)) instrs.now }
    requires covered { All (λ i. instr_forms (instruction_tree i) ≡ []) instrs.now }
    requires aligned { All (λ i. OperandsAligned (instruction_operands i)) instrs.now }
    requires fits { length body.old < 2 ^ 32 }
    ensures places { OnOk result (places.new.items ≡ places.old.items ++ map (λ k. length body.old + length (flat_map bytes_meant (take k instrs.now))) (range_with_len 1 (length instrs.now))) }
    ensures fits { OnOk result (length body.old + length (flat_map bytes_meant instrs.now) < 2 ^ 32) }
    ensures too_large { IsErrOf result EncodeError.TooLarge → length body.old + length (flat_map bytes_meant instrs.now) < 2 ^ 32 → ⊥ }
{
    for instr in instrs {
        put_placed(alloc, instr, body, places)?;
    }
    Ok(())
}

/// Appends an instruction to a body, and to places where it ends.
fn put_placed(
    alloc: Global,
    instr: &Instruction<'_>,
    body: &mut Function,
    places: &mut Vec<u32>,
) -> Result<(), EncodeError>
    requires resolved { InstrResolved (instruction_tree instr.now) }
    requires covered { instr_forms (instruction_tree instr.now) ≡ [] }
    requires aligned { OperandsAligned (instruction_operands instr.now) }
    ensures spelled { OnOk result (body.new ≡ body.old ++ bytes_meant instr.now) }
    ensures place { OnOk result (places.new.items ≡ places.old.items ++ length body.new ∷ []) }
    ensures fits { OnOk result (length body.new < 2 ^ 32) }
    ensures too_large { IsErrOf result EncodeError.TooLarge → length body.old + length (bytes_meant instr.now) < 2 ^ 32 → ⊥ }
{
    push_instruction(alloc, instr, body)?;
    put_place(body, places)
}

/// Appends to places where a body ends.
fn put_place(body: &Function, places: &mut Vec<u32>) -> Result<(), EncodeError>
    ensures place { OnOk result (places.new.items ≡ places.old.items ++ length body.now ∷ []) }
    ensures fits { OnOk result (length body.now < 2 ^ 32) }
    ensures too_large { IsErrOf result EncodeError.TooLarge → length body.now < 2 ^ 32 → ⊥ }
{
    let place = as_u32(body.byte_len())?;
    places.push(place)?;
    Ok(())
}

/// Hints by the places of their instructions, of which the last is that of the end. Fails only for want of memory.
fn at_places(
    alloc: Global,
    hints: &[wast_expressions::BranchHint],
    places: &[u32],
) -> Result<Vec<BranchHint>, AllocError>
    requires { 0 < length places.now }
    ensures { IfOk result (λ v. v.items ≡ map (among places.now) (map hint_tree hints.now)) }
{
    let mut placed = Vec::with_capacity(alloc, hints.len())?;
    for hint in hints {
        placed.push(at_place(*hint, places))?;
    }
    Ok(placed)
}

/// A hint by the place of its instruction.
fn at_place(hint: wast_expressions::BranchHint, places: &[u32]) -> BranchHint
    requires { 0 < length places.now }
    ensures { result ≡ among places.now (hint_tree hint) }
{
    BranchHint {
        branch_func_offset: places[(hint.instr_index as usize).min(places.len() - 1)],
        branch_hint_value: hint.value,
    }
}
