//! Bodies of functions.
ghost use Rattle.std.specs.Prelude.{◌≡◌, ◌++◌, ℕ, [], ◌∷◌, All, IfOk, OnOk, map};
ghost use Rattle.std.specs.List.{flat_map, AllByRecursion};
ghost use Rattle.wasm_encoder_base.specs.Encodes.{Puts};
ghost use Rattle.wasm_encoder_base.specs.Instr.{IsInstr};
ghost use Rattle.wasm_encoder_base.specs.Types.{IsValType};
ghost use Rattle.wasm_encoder_base.specs.Views.{val_view};
ghost use Rattle.wasm_encoder_code.specs.Body.{body_bytes, locals_bytes};
ghost use Rattle.wasm_encoder_code.specs.Locals.{LocalsFit};
ghost use Rattle.wasm_encoder_code.specs.Sink.{IsMade};
ghost use Rattle.wasm_encoder_sections.specs.Codes.{function_item};
ghost use Rattle.wasm_layout.specs.AbstractModule as abstract;
ghost use Rattle.wast_core_instr.specs.ExpressionViews.{expression_tree};
ghost use Rattle.wast_core_instr.specs.InstructionViews.{instruction_operands, instruction_tree};
ghost use Rattle.wast_fields.specs.FieldTree.{Define};
ghost use Rattle.wast_fields.specs.FuncViews.{local_tree, func_definition};
ghost use Rattle.wast_conversions.specs.Types.{val_meant};
ghost use Rattle.wast_conversions.specs.Instructions.{instrs_meant};
ghost use Rattle.wast_conversions.specs.Operands.{OperandsAligned};
ghost use Rattle.wast_conversions.specs.Resolved.{ValResolved, InstrResolved};
ghost use Rattle.wast_conversions.specs.Covered.{val_forms, instr_forms};
ghost use Rattle.wast_conversions.specs.Rows.{bytes_meant, FitsMeant};
ghost use Rattle.wast_meant.specs.Covered.{expr_forms};
ghost use Rattle.wast_meant.specs.FieldsMeant.{expr_meant, functions_of};
ghost use Rattle.wast_section_items.specs.Appends.{Appends};
ghost use Rattle.wast_section_items.specs.Fits.{BodyFits};
ghost use Rattle.wast_section_items.specs.One.{one_func};
ghost use Rattle.wast_section_items.specs.Ready.{ExprReady, FieldReady};
ghost use Rattle.wast_section_items.specs.Sound.{BodySound};

use crate::adding::add_body;
use crate::item::SectionItem;
use std::alloc::{AllocError, Global};
use wasm_encoder_base::{EncodeError, ValType};
use wasm_encoder_code::Function;
use wasm_encoder_sections::CodeSection;
use wast_conversions::{push_encoded, push_instruction, val_type};
use wast_core_instr::{Expression, Instruction};
use wast_customs::CustomPlaceAnchor;
use wast_fields::{Func, FuncKind, Local};

/// A function by its body.
#[derive(Clone, Copy)]
pub struct FuncBody<'f, 'a>(pub &'f Func<'a>);

/// Its locals, neighbours of one type joined, and its instructions (6.6, functions).
impl SectionItem for FuncBody<'_, '_> {
    type Section = CodeSection;

    const ANCHOR: CustomPlaceAnchor = CustomPlaceAnchor::Code;

    ghost Item = { abstract.Function };

    ghost spell = { λ f. function_item (body_bytes f.body) };

    ghost Fits = { BodyFits };

    ghost Sound = { BodySound };

    ghost items = { λ f. functions_of (func_definition f.0.now).defined };

    ghost Ready = { λ f. FieldReady (Define (func_definition f.0.now)) };

    ghost one = { λ f. one_func f.0.now };

    ghost listed = { λ section. section };

    #[tactic(auto, using(wast_conversions::proofs::Empty::front, wast_conversions::proofs::Empty::back))]
    fn encode(&self, alloc: Global, section: &mut CodeSection) -> Result<(), EncodeError> {
        match &self.0.kind {
            FuncKind::Inline { locals, expression } => {
                add_inline(alloc, section, locals, expression)
            }
            FuncKind::Import { .. } => unreachable!(),
        }
    }
}

/// Appends the body of these locals and of the expression; refused, the section is unchanged.
fn add_inline(
    alloc: Global,
    section: &mut CodeSection,
    locals: &[Local<'_>],
    expression: &Expression<'_>,
) -> Result<(), EncodeError>
    requires locals_resolved { All (λ l. ValResolved l.val_type) (map local_tree locals.now) }
    requires locals_covered { flat_map (λ l. val_forms l.val_type) (map local_tree locals.now) ≡ [] }
    requires ready { ExprReady (expression_tree expression.now) }
    requires covered { expr_forms (expression_tree expression.now) ≡ [] }
    ensures { (n : ℕ) → Appends (λ f. function_item (body_bytes f.body)) BodyFits BodySound (record { type_index = n; body = record { locals = map (λ l. val_meant l.val_type) (map local_tree locals.now); instructions = expr_meant (expression_tree expression.now) } } ∷ []) section.old section.new result }
{
    match local_types(alloc, locals) {
        Ok(types) => add_typed(alloc, section, &types, expression),
        Err(_) => Err(EncodeError::Memory),
    }
}

/// Appends the body of locals of these types and of the expression; refused, the section is unchanged.
fn add_typed(
    alloc: Global,
    section: &mut CodeSection,
    types: &[ValType],
    expression: &Expression<'_>,
) -> Result<(), EncodeError>
    requires types { AllByRecursion IsValType (map val_view types.now) }
    requires ready { ExprReady (expression_tree expression.now) }
    requires covered { expr_forms (expression_tree expression.now) ≡ [] }
    ensures { (n : ℕ) → Appends (λ f. function_item (body_bytes f.body)) BodyFits BodySound (record { type_index = n; body = record { locals = map val_view types.now; instructions = expr_meant (expression_tree expression.now) } } ∷ []) section.old section.new result }
{
    match body_of(alloc, types, expression) {
        Ok(body) => add_body(section, &body),
        Err(e) => Err(e),
    }
}

/// The body of locals of these types and of the expression. Refused for want of memory, and as too large where a count is past 4294967295.
fn body_of(
    alloc: Global,
    types: &[ValType],
    expression: &Expression<'_>,
) -> Result<Function, EncodeError>
    requires ready { ExprReady (expression_tree expression.now) }
    requires covered { expr_forms (expression_tree expression.now) ≡ [] }
    ensures same { IsMade (locals_bytes (map val_view types.now) ++ (flat_map bytes_meant expression.now.instrs.items ++ 0x0B ∷ [])) (LocalsFit (map val_view types.now) × All FitsMeant expression.now.instrs.items) result }
    ensures sound { OnOk result (AllByRecursion IsInstr (expr_meant (expression_tree expression.now))) }
{
    let mut body = Function::new_with_locals_types(alloc, types)?;
    push_expression(alloc, expression, &mut body)?;
    push_encoded(&mut body, &wasm_encoder_code::Instruction::End)?;
    Ok(body)
}

/// The types of locals, one by one. Fails only for want of memory.
pub fn local_types(alloc: Global, locals: &[Local<'_>]) -> Result<Vec<ValType>, AllocError>
    requires resolved { All (λ l. ValResolved l.val_type) (map local_tree locals.now) }
    requires covered { flat_map (λ l. val_forms l.val_type) (map local_tree locals.now) ≡ [] }
    ensures same { IfOk result (λ v. map val_view v.items ≡ map (λ l. val_meant l.val_type) (map local_tree locals.now)) }
    ensures sound { OnOk result (AllByRecursion IsValType (map (λ l. val_meant l.val_type) (map local_tree locals.now))) }
{
    let mut types = Vec::with_capacity(alloc, locals.len())?;
    for local in locals {
        types.push(val_type(&local.ty))?;
    }
    Ok(types)
}

/// Appends the instructions of an expression; refused, the body may have some of them.
fn push_expression(
    alloc: Global,
    expression: &Expression<'_>,
    body: &mut Function,
) -> Result<(), EncodeError>
    requires ready { ExprReady (expression_tree expression.now) }
    requires covered { expr_forms (expression_tree expression.now) ≡ [] }
    ensures same { Puts (flat_map bytes_meant expression.now.instrs.items) (All FitsMeant expression.now.instrs.items) body.old body.new result }
    ensures sound { OnOk result (AllByRecursion IsInstr (expr_meant (expression_tree expression.now))) }
{
    push_instructions(alloc, &expression.instrs, body)
}

/// Appends instructions; refused, the body may have some of them.
fn push_instructions(
    alloc: Global,
    instrs: &[Instruction<'_>],
    body: &mut Function,
) -> Result<(), EncodeError>
    requires resolved { All (λ i. InstrResolved (instruction_tree i)) instrs.now }
    requires covered { All (λ i. instr_forms (instruction_tree i) ≡ []) instrs.now }
    requires aligned { All (λ i. OperandsAligned (instruction_operands i)) instrs.now }
    ensures same { Puts (flat_map bytes_meant instrs.now) (All FitsMeant instrs.now) body.old body.new result }
    ensures sound { OnOk result (AllByRecursion IsInstr (instrs_meant (map instruction_tree instrs.now))) }
{
    for instr in instrs {
        push_instruction(alloc, instr, body)?;
    }
    Ok(())
}
