//! The section of branch hints (branch hinting).
ghost use Rattle.std.specs.Prelude.{◌≡◌, ◌<◌, ◌^◌, [], ◌∷◌, length, map, All, IfOk, OnOk, IsErrOf};
ghost use Rattle.std.specs.List.{flat_map};
ghost use Rattle.wasm_encoder_base.specs.Encodes.{Encodes};
ghost use Rattle.wasm_encoder_base.specs.Lists.{listed};
ghost use Rattle.wasm_encoder_custom.specs.BranchHints.{function_hints_bytes};
ghost use Rattle.wasm_encoder_sections.specs.Writes.{Writes};
ghost use Rattle.wasm_layout.specs.Layout.{if_there, piece_bytes};
ghost use Rattle.wasm_layout.specs.Present.{has_any};
ghost use Rattle.wast_module_fields.specs.FuncViews.{local_tree, func_definition};
ghost use Rattle.wast_core_instr.specs.ExpressionViews.{expression_tree};
ghost use Rattle.wast_module_fields.specs.ModuleFieldViews.{field_tree};
ghost use Rattle.wast_meant.specs.NamesMeant.{bodies_in, defined_function};
ghost use Rattle.wast_custom_sections.specs.Hints.{hint_pieces, HintsFit, BodyReady, DefinedHintReady, HintReady};
ghost use Rattle.wast_custom_sections.specs.Hinted.{AddsHinted, HintedFits, hinted_bytes, hinted_from, with_hints};

use crate::bodies::placed_hints;
use crate::functions::function_count;
use crate::section::add_section;
use std::alloc::Global;
use wasm_encoder::Module;
use wasm_encoder_base::EncodeError;
use wasm_encoder_custom::{BranchHint, BranchHints};
use wast_conversions::as_u32;
use wast_core_instr::Expression;
use wast_module_fields::{Func, FuncKind, Local, ModuleField};

/// Appends to the sections of a module that of the branch hints of its functions, `metadata.code.branch_hint`, if a function of the fields has
/// any: each by how many bytes its instruction begins behind the start of the function's body. It stands before the section of code.
///
/// Answers [`EncodeError::TooLarge`] exactly where, memory found, the number of a function that has hints, a place in its body, a count of its
/// locals, or the size of the section is past 4294967295, and [`EncodeError::Memory`] where a growth found no memory. Refused, the module is
/// unchanged.
pub fn put_hints(
    alloc: Global,
    fields: &[ModuleField<'_>],
    module: &mut Module,
) -> Result<(), EncodeError>
    requires { All HintReady (map field_tree fields.now) }
    ensures { Encodes (flat_map piece_bytes (hint_pieces (map field_tree fields.now))) (HintsFit (map field_tree fields.now)) «module».old «module».new result }
{
    let section = hints_of(alloc, fields)?;
    if section.is_empty() {
        Ok(())
    } else {
        add_section(&section, module)
    }
}

/// The hints of the functions of fields. The number of a function past all numbers of 64 bits stays the last of them.
fn hints_of(alloc: Global, fields: &[ModuleField<'_>]) -> Result<BranchHints, EncodeError>
    requires { All HintReady (map field_tree fields.now) }
    ensures made { IfOk result (λ section. section ≡ listed hinted_bytes (hinted_from 0 (flat_map bodies_in (map field_tree fields.now)))) }
    ensures fits { OnOk result (All HintedFits (hinted_from 0 (flat_map bodies_in (map field_tree fields.now)))) }
    ensures too_large { IsErrOf result EncodeError.TooLarge → All HintedFits (hinted_from 0 (flat_map bodies_in (map field_tree fields.now))) → length (flat_map hinted_bytes (hinted_from 0 (flat_map bodies_in (map field_tree fields.now)))) < 2 ^ 32 → ⊥ }
{
    let mut section = BranchHints::new(alloc);
    let mut number = 0usize;
    for field in fields {
        put_field(alloc, field, number, &mut section)?;
        number = number.saturating_add(function_count(field));
    }
    Ok(section)
}

/// Adds the hints of a field, whose functions are numbered from this number on.
fn put_field(
    alloc: Global,
    field: &ModuleField<'_>,
    number: usize,
    section: &mut BranchHints,
) -> Result<(), EncodeError>
    requires { HintReady (field_tree field.now) }
    ensures { AddsHinted (hinted_from number (bodies_in (field_tree field.now))) section.old section.new result }
{
    match field {
        ModuleField::Func(func) => put_func(alloc, func, number, section),
        _ => Ok(()),
    }
}

/// Adds the hints of the function with this number; one that is imported has none.
fn put_func(
    alloc: Global,
    func: &Func<'_>,
    number: usize,
    section: &mut BranchHints,
) -> Result<(), EncodeError>
    requires { DefinedHintReady (func_definition func.now).defined }
    ensures { AddsHinted (hinted_from number (defined_function (func_definition func.now).defined)) section.old section.new result }
{
    match &func.kind {
        FuncKind::Import { .. } => Ok(()),
        FuncKind::Inline { locals, expression } => {
            put_body(alloc, locals, expression, number, section)
        }
    }
}

/// Adds the hints of the body of the function with this number, if it has any.
fn put_body(
    alloc: Global,
    locals: &[Local<'_>],
    expression: &Expression<'_>,
    number: usize,
    section: &mut BranchHints,
) -> Result<(), EncodeError>
    requires { BodyReady (map local_tree locals.now) (expression_tree expression.now) }
    ensures { AddsHinted (if_there (has_any (expression_tree expression.now).hints) (with_hints number (map local_tree locals.now) (expression_tree expression.now))) section.old section.new result }
{
    if expression.branch_hints.is_empty() {
        Ok(())
    } else {
        put_hinted(alloc, locals, expression, number, section)
    }
}

/// Adds the body of the function with this number, by its hints.
fn put_hinted(
    alloc: Global,
    locals: &[Local<'_>],
    expression: &Expression<'_>,
    number: usize,
    section: &mut BranchHints,
) -> Result<(), EncodeError>
    requires { BodyReady (map local_tree locals.now) (expression_tree expression.now) }
    ensures { AddsHinted (with_hints number (map local_tree locals.now) (expression_tree expression.now) ∷ []) section.old section.new result }
{
    let function = as_u32(number)?;
    let hints = placed_hints(alloc, locals, expression)?;
    add_function(section, function, &hints)
}

/// Adds a function and its hints; refused, the section is unchanged.
fn add_function(
    section: &mut BranchHints,
    function: u32,
    hints: &[BranchHint],
) -> Result<(), EncodeError>
    ensures { Writes (function_hints_bytes (record { function_index = function; hints = hints.now })) (length hints.now < 2 ^ 32) section.old section.new result }
{
    section.function_hints(function, hints)?;
    Ok(())
}
