//! Expressions and functions.
ghost use Rattle.std.specs.Prelude.{◌≡◌, ◌++◌, None, [], ◌∷◌, map, option_map, IfOk, OnOk, drop};
ghost use Rattle.std.specs.List.{flat_map};
ghost use Rattle.wasm_encoder_base.specs.Table as table;
ghost use Rattle.wast_grammar.specs.Spelling.{same_name};
ghost use Rattle.wast_parser.specs.Identifiers.{identifier_tree, index_tree};
ghost use Rattle.wast_signatures.specs.SignatureViews.{use_tree};
ghost use Rattle.wast_core_instr.specs.ExpressionViews.{expression_tree};
ghost use Rattle.wast_core_instr.specs.InstructionViews.{instruction_tree};
ghost use Rattle.wast_module_fields.specs.FuncViews.{function_tree, local_tree};
ghost use Rattle.wast_names.specs.Demand.{Answers};
ghost use Rattle.wast_names.specs.Space as names;
ghost use Rattle.wast_names.specs.Views.{space};
ghost use Rattle.wast_meaning.specs.Mentions.{instr_mentions, local_mentions, val_mentions};
ghost use Rattle.wast_meaning.specs.Scope.{labels_after};
ghost use Rattle.wast_meaning.specs.Spaces.{space_word};
ghost use Rattle.wast_mentions.specs.Views.{mention_tree};
ghost use Rattle.wast_scopes.specs.Known.{func_by, instr_by, instrs_by, known_by, look_among, mention_by, params_by, params_of_index_by, use_by, with_labels};
ghost use Rattle.wast_scopes.specs.Numbered.{params_in};
ghost use Rattle.wast_scopes.specs.NumberedViews.{sig_of_numbered, value_of_numbered};
ghost use Rattle.wast_scopes.specs.Views.{known};

use crate::labels::Labels;
use crate::numbered::{NumberedSignature, NumberedType};
use crate::place::Place;
use crate::scope::Scope;
use std::alloc::{AllocError, Global};
use wast_meaning::Space;
use wast_mentions::{Judge, Mention, Tell};
use wast_module_fields::{Expression, Instruction, Local};
use wast_names::{Namespace, copied_id};
use wast_parser::{Error, Id, Index};
use wast_signatures::{FunctionType, Param, TypeUse};

/// Tests all that is mentioned in a constant expression.
///
/// Refuses the first name that means nothing, repeated name that isn't its block's, or type use that doesn't agree with the type that it
/// names; else only where no memory is found, or more than 4294967295 blocks are open.
pub fn check_constant<'a>(scope: &Scope<'_, 'a>, expression: &Expression<'a>) -> Result<(), Error>
    ensures { Answers result (instrs_by (known scope.now) [] (expression_tree expression.now).instrs) }
{
    check_body(scope, instructions_of(expression))
}

/// The instructions of an expression. Apart, since a proof that sees where they stand takes too many steps.
fn instructions_of<'b, 'a>(expression: &'b Expression<'a>) -> &'b [Instruction<'a>]
    ensures { result.now ≡ expression.now.instrs.items }
{
    &expression.instrs
}

/// Tests a mention outside expressions. Refuses the first demand of it that isn't met, with its place and its message, else only for want
/// of memory.
pub fn check_mention<'a>(scope: &Scope<'_, 'a>, mention: Mention<'_, 'a>) -> Result<(), Error>
    ensures { Answers result (mention_by (known scope.now) (mention_tree mention.entry)) }
{
    let labels = Labels::new(scope.alloc);
    Place {
        scope,
        labels: &labels,
    }
    .judge(mention)
}

/// Tests all that is mentioned in a function with a body: its type use, the types of its locals, that no two parameters or locals bear one
/// name, and its instructions. The scope is that outside functions. Refuses the first demand that isn't met, with its place and its message,
/// else only where no memory is found, or there are more than 4294967295 parameters and locals, or blocks inside each other.
pub fn check_func<'a>(
    scope: &Scope<'_, 'a>,
    ty: &TypeUse<'a, FunctionType<'a>>,
    locals: &[Local<'a>],
    body: &Expression<'a>,
) -> Result<(), Error>
    ensures { Answers result (func_by (known scope.now) (function_tree ty.now locals.now body.now)) }
{
    match check_head(scope, ty, locals) {
        Ok(names) => check_constant(&scope.with_locals(names), body),
        Err(e) => Err(e),
    }
}

/// Tests what stands before the instructions of a function, and answers the space of its locals.
fn check_head<'a>(
    scope: &Scope<'_, 'a>,
    ty: &TypeUse<'a, FunctionType<'a>>,
    locals: &[Local<'a>],
) -> Result<Namespace<'a>, Error>
    ensures numbers { IfOk result (λ n. space n ≡ names.space_of same_name (space_word table.Locals) (params_by (known scope.now) (use_tree ty.now) ++ map (λ l. l.id) (map local_tree locals.now))) }
    ensures answers { Answers result (use_by (known scope.now) (use_tree ty.now) ++ flat_map (mention_by (known scope.now)) (local_mentions (map local_tree locals.now)) ++ names.distinct same_name (space_word table.Locals) (params_by (known scope.now) (use_tree ty.now) ++ map (λ l. l.id) (map local_tree locals.now))) }
{
    match check_types(scope, ty, locals) {
        Ok(()) => local_names(scope, ty, locals),
        Err(e) => Err(e),
    }
}

/// Tests the type use of a function and the types of its locals.
fn check_types<'a>(
    scope: &Scope<'_, 'a>,
    ty: &TypeUse<'a, FunctionType<'a>>,
    locals: &[Local<'a>],
) -> Result<(), Error>
    ensures { Answers result (use_by (known scope.now) (use_tree ty.now) ++ flat_map (mention_by (known scope.now)) (local_mentions (map local_tree locals.now))) }
{
    match check_mention(scope, Mention::Uses(ty)) {
        Ok(()) => check_local_types(scope, locals),
        Err(e) => Err(e),
    }
}

/// Tests what the types of locals mention.
fn check_local_types<'a>(scope: &Scope<'_, 'a>, locals: &[Local<'a>]) -> Result<(), Error>
    ensures { Answers result (flat_map (mention_by (known scope.now)) (local_mentions (map local_tree locals.now))) }
{
    for local in locals {
        match check_local_type(scope, local) {
            Ok(()) => {}
            Err(e) => return Err(e),
        }
    }
    Ok(())
}

/// The same of one local.
fn check_local_type<'a>(scope: &Scope<'_, 'a>, local: &Local<'a>) -> Result<(), Error>
    ensures { Answers result (flat_map (mention_by (known scope.now)) (val_mentions (local_tree local.now).val_type)) }
{
    let labels = Labels::new(scope.alloc);
    local.ty.tell(&Place {
        scope,
        labels: &labels,
    })
}

// LOCALS

/// The space of the parameters of a function and its locals. Refuses the first that bears the name of one before it, by
/// `duplicate local identifier` at it; else only where no memory is found, or there are more than 4294967295.
fn local_names<'a>(
    scope: &Scope<'_, 'a>,
    ty: &TypeUse<'a, FunctionType<'a>>,
    locals: &[Local<'a>],
) -> Result<Namespace<'a>, Error>
    ensures numbers { IfOk result (λ n. space n ≡ names.space_of same_name (space_word table.Locals) (params_by (known scope.now) (use_tree ty.now) ++ map (λ l. l.id) (map local_tree locals.now))) }
    ensures answers { Answers result (names.distinct same_name (space_word table.Locals) (params_by (known scope.now) (use_tree ty.now) ++ map (λ l. l.id) (map local_tree locals.now))) }
{
    let mut ids = param_ids(scope, ty)?;
    add_locals(scope.alloc, &mut ids, locals)?;
    if ids.len() > 4_294_967_295 {
        return Err(Error::from(AllocError));
    }
    Namespace::of(scope.alloc, &ids, "local")
}

/// The identifiers of parameters: those of the signature, where one is written, else none for each that the type has.
fn param_ids<'a>(
    scope: &Scope<'_, 'a>,
    ty: &TypeUse<'a, FunctionType<'a>>,
) -> Result<Vec<Option<Id<'a>>>, AllocError>
    ensures { IfOk result (λ ids. map (option_map identifier_tree) ids.items ≡ params_by (known scope.now) (use_tree ty.now)) }
{
    match &ty.inline {
        Some(signature) => written_ids(scope.alloc, &signature.params),
        None => unnamed_params(scope, &ty.index),
    }
}

/// None for each parameter of the function type that an index means.
fn unnamed_params<'a>(
    scope: &Scope<'_, 'a>,
    index: &Option<Index<'a>>,
) -> Result<Vec<Option<Id<'a>>>, AllocError>
    ensures { IfOk result (λ ids. map (option_map identifier_tree) ids.items ≡ params_of_index_by (known scope.now) (option_map index_tree index.now)) }
{
    match index {
        Some(index) => unnamed(scope.alloc, scope.type_of(index)),
        None => Ok(Vec::new(scope.alloc)),
    }
}

/// The identifiers of these parameters.
fn written_ids<'a>(alloc: Global, params: &[Param<'a>]) -> Result<Vec<Option<Id<'a>>>, AllocError>
    ensures { IfOk result (λ ids. ids.items ≡ map (λ p. p.0) params.now) }
{
    let mut ids = Vec::new(alloc);
    for param in params {
        ids.push(copied_id(alloc, &param.0)?)?;
    }
    Ok(ids)
}

/// None for each parameter of a type; where there is no type, there are none.
fn unnamed<'a>(
    alloc: Global,
    signature: Option<&NumberedSignature>,
) -> Result<Vec<Option<Id<'a>>>, AllocError>
    ensures { IfOk result (λ ids. map (option_map identifier_tree) ids.items ≡ params_in (option_map (λ s. sig_of_numbered s.now) signature.entry)) }
{
    match signature {
        Some(signature) => none_each(alloc, &signature.params),
        None => Ok(Vec::new(alloc)),
    }
}

/// None for each of these.
fn none_each<'a>(alloc: Global, params: &[NumberedType]) -> Result<Vec<Option<Id<'a>>>, AllocError>
    ensures { IfOk result (λ ids. map (option_map identifier_tree) ids.items ≡ map (λ p. None) (map value_of_numbered params.now)) }
{
    let mut ids = Vec::new(alloc);
    for _param in params {
        ids.push(None)?;
    }
    Ok(ids)
}

/// The identifiers of locals, behind others.
fn add_locals<'a>(
    alloc: Global,
    ids: &mut Vec<Option<Id<'a>>>,
    locals: &[Local<'a>],
) -> Result<(), AllocError>
    ensures { OnOk result (ids.new.items ≡ ids.old.items ++ map (λ l. l.id) locals.now) }
{
    for local in locals {
        ids.push(copied_id(alloc, &local.id)?)?;
    }
    Ok(())
}

// INSTRUCTIONS

/// Tests all that the instructions of an expression mention.
fn check_body<'a>(scope: &Scope<'_, 'a>, instructions: &[Instruction<'a>]) -> Result<(), Error>
    ensures { Answers result (instrs_by (known scope.now) [] (map instruction_tree instructions.now)) }
{
    let mut labels = Labels::new(scope.alloc);
    check_instructions(scope, &mut labels, instructions)
}

/// Tests all that instructions mention, each among the blocks that are open there.
fn check_instructions<'a>(
    scope: &Scope<'_, 'a>,
    labels: &mut Labels<'a>,
    instructions: &[Instruction<'a>],
) -> Result<(), Error>
    ensures { Answers result (instrs_by (known scope.now) labels.old (map instruction_tree instructions.now)) }
{
    for instruction in instructions {
        match check_instruction(scope, labels, instruction) {
            Ok(()) => {}
            Err(e) => return Err(e),
        }
    }
    Ok(())
}

/// Tests all that an instruction mentions, and opens or closes its block. A `delegate` looks for its label outside the block that it closes,
/// and one that opens a block outside that.
fn check_instruction<'a>(
    scope: &Scope<'_, 'a>,
    labels: &mut Labels<'a>,
    instruction: &Instruction<'a>,
) -> Result<(), Error>
    ensures labels { OnOk result (labels.new ≡ labels_after labels.old (instruction_tree instruction.now)) }
    ensures answers { Answers result (instr_by (known scope.now) labels.old (instruction_tree instruction.now)) }
{
    match instruction {
        Instruction::Block(block) => check_opener(scope, labels, instruction, &block.label),
        Instruction::Loop(block) => check_opener(scope, labels, instruction, &block.label),
        Instruction::If(block) => check_opener(scope, labels, instruction, &block.label),
        Instruction::Try(block) => check_opener(scope, labels, instruction, &block.label),
        Instruction::TryTable(try_table) => {
            check_opener(scope, labels, instruction, &try_table.block.label)
        }
        Instruction::End(_) => check_end(scope, labels, instruction),
        Instruction::Delegate(label) => check_delegate(scope, labels, label),
        _ => check_plain(scope, labels, instruction),
    }
}

/// Tests what an instruction mentions among these labels.
fn check_plain<'a>(
    scope: &Scope<'_, 'a>,
    labels: &Labels<'a>,
    instruction: &Instruction<'a>,
) -> Result<(), Error>
    ensures { Answers result (flat_map (mention_by (with_labels (known scope.now) labels.now labels.now)) (instr_mentions (instruction_tree instruction.now))) }
{
    instruction.tell(&Place { scope, labels })
}

/// The same of an instruction that opens a block with this label or none.
fn check_opener<'a>(
    scope: &Scope<'_, 'a>,
    labels: &mut Labels<'a>,
    instruction: &Instruction<'a>,
    label: &Option<Id<'a>>,
) -> Result<(), Error>
    ensures labels { OnOk result (labels.new ≡ option_map identifier_tree label.now ∷ labels.old) }
    ensures answers { Answers result (flat_map (mention_by (with_labels (known scope.now) labels.old labels.old)) (instr_mentions (instruction_tree instruction.now))) }
{
    match check_plain(scope, labels, instruction) {
        Ok(()) => {
            labels.open(label)?;
            Ok(())
        }
        Err(e) => Err(e),
    }
}

/// The same of an `end`, which closes a block.
fn check_end<'a>(
    scope: &Scope<'_, 'a>,
    labels: &mut Labels<'a>,
    instruction: &Instruction<'a>,
) -> Result<(), Error>
    ensures labels { OnOk result (labels.new ≡ drop 1 labels.old) }
    ensures answers { Answers result (flat_map (mention_by (with_labels (known scope.now) labels.old labels.old)) (instr_mentions (instruction_tree instruction.now))) }
{
    match check_plain(scope, labels, instruction) {
        Ok(()) => {
            labels.close();
            Ok(())
        }
        Err(e) => Err(e),
    }
}

/// Closes a block, and tests the label of its `delegate`.
fn check_delegate<'a>(
    scope: &Scope<'_, 'a>,
    labels: &mut Labels<'a>,
    label: &Index<'a>,
) -> Result<(), Error>
    ensures labels { labels.new ≡ drop 1 labels.old }
    ensures answers { Answers result (known_by (space_word table.Labels) (look_among (drop 1 labels.old)) (index_tree label.now)) }
{
    labels.close();
    Place { scope, labels }.check_index(Space::Labels, label)
}
