//! Instructions, each where it stands.
ghost use Rattle.std.specs.Prelude.{◌≡◌, [], OnOk, map, option_map};
ghost use Rattle.wast_grammar.specs.Spelling.{same_name};
ghost use Rattle.wast_parser.specs.Identifiers.{identifier_tree};
ghost use Rattle.wast_core_instr.specs.InstructionViews.{instruction_tree};
ghost use Rattle.wast_core_instr.specs.ExpressionViews.{expression_tree};
ghost use Rattle.wast_names.specs.Views.{space};
ghost use Rattle.wast_meaning.specs.Changed.{instr_changed, instrs_changed};
ghost use Rattle.wast_meaning.specs.Numbered.{numbering};
ghost use Rattle.wast_meaning.specs.Scope.{labels_found};
ghost use Rattle.wast_meaning.specs.Spaces.{listed};
ghost use Rattle.wast_well_formed.specs.Views.{turn_view};
ghost use Rattle.wast_changed.specs.Rewritten.{expr_changed};
ghost use Rattle.wast_numbered.specs.Place.{by_place, here};
ghost use Rattle.wast_numbered.specs.Steps.{behind, step_of, step_view};

use crate::place::Place;
use crate::step::Step;
use std::alloc::{AllocError, Global};
use wast_changed::change_instruction;
use wast_core_instr::{Expression, Instruction};
use wast_names::Namespace;
use wast_scopes::Labels;
use wast_spaces::Spaces;
use wast_well_formed::Turn;

/// An expression in which these locals are known. Fails only for want of memory.
pub(crate) fn number_expression<'a>(
    alloc: Global,
    spaces: &Spaces<'a>,
    locals: &Namespace<'a>,
    expression: &mut Expression<'a>,
) -> Result<(), AllocError>
    ensures changed { OnOk result (expression_tree expression.new ≡ expr_changed (by_place spaces.now (space locals.now)) (expression_tree expression.old)) }
    ensures spans { expression.new.instr_spans ≡ expression.old.instr_spans }
{
    number_instructions(alloc, spaces, locals, &mut expression.instrs)
}

/// Instructions, each behind those before it.
fn number_instructions<'a>(
    alloc: Global,
    spaces: &Spaces<'a>,
    locals: &Namespace<'a>,
    instrs: &mut [Instruction<'a>],
) -> Result<(), AllocError>
    ensures { OnOk result (map instruction_tree instrs.new ≡ instrs_changed (by_place spaces.now (space locals.now)) [] (map instruction_tree instrs.old)) }
{
    let mut labels = Labels::new(alloc);
    for instr in instrs.iter_mut() {
        number_next(alloc, spaces, locals, &mut labels, instr)?;
    }
    Ok(())
}

/// The next instruction, with what it does to the labels.
fn number_next<'a>(
    alloc: Global,
    spaces: &Spaces<'a>,
    locals: &Namespace<'a>,
    labels: &mut Labels<'a>,
    instr: &mut Instruction<'a>,
) -> Result<(), AllocError>
    ensures tree { OnOk result (instruction_tree instr.new ≡ instr_changed (numbering (here spaces.now (space locals.now) (listed same_name (labels_found (step_of (instruction_tree instr.old)).0 labels.old)))) (instruction_tree instr.old)) }
    ensures labels { OnOk result (labels.new ≡ behind (step_of (instruction_tree instr.old)).0 (step_of (instruction_tree instr.old)).1 (labels_found (step_of (instruction_tree instr.old)).0 labels.old)) }
{
    match Step::of(alloc, instr) {
        Ok(step) => number_by(spaces, locals, &step, labels, instr),
        Err(e) => Err(e),
    }
}

/// The same where it is known what the instruction does to the labels.
fn number_by<'a>(
    spaces: &Spaces<'a>,
    locals: &Namespace<'a>,
    step: &Step<'a>,
    labels: &mut Labels<'a>,
    instr: &mut Instruction<'a>,
) -> Result<(), AllocError>
    ensures tree { OnOk result (instruction_tree instr.new ≡ instr_changed (numbering (here spaces.now (space locals.now) (listed same_name (labels_found (step_view step.now).0 labels.old)))) (instruction_tree instr.old)) }
    ensures labels { OnOk result (labels.new ≡ behind (step_view step.now).0 (step_view step.now).1 (labels_found (step_view step.now).0 labels.old)) }
{
    see(step, labels);
    number_one(spaces, locals, labels, instr)?;
    pass(step, labels)
}

/// An instruction where these locals and labels are known.
fn number_one<'a>(
    spaces: &Spaces<'a>,
    locals: &Namespace<'a>,
    labels: &Labels<'a>,
    instr: &mut Instruction<'a>,
) -> Result<(), AllocError>
    ensures { OnOk result (instruction_tree instr.new ≡ instr_changed (numbering (here spaces.now (space locals.now) (listed same_name labels.now))) (instruction_tree instr.old)) }
{
    let place = Place {
        spaces,
        locals,
        labels,
    };
    change_instruction(&place, instr)
}

/// Goes to where an instruction sees labels: one that closes a block, outside that.
fn see<'a>(step: &Step<'a>, labels: &mut Labels<'a>)
    ensures { labels.new ≡ labels_found (turn_view step.now.turn) labels.old }
{
    if step.turn == Turn::Closes {
        labels.close();
    }
}

/// Goes behind an instruction: one that opens a block, into that. Fails only where no memory is found, or 4294967295 blocks are open.
fn pass<'a>(step: &Step<'a>, labels: &mut Labels<'a>) -> Result<(), AllocError>
    ensures { OnOk result (labels.new ≡ behind (turn_view step.now.turn) (option_map identifier_tree step.now.label) labels.old) }
{
    match step.turn {
        Turn::Opens => labels.open(&step.label),
        Turn::Closes | Turn::Stays => Ok(()),
    }
}
