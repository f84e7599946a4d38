//! Fields whose type uses have their types.
ghost use Rattle.std.specs.Prelude.{◌≡◌, ℕ, [], ◌∷◌, ◌++◌, Err, IfOk, MatchResult, Ok, OnOk, map};
ghost use Rattle.wast_grammar.specs.Tokens.{Name};
ghost use Rattle.wast_parser.specs.Spelling.{same_name};
ghost use Rattle.wast_module_fields.specs.FieldTree as spec;
ghost use Rattle.wast_module_fields.specs.ModuleFieldViews.{field_tree};
ghost use Rattle.wast_meaning.specs.Numbered.{expanded, implied_field};
ghost use Rattle.wast_implied.specs.Views.{implied_tree, known};
ghost use Rattle.wast_expanded.specs.Expanding.{expanded_by, field_taken};

use crate::implied_field::implied_field;
use crate::in_place::{InPlace, by_value};
use crate::taking::Taking;
use std::alloc::{AllocError, Global};
use wast_changed::{TryEach, try_turn_list};
use wast_changed_fields::change_field;
use wast_deinline::deinline_import_export::discard;
use wast_implied::{Implied, ImpliedType};
use wast_module_fields::ModuleField;

/// The fields with the number of its type in each type use without an index, but for that of a short block, and behind them the types that
/// uses imply. A number stands at the place of its field. Fails only where no memory is found, or there are more than 4294967295 types, which
/// is told as want of memory; the fields are gone then.
pub fn expand<'a>(
    alloc: Global,
    fields: Vec<ModuleField<'a>>,
) -> Result<Vec<ModuleField<'a>>, AllocError>
    ensures { IfOk result (λ out. map field_tree out.items ≡ expanded same_name (map field_tree fields.entry.items)) }
{
    let (fields, outcome) = by_value(&Expands { alloc }, &mut (), fields);
    unless_refused(fields, outcome)
}

/// The fields, unless they are refused. Apart, since the prover has no proof of a match of the pair.
fn unless_refused<'a>(
    fields: Vec<ModuleField<'a>>,
    outcome: Result<(), AllocError>,
) -> Result<Vec<ModuleField<'a>>, AllocError>
    ensures { MatchResult result (λ out. (outcome ≡ Ok tt) × (out ≡ fields.entry)) (λ e. outcome ≡ Err e) }
{
    match outcome {
        Ok(()) => Ok(fields),
        Err(e) => {
            discard(fields);
            Err(e)
        }
    }
}

/// Gives uses their types.
#[derive(Drop)]
struct Expands {
    alloc: Global,
}

impl<'a> InPlace<Vec<ModuleField<'a>>> for Expands {
    type State = ();

    type Answer = ();

    type Refusal = AllocError;

    ghost takes = { λ w s old. Unit {0} };

    ghost done = { λ w s old after new a. map field_tree new.items ≡ expanded same_name (map field_tree old.items) };

    ghost refused = { λ w s old e. Unit {0} };

    ghost leaves = { λ s old after. Unit {0} };

    ghost leaves_refused = { λ s old after e. Unit {0} };

    fn run(&self, _state: &mut (), fields: &mut Vec<ModuleField<'a>>) -> Result<(), AllocError> {
        expand_in_place(self.alloc, fields)
    }
}

/// The same in the fields' place; refused, nothing is promised of them.
pub fn expand_in_place<'a>(
    alloc: Global,
    fields: &mut Vec<ModuleField<'a>>,
) -> Result<(), AllocError>
    ensures { OnOk result (map field_tree fields.new.items ≡ expanded same_name (map field_tree fields.old.items)) }
{
    match Implied::of(alloc, fields) {
        Ok(implied) => expand_known(alloc, &implied, fields),
        Err(e) => Err(e),
    }
}

/// The same by types that are already gathered: those of the fields, or of others. Fails only for want of memory.
fn expand_known<'a>(
    alloc: Global,
    implied: &Implied<'a>,
    fields: &mut Vec<ModuleField<'a>>,
) -> Result<(), AllocError>
    ensures { OnOk result (map field_tree fields.new.items ≡ expanded_by (known implied.now) (map field_tree fields.old.items)) }
{
    try_turn_list(&Takes { alloc, implied }, fields)?;
    push_types(alloc, implied.types(), fields)
}

/// What becomes of fields whose uses take these types.
#[derive(Drop)]
struct Takes<'t, 'a> {
    alloc: Global,
    implied: &'t Implied<'a>,
}

impl<'a> TryEach<ModuleField<'a>> for Takes<'_, 'a> {
    ghost Tree = { spec.Field Name ℕ };

    ghost tree = { field_tree };

    ghost turned = { λ t. field_taken (known t.implied.now) };

    fn try_turn(&self, item: &mut ModuleField<'a>) -> Result<(), AllocError> {
        let implied = self.implied;
        let place = item.span();
        change_field(self.alloc, &Taking { implied, place }, item)
    }
}

/// Appends the fields of implied types.
fn push_types<'a>(
    alloc: Global,
    types: &[ImpliedType<'a>],
    out: &mut Vec<ModuleField<'a>>,
) -> Result<(), AllocError>
    ensures { OnOk result (map field_tree out.new.items ≡ map field_tree out.old.items ++ map implied_field (map implied_tree types.now)) }
{
    for ty in types {
        push_type(alloc, ty, out)?;
    }
    Ok(())
}

/// Appends the field of an implied type.
fn push_type<'a>(
    alloc: Global,
    ty: &ImpliedType<'a>,
    out: &mut Vec<ModuleField<'a>>,
) -> Result<(), AllocError>
    ensures { OnOk result (map field_tree out.new.items ≡ map field_tree out.old.items ++ implied_field (implied_tree ty.now) ∷ []) }
{
    match implied_field(alloc, ty) {
        Ok(field) => push_item(out, field),
        Err(e) => Err(e),
    }
}

/// Appends an item. Fails only for want of memory.
fn push_item<T: Drop>(items: &mut Vec<T>, item: T) -> Result<(), AllocError>
    ensures { OnOk result (items.new.items ≡ items.old.items ++ item ∷ []) }
{
    items.push(item)?;
    Ok(())
}
