//! Fields that don't keep to what they must.
ghost use Rattle.std.specs.Prelude.{◌≡◌, ◌||◌, false, map, slice_get};
ghost use Rattle.wast_grammar.specs.Spelling.{same_name};
ghost use Rattle.wast_fields.specs.FieldTree.{is_start};
ghost use Rattle.wast_names.specs.Walk.{walked};
ghost use Rattle.wast_core.specs.ModuleFieldViews.{field_tree};
ghost use Rattle.wast_core.specs.ModuleViews.{content_tree, module_tree};
ghost use Rattle.wast_meaning.specs.Modules.{content_fields, module_breaches};
ghost use Rattle.wast_meaning.specs.WellFormed as spec;
ghost use Rattle.wast_meaning.specs.Made.{is_made};

use crate::known::Known;
use crate::outside::{Holds, Outside};
use crate::parts::is_field_bound;
use wast_core::{Module, ModuleField, ModuleKind};
use wast_parser::Span;
use wast_well_formed::{field_formed, is_start};

/// Where the keyword of the first field of a module stands that doesn't keep to what it must (3.4.13, 6.5, 6.6.1 and 6.6, modules), if
/// there is one. The pieces of a binary breach nothing.
pub fn first_breach_of(module: &Module<'_>) -> Option<Span>
    ensures { result ≡ slice_get (module_breaches same_name is_made (module_tree «module».now)) 0 }
{
    first_breach_at(&module.kind)
}

/// The same of what a module holds.
fn first_breach_at(content: &ModuleKind<'_>) -> Option<Span>
    ensures { result ≡ spec.first_breach same_name is_made (content_fields (content_tree content.now)) }
{
    match content {
        ModuleKind::Text(fields) => first_breach_among(fields, content),
        ModuleKind::Binary(_) => None,
    }
}

/// The same of fields, which this holds.
fn first_breach_among<H: Holds>(fields: &[ModuleField<'_>], holder: &H) -> Option<Span>
    requires { H.fields holder.now ≡ map field_tree fields.now }
    ensures { result ≡ spec.first_breach same_name is_made (map field_tree fields.now) }
{
    first_breach_in(Outside { holder }, fields)
}

/// The same of fields, where this is known outside functions.
fn first_breach_in<K: Known>(known: K, fields: &[ModuleField<'_>]) -> Option<Span>
    ensures { result ≡ slice_get (walked (spec.breach same_name is_made (K.scope known)) (λ started f. started || is_start f) false (map field_tree fields.now)) 0 }
{
    let mut started = false;
    for field in fields {
        if !is_well_formed(known, started, field) {
            return Some(field.span());
        }
        started = started || is_start(field);
    }
    None
}

/// Whether a field keeps to what it must, where it stands behind a start or not.
#[tactic(auto, using(crate::proofs::Formed::formed_is))]
fn is_well_formed<K: Known>(known: K, started: bool, field: &ModuleField<'_>) -> bool
    ensures { result ≡ spec.field_formed same_name is_made (K.scope known) started (field_tree field.now) }
{
    field_formed(field, started) && is_field_bound(known, field)
}
