//! Modules.
ghost use Rattle.std.specs.Prelude.{◌≡◌, ℕ, map};
ghost use Rattle.wast_grammar.specs.Tokens.{Name};
ghost use Rattle.wast_core.specs.ModuleFieldViews.{field_tree};
ghost use Rattle.wast_core.specs.ModuleViews.{module_tree};
ghost use Rattle.wast_meaning.specs.Modules.{content_fields};
ghost use Rattle.wast_meant.specs.Covered.{first_form, uncovered};
ghost use Rattle.wast_uncovered.specs.First.{placed};

use crate::form::HasForms;
use wast_core::{Module, ModuleField, ModuleKind};
use wast_parser::Span;

/// The first form of a module that has no binary (6.6): where the keyword of the field stands in which it is written, and what the form is
/// called, by its mnemonic where it stands in an instruction. None where the whole module has a binary; the pieces of a binary are one.
pub fn uncovered(module: &Module<'_>) -> Option<(Span, &'static str)>
    ensures { (naming : ℕ → Name) → placed result ≡ uncovered naming (content_fields (module_tree «module».now).content) }
{
    match &module.kind {
        ModuleKind::Text(fields) => first_uncovered(fields),
        ModuleKind::Binary(_) => None,
    }
}

/// The same of fields, as they are written.
fn first_uncovered(fields: &[ModuleField<'_>]) -> Option<(Span, &'static str)>
    ensures { placed result ≡ first_form (map field_tree fields.now) }
{
    for field in fields {
        if let Some(form) = field.first_form() {
            return Some((field.span(), form));
        }
    }
    None
}
