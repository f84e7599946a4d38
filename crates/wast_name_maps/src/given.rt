//! The names that annotations and identifiers give.
ghost use Rattle.std.specs.Prelude.{◌≡◌, ◌∷◌, [], Some, option_map};
ghost use Rattle.wast_parser.specs.Identifiers.{identifier_tree};
ghost use Rattle.wast_signatures.specs.SignatureViews.{name_tree};
ghost use Rattle.wast_name_maps.specs.Given.{given, identified};
ghost use Rattle.wast_name_maps.specs.Numbered.{NamesJoin};

use crate::names::Names;
use wasm_encoder_base::EncodeError;
use wast_parser::{Id, NameAnnotation};

/// What comes next, with what `@name` says, else its identifier, unless that is made up.
pub(crate) fn add_given(
    name: &Option<NameAnnotation<'_>>,
    id: &Option<Id<'_>>,
    names: &mut Names,
) -> Result<(), EncodeError>
    ensures { NamesJoin result names.old names.new (given (option_map name_tree name.now) (option_map identifier_tree id.now) ∷ []) }
{
    names.add(given(name, id))
}

/// What comes next, with its identifier, unless that is made up.
pub(crate) fn add_identified(id: &Option<Id<'_>>, names: &mut Names) -> Result<(), EncodeError>
    ensures { NamesJoin result names.old names.new (identified (option_map identifier_tree id.now) ∷ []) }
{
    names.add(identified(id))
}

/// The name of an item: what `@name` says, else its identifier, unless that is made up.
pub(crate) fn given<'n, 'a>(
    name: &'n Option<NameAnnotation<'a>>,
    id: &'n Option<Id<'a>>,
) -> Option<&'n str>
    ensures { option_map (λ s. s.now) result ≡ given (option_map name_tree name.now) (option_map identifier_tree id.now) }
{
    match name {
        Some(name) => Some(name.name.as_str()),
        None => identified(id),
    }
}

/// An identifier, unless it is made up.
fn identified<'n, 'a>(id: &'n Option<Id<'a>>) -> Option<&'n str>
    ensures { option_map (λ s. s.now) result ≡ identified (option_map identifier_tree id.now) }
{
    match id {
        Some(id) if !id.is_made() => Some(id.name()),
        _ => None,
    }
}
