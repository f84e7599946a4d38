//! Whose name it is.
ghost use Rattle.std.specs.Prelude.{◌≡◌, option_map};
ghost use Rattle.wast_parser.specs.Spelling.{same_name};
ghost use Rattle.wast_parser.specs.Identifiers.{identifier_tree};
ghost use Rattle.wast_names.specs.Position.{bears};
ghost use Rattle.wast_names.specs.Space.{name_in};

use wast_parser::Id;

/// Whether an item with this identifier, or with none, bears a name.
pub fn is_borne(own: &Option<Id<'_>>, id: &Id<'_>) -> bool
    ensures { result ≡ bears same_name (identifier_tree id.now).0 (name_in (option_map identifier_tree own.now)) }
{
    match own {
        Some(own) => own == id,
        None => false,
    }
}
