//! How many parameters the type of a function has.
ghost use Rattle.std.specs.Prelude.{◌≡◌, option_map};
ghost use Rattle.wast_parser.specs.Identifiers.{index_tree};
ghost use Rattle.wast_name_maps.specs.Locals.{count_by};

use wast_parser::Index;
use wast_spaces::count_at;

/// How many the type has that an index means as a number, by the counts of all types.
pub(crate) fn count_by(counts: &[usize], index: &Option<Index<'_>>) -> usize
    ensures { result ≡ count_by counts.now (option_map index_tree index.now) }
{
    match index {
        Some(Index::Num(number, _)) => count_at(counts, *number),
        Some(Index::Id(_)) | None => 0,
    }
}
