//! Lists that are kept.
ghost use Rattle.std.specs.Prelude.{map};
ghost use Rattle.wast_parser.specs.Grammar.{many};
ghost use Rattle.wast_parser.specs.State.{ahead, Keeps};
ghost use Rattle.wast_parser.specs.Reading.{Gives};

use wast_parser::{Error, Item, Parse, Parser, list_of};

/// Reads as many as there are, one after the other; what the list takes beyond them is given back, where that can be (no clause sees it). Refused
/// where one that begins isn't read, where no token can be read, or for want of memory.
pub fn full_list<'a, T: Parse<'a> + Item>(parser: &mut Parser<'a>) -> Result<Vec<T>, Error>
    ensures read { Gives (λ v. map T.tree v.items) result parser.new ((many T.syntax.starts T.syntax).reads (ahead parser.old)) }
    ensures keeps { Keeps parser.old parser.new }
{
    let mut items = list_of(parser)?;
    items.shrink_to_fit();
    Ok(items)
}
