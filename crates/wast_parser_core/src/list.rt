//! Lists.
ghost use Rattle.std.specs.Prelude.{map};
ghost use Rattle.wast_grammar.specs.Grammar.{many};
ghost use Rattle.wast_parser_core.specs.State.{ahead, Keeps};
ghost use Rattle.wast_parser_core.specs.Reading.{Gives};

use crate::meaning::{Item, Parse};
use crate::parser::Parser;
use wast_parser_base::Error;

/// As many as there are, one after the other. Refused where one that begins isn't read, where no token can be read, or for want
/// of memory; the depth and the registered names stay then, and the parser goes back nowhere.
pub fn list_of<'a, T: Parse<'a> + Item>(parser: &mut Parser<'a>) -> Result<Vec<T>, Error>
    ensures read { Gives (λ v. map T.tree v.items) result parser.new ((many T.syntax.starts T.syntax).reads (ahead parser.old)) }
    ensures keeps { Keeps parser.old parser.new }
{
    T::lawful();
    let mut items = Vec::new(parser.alloc());
    'items: loop {
        match parser.peek::<T>() {
            Ok(true) => match T::parse(parser) {
                Ok(item) => items.push(item)?,
                Err(e) => return Err(e),
            },
            Ok(false) => return Ok(items),
            Err(e) => return Err(e),
        }
    }
}
