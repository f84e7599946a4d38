//! One or none, one that has to be there, and one in a box.
ghost use Rattle.std.specs.Prelude.{◌≡◌, Option, option_map, Some, false, IfOk, IfErr};
ghost use Rattle.wast_grammar.specs.Look.{ask};
ghost use Rattle.wast_grammar.specs.Grammar.{maybe};
ghost use Rattle.wast_parser_core.specs.State.{ahead, Keeps, place_ahead};
ghost use Rattle.wast_parser_core.specs.Reading.{Gives, SaysAt};

use crate::meaning::{Item, Meaning, Parse, Peek};
use crate::parser::Parser;
use wast_parser_base::Error;

impl<T: Item> Meaning for Option<T> {
    ghost Tree = { Option T.Tree };

    ghost tree = { option_map T.tree };

    ghost syntax = { maybe T.syntax.starts T.syntax };

    fn lawful() {
        T::lawful();
    }
}

impl<'a, T: Parse<'a> + Item> Parse<'a> for Option<T> {
    fn parse(parser: &mut Parser<'a>) -> Result<Self, Error> {
        if parser.peek::<T>()? {
            Ok(Some(T::parse(parser)?))
        } else {
            Ok(None)
        }
    }
}

/// Reads one where one begins, and takes its tokens. Refused elsewhere with this message, at the next token, which isn't taken, and
/// where one that begins isn't read, where no token can be read, or for want of memory. Asks for something of which no spelling is
/// nothing.
pub fn required<'a, T: Parse<'a> + Peek>(parser: &mut Parser<'a>, message: &str) -> Result<T, Error>
    requires { T.syntax.empty ≡ false }
    ensures read { Gives T.tree result parser.new (T.syntax.reads (ahead parser.old)) }
    ensures keeps { Keeps parser.old parser.new }
    ensures told { ask T.syntax.starts (ahead parser.old) ≡ Some false → IfErr result (SaysAt message.now (place_ahead parser.old)) }
    ensures stays { ask T.syntax.starts (ahead parser.old) ≡ Some false → parser.new ≡ parser.old }
    ensures missing { ask T.syntax.starts (ahead parser.old) ≡ Some false → IfOk result (λ _. ⊥) }
{
    T::lawful();
    match parser.peek::<T>() {
        Ok(true) => T::parse(parser),
        Ok(false) => Err(parser.error(message)),
        Err(e) => Err(e),
    }
}

impl<T: Meaning> Meaning for Box<T> {
    ghost Tree = { T.Tree };

    ghost tree = { λ b. T.tree b.value };

    ghost syntax = { T.syntax };

    ghost registers = { T.registers };

    fn lawful() {
        T::lawful();
    }
}

impl<'a, T: Parse<'a>> Parse<'a> for Box<T> {
    fn parse(parser: &mut Parser<'a>) -> Result<Self, Error> {
        let value = T::parse(parser)?;
        Ok(Box::new(parser.alloc(), value)?)
    }
}
