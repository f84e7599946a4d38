//! Values one after the other, and the end of a group behind a value. Only a value that any type may have lives here across a call that
//! may be refused, which costs little to prove.
ghost use Rattle.std.specs.Prelude.{◌≡◌, [], ◌∷◌, ℕ, Some, false, IfOk, IfErr, codes};
ghost use Rattle.wast_grammar.specs.Look.{On, AClose, Any, ask};
ghost use Rattle.wast_grammar.specs.Spelling.{that_close};
ghost use Rattle.wast_grammar.specs.Grammar.{seq, one_of};
ghost use Rattle.wast_parser_core.specs.State.{ahead, Keeps, place_ahead};
ghost use Rattle.wast_parser_core.specs.Reading.{Gives, SaysAt};

use crate::meaning::Parse;
use crate::option::required;
use crate::paren::RParen;
use crate::parser::Parser;
use wast_parser_base::Error;

/// Reads a value and one behind it, of types that register no annotation. Refused where they aren't spelled here, or for want of
/// memory; the depth and the registered names stay then, and the parser goes back nowhere.
pub fn pair<'a, A: Parse<'a>, B: Parse<'a>>(parser: &mut Parser<'a>) -> Result<(A, B), Error>
    requires first { A.registers ≡ [] }
    requires second { B.registers ≡ [] }
    ensures read { Gives (λ p. (A.tree p.0, B.tree p.1)) result parser.new ((seq A.syntax B.syntax).reads (ahead parser.old)) }
    ensures keeps { Keeps parser.old parser.new }
{
    let first = A::parse(parser)?;
    let second = B::parse(parser)?;
    Ok((first, second))
}

/// Takes the parenthesis that closes a group, and answers the value that stands before it. Refused where none closes here; the
/// value is let go then.
pub fn closed<'a, T: Drop>(parser: &mut Parser<'a>, value: T) -> Result<T, Error>
    ensures read { (place : ℕ) × Gives (λ _. place) result parser.new (one_of that_close (ahead parser.old)) }
    ensures same { IfOk result (λ v. v ≡ value) }
    ensures keeps { Keeps parser.old parser.new }
    ensures told { ask (On false AClose Any ∷ []) (ahead parser.old) ≡ Some false → IfErr result (SaysAt (codes "expected `)`") (place_ahead parser.old)) }
    ensures stays { ask (On false AClose Any ∷ []) (ahead parser.old) ≡ Some false → parser.new ≡ parser.old }
{
    closed_or(parser, value, "expected `)`")
}

/// The same, which says this where no parenthesis closes here.
pub fn closed_or<'a, T: Drop>(parser: &mut Parser<'a>, value: T, message: &str) -> Result<T, Error>
    ensures read { (place : ℕ) × Gives (λ _. place) result parser.new (one_of that_close (ahead parser.old)) }
    ensures same { IfOk result (λ v. v ≡ value) }
    ensures keeps { Keeps parser.old parser.new }
    ensures told { ask (On false AClose Any ∷ []) (ahead parser.old) ≡ Some false → IfErr result (SaysAt message.now (place_ahead parser.old)) }
    ensures stays { ask (On false AClose Any ∷ []) (ahead parser.old) ≡ Some false → parser.new ≡ parser.old }
{
    required::<RParen>(parser, message)?;
    Ok(value)
}
