//! Parentheses that a loop opens and closes, in no order of calls: depth is left as it is.
ghost use Rattle.wast_parser.specs.Spelling.{that_open, that_close};
ghost use Rattle.wast_parser.specs.Grammar.{one_of};
ghost use Rattle.wast_parser.specs.State.{ahead, Keeps};
ghost use Rattle.wast_parser.specs.Reading.{Gives};
ghost use Rattle.wast_expressions.specs.Views.{arm_word};

use wast_parser::{Error, Keyword, KeywordName, LParen, Parse, Parser, RParen, Span, required};

/// Takes a parenthesis that opens; answers where it stands.
pub(crate) fn open(parser: &mut Parser<'_>) -> Result<Span, Error>
    ensures read { Gives (λ s. s) result parser.new (one_of that_open (ahead parser.old)) }
    ensures keeps { Keeps parser.old parser.new }
{
    match LParen::parse(parser) {
        Ok(parenthesis) => Ok(parenthesis.span),
        Err(e) => Err(e),
    }
}

/// Takes a parenthesis that closes; answers where it stands.
pub(crate) fn close(parser: &mut Parser<'_>) -> Result<Span, Error>
    ensures read { Gives (λ s. s) result parser.new (one_of that_close (ahead parser.old)) }
    ensures keeps { Keeps parser.old parser.new }
{
    match RParen::parse(parser) {
        Ok(parenthesis) => Ok(parenthesis.span),
        Err(e) => Err(e),
    }
}

/// Takes a parenthesis that opens, and the word `N` behind it; answers where the word stands. The messages tell what is expected
/// where no parenthesis opens, and where another word stands.
pub(crate) fn open_word<N: KeywordName>(
    parser: &mut Parser<'_>,
    group: &str,
    word: &str,
) -> Result<Span, Error>
    ensures read { Gives (λ s. s) result parser.new (arm_word N.word (ahead parser.old)) }
    ensures keeps { Keeps parser.old parser.new }
{
    required::<LParen>(parser, group)?;
    let word = required::<Keyword<N>>(parser, word)?;
    Ok(word.span)
}
