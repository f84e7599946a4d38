//! Sizes of tables and memories.
ghost use Rattle.wast_parser.specs.State.{ahead, Keeps};
ghost use Rattle.wast_parser.specs.Reading.{Gives};
ghost use Rattle.wast_field_syntax.specs.TableSyntax.{sizes};

use wast_parser::{Error, Parse, Parser};

/// Reads the limits of which the address type is read: the least size, and the greatest where one is written, of a table in elements, of a
/// memory in pages. Refused where no least size is spelled here, where a size has a minus sign or is past 64 bits, where no token can
/// be read, or for want of memory.
pub fn parse_sizes(parser: &mut Parser<'_>) -> Result<(u64, Option<u64>), Error>
    ensures read { Gives (λ s. s) result parser.new (sizes.reads (ahead parser.old)) }
    ensures keeps { Keeps parser.old parser.new }
{
    let min = u64::parse(parser)?;
    let max = parser.parse()?;
    Ok((min, max))
}
