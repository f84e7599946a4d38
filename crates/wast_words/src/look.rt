//! Looks for one or the other.
ghost use Rattle.std.specs.Prelude.{◌≡◌, List, true};
ghost use Rattle.wast_parser.specs.Look.{Test, ask, apart, faults, join};
ghost use Rattle.wast_parser.specs.State.{ahead};
ghost use Rattle.wast_parser.specs.Reading.{Asks};
ghost use Rattle.wast_parser.specs.Cursors.{stands};

use wast_parser::{Cursor, Error, Peek};

/// What another look found here, or else whether one begins here: what both ask, joined. Refused where that look was, or this one is;
/// neither may ask for what the other takes for a fault.
pub fn or_peek<T: Peek>(found: Result<bool, Error>, cursor: Cursor<'_, '_>) -> Result<bool, Error>
    ensures { (tests : List Test) → apart (faults (join tests T.syntax.starts)) (join tests T.syntax.starts) ≡ true → Asks found (stands cursor.entry).source (ask tests (ahead (stands cursor.entry))) → Asks result (stands cursor.entry).source (ask (join tests T.syntax.starts) (ahead (stands cursor.entry))) }
{
    match found {
        Ok(true) => Ok(true),
        Ok(false) => T::peek(cursor),
        Err(e) => Err(e),
    }
}
