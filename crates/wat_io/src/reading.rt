//! From a reader to a list of bytes.

ghost use Rattle.std.specs.Prelude.{◌≡◌, ◌<◌, ◌≤◌, ◌++◌, ℕ, List, [], length, take, vec_len, IfOk, IfSome, MatchBool, OnErr, OnOk};
ghost use Rattle.std.specs.Io.KnownBytes.{Consumes, IsAtEnd};
ghost use Rattle.wat_io.specs.Counted.{after_reading};

use crate::counted::Counted;
use std::alloc::Global;
use std::io::Read;

/// How many bytes one `read` is asked for.
const PIECE: usize = 65536;

/// Why not all was read.
#[derive(Clone, Copy, Debug, PartialEq, Eq)]
pub enum ReadFault {
    /// A call of the reader failed.
    Read,
    /// A growth found no memory.
    Memory,
}

/// Reads until 0 bytes come or there are `bound`. Where that goes well, what is read stands in `input`, which is empty at first.
/// Refused where a call of the reader fails, which is counted, and where no memory is found; `input` holds the first of what was read
/// then.
pub fn read_within<R: Read>(
    alloc: Global,
    input: &mut Vec<u8>,
    reader: &mut Counted<R>,
    bound: usize,
) -> Result<(), ReadFault>
    requires { input.old.items ≡ [] }
    ensures given { (given : List ℕ) × Consumes (R.remaining reader.old.inner) (R.remaining reader.new.inner) given
        × (length given ≤ bound) × OnOk result (input.new.items ≡ given) × (rest : List ℕ) × (given ≡ input.new.items ++ rest) }
    ensures whole { OnOk result (IfSome (R.remaining reader.old.inner) (λ bytes. input.new.items ≡ take bound bytes)) }
    ensures failures { reader.new.failures ≡ after_reading reader.old.failures result }
{
    let Ok(mut piece) = vec![in alloc; 0u8; PIECE] else {
        return Err(ReadFault::Memory);
    };
    while input.len() < bound {
        let room = PIECE.min(bound - input.len());
        match read_piece(input, reader, &mut piece.as_mut_slice()[..room]) {
            Ok(true) => {}
            Ok(false) => return Ok(()),
            Err(fault) => return Err(fault),
        }
    }
    Ok(())
}

/// One read into the piece; what came is put behind the input. The answer is whether more may come.
fn read_piece<R: Read>(
    input: &mut Vec<u8>,
    reader: &mut Counted<R>,
    piece: &mut [u8],
) -> Result<bool, ReadFault>
    requires { 0 < length piece.old }
    ensures given { (given : List ℕ) × Consumes (R.remaining reader.old.inner) (R.remaining reader.new.inner) given
        × (length given ≤ length piece.old) × OnOk result (input.new.items ≡ input.old.items ++ given) }
    ensures stays { OnErr result (input.new.items ≡ input.old.items) }
    ensures more { IfOk result (λ more. MatchBool more (vec_len input.old < vec_len input.new)
        (IsAtEnd (R.remaining reader.new.inner))) }
    ensures failures { reader.new.failures ≡ after_reading reader.old.failures result }
{
    match reader.read(piece) {
        Ok(count) => match input.extend_from_slice(&piece[..count]) {
            Ok(()) => Ok(count > 0),
            Err(_) => Err(ReadFault::Memory),
        },
        Err(_) => Err(ReadFault::Read),
    }
}
