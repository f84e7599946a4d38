//! Why no binary was made or written.

use wast_lexer::Span;
use wast_parser_base::Error;

/// Why no text was read, or no binary made or written.
///
/// `TooLong` to `Uncovered` are conditions that the input fails, the first that it does; `TooLarge` speaks of the
/// binary, and `Read`, `Memory` and `Write` of the run.
#[derive(Debug, Drop, thiserror::Error)]
pub enum Fault {
    /// A read failed.
    #[error("cannot read the input")]
    Read,
    /// The input has more than 4294967295 bytes.
    #[error("input longer than 4294967295 bytes")]
    TooLong,
    /// The input is no UTF-8; its longest front that is has `offset` bytes.
    #[error("input isn't UTF-8 at byte {offset}")]
    NotUtf8 { offset: usize },
    /// The input spells no module.
    #[error("{0}")]
    Spelling(Error),
    /// The module spelled isn't well formed, by the place of the keyword of the first field that isn't.
    #[error("module isn't well formed")]
    NotWellFormed(Span),
    /// A demand of names isn't met, as that a name or a type use stands for what it must, that no two items bear one name, or that
    /// imports stand first.
    #[error("{0}")]
    Unmet(Error),
    /// A form that isn't written to binaries: what it is called, in an instruction its mnemonic, and the place of its field.
    #[error("uncovered form: {form}")]
    Uncovered { span: Span, form: &'static str },
    /// A count or length of the binary is past 4294967295.
    #[error("a count or length is past 4294967295")]
    TooLarge,
    /// A growth found no memory.
    #[error("out of memory")]
    Memory,
    /// A write or the flush failed, or a write took nothing; `written` bytes of the binary went out before.
    #[error("cannot write the output after {written} bytes")]
    Write { written: u64 },
}
