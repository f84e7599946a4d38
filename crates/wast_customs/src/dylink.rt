//! The section `dylink.0`.
ghost use Rattle.std.specs.Prelude.{◌≡◌};
ghost use Rattle.wast_customs.specs.Dylink.{subsection_id, payload, PayloadFits};
ghost use Rattle.wast_customs.specs.CustomViews.{subsection_tree};

use std::alloc::Global;
use std::borrow::CowStr;
use wast_lexer::Span;
use wast_parser::{Encode, EncodeError};

/// What a dynamic linker has to know: `(@dylink.0 (needed "a.so") ..)`. Neighbouring groups that speak of exports, or of
/// imports, are read as one subsection.
#[derive(Drop)]
pub struct Dylink0<'a> {
    /// Where the annotation's name stands.
    pub span: Span,
    pub subsections: Vec<Dylink0Subsection<'a>>,
}

/// A subsection. It encodes as what follows its number and its size.
#[derive(Drop)]
pub enum Dylink0Subsection<'a> {
    /// The size of the memory in bytes, that of the table in elements, and alignments by their logarithms to the base 2.
    MemInfo {
        memory_size: u32,
        memory_align: u32,
        table_size: u32,
        table_align: u32,
    },
    /// The names of libraries that have to be there.
    Needed(Vec<CowStr<'a, Global>>),
    /// Names and flags.
    ExportInfo(Vec<(CowStr<'a, Global>, u32)>),
    /// Names of modules and of imports, and flags.
    ImportInfo(Vec<(CowStr<'a, Global>, CowStr<'a, Global>, u32)>),
    /// Where libraries are looked for.
    RuntimePath(Vec<CowStr<'a, Global>>),
}

impl<'a> Dylink0Subsection<'a> {
    /// Its number.
    pub fn id(&self) -> u8
        ensures { result ≡ subsection_id (subsection_tree self.now) }
    {
        match self {
            Dylink0Subsection::MemInfo { .. } => 1,
            Dylink0Subsection::Needed(_) => 2,
            Dylink0Subsection::ExportInfo(_) => 3,
            Dylink0Subsection::ImportInfo(_) => 4,
            Dylink0Subsection::RuntimePath(_) => 5,
        }
    }
}

/// What follows its number and its size.
impl<'a> Encode for Dylink0Subsection<'a> {
    ghost fits = { λ s. PayloadFits (subsection_tree s) };

    ghost spelling = { λ s. payload (subsection_tree s) };

    fn encode(&self, sink: &mut Vec<u8>) -> Result<(), EncodeError> {
        match self {
            Dylink0Subsection::MemInfo {
                memory_size,
                memory_align,
                table_size,
                table_align,
            } => (memory_size, (memory_align, (table_size, table_align))).encode(sink),
            Dylink0Subsection::Needed(names) => names.encode(sink),
            Dylink0Subsection::ExportInfo(exports) => exports.encode(sink),
            Dylink0Subsection::ImportInfo(imports) => imports.encode(sink),
            Dylink0Subsection::RuntimePath(names) => names.encode(sink),
        }
    }
}
