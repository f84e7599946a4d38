//! The words that fields begin with.
ghost use Rattle.std.specs.Prelude.{ℕ, List};
ghost use Rattle.wast_module_fields.specs.FieldWords.{field_word, field_words};

use wast_exports::ExportKind;
use wast_parser::{Spelled, WordSet, find_among};

/// The word of a field (6.6, modules), unless that is an annotation.
#[derive(Clone, Copy)]
pub(crate) enum FieldWord {
    Type,
    Rec,
    Import,
    Defining(ExportKind),
    Export,
    Start,
    Elem,
    Data,
}

const FIELD_WORDS: [FieldWord; 12] = [
    FieldWord::Type,
    FieldWord::Rec,
    FieldWord::Import,
    FieldWord::Defining(ExportKind::Func),
    FieldWord::Defining(ExportKind::Table),
    FieldWord::Defining(ExportKind::Memory),
    FieldWord::Defining(ExportKind::Global),
    FieldWord::Defining(ExportKind::Tag),
    FieldWord::Export,
    FieldWord::Start,
    FieldWord::Elem,
    FieldWord::Data,
];

impl WordSet for FieldWord {
    ghost Entry = { List ℕ };

    ghost entry = { field_word };

    ghost word = { λ w. w };

    ghost entries = { field_words };

    fn of(text: &[u8]) -> Option<Self> {
        find_among(&FIELD_WORDS, text)
    }
}

impl Spelled for FieldWord {
    ghost Entry = { List ℕ };

    ghost entry = { field_word };

    ghost word = { λ w. w };

    fn text(self) -> &'static str {
        match self {
            FieldWord::Type => "type",
            FieldWord::Rec => "rec",
            FieldWord::Import => "import",
            FieldWord::Defining(kind) => kind.text(),
            FieldWord::Export => "export",
            FieldWord::Start => "start",
            FieldWord::Elem => "elem",
            FieldWord::Data => "data",
        }
    }
}
