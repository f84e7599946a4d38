//! Flags of symbols.
ghost use Rattle.std.specs.Prelude.{◌≡◌, ℕ, map, refl, false};
ghost use Rattle.wast_parser.specs.State.{ahead, Keeps};
ghost use Rattle.wast_parser.specs.Reading.{Gives};
ghost use Rattle.wast_customs.specs.DylinkSyntax as words;
ghost use Rattle.wast_customs.specs.DylinkSyntax.{flag_word, flag_bit, symbol_flags, all_flags, flag, flags};
ghost use Rattle.wast_customs.specs.CustomViews.{flag_view};

use wast_parser::{
    Cursor, Error, Item, Meaning, Parse, Parser, Peek, Spelled, WordSet, find_among, list_of,
};

/// A flag that has a word.
#[derive(Clone, Copy)]
pub(crate) enum SymbolFlag {
    BindingWeak,
    BindingLocal,
    VisibilityHidden,
    Undefined,
    Exported,
    ExplicitName,
    NoStrip,
}

const FLAGS: [SymbolFlag; 7] = [
    SymbolFlag::BindingWeak,
    SymbolFlag::BindingLocal,
    SymbolFlag::VisibilityHidden,
    SymbolFlag::Undefined,
    SymbolFlag::Exported,
    SymbolFlag::ExplicitName,
    SymbolFlag::NoStrip,
];

impl WordSet for SymbolFlag {
    ghost Entry = { words.SymbolFlag };

    ghost entry = { flag_view };

    ghost word = { flag_word };

    ghost entries = { symbol_flags };

    fn of(text: &[u8]) -> Option<Self> {
        find_among(&FLAGS, text)
    }
}

impl Spelled for SymbolFlag {
    ghost Entry = { words.SymbolFlag };

    ghost entry = { flag_view };

    ghost word = { flag_word };

    fn text(self) -> &'static str {
        match self {
            SymbolFlag::BindingWeak => "binding-weak",
            SymbolFlag::BindingLocal => "binding-local",
            SymbolFlag::VisibilityHidden => "visibility-hidden",
            SymbolFlag::Undefined => "undefined",
            SymbolFlag::Exported => "exported",
            SymbolFlag::ExplicitName => "explicit-name",
            SymbolFlag::NoStrip => "no-strip",
        }
    }
}

impl SymbolFlag {
    fn bit(self) -> u32
        ensures { result ≡ flag_bit (flag_view self) }
    {
        match self {
            SymbolFlag::BindingWeak => 1,
            SymbolFlag::BindingLocal => 2,
            SymbolFlag::VisibilityHidden => 4,
            SymbolFlag::Undefined => 16,
            SymbolFlag::Exported => 32,
            SymbolFlag::ExplicitName => 64,
            SymbolFlag::NoStrip => 128,
        }
    }
}

/// Flags that are written as one number, or one word.
#[derive(Clone, Copy)]
struct Flag {
    bits: u32,
}

impl Meaning for Flag {
    ghost Tree = { ℕ };

    ghost tree = { λ f. f.bits };

    ghost syntax = { flag };

    fn lawful() {}
}

impl<'a> Parse<'a> for Flag {
    fn parse(parser: &mut Parser<'a>) -> Result<Self, Error> {
        if parser.peek::<u32>()? {
            let bits = u32::parse(parser)?;
            Ok(Flag { bits })
        } else {
            let (word, _) = parser.among::<SymbolFlag>("expected a flag")?;
            Ok(Flag { bits: word.bit() })
        }
    }
}

impl Peek for Flag {
    ghost plain = { refl };

    ghost sure = { refl };

    fn leads() {}

    fn peek(cursor: Cursor<'_, '_>) -> Result<bool, Error> {
        match cursor.peek_integer() {
            Ok(true) => Ok(true),
            Ok(false) => cursor.peek_among::<SymbolFlag>(),
            Err(e) => Err(e),
        }
    }

    fn display() -> &'static str {
        "a flag"
    }
}

impl Item for Flag {
    ghost inside = { refl };
}

/// All flags that follow, in one number.
pub(crate) fn parse_flags(parser: &mut Parser<'_>) -> Result<u32, Error>
    ensures read { Gives (λ n. n) result parser.new (flags.reads (ahead parser.old)) }
    ensures keeps { Keeps parser.old parser.new }
{
    let flags: Vec<Flag> = list_of(parser)?;
    Ok(all_bits(&flags))
}

fn all_bits(flags: &[Flag]) -> u32
    ensures { result ≡ all_flags (map (λ f. f.bits) flags.now) }
{
    let mut bits = 0;
    for flag in flags {
        bits |= flag.bits;
    }
    bits
}
