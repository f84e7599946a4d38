//! What the syntax trees of the texts on standard input hold, one text a line.
//!
//! A line is a word, which says which part of the syntax is asked for, and the text:
//! - `type KIND TEXT`: types, signatures, definitions, uses and locals, printed without abbreviations, or that the text is refused;
//!   of the kinds `storage-copy`, `table-copy` and `global-copy` what is printed is a copy of what was read;
//! - `import KIND TEXT`: imports, items, types of exports and of tags, and what fields are called, in the same way; behind imports
//!   where what each of them is of stands;
//! - `data TEXT`: a value of a data segment, printed as how many bytes it is, and these;
//! - `instr TEXT`: the instructions to which its items unfold, one a line, and the hints, or that the text is refused;
//! - `folded TEXT`: the same of an instruction behind its operands;
//! - `counted TEXT`: the same as `instr`, by the call that counts the turns of its loop;
//! - `operands KIND TEXT`: indices that stand behind a mnemonic, or that the text is refused;
//! - `mnemonic TEXT`: whether it is one instruction;
//! - `custom TEXT`: a custom field: its name, its place and where it stands; then its data, its producers, or its
//!   subsections, each by its number and its bytes;
//! - `export TEXT`: an export: its name, its kind and what it refers to;
//! - `inline TEXT`: the names of inline exports, and behind them the two of an inline import.
#![tactic(auto)]

ghost use Rattle.std.specs.Prelude.{◌^◌, ◌<◌, length};

mod customs;
mod data;
mod exports;
mod imports;
mod instr;
mod operands;
mod show;
mod types;
mod values;

use row_page::{Page, first_word};
use std::io;
use wast_customs::Custom;
use wast_data::DataVal;
use wast_exports::Export;
use wast_parser::{Error, ParseBuffer, Parser};

fn main(rt: HostRuntime) -> io::Result<()> {
    Page::new(rt).answer_lines(answer)
}

/// Prints a line, and what it asks for.
fn answer(page: &Page, line: &str) {
    page.put("> ");
    page.put_line(line);
    let (word, rest) = first_word(line);
    if word == "type" || word == "import" || word == "operands" {
        let (kind, text) = first_word(rest);
        answer_of(page, word, kind, text);
    } else {
        answer_of(page, word, "", rest);
    }
}

/// Prints what a word asks of a text, and a kind where it asks for one of several.
fn answer_of(page: &Page, word: &str, kind: &str, text: &str) {
    if 4_294_967_295 < text.len() {
        page.put("too long\n");
    } else if let Err(error) = print_text(page, word, kind, text) {
        print_refusal(page, word, &error);
    }
}

/// Prints that a text is refused, and where that is asked for.
fn print_refusal(page: &Page, word: &str, error: &Error) {
    if error.is_memory() {
        page.put("out of memory\n");
    } else {
        match word {
            "custom" | "export" | "inline" => {
                writeln!(page, "refused at {}", error.span().offset())
            }
            _ => page.put("refused\n"),
        }
    }
}

/// Prints what a word asks of a text, or tells why that is refused.
fn print_text(page: &Page, word: &str, kind: &str, text: &str) -> Result<(), Error>
    requires { length text.now < 2 ^ 32 }
{
    let buffer = ParseBuffer::new(page.alloc(), text)?;
    print(page, word, kind, &mut Parser::new(&buffer))
}

fn print(page: &Page, word: &str, kind: &str, parser: &mut Parser<'_>) -> Result<(), Error> {
    register(parser, word)?;
    print_part(page, word, kind, parser)
}

/// The annotations of what a word asks for.
fn register(parser: &mut Parser<'_>, word: &str) -> Result<(), Error> {
    match word {
        "type" | "import" => parser.register_annotation("name"),
        "instr" | "folded" | "counted" => parser.register_annotation("metadata.code.branch_hint"),
        "custom" => register_customs(parser),
        _ => Ok(()),
    }
}

fn register_customs(parser: &mut Parser<'_>) -> Result<(), Error> {
    parser.register_annotation("custom")?;
    parser.register_annotation("producers")?;
    parser.register_annotation("dylink.0")
}

fn print_part(page: &Page, word: &str, kind: &str, parser: &mut Parser<'_>) -> Result<(), Error> {
    match word {
        "type" => types::print(page, kind, parser),
        "import" => imports::print(page, kind, parser),
        "data" => show::show_all::<DataVal>(page, parser),
        "instr" => instr::unfold(page, parser, false),
        "folded" => instr::unfold(page, parser, true),
        "counted" => instr::counted(page, parser),
        "operands" => operands::print(page, kind, parser),
        "mnemonic" => instr::mnemonic(page, parser),
        "custom" => show::show_all::<Custom>(page, parser),
        "export" => show::show_all::<Export>(page, parser),
        "inline" => exports::print_inline(page, parser),
        _ => {
            page.put("no such word\n");
            Ok(())
        }
    }
}
