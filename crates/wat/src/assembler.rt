//! From the bytes of a text to the bytes of a binary.

ghost use Rattle.std.specs.Prelude.{◌≡◌, ◌↔◌, ◌+◌, ◌<◌, ◌≤◌, ◌^◌, ℕ, IsTrue, false, true, length, None, Some, Err, MatchResult, IfErr, IfOk, OnOk};
ghost use Rattle.std.specs.Str.{IsUtf8};
ghost use Rattle.wast_parser.specs.Problem.{Problem, is_memory};
ghost use Rattle.wast_parser.specs.Table.{IsTable};
ghost use Rattle.wast_meaning.specs.Modules.{content_fields};
ghost use Rattle.wast_encode.specs.Encoded as encoded;
ghost use Rattle.wast_encode.specs.Encoded.{CountsFor, IsCalledAlike, IsRefusedFor, LeavesFor, counter_after, is_pieces, module_by};
ghost use Rattle.wat_verdict.specs.Verdict.{Assembles, Fails, TooLong, NotUtf8, tree_breach};
ghost use Rattle.wat.specs.Headline.{Deserves};
ghost use Rattle.wat.specs.NoText.{IsNoText};
ghost use Rattle.wat.specs.Judged.{IsAnswered, IsEncoded, IsJudged, IsTold, as_fault};
ghost use Rattle.wat.specs.TextViews.{wat_tree};

use crate::fault::Fault;
use crate::text::{Wat, parse_text};
use std::alloc::Global;
use wast_core::{Module, ModuleKind};
use wast_encode::{EncodeFault, EncodeOptions, ResolveModule};
use wast_parser::{Gensym, ParseBuffer, Span};

/// The binary of the module that a text spells.
///
/// Answers a binary exactly where, memory found and no count or length of the binary past 4294967295, `input` is a UTF-8 text of at most
/// 4294967295 bytes that spells a well formed module all of whose demands of names are met and all of whose forms have a binary; of a
/// `binary` module the answer is its pieces, joined. Else it answers the fault of the first condition that fails. A module that is
/// spelled and isn't well formed is `NotWellFormed`, with the place of the keyword of the first field that isn't. One whose demands of
/// names aren't all met, as that each name and type use stands for what it must, that no two items bear one name, and that imports stand
/// first, is `Unmet`, by an error that tells the first that isn't. One with a form that isn't written to binaries is `Uncovered`, with
/// the first, and the place of the keyword of its field. `TooLarge` comes exactly where, memory found, a count or length of the binary
/// meant is past 4294967295, and `Memory` where a growth found no memory. The length and UTF-8 are tested without memory.
pub fn assemble(alloc: Global, input: &[u8]) -> Result<Vec<u8>, Fault>
    ensures answers { MatchResult result (λ binary. Assembles input.now binary.items) (λ fault. Deserves input.now fault) }
    ensures too_long { Fails input.now TooLong → result ≡ Err Fault.TooLong }
    ensures not_utf8 { (n : ℕ) → Fails input.now (NotUtf8 n) → result ≡ Err (Fault.NotUtf8 n) }
{
    let text = match utf8_of(input) {
        Ok(text) => text,
        Err(fault) => return Err(fault),
    };
    let buffer = match ParseBuffer::new(alloc, text) {
        Ok(buffer) => buffer,
        Err(_) => return Err(Fault::Memory),
    };
    binary_of_text(alloc, &buffer)
}

/// The binary of a text that is read. It answers, and leaves the module of the text and `gensym`, as [`EncodeOptions::encode_module`] does. The text
/// is well formed, and there is room for a name of `gensym` for each of its fields; of one that was refused before nothing is asked.
pub fn encode_wat(
    alloc: Global,
    options: &EncodeOptions,
    wat: &mut Wat<'_>,
    gensym: &mut Gensym,
) -> Result<Vec<u8>, EncodeFault>
    requires formed { (wat_tree wat.old).refusal ≡ None → tree_breach (wat_tree wat.old) ≡ None }
    requires room { (wat_tree wat.old).refusal ≡ None → gensym.old + length (content_fields (wat_tree wat.old).content) < 2 ^ 32 }
    ensures binary { IfOk result (λ binary. encoded.IsBinaryOf gensym.old (wat_tree wat.old) (wat_tree wat.old).content binary.items) }
    ensures fault { (wat_tree wat.old).refusal ≡ None → IfErr result (encoded.Deserves gensym.old (wat_tree wat.old)) }
    ensures resolved { OnOk result (((wat_tree wat.old).refusal ≡ None) × (wat_tree wat.new ≡ module_by gensym.old (wat_tree wat.old))) }
    ensures left { (wat_tree wat.old).refusal ≡ None → IfErr result (LeavesFor gensym.old (wat_tree wat.old) (wat_tree wat.new)) }
    ensures refused { (why : Problem) → (wat_tree wat.old).refusal ≡ Some why → IfErr result (IsRefusedFor why) }
    ensures kept { (why : Problem) → (wat_tree wat.old).refusal ≡ Some why → wat_tree wat.new ≡ wat_tree wat.old }
    ensures pieces { (wat_tree wat.old).refusal ≡ None → is_pieces (wat_tree wat.old).content ≡ true → wat_tree wat.new ≡ wat_tree wat.old }
    ensures called { IsCalledAlike (wat_tree wat.old) (wat_tree wat.new) }
    ensures counted { OnOk result (gensym.new ≡ counter_after gensym.old (content_fields (wat_tree wat.old).content)) }
    ensures reached { IfErr result (CountsFor gensym.old (wat_tree wat.old) gensym.new) }
    ensures taken { (wat_tree wat.old).refusal ≡ None → (wat_tree wat.new).refusal ≡ None → gensym.new ≡ counter_after gensym.old (content_fields (wat_tree wat.old).content) }
    ensures counted_unmet { (wat_tree wat.old).refusal ≡ None → (why : Problem) → (wat_tree wat.new).refusal ≡ Some why → is_memory why.cause ≡ false → gensym.new ≡ counter_after gensym.old (content_fields (wat_tree wat.old).content) }
    ensures rises { gensym.old ≤ gensym.new }
    ensures bounded { gensym.new ≤ counter_after gensym.old (content_fields (wat_tree wat.old).content) }
    ensures uncounted { (why : Problem) → (wat_tree wat.old).refusal ≡ Some why → gensym.new ≡ gensym.old }
{
    match wat {
        Wat::Module(module) => options.encode_module(alloc, module, gensym),
    }
}

/// The binary of the module that the text of a buffer spells.
fn binary_of_text<'a>(alloc: Global, buffer: &'a ParseBuffer<'a>) -> Result<Vec<u8>, Fault>
    requires { IsTable false buffer.now.text buffer.now.tokens buffer.now.fault }
    ensures { MatchResult result (λ binary. IsAnswered buffer.now.text binary.items) (λ fault. IsTold buffer.now.text fault) }
{
    match parse_text(buffer) {
        Ok(mut text) => binary_of(alloc, &mut text),
        Err(error) if error.is_memory() => Err(Fault::Memory),
        Err(error) => Err(Fault::Spelling(error)),
    }
}

/// The binary of a text that is read. A new counter has names for as many fields as 4294967295, and no text is long enough for more.
fn binary_of(alloc: Global, text: &mut Wat<'_>) -> Result<Vec<u8>, Fault>
    requires { (wat_tree text.old).refusal ≡ None }
    ensures { MatchResult result (λ binary. IsEncoded (wat_tree text.old) binary.items) (λ fault. IsJudged (wat_tree text.old) fault) }
{
    if let Some(place) = first_breach(text) {
        return Err(Fault::NotWellFormed(place));
    }
    if !is_numbered(text) {
        return Err(Fault::Memory);
    }
    match encode_wat(alloc, &EncodeOptions::new(), text, &mut Gensym::new()) {
        Ok(binary) => Ok(binary),
        Err(fault) => Err(fault_of(fault)),
    }
}

/// Where the keyword of the first field stands that isn't well formed.
fn first_breach(text: &Wat<'_>) -> Option<Span>
    ensures { result ≡ tree_breach (wat_tree text.now) }
{
    let Wat::Module(module) = text;
    module.well_formed()
}

/// Whether the fields of a text can be numbered.
fn is_numbered(text: &Wat<'_>) -> bool
    ensures { IsTrue result ↔ (length (content_fields (wat_tree text.now).content) < 2 ^ 32) }
{
    let Wat::Module(module) = text;
    match &module.kind {
        ModuleKind::Text(fields) => fields.len() <= 4294967295,
        ModuleKind::Binary(_) => true,
    }
}

/// The fault that a fault of encoding is.
fn fault_of(fault: EncodeFault) -> Fault
    ensures { result ≡ as_fault fault }
{
    match fault {
        EncodeFault::Unmet(error) => Fault::Unmet(error),
        EncodeFault::Uncovered { span, form } => Fault::Uncovered { span, form },
        EncodeFault::TooLarge => Fault::TooLarge,
        EncodeFault::Memory => Fault::Memory,
    }
}

/// The input as a text; takes no memory.
fn utf8_of(input: &[u8]) -> Result<&str, Fault>
    ensures { MatchResult result (λ text. (text.now ≡ input.now) × (length input.now < 2 ^ 32) × IsUtf8 input.now) (λ fault. IsNoText input.now fault) }
{
    if input.len() > 4294967295 {
        return Err(Fault::TooLong);
    }
    match str::from_utf8(input) {
        Ok(text) => Ok(text),
        Err(error) => Err(Fault::NotUtf8 {
            offset: error.valid_up_to(),
        }),
    }
}
