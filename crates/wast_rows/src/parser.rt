//! What the parser reads of a text.
ghost use Rattle.std.specs.Prelude.{◌≡◌, [], IfOk};
ghost use Rattle.wast_parser.specs.Cursors.{Follows};

use crate::lexer::fits;
use item_lists::Bytes;
use row_page::{Page, first_word};
use std::alloc::Global;
use std::borrow::CowStr;
use std::fmt::Display;
use wast_parser::{Cursor, Error, Id, LParen, Parse, ParseBuffer, Parser, parse};

/// Prints what a text is, read as one of a type, which stands before it.
pub fn read(page: &Page, words: &str) {
    let (kind, text) = first_word(words);
    if let Some(buffer) = buffer_of(page, text) {
        read_as(page, kind, &buffer);
    }
}

/// Prints what a word asks of a text, where it asks a parser.
pub fn answer(page: &Page, word: &str, text: &str) {
    if let Some(buffer) = buffer_of(page, text) {
        answer_of(page, word, &mut Parser::new(&buffer));
    }
}

fn answer_of(page: &Page, word: &str, parser: &mut Parser<'_>)
    requires { parser.old.names ≡ [] }
{
    match word {
        "looks" => looks(page, parser),
        "registered" => registered_behind(page, parser),
        _ => comment(page, parser, word == "behind"),
    }
}

/// The tokens of a text, or prints why there are none.
fn buffer_of<'a>(page: &Page, text: &'a str) -> Option<ParseBuffer<'a>> {
    if !fits(page, text) {
        return None;
    }
    match ParseBuffer::new(page.alloc(), text) {
        Ok(buffer) => Some(buffer),
        Err(_) => {
            page.put("no tokens\n");
            None
        }
    }
}

/// Prints of a text whether an identifier stands in front: as it is, with annotations `a` registered, and with that taken back.
fn looks(page: &Page, parser: &mut Parser<'_>)
    requires { parser.old.names ≡ [] }
{
    match looks_for_id(parser) {
        Ok((before, registered, after)) => writeln!(page, "{before} {registered} {after}"),
        Err(error) => refused(page, &error),
    }
}

fn looks_for_id(parser: &mut Parser<'_>) -> Result<(bool, bool, bool), Error>
    requires { parser.old.names ≡ [] }
{
    let before = parser.peek::<Id>()?;
    parser.register_annotation("a")?;
    let registered = parser.peek::<Id>()?;
    parser.unregister_annotation("a");
    Ok((before, registered, parser.peek::<Id>()?))
}

/// Prints the comment in front of a text, or behind the identifier there, or that there is none.
fn comment(page: &Page, parser: &mut Parser<'_>, behind_id: bool) {
    match comment_of(parser, behind_id) {
        Ok(Some(comment)) => writeln!(page, "{comment}"),
        Ok(None) => page.put("none\n"),
        Err(error) => refused(page, &error),
    }
}

fn comment_of<'a>(parser: &mut Parser<'a>, behind_id: bool) -> Result<Option<&'a str>, Error> {
    if behind_id {
        pass_id(parser)?;
    }
    parser.step(front_comment)
}

/// Prints of a text whether a parenthesis opens behind the identifier in front of it: as it is, and with annotations `a`
/// registered once the identifier is read.
fn registered_behind(page: &Page, parser: &mut Parser<'_>) {
    match opens_behind_id(parser) {
        Ok((before, registered)) => writeln!(page, "{before} {registered}"),
        Err(error) => refused(page, &error),
    }
}

fn opens_behind_id(parser: &mut Parser<'_>) -> Result<(bool, bool), Error> {
    pass_id(parser)?;
    let before = parser.peek::<LParen>()?;
    parser.register_annotation("a")?;
    Ok((before, parser.peek::<LParen>()?))
}

fn pass_id(parser: &mut Parser<'_>) -> Result<(), Error> {
    match parser.parse::<Id<'_>>() {
        Ok(_) => Ok(()),
        Err(error) => Err(error),
    }
}

fn front_comment<'b, 'a>(cursor: Cursor<'b, 'a>) -> Result<(Option<&'a str>, Cursor<'b, 'a>), Error>
    ensures { IfOk result (λ taken. Follows cursor.entry taken.1) }
{
    match cursor.comment()? {
        Some((comment, rest)) => Ok((Some(comment), rest)),
        None => Ok((None, cursor)),
    }
}

/// Prints what a cursor takes that stands in front of a text, which is of a kind that stands before it.
pub fn take(page: &Page, words: &str) {
    let (kind, text) = first_word(words);
    if let Some(buffer) = buffer_of(page, text) {
        take_of(page, kind, &mut Parser::new(&buffer));
    }
}

fn take_of(page: &Page, kind: &str, parser: &mut Parser<'_>)
    requires { parser.old.names ≡ [] }
{
    match kind {
        "id" => print_taken(page, parser.step(front_id)),
        "annotation" => print_taken(page, annotation_of(parser)),
        "string" => print_bytes(page, parser.step(front_string)),
        _ => page.put("no such kind\n"),
    }
}

fn front_id<'b, 'a>(
    cursor: Cursor<'b, 'a>,
) -> Result<(Option<CowStr<'a, Global>>, Cursor<'b, 'a>), Error>
    ensures { IfOk result (λ taken. Follows cursor.entry taken.1) }
{
    match cursor.id()? {
        Some((name, rest)) => Ok((Some(name), rest)),
        None => Ok((None, cursor)),
    }
}

/// The name of an annotation `a` that stands in front.
fn annotation_of<'a>(parser: &mut Parser<'a>) -> Result<Option<CowStr<'a, Global>>, Error>
    requires { parser.old.names ≡ [] }
{
    parser.register_annotation("a")?;
    parser.step(front_annotation)
}

fn front_annotation<'b, 'a>(
    cursor: Cursor<'b, 'a>,
) -> Result<(Option<CowStr<'a, Global>>, Cursor<'b, 'a>), Error>
    ensures { IfOk result (λ taken. Follows cursor.entry taken.1) }
{
    if let Some(inside) = cursor.lparen()? {
        if let Some((name, rest)) = inside.annotation()? {
            return Ok((Some(name), rest));
        }
    }
    Ok((None, cursor))
}

fn front_string<'b, 'a>(
    cursor: Cursor<'b, 'a>,
) -> Result<(Option<Bytes<'a>>, Cursor<'b, 'a>), Error>
    ensures { IfOk result (λ taken. Follows cursor.entry taken.1) }
{
    match cursor.string()? {
        Some((bytes, rest)) => Ok((Some(bytes), rest)),
        None => Ok((None, cursor)),
    }
}

/// Prints what was taken, or that nothing was, or where that is refused.
fn print_taken<T: Display + Drop>(page: &Page, taken: Result<Option<T>, Error>) {
    match taken {
        Ok(Some(value)) => writeln!(page, "{value}"),
        Ok(None) => page.put("none\n"),
        Err(error) => refused(page, &error),
    }
}

/// The same of bytes, one by one.
fn print_bytes(page: &Page, taken: Result<Option<Bytes<'_>>, Error>) {
    match taken {
        Ok(Some(bytes)) => {
            page.put("bytes");
            page.put_bytes(bytes.as_slice());
            page.put("\n");
        }
        Ok(None) => page.put("none\n"),
        Err(error) => refused(page, &error),
    }
}

fn read_as<'a>(page: &Page, kind: &str, buffer: &'a ParseBuffer<'a>) {
    match kind {
        "i8" => print_as::<i8>(page, buffer),
        "u8" => print_as::<u8>(page, buffer),
        "i64" => print_as::<i64>(page, buffer),
        "u64" => print_as::<u64>(page, buffer),
        "string" => print_as::<CowStr<'_, Global>>(page, buffer),
        _ => page.put("no such type\n"),
    }
}

/// Prints a value, or where it is refused.
fn print_as<'a, T: Parse<'a> + Display + Drop>(page: &Page, buffer: &'a ParseBuffer<'a>) {
    match parse::<T>(buffer) {
        Ok(value) => writeln!(page, "{value}"),
        Err(error) => refused(page, &error),
    }
}

/// Prints where a text is refused, and the lexical error where that is the cause.
fn refused(page: &Page, error: &Error) {
    let offset = error.span().offset();
    match error.lex_error() {
        Some(cause) => writeln!(page, "refused at {offset}: {cause}"),
        None => writeln!(page, "refused at {offset}"),
    }
}
