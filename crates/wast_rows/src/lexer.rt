//! What the lexer says of a text.

ghost use Rattle.std.specs.Prelude.{◌≡◌, ◌^◌, ◌<◌, length, true, IfOk, All};
ghost use Rattle.wast_lexer.specs.declared.token.TokenKind.TheVariants.{Annotation, Id, String};
ghost use Rattle.wast_lexer.specs.TokenText.{IsOf};

use row_page::{Page, first_word};
use std::alloc::Global;
use std::borrow::CowStr;
use wast_lexer::{Integer, LexError, LexFault, Lexer, Span, Token, TokenKind, TokenTable};

/// Prints what a word asks of a text, where it asks the lexer.
pub fn answer(page: &Page, word: &str, text: &str) {
    match word {
        "tokens" => tokens(page, text, false),
        "allowed" => tokens(page, text, true),
        "passed" => passed(page, text),
        "named" => named(page, text),
        "place" => place(page, text),
        "errors" => errors(page),
        _ => page.put("no such word\n"),
    }
}

/// Whether tokens of a text have offsets, else prints that they haven't.
pub fn fits(page: &Page, text: &str) -> bool
    ensures { result ≡ true → length text.now < 2 ^ 32 }
{
    if text.len() <= 4_294_967_295 {
        return true;
    }
    page.put("too long\n");
    false
}

/// Prints the tokens of a text, and why there are no more.
fn tokens(page: &Page, text: &str, allow: bool) {
    if fits(page, text) {
        let mut lexer = Lexer::new(text);
        lexer.allow_confusing_unicode(allow);
        match TokenTable::new(page.alloc(), lexer) {
            Ok(table) => print_table(page, text, &table),
            Err(error) => page.fail(error),
        }
    }
}

fn print_table(page: &Page, text: &str, table: &TokenTable)
    requires { All (IsOf text.now) table.now.tokens }
{
    for index in 0..table.len() {
        print_token(page, text, table, index);
    }
    if let Some(fault) = table.fault() {
        refused(page, *fault);
        page.put("\n");
    }
}

fn print_token(page: &Page, text: &str, table: &TokenTable, index: usize)
    requires { All (IsOf text.now) table.now.tokens }
{
    if let Some(token) = table.get(index) {
        write!(page, "{:?} {} {}", token.kind, token.offset, token.len);
        read(page, text, token);
        if let Some(end) = table.group_end(index) {
            write!(page, " ends at {end}");
        }
        page.put("\n");
    }
}

/// Prints the tokens of a text as the iterator gives them: kind and text of each, and what its reader answers; and why there are no more.
fn passed(page: &Page, text: &str) {
    if fits(page, text) {
        let mut tokens = Lexer::new(text).iter(0);
        while let Some(next) = tokens.next() {
            print_passed(page, text, next);
        }
    }
}

fn print_passed(page: &Page, text: &str, next: Result<Token, LexFault>)
    requires { IfOk next (IsOf text.now) }
{
    match next {
        Ok(token) => {
            write!(page, "{:?} [{}]", token.kind, token.src(text));
            read(page, text, token);
        }
        Err(fault) => refused(page, fault),
    }
    page.put("\n");
}

/// Prints what the reader of a token answers.
fn read(page: &Page, text: &str, token: Token)
    requires { IsOf text.now token }
{
    match token.kind {
        TokenKind::Keyword => print_word(page, token.keyword(text)),
        TokenKind::Reserved => print_word(page, token.reserved(text)),
        TokenKind::String => read_string(page, text, token),
        TokenKind::Id => read_id(page, text, token),
        TokenKind::Annotation => read_annotation(page, text, token),
        TokenKind::Integer(kind) => print_integer(page, token.integer(text, kind)),
        TokenKind::Float(kind) => write!(page, " {:?}", token.float(text, kind)),
        _ => {}
    }
}

fn print_word(page: &Page, word: &str) {
    page.put(" ");
    page.put(word);
}

fn print_integer(page: &Page, integer: Integer<'_>) {
    let (digits, base) = integer.val();
    write!(page, " {:?} {digits} {base}", integer.sign());
}

fn read_string(page: &Page, text: &str, token: Token)
    requires of_text { IsOf text.now token }
    requires kind { token.kind ≡ String }
{
    match token.string(page.alloc(), text) {
        Ok(bytes) => print_bytes(page, bytes.is_borrowed(), bytes.as_slice()),
        Err(error) => page.fail(error),
    }
}

fn read_id(page: &Page, text: &str, token: Token)
    requires of_text { IsOf text.now token }
    requires kind { token.kind ≡ Id }
{
    match token.id(page.alloc(), text) {
        Ok(name) => print_name(page, &name),
        Err(fault) => {
            page.put(" ");
            refused(page, fault);
        }
    }
}

fn read_annotation(page: &Page, text: &str, token: Token)
    requires of_text { IsOf text.now token }
    requires kind { token.kind ≡ Annotation }
{
    match token.annotation(page.alloc(), text) {
        Ok(name) => print_name(page, &name),
        Err(error) => page.fail(error),
    }
}

fn print_name(page: &Page, name: &CowStr<'_, Global>) {
    print_bytes(page, matches!(name, CowStr::Borrowed(_)), name.as_bytes());
}

fn print_bytes(page: &Page, is_borrowed: bool, bytes: &[u8]) {
    page.put(if is_borrowed { " borrowed" } else { " owned" });
    page.put_bytes(bytes);
}

fn refused(page: &Page, fault: LexFault) {
    match fault {
        LexFault::Lex { span, error } => write!(page, "refused at {}: {error}", span.offset()),
        LexFault::Memory => page.put("out of memory"),
    }
}

/// Prints of each annotation whether it stands for a name, which stands before the text.
fn named(page: &Page, words: &str) {
    let (name, text) = first_word(words);
    if fits(page, text) {
        match TokenTable::new(page.alloc(), Lexer::new(text)) {
            Ok(table) => print_named(page, text, name, &table),
            Err(error) => page.fail(error),
        }
    }
}

fn print_named(page: &Page, text: &str, name: &str, table: &TokenTable)
    requires { All (IsOf text.now) table.now.tokens }
{
    for index in 0..table.len() {
        if let Some(token) = table.get(index) {
            if let TokenKind::Annotation = token.kind {
                writeln!(page, "{} {}", token.offset, token.annotation_is(text, name));
            }
        }
    }
}

/// Prints the line and the column of an offset, which stands before the text.
fn place(page: &Page, words: &str) {
    match offset_and_text(words) {
        Some((offset, text)) => {
            let (line, column) = Span::from_offset(offset).linecol_in(text);
            writeln!(page, "line {line} column {column}");
        }
        None => page.put("no place\n"),
    }
}

fn offset_and_text(words: &str) -> Option<(usize, &str)> {
    let (offset, text) = words.split_once(' ')?;
    match offset.parse::<usize>() {
        Ok(offset) => Some((offset, text)),
        Err(_) => None,
    }
}

/// Prints the text of each lexical error.
fn errors(page: &Page) {
    for error in [
        LexError::DanglingBlockComment,
        LexError::Unexpected,
        LexError::InvalidStringElement,
        LexError::InvalidStringEscape,
        LexError::InvalidHexDigit,
        LexError::InvalidDigit,
        LexError::Expected,
        LexError::UnexpectedEof,
        LexError::NumberTooBig,
        LexError::InvalidUnicodeValue,
        LexError::LoneUnderscore,
        LexError::ConfusingUnicode,
        LexError::InvalidUtf8Id,
        LexError::EmptyId,
        LexError::EmptyAnnotation,
    ] {
        writeln!(page, "{error:?}: {error}");
    }
}
