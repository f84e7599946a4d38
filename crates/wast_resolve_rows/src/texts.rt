//! Texts, and what becomes of their fields. What is lent stands before the page: that is quicker to prove.
ghost use Rattle.std.specs.Prelude.{◌≡◌, false, ◌^◌, ◌<◌, length};
ghost use Rattle.wast_core.specs.ModuleViews.{module_tree};
ghost use Rattle.wast_meaning.specs.Modules.{content_fields};

use crate::lists::{done, first, of_memory, put, taken};
use crate::meanings::print_meaning;
use crate::print_error;
use crate::printer::print_fields;
use row_page::Page;
use std::alloc::Global;
use wast_core::{Module, ModuleField, ModuleKind, TextModule};
use wast_parser::{Error, Gensym, Parse, ParseBuffer, parse};
use wast_resolve::deinline_import_export::run;
use wast_resolve::{ResolveModule, names, resolve, types};

/// What a text is read as.
trait Rows {
    /// Prints what a word makes of it.
    fn print(&mut self, page: &Page, word: &str);
}

/// Prints what a word makes of a text.
pub fn print<'a>(buffer: &'a ParseBuffer<'a>, word: &str, page: &Page) {
    print_read::<TextModule<'a>>(buffer, word, page);
}

fn print_read<'a, T: Parse<'a> + Rows>(buffer: &'a ParseBuffer<'a>, word: &str, page: &Page) {
    match parse::<T>(buffer) {
        Ok(mut value) => value.print(page, word),
        Err(error) => print_error(page, &error),
    }
}

impl<'a> Rows for TextModule<'a> {
    fn print(&mut self, page: &Page, word: &str) {
        if word == "module" {
            print_twice(&mut self.module, page);
        } else {
            print_fields_made(&mut self.module, word, page);
        }
    }
}

// MODULES

/// Prints what becomes of a module, and of that again.
fn print_twice(module: &mut Module<'_>, page: &Page) {
    print_resolved(module, page);
    page.put("again\n");
    print_resolved(module, page);
}

fn print_resolved(module: &mut Module<'_>, page: &Page) {
    if is_large(module) {
        page.put("too long\n");
    } else {
        match resolve_module(page.alloc(), module) {
            Ok(()) => print_module(module, page),
            Err(error) => print_error(page, &error),
        }
    }
}

/// Whether a module has more fields than names can be made for.
fn is_large(module: &Module<'_>) -> bool
    ensures { result ≡ false → length (content_fields (module_tree «module».now).content) < 2 ^ 32 }
{
    match &module.kind {
        ModuleKind::Text(fields) => 4_294_967_295 < fields.len(),
        ModuleKind::Binary(_) => false,
    }
}

fn resolve_module<'a>(alloc: Global, module: &mut Module<'a>) -> Result<(), Error>
    requires { length (content_fields (module_tree «module».old).content) < 2 ^ 32 }
{
    done(module.resolve(alloc, &mut Gensym::new()))
}

fn print_module(module: &Module<'_>, page: &Page) {
    match &module.kind {
        ModuleKind::Text(fields) => print_fields(fields, page),
        ModuleKind::Binary(pieces) => {
            page.write_fmt(pieces.len());
            page.put(" pieces\n");
        }
    }
}

// FIELDS

fn print_fields_made(module: &mut Module<'_>, word: &str, page: &Page) {
    match &mut module.kind {
        ModuleKind::Text(fields) => print_few(fields, word, page),
        ModuleKind::Binary(_) => page.put("no fields\n"),
    }
}

/// The same of fields, where names can be made for as many.
fn print_few(fields: &mut Vec<ModuleField<'_>>, word: &str, page: &Page) {
    if 4_294_967_295 < fields.len() {
        page.put("too long\n");
    } else {
        match word.strip_prefix("means-") {
            Some(space) => print_meaning(taken(fields, page.alloc()), space, page),
            None if is_change(word) => print_changed(fields, word, page),
            None => page.put("no such word\n"),
        }
    }
}

/// Whether a word makes other fields of fields.
fn is_change(word: &str) -> bool {
    matches!(word, "run" | "expand" | "names" | "resolve")
}

fn print_changed(fields: &mut Vec<ModuleField<'_>>, word: &str, page: &Page)
    requires { length fields.old.items < 2 ^ 32 }
{
    match put(change(fields, word, page.alloc()), fields) {
        Ok(()) => print_fields(fields, page),
        Err(error) => print_error(page, &error),
    }
}

/// What a word makes of fields, which are gone then.
fn change<'a>(
    fields: &mut Vec<ModuleField<'a>>,
    word: &str,
    alloc: Global,
) -> Result<Vec<ModuleField<'a>>, Error>
    requires { length fields.old.items < 2 ^ 32 }
{
    changed(taken(fields, alloc), word, alloc)
}

fn changed<'a>(
    fields: Vec<ModuleField<'a>>,
    word: &str,
    alloc: Global,
) -> Result<Vec<ModuleField<'a>>, Error>
    requires { length fields.items < 2 ^ 32 }
{
    match word {
        "run" => of_memory(run(alloc, fields, &mut Gensym::new())),
        "expand" => of_memory(types::expand(alloc, fields)),
        "names" => first(names::resolve(alloc, fields)),
        _ => first(resolve(alloc, fields, &mut Gensym::new())),
    }
}
