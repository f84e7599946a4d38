//! What names mean in fields that are resolved.
ghost use Rattle.std.specs.Prelude.{◌^◌, ◌<◌, length};

use crate::lists::Fields;
use crate::print_error;
use row_page::Page;
use wast_core::ModuleField;
use wast_parser::{Error, Gensym, Id, Index, Span};
use wast_resolve::names::Resolver;
use wast_resolve::{Names, Ns, names, resolve};

/// Prints which number `$x` means in the index space of a word.
pub fn print_meaning(fields: Vec<ModuleField<'_>>, word: &str, page: &Page)
    requires { length fields.items < 2 ^ 32 }
{
    match word {
        "tag" | "type" => print_by_resolver(fields, word, page),
        "func" | "table" | "memory" | "global" => print_by_names(fields, word, page),
        _ => {
            fields.let_go();
            page.put("no such word\n");
        }
    }
}

fn print_by_resolver(fields: Vec<ModuleField<'_>>, word: &str, page: &Page) {
    print_known(names::resolve(page.alloc(), fields), word, page);
}

fn print_by_names(fields: Vec<ModuleField<'_>>, word: &str, page: &Page)
    requires { length fields.items < 2 ^ 32 }
{
    let mut gensym = Gensym::new();
    print_known(resolve(page.alloc(), fields, &mut gensym), word, page);
}

/// What knows the names of fields.
trait Knowing<'a> {
    /// Makes an index the number that it means.
    fn look_up(&self, index: &mut Index<'a>, word: &str) -> Result<(), Error>;
}

fn print_known<'a, F: Fields, N: Knowing<'a> + Drop>(
    resolved: Result<(F, N), Error>,
    word: &str,
    page: &Page,
) {
    match resolved {
        Ok((fields, names)) => {
            fields.let_go();
            print_number(&names, word, page);
        }
        Err(error) => print_error(page, &error),
    }
}

fn print_number<'a, N: Knowing<'a>>(names: &N, word: &str, page: &Page) {
    let mut index = Index::Id(Id::new("x", Span::from_offset(0)));
    match names.look_up(&mut index, word) {
        Ok(()) => print_index(page, &index),
        Err(error) => print_error(page, &error),
    }
}

fn print_index(page: &Page, index: &Index<'_>) {
    match index {
        Index::Num(number, _) => {
            page.write_fmt(*number);
            page.put("\n");
        }
        Index::Id(_) => page.put("a name\n"),
    }
}

impl<'a> Knowing<'a> for Resolver<'a> {
    fn look_up(&self, index: &mut Index<'a>, word: &str) -> Result<(), Error> {
        let ns = if word == "tag" { Ns::Tag } else { Ns::TypeItem };
        match self.resolve(index, ns) {
            Ok(_) => Ok(()),
            Err(error) => Err(error),
        }
    }
}

impl<'a> Knowing<'a> for Names<'a> {
    fn look_up(&self, index: &mut Index<'a>, word: &str) -> Result<(), Error> {
        match word {
            "func" => self.resolve_func(index),
            "table" => self.resolve_table(index),
            "memory" => self.resolve_memory(index),
            _ => self.resolve_global(index),
        }
    }
}
