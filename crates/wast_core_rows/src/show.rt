//! How what a text holds is printed.
use row_page::Page;
use wast_parser::{Error, Id, Index, NameAnnotation, Parse, Parser, Span};

/// What can be printed, without the end of its line.
pub trait Show {
    fn show(&self, page: &Page);
}

/// Prints what all of a text is, read as one of a type, in a line.
pub fn show_all<'a, T: Parse<'a> + Show>(
    page: &Page,
    parser: &mut Parser<'a>,
) -> Result<(), Error> {
    let read = T::parse(parser);
    show_read(page, parser, read, "\n")
}

/// Prints what was read, and a text behind it, where no more stands behind what was read.
pub fn show_read<T: Show + Drop>(
    page: &Page,
    parser: &Parser<'_>,
    read: Result<T, Error>,
    after: &str,
) -> Result<(), Error> {
    let value = read?;
    parser.end()?;
    show_between(page, "", &value, after);
    Ok(())
}

/// Prints each of these between two texts.
pub fn show_each<T: Show>(page: &Page, before: &str, items: &[T], after: &str) {
    for item in items {
        show_between(page, before, item, after);
    }
}

/// Prints a value, where there is one, between two texts.
pub fn show_if<T: Show>(page: &Page, before: &str, value: &Option<T>, after: &str) {
    if let Some(value) = value {
        show_between(page, before, value, after);
    }
}

/// Prints a value between two texts.
pub fn show_between<T: Show>(page: &Page, before: &str, value: &T, after: &str) {
    page.put(before);
    value.show(page);
    page.put(after);
}

impl<'a> Show for Id<'a> {
    fn show(&self, page: &Page) {
        page.put("$");
        page.put(self.name());
    }
}

impl<'a> Show for Index<'a> {
    fn show(&self, page: &Page) {
        match self {
            Index::Num(number, _) => page.write_fmt(*number),
            Index::Id(id) => id.show(page),
        }
    }
}

impl<'a> Show for NameAnnotation<'a> {
    fn show(&self, page: &Page) {
        page.put(self.name.as_str());
    }
}

/// Prints an identifier and a name that is given by an annotation, and a space behind each.
pub fn show_head(page: &Page, id: &Option<Id<'_>>, name: &Option<NameAnnotation<'_>>) {
    show_if(page, "", id, " ");
    show_if(page, "(@name \"", name, "\") ");
}

/// Prints where something stands.
pub fn show_place(page: &Page, span: Span) {
    page.write_fmt(span.offset());
    page.put(": ");
}
