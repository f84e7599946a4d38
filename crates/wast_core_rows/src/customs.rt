//! Custom fields.
use crate::show::{Show, show_each};
use row_page::Page;
use wast_customs::{Custom, Dylink0Subsection, Producer, RawCustomSection};
use wast_parser::Encode;

impl<'a> Show for Custom<'a> {
    fn show(&self, page: &Page) {
        page.put(self.name());
        let place = self.place();
        write!(page, " {place:?} at ");
        page.write_fmt(self.span().offset());
        print_inside(self, page);
    }
}

fn print_inside(custom: &Custom<'_>, page: &Page) {
    match custom {
        Custom::Raw(section) => print_raw(section, page),
        Custom::Producers(producers) => show_each(page, "\n", &producers.fields, ""),
        Custom::Dylink0(dylink) => show_each(page, "\n", &dylink.subsections, ""),
    }
}

fn print_raw(section: &RawCustomSection<'_>, page: &Page) {
    for bytes in &section.bytes {
        page.put("\nbytes");
        page.put_bytes(bytes.as_slice());
    }
}

impl<'a> Show for Producer<'a> {
    fn show(&self, page: &Page) {
        let kind = self.kind;
        write!(page, "{kind:?} ");
        page.put(self.name.as_str());
        page.put(" ");
        page.put(self.version.as_str());
    }
}

/// Its number, and its bytes or why it has none.
impl<'a> Show for Dylink0Subsection<'a> {
    fn show(&self, page: &Page) {
        page.write_fmt(self.id());
        page.put(":");
        let mut bytes = Vec::new(page.alloc());
        match self.encode(&mut bytes) {
            Ok(_) => page.put_bytes(&bytes),
            Err(error) => write!(page, " {error}"),
        }
    }
}
