//! Imports, items, and types of exports.
use crate::show::{Show, show_all, show_each, show_head, show_place};
use row_page::Page;
use wast_imports::{
    ExportType, Head, ImportGroup1Item, ImportGroup2Item, ImportItems, Imports, ItemKind, ItemSig,
    TagType,
};
use wast_parser::{Error, Parser};

/// Prints what a text is, read as one of a production.
pub fn print(page: &Page, kind: &str, parser: &mut Parser<'_>) -> Result<(), Error> {
    match kind {
        "imports" => show_all::<Imports>(page, parser),
        "item" => show_all::<ItemSig>(page, parser),
        "export" => show_all::<ExportType>(page, parser),
        "tag" => show_all::<TagType>(page, parser),
        "head" => show_all::<Head>(page, parser),
        _ => {
            page.put("no such part\n");
            Ok(())
        }
    }
}

impl<'a> Show for Head<'a> {
    fn show(&self, page: &Page) {
        show_head(page, &self.id, &self.name);
        page.put("head");
    }
}

impl<'a> Show for TagType<'a> {
    fn show(&self, page: &Page) {
        match self {
            TagType::Exception(ty) => ty.show(page),
        }
    }
}

impl<'a> Show for ItemSig<'a> {
    fn show(&self, page: &Page) {
        show_place(page, self.span);
        show_head(page, &self.id, &self.name);
        page.put(word_of(&self.kind));
        self.kind.show(page);
    }
}

fn word_of(kind: &ItemKind<'_>) -> &'static str {
    match kind {
        ItemKind::Func(_) => "func ",
        ItemKind::FuncExact(_) => "exact func ",
        ItemKind::Table(_) => "table ",
        ItemKind::Memory(_) => "memory ",
        ItemKind::Global(_) => "global ",
        ItemKind::Tag(_) => "tag ",
    }
}

impl<'a> Show for ItemKind<'a> {
    fn show(&self, page: &Page) {
        match self {
            ItemKind::Func(ty) | ItemKind::FuncExact(ty) => ty.show(page),
            ItemKind::Table(ty) => ty.show(page),
            ItemKind::Memory(ty) => ty.show(page),
            ItemKind::Global(ty) => ty.show(page),
            ItemKind::Tag(ty) => ty.show(page),
        }
    }
}

impl<'a> Show for ExportType<'a> {
    fn show(&self, page: &Page) {
        show_place(page, self.span);
        print_quoted(page, self.name.as_str(), " ");
        self.item.show(page);
    }
}

/// Prints a name in quotes, and a text behind it.
fn print_quoted(page: &Page, name: &str, after: &str) {
    page.put("\"");
    page.put(name);
    page.put("\"");
    page.put(after);
}

impl<'a> Show for Imports<'a> {
    fn show(&self, page: &Page) {
        show_place(page, self.span);
        page.write_fmt(self.num_items());
        page.put(" of ");
        self.items.show(page);
        page.put("; at");
        print_places(self, page);
    }
}

fn print_places(imports: &Imports<'_>, page: &Page) {
    match imports.item_sigs(page.alloc()) {
        Ok(sigs) => {
            for sig in sigs {
                page.put(" ");
                page.write_fmt(sig.span.offset());
            }
        }
        Err(error) => page.fail(error),
    }
}

impl<'a> Show for ImportItems<'a> {
    fn show(&self, page: &Page) {
        match self {
            ImportItems::Single { module, name, sig } => {
                print_quoted(page, module.as_str(), ": ");
                print_quoted(page, name.as_str(), " ");
                sig.show(page);
            }
            ImportItems::Group1 { module, items } => {
                print_quoted(page, module.as_str(), ", each:");
                show_each(page, " ", items, "");
            }
            ImportItems::Group2 { module, sig, items } => {
                print_quoted(page, module.as_str(), ", all:");
                show_each(page, " ", items, "");
                page.put(" ");
                sig.show(page);
            }
        }
    }
}

impl<'a> Show for ImportGroup1Item<'a> {
    fn show(&self, page: &Page) {
        print_quoted(page, self.name.as_str(), " ");
        self.sig.show(page);
    }
}

impl<'a> Show for ImportGroup2Item<'a> {
    fn show(&self, page: &Page) {
        print_quoted(page, self.name.as_str(), "");
    }
}
