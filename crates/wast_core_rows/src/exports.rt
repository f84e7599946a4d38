//! Exports, and what stands inline.
use crate::show::{Show, show_between, show_each};
use row_page::Page;
use wast_exports::{Export, ExportName, InlineExport, InlineImport};
use wast_parser::{Error, Parse, Parser};

impl<'a> Show for Export<'a> {
    fn show(&self, page: &Page) {
        page.put(self.name.as_str());
        let kind = self.kind;
        write!(page, " {kind:?} at ");
        page.write_fmt(self.span.offset());
        page.put(": ");
        self.item.show(page);
        page.put(" at ");
        page.write_fmt(self.item.span().offset());
    }
}

impl<'a> Show for ExportName<'a> {
    fn show(&self, page: &Page) {
        page.put(self.name.as_str());
    }
}

/// Prints inline exports, and the inline import behind them. What is read is lent where it is read.
pub fn print_inline(page: &Page, parser: &mut Parser<'_>) -> Result<(), Error> {
    match InlineExport::parse(parser) {
        Ok(exports) => print_behind(page, parser, &exports),
        Err(error) => Err(error),
    }
}

fn print_behind(
    page: &Page,
    parser: &mut Parser<'_>,
    exports: &InlineExport<'_>,
) -> Result<(), Error> {
    if parser.peek::<InlineImport>()? {
        let import = InlineImport::parse(parser)?;
        print_end(page, parser, exports, &import)
    } else {
        print_end(page, parser, exports, &Alone)
    }
}

/// Nothing stands behind what is read last.
fn print_end<T: Show>(
    page: &Page,
    parser: &Parser<'_>,
    exports: &InlineExport<'_>,
    last: &T,
) -> Result<(), Error> {
    parser.end()?;
    show_each(page, "", &exports.names, " ");
    show_between(page, "", last, "\n");
    Ok(())
}

/// No import stands behind exports.
#[derive(Drop)]
struct Alone;

impl Show for Alone {
    fn show(&self, page: &Page) {
        page.put("alone");
    }
}

impl<'a> Show for InlineImport<'a> {
    fn show(&self, page: &Page) {
        page.put("from ");
        page.put(self.module.as_str());
        page.put(" ");
        page.put(self.field.as_str());
    }
}
