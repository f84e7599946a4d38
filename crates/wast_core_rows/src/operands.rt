//! Indices that stand behind a mnemonic.
use crate::show::{Show, show_all, show_between};
use row_page::Page;
use wast_core_instr::{
    ArrayCopy, ArrayFill, ArrayInit, ArrayNewData, ArrayNewElem, ContBind, Switch,
};
use wast_parser::{Error, Index, Parser};

/// Prints what a text is, read as operands of a kind.
pub fn print(page: &Page, kind: &str, parser: &mut Parser<'_>) -> Result<(), Error> {
    match kind {
        "array-fill" => show_all::<ArrayFill>(page, parser),
        "array-copy" => show_all::<ArrayCopy>(page, parser),
        "array-init" => show_all::<ArrayInit>(page, parser),
        "array-new-data" => show_all::<ArrayNewData>(page, parser),
        "array-new-elem" => show_all::<ArrayNewElem>(page, parser),
        "switch" => show_all::<Switch>(page, parser),
        "cont-bind" => show_all::<ContBind>(page, parser),
        _ => {
            page.put("no such operands\n");
            Ok(())
        }
    }
}

impl<'a> Show for ArrayFill<'a> {
    fn show(&self, page: &Page) {
        show_between(page, "array ", &self.array, "");
    }
}

impl<'a> Show for ArrayCopy<'a> {
    fn show(&self, page: &Page) {
        show_two(page, "to ", &self.dest_array, " from ", &self.src_array);
    }
}

impl<'a> Show for ArrayInit<'a> {
    fn show(&self, page: &Page) {
        show_two(page, "array ", &self.array, " segment ", &self.segment);
    }
}

impl<'a> Show for ArrayNewData<'a> {
    fn show(&self, page: &Page) {
        show_two(page, "array ", &self.array, " data ", &self.data_idx);
    }
}

impl<'a> Show for ArrayNewElem<'a> {
    fn show(&self, page: &Page) {
        show_two(page, "array ", &self.array, " elem ", &self.elem_idx);
    }
}

impl<'a> Show for Switch<'a> {
    fn show(&self, page: &Page) {
        show_two(page, "type ", &self.type_index, " tag ", &self.tag_index);
    }
}

impl<'a> Show for ContBind<'a> {
    fn show(&self, page: &Page) {
        show_two(
            page,
            "argument ",
            &self.argument_index,
            " result ",
            &self.result_index,
        );
    }
}

/// Prints two indices, each behind a text.
fn show_two(page: &Page, before: &str, first: &Index<'_>, between: &str, second: &Index<'_>) {
    show_between(page, before, first, between);
    second.show(page);
}
