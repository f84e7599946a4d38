//! Rows of the encoder: values and their bytes, a line each.
#![tactic(auto)]

mod answers;
mod bodies;
mod callers;
mod instructions;
mod opcodes;
mod row;
mod types;

use row_page::Page;
use std::io;

fn main(rt: HostRuntime) -> io::Result<()> {
    let page = Page::new(rt);
    types::print(&page);
    opcodes::print(&page);
    instructions::print(&page);
    bodies::print_bodies(&page);
    page.answer_lines(answers::answer)
}
