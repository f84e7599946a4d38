//! Instructions, unfolded.
ghost use Rattle.std.specs.Prelude.{◌≡◌, ◌<◌};

use crate::show::{Show, show_between, show_each, show_if, show_read};
use row_page::Page;
use std::alloc::AllocError;
use std::fmt::{Debug, Display};
use std::marker::Brand;
use std::sync::ledger::{Blank, Ledger};
use wast_core_instr::{BranchHint, Expression, GcOp, Instruction, Steps};
use wast_parser::{Error, Parse, Parser};
use wast_typed_operands::{BlockType, CallIndirect};
use wast_value_types::HeapType;

/// Prints what the items of a text unfold to, or an instruction behind its operands, with the hints.
pub fn unfold(page: &Page, parser: &mut Parser<'_>, folded: bool) -> Result<(), Error> {
    let read = if folded {
        Expression::parse_folded_instruction(parser)
    } else {
        Expression::parse(parser)
    };
    show_read(page, parser, read, "")
}

/// Prints what the items of a text unfold to, by the call that counts the turns of its loop.
pub fn counted(page: &Page, parser: &mut Parser<'_>) -> Result<(), Error> {
    let read = read_counted::<Brand>(parser, Blank::new(1));
    show_read(page, parser, read, "")
}

fn read_counted<'a, L: Ledger>(
    parser: &mut Parser<'a>,
    blank: Blank,
) -> Result<Expression<'a>, Error>
    requires name { blank.name ≡ L.name }
    requires parts { blank.parts ≡ L.parts }
    requires some { 0 < blank.parts }
{
    let mut steps = Steps::<L>::new(blank);
    Expression::parse_counted(parser, &mut steps)
}

/// Prints that a text is one instruction.
pub fn mnemonic(page: &Page, parser: &mut Parser<'_>) -> Result<(), Error> {
    pass_one(parser)?;
    parser.end()?;
    page.put("mnemonic ok\n");
    Ok(())
}

/// Reads an instruction. It is let go in an expression, whose drop is proved where that stands.
fn pass_one(parser: &mut Parser<'_>) -> Result<(), Error> {
    match Instruction::parse(parser) {
        Ok(instruction) => let_go(Expression::one(parser.alloc(), instruction)),
        Err(error) => Err(error),
    }
}

fn let_go<T: Drop>(made: Result<T, AllocError>) -> Result<(), Error> {
    match made {
        Ok(_) => Ok(()),
        Err(error) => Err(Error::from(error)),
    }
}

/// Its instructions, and then its hints, each with the end of its line.
impl<'a> Show for Expression<'a> {
    fn show(&self, page: &Page) {
        for instruction in &self.instrs {
            instruction.show(page);
            page.put("\n");
        }
        show_each(page, "hint ", &self.branch_hints, "\n");
    }
}

impl Show for BranchHint {
    fn show(&self, page: &Page) {
        page.write_fmt(self.value);
        page.put(" at instruction ");
        page.write_fmt(self.instr_index);
    }
}

/// Its mnemonic and its operands; of some that have no operands, what the encoder calls them.
impl<'a> Show for Instruction<'a> {
    fn show(&self, page: &Page) {
        match self {
            Instruction::Nop => page.put("nop"),
            Instruction::Drop => page.put("drop"),
            Instruction::Block(block) => print_block(page, "block", block),
            Instruction::Loop(block) => print_block(page, "loop", block),
            Instruction::If(block) => print_block(page, "if", block),
            Instruction::Else(_) => page.put("else"),
            Instruction::End(_) => page.put("end"),
            Instruction::TryTable(table) => print_clauses(page, table.catches.len()),
            Instruction::Br(label) => show_between(page, "br ", label, ""),
            Instruction::Catch(tag) => show_between(page, "catch ", tag, ""),
            Instruction::CallIndirect(call) => print_call(page, call),
            Instruction::I32Const(value) => print_value(page, "i32.const ", value),
            Instruction::I64Const(value) => print_value(page, "i64.const ", value),
            Instruction::Numeric(op) => print_name(page, op),
            Instruction::Compare(op) => print_name(page, op),
            Instruction::Access(op, memarg) => {
                print_name(page, op);
                print_value(page, " offset=", &memarg.offset);
                print_value(page, " align=", &memarg.align);
            }
            Instruction::Gc(GcOp::RefNull(heap)) => {
                show_between::<HeapType>(page, "ref.null ", heap, "")
            }
            _ => page.put("another"),
        }
    }
}

fn print_clauses(page: &Page, count: usize) {
    print_value(page, "try_table with ", &count);
    page.put(" clauses");
}

fn print_block(page: &Page, word: &str, block: &BlockType<'_>) {
    page.put(word);
    show_if(page, " ", &block.label, "");
    show_if(page, " (type ", &block.ty.index, ")");
}

fn print_call(page: &Page, call: &CallIndirect<'_>) {
    page.put("call_indirect");
    show_if(page, " ", &call.table, "");
    show_if(page, " (type ", &call.ty.index, ")");
}

fn print_value<T: Display>(page: &Page, before: &str, value: &T) {
    page.put(before);
    page.write_fmt(value);
}

fn print_name<T: Debug>(page: &Page, op: &T) {
    write!(page, "{op:?}");
}
