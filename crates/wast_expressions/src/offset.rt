//! Groups by themselves: an instruction behind its operands.
ghost use Rattle.std.specs.Prelude.{◌≢◌, []};
ghost use Rattle.wast_parser.specs.Grammar.{seen};
ghost use Rattle.wast_parser.specs.State.{ahead, Keeps};
ghost use Rattle.wast_parser.specs.Reading.{Gives};
ghost use Rattle.wast_expressions.specs.Expressions.{folded_instruction, plain, without_hints};
ghost use Rattle.wast_expressions.specs.Machine.{folded_head, plain_turn};
ghost use Rattle.wast_expressions.specs.Views.{here, instructions_tree, levels_tree, out_tree, Turns};

use crate::look::peek_group;
use crate::operation::{ParseOperation, parse_operation};
use crate::stack::{Instructions, Level, Unfolding};
use crate::token::open;
use crate::turn::{close_level, turn};
use wast_parser::{Error, Parser};

/// Reads `(instruction item*)`: the instructions to which the items unfold, and then the one that heads the group, whatever
/// its kind. Refused where the grammar reads none, and for want of memory. Depth and registered names are as they were on both
/// outcomes, and the parser stands where it did or behind what it read.
pub fn parse_folded_instruction<'a, I: ParseOperation<'a>>(
    parser: &mut Parser<'a>,
) -> Result<Instructions<I>, Error>
    ensures read { Gives (instructions_tree I.tree) result parser.new ((folded_instruction I.syntax I.heads I.made).reads (ahead parser.old)) }
    ensures keeps { Keeps parser.old parser.new }
{
    I::lawful();
    I::heeds();
    let mut work = Unfolding::new(parser.alloc());
    match head(&mut work, parser) {
        Ok(()) => {}
        Err(e) => return Err(e),
    }
    'turns: while !work.is_closed() {
        match turn(&mut work, parser) {
            Ok(()) => {}
            Err(e) => return Err(e),
        }
    }
    Ok(work.finish())
}

/// The head of the group, which stands where its items end.
fn head<'a, I: ParseOperation<'a>>(
    work: &mut Unfolding<I>,
    parser: &mut Parser<'a>,
) -> Result<(), Error>
    ensures gives { Turns result (folded_head I.syntax I.heads (levels_tree I.tree work.old.stack) (out_tree I.tree work.old.out) (ahead parser.old)) (here I.tree work.new (ahead parser.new)) }
    ensures keeps { Keeps parser.old parser.new }
{
    match open(parser) {
        Ok(_) => match parse_operation(parser) {
            Ok(instr) => work.open(Level::EndWith(None, instr)),
            Err(e) => Err(e),
        },
        Err(e) => Err(e),
    }
}

/// Reads `(instruction plain*)`: the operands' instructions in order, and then the one that heads the group. The word of a block is read as any
/// other: it opens nothing, and no `end` is put behind it. No hint may stand among them. Refused where the grammar reads none, and for want of
/// memory. Depth and registered names are as they were on both outcomes, and the parser stands where it did or behind what it read.
pub fn parse_plain<'a, I: ParseOperation<'a>>(
    parser: &mut Parser<'a>,
) -> Result<Instructions<I>, Error>
    ensures read { Gives (instructions_tree I.tree) result parser.new ((seen (without_hints I.syntax I.heads) (plain I.syntax I.heads)).reads (ahead parser.old)) }
    ensures keeps { Keeps parser.old parser.new }
{
    I::lawful();
    I::heeds();
    let mut work = Unfolding::new(parser.alloc());
    match head(&mut work, parser) {
        Ok(()) => {}
        Err(e) => return Err(e),
    }
    'turns: while !work.is_closed() {
        match plain_turn(&mut work, parser) {
            Ok(()) => {}
            Err(e) => return Err(e),
        }
    }
    Ok(work.finish())
}

/// One turn: a group opens, or the innermost closes.
fn plain_turn<'a, I: ParseOperation<'a>>(
    work: &mut Unfolding<I>,
    parser: &mut Parser<'a>,
) -> Result<(), Error>
    requires { work.old.stack ≢ [] }
    ensures gives { Turns result (plain_turn I.syntax I.heads I.made (levels_tree I.tree work.old.stack) (out_tree I.tree work.old.out) (ahead parser.old)) (here I.tree work.new (ahead parser.new)) }
    ensures keeps { Keeps parser.old parser.new }
{
    match peek_group::<I>(parser) {
        Ok(true) => head(work, parser),
        Ok(false) => match work.leave() {
            Some(level) => close_level(level, work, parser),
            None => Err(parser.error("expected an instruction")),
        },
        Err(e) => Err(e),
    }
}
