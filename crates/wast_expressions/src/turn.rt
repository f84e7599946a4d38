//! One turn of the loop that unfolds items.
ghost use Rattle.std.specs.Prelude.{◌≡◌, if◌then◌else◌, List, [], ◌∷◌, Some, None, OnOk, IfErr};
ghost use Rattle.wast_parser.specs.Significant.{TextToken};
ghost use Rattle.wast_parser.specs.State.{ahead, Keeps};
ghost use Rattle.wast_parser.specs.Reading.{out_of_memory};
ghost use Rattle.wast_expressions.specs.Items.{either_hint};
ghost use Rattle.wast_expressions.specs.Machine.{both_hints, headed, open_group, plain_item, one_item, close_level, row_turn, then_turn, else_turn, end_turn, turn};
ghost use Rattle.wast_expressions.specs.Machine as machine;
ghost use Rattle.wast_expressions.specs.declared.stack.Level.TheVariants as levels;
ghost use Rattle.wast_expressions.specs.Views.{here, kind_of, level_tree, levels_tree, out_tree, Turns};

use crate::hint::hint;
use crate::look::{Else, Then, peek_group, peek_led};
use crate::operation::{
    GroupKind, MadeKind, Operation, ParseOperation, make, parse_head, parse_operation,
};
use crate::stack::{Level, Unfolding};
use crate::token::{close, open, open_word};
use wast_parser::{Error, Keyword, LParen, Parser};

/// One turn: an item is read, up to what its head opens, or what is open goes on or closes.
pub(crate) fn turn<'a, I: ParseOperation<'a>>(
    work: &mut Unfolding<I>,
    parser: &mut Parser<'a>,
) -> Result<(), Error>
    ensures gives { Turns result (turn I.syntax I.heads I.made (levels_tree I.tree work.old.stack) (out_tree I.tree work.old.out) (ahead parser.old)) (here I.tree work.new (ahead parser.new)) }
    ensures keeps { Keeps parser.old parser.new }
{
    if work.is_closed() {
        items(work, parser)
    } else {
        turn_in_group(work, parser)
    }
}

/// The same, where a group is open. A function of its own, so that where none is no room is made for one. An item leaves the group
/// where it is.
#[inline(never)]
fn turn_in_group<'a, I: ParseOperation<'a>>(
    work: &mut Unfolding<I>,
    parser: &mut Parser<'a>,
) -> Result<(), Error>
    ensures gives { Turns result (turn I.syntax I.heads I.made (levels_tree I.tree work.old.stack) (out_tree I.tree work.old.out) (ahead parser.old)) (here I.tree work.new (ahead parser.new)) }
    ensures keeps { Keeps parser.old parser.new }
{
    I::lawful();
    if work.takes_items() && !parser.closes() {
        return item(work, parser);
    }
    match work.leave() {
        None => items(work, parser),
        Some(Level::EndWith(hint, instr)) => {
            items_within(Level::EndWith(hint, instr), work, parser)
        }
        Some(Level::BlockEnd) => items_within(Level::BlockEnd, work, parser),
        Some(Level::Arm) => items_within(Level::Arm, work, parser),
        Some(Level::Conditions(hint, instr)) => conditions(hint, instr, work, parser),
        Some(Level::AfterThen) => after_then(work, parser),
        Some(Level::AfterElse) => end(work, parser),
    }
}

/// Where no group is open: an item. What begins with no parenthesis is an instruction by itself, or none.
#[inline(always)]
fn items<'a, I: ParseOperation<'a>>(
    work: &mut Unfolding<I>,
    parser: &mut Parser<'a>,
) -> Result<(), Error>
    requires { work.old.stack ≡ [] }
    ensures gives { Turns result (row_turn I.syntax I.heads I.made (levels_tree I.tree work.old.stack) (out_tree I.tree work.old.out) (ahead parser.old)) (here I.tree work.new (ahead parser.new)) }
    ensures keeps { Keeps parser.old parser.new }
{
    I::lawful();
    if parser.opens() {
        item(work, parser)
    } else {
        plain(None, work, parser)
    }
}

/// Where a group is open: what closes it, or an item.
#[inline(always)]
fn items_within<'a, I: ParseOperation<'a>>(
    level: Level<I>,
    work: &mut Unfolding<I>,
    parser: &mut Parser<'a>,
) -> Result<(), Error>
    ensures gives { Turns result (row_turn I.syntax I.heads I.made (level_tree I.tree level ∷ levels_tree I.tree work.old.stack) (out_tree I.tree work.old.out) (ahead parser.old)) (here I.tree work.new (ahead parser.new)) }
    ensures keeps { Keeps parser.old parser.new }
{
    I::lawful();
    if parser.closes() {
        return close_level(level, work, parser);
    }
    match work.open(level) {
        Ok(()) => item(work, parser),
        Err(e) => Err(e),
    }
}

/// An instruction by itself, or a group up to what its head opens, behind its hint.
#[inline(always)]
fn item<'a, I: ParseOperation<'a>>(
    work: &mut Unfolding<I>,
    parser: &mut Parser<'a>,
) -> Result<(), Error>
    ensures gives { Turns result (one_item I.syntax I.heads I.made (levels_tree I.tree work.old.stack) (out_tree I.tree work.old.out) (ahead parser.old)) (here I.tree work.new (ahead parser.new)) }
    ensures keeps { Keeps parser.old parser.new }
{
    I::lawful();
    if parser.opens_group() {
        return group(None, work, parser);
    }
    let hint = match hint(parser) {
        Ok(hint) => hint,
        Err(e) => return Err(e),
    };
    match parser.peek::<LParen>() {
        Ok(true) => group(hint, work, parser),
        Ok(false) => plain(hint, work, parser),
        Err(e) => Err(e),
    }
}

#[inline(always)]
fn plain<'a, I: ParseOperation<'a>>(
    hint: Option<u32>,
    work: &mut Unfolding<I>,
    parser: &mut Parser<'a>,
) -> Result<(), Error>
    ensures gives { Turns result (plain_item I.syntax I.heads I.made hint (levels_tree I.tree work.old.stack) (out_tree I.tree work.old.out) (ahead parser.old)) (here I.tree work.new (ahead parser.new)) }
    ensures keeps { Keeps parser.old parser.new }
{
    match parse_operation(parser) {
        Ok(instr) => work.push(hint, instr),
        Err(e) => Err(e),
    }
}

/// A group, up to what its head opens.
#[inline(always)]
fn group<'a, I: ParseOperation<'a>>(
    hint: Option<u32>,
    work: &mut Unfolding<I>,
    parser: &mut Parser<'a>,
) -> Result<(), Error>
    ensures gives { Turns result (open_group I.syntax I.heads I.made (levels_tree I.tree work.old.stack) (out_tree I.tree work.old.out) hint (ahead parser.old)) (here I.tree work.new (ahead parser.new)) }
    ensures keeps { Keeps parser.old parser.new }
{
    match open(parser) {
        Ok(_) => match parse_head(parser) {
            Ok((instr, kind)) => head(hint, instr, kind, work),
            Err(e) => Err(e),
        },
        Err(e) => Err(e),
    }
}

/// What the head of a group opens.
#[inline(always)]
fn head<I: Operation>(
    hint: Option<u32>,
    instr: I,
    kind: GroupKind,
    work: &mut Unfolding<I>,
) -> Result<(), Error>
    requires { kind_of kind ≡ I.heads.kind (I.tree instr) }
    ensures opened { OnOk result ((ts : List TextToken) → here I.tree work.new ts ≡ headed I.syntax I.heads I.made (I.heads.kind (I.tree instr)) (levels_tree I.tree work.old.stack) (out_tree I.tree work.old.out) hint (I.tree instr) ts) }
    ensures memory { IfErr result (λ e. e ≡ out_of_memory) }
{
    match kind {
        GroupKind::Operands => work.open(Level::EndWith(hint, instr)),
        GroupKind::Block => match work.push(hint, instr) {
            Ok(()) => work.open(Level::BlockEnd),
            Err(e) => Err(e),
        },
        GroupKind::Arms => work.open(Level::Conditions(hint, instr)),
    }
}

/// Where items stand no more: the end of what holds them.
#[inline(always)]
pub(crate) fn close_level<'a, I: ParseOperation<'a>>(
    level: Level<I>,
    work: &mut Unfolding<I>,
    parser: &mut Parser<'a>,
) -> Result<(), Error>
    ensures gives { Turns result (close_level I.syntax I.heads I.made (level_tree I.tree level) (levels_tree I.tree work.old.stack) (out_tree I.tree work.old.out) (ahead parser.old)) (here I.tree work.new (ahead parser.new)) }
    ensures keeps { Keeps parser.old parser.new }
{
    match level {
        Level::EndWith(hint, instr) => match close(parser) {
            Ok(_) => work.push(hint, instr),
            Err(e) => Err(e),
        },
        Level::BlockEnd => end(work, parser),
        Level::Arm => match close(parser) {
            Ok(_) => Ok(()),
            Err(e) => Err(e),
        },
        _ => Err(parser.error("unexpected token")),
    }
}

/// The end of a block or of an `if`.
#[inline(always)]
fn end<'a, I: ParseOperation<'a>>(
    work: &mut Unfolding<I>,
    parser: &mut Parser<'a>,
) -> Result<(), Error>
    ensures gives { Turns result (end_turn I.syntax I.heads I.made (levels_tree I.tree work.old.stack) (out_tree I.tree work.old.out) (ahead parser.old)) (here I.tree work.new (ahead parser.new)) }
    ensures keeps { Keeps parser.old parser.new }
{
    match close(parser) {
        Ok(span) => {
            let instr = make(parser, MadeKind::End, span);
            work.push(None, instr)
        }
        Err(e) => Err(e),
    }
}

/// One more condition of an `if`, or its first arm.
fn conditions<'a, I: ParseOperation<'a>>(
    hint: Option<u32>,
    instr: I,
    work: &mut Unfolding<I>,
    parser: &mut Parser<'a>,
) -> Result<(), Error>
    ensures gives { Turns result (turn I.syntax I.heads I.made (level_tree I.tree (levels.Conditions hint instr) ∷ levels_tree I.tree work.old.stack) (out_tree I.tree work.old.out) (ahead parser.old)) (here I.tree work.new (ahead parser.new)) }
    ensures keeps { Keeps parser.old parser.new }
{
    match peek_group::<I>(parser) {
        Ok(true) => match work.open(Level::Conditions(hint, instr)) {
            Ok(()) => group(None, work, parser),
            Err(e) => Err(e),
        },
        Ok(false) => then_arm(hint, instr, work, parser),
        Err(e) => Err(e),
    }
}

/// The arm `then` of an `if`, behind a hint where none stood before the group.
fn then_arm<'a, I: ParseOperation<'a>>(
    outer: Option<u32>,
    instr: I,
    work: &mut Unfolding<I>,
    parser: &mut Parser<'a>,
) -> Result<(), Error>
    ensures gives { Turns result (then_turn I.syntax I.heads I.made outer (I.tree instr) (levels_tree I.tree work.old.stack) (out_tree I.tree work.old.out) (ahead parser.old)) (here I.tree work.new (ahead parser.new)) }
    ensures keeps { Keeps parser.old parser.new }
{
    let inner = match hint(parser) {
        Ok(hint) => hint,
        Err(e) => return Err(e),
    };
    let Some(hint) = joined(outer, inner) else {
        return Err(parser.error("expected one branch hint"));
    };
    match open_word::<Then>(
        parser,
        "expected a folded instruction or `(then`",
        "expected an instruction or `then`",
    ) {
        Ok(_) => match work.push(hint, instr) {
            Ok(()) => arm(Level::AfterThen, work),
            Err(e) => Err(e),
        },
        Err(e) => Err(e),
    }
}

/// The one of two hints that is there, unless both are.
fn joined(outer: Option<u32>, inner: Option<u32>) -> Option<Option<u32>>
    ensures { result ≡ (if both_hints outer inner then None else Some (either_hint outer inner)) }
{
    match (outer, inner) {
        (Some(_), Some(_)) => None,
        (Some(value), None) => Some(Some(value)),
        (None, inner) => Some(inner),
    }
}

/// Opens an arm, with what may stand behind it.
fn arm<I: Operation>(after: Level<I>, work: &mut Unfolding<I>) -> Result<(), Error>
    ensures opened { OnOk result (work.new ≡ record work.old { stack = levels.Arm ∷ after ∷ work.old.stack }) }
    ensures memory { IfErr result (λ e. e ≡ out_of_memory) }
{
    match work.open(after) {
        Ok(()) => work.open(Level::Arm),
        Err(e) => Err(e),
    }
}

/// Behind the first arm: the second, or the end.
fn after_then<'a, I: ParseOperation<'a>>(
    work: &mut Unfolding<I>,
    parser: &mut Parser<'a>,
) -> Result<(), Error>
    ensures gives { Turns result (turn I.syntax I.heads I.made (machine.AfterThen ∷ levels_tree I.tree work.old.stack) (out_tree I.tree work.old.out) (ahead parser.old)) (here I.tree work.new (ahead parser.new)) }
    ensures keeps { Keeps parser.old parser.new }
{
    match peek_led::<Keyword<Else>>(parser) {
        Ok(true) => else_arm(work, parser),
        Ok(false) => end(work, parser),
        Err(e) => Err(e),
    }
}

/// The arm `else`.
fn else_arm<'a, I: ParseOperation<'a>>(
    work: &mut Unfolding<I>,
    parser: &mut Parser<'a>,
) -> Result<(), Error>
    ensures gives { Turns result (else_turn I.syntax I.heads I.made (levels_tree I.tree work.old.stack) (out_tree I.tree work.old.out) (ahead parser.old)) (here I.tree work.new (ahead parser.new)) }
    ensures keeps { Keeps parser.old parser.new }
{
    match open_word::<Else>(parser, "expected `(else`", "expected `else`") {
        Ok(span) => {
            let instr = make(parser, MadeKind::Else, span);
            match work.push(None, instr) {
                Ok(()) => arm(Level::AfterElse, work),
                Err(e) => Err(e),
            }
        }
        Err(e) => Err(e),
    }
}
