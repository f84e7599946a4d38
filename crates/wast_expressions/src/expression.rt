//! Items, by a loop over a stack of its own: no depth of groups is too deep.
ghost use Rattle.std.specs.Prelude.{◌≡◌, ℕ, ◌+◌, ◌≤◌, ◌<◌, OnOk, length};
ghost use Rattle.wast_parser.specs.State.{ahead, Keeps};
ghost use Rattle.wast_parser.specs.Reading.{Gives};
ghost use Rattle.wast_expressions.specs.Expressions.{expression};
ghost use Rattle.wast_expressions.specs.Machine.{done};
ghost use Rattle.wast_expressions.specs.Views.{Counts, instructions_tree};

use crate::operation::{Operation, ParseOperation};
use crate::stack::{Instructions, Unfolding};
use crate::steps::Steps;
use crate::turn::turn;
use std::sync::ledger::Ledger;
use wast_parser::{Error, Parser};

/// Reads items up to an end, unfolded (6.5, folded instructions): `(i32.add (local.get 0) (local.get 1))` as `local.get 0`, `local.get 1`,
/// `i32.add`. Refused where the grammar reads none, and for want of memory. Depth and registered names are as they were on both
/// outcomes, and the parser stands where it did or behind what it read.
pub fn parse_items<'a, I: ParseOperation<'a>>(
    parser: &mut Parser<'a>,
) -> Result<Instructions<I>, Error>
    ensures read { Gives (instructions_tree I.tree) result parser.new ((expression I.syntax I.heads I.made).reads (ahead parser.old)) }
    ensures keeps { Keeps parser.old parser.new }
{
    I::lawful();
    I::heeds();
    let mut work = Unfolding::new(parser.alloc());
    'turns: while !is_done(&work, parser) {
        match turn(&mut work, parser) {
            Ok(()) => {}
            Err(e) => return Err(e),
        }
    }
    Ok(work.finish())
}

/// The same, and counts the turns of the loop, that which is refused too; for want of memory the count is at least one, and no
/// more than it would be else. Where items are read it is no more than the significant tokens that they take. On both outcomes it is
/// at most one more than the tokens that it took or passed, and than the significant tokens that stood before it.
pub fn parse_counted<'a, I: ParseOperation<'a>, L: Ledger>(
    parser: &mut Parser<'a>,
    steps: &mut Steps<L>,
) -> Result<Instructions<I>, Error>
    ensures read { Gives (instructions_tree I.tree) result parser.new ((expression I.syntax I.heads I.made).reads (ahead parser.old)) }
    ensures keeps { Keeps parser.old parser.new }
    ensures counted { (n : ℕ) × (steps.new ≡ steps.old + n) × Counts I.syntax I.heads I.made (ahead parser.old) result n }
    ensures spent { OnOk result (steps.new + length (ahead parser.new) ≤ steps.old + length (ahead parser.old)) }
    ensures taken { steps.new + parser.old.at ≤ steps.old + parser.new.at + 1 }
    ensures turns { steps.new ≤ steps.old + length (ahead parser.old) + 1 }
{
    I::lawful();
    I::heeds();
    let mut work = Unfolding::new(parser.alloc());
    'turns: while !is_done(&work, parser) {
        steps.tick();
        match turn(&mut work, parser) {
            Ok(()) => {}
            Err(e) => return Err(e),
        }
    }
    Ok(work.finish())
}

/// Whether no group is open, and an end stands here.
fn is_done<I: Drop>(work: &Unfolding<I>, parser: &Parser<'_>) -> bool
    ensures { result ≡ done work.now.stack (ahead parser.now) }
{
    work.is_closed() && parser.is_empty()
}
