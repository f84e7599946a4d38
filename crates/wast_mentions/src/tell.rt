//! Telling of mentions, in the order in which names are looked up.
ghost use Rattle.std.specs.Prelude.{ℕ, List, [], ◌∷◌, map, option_map, option_to_list};
ghost use Rattle.std.specs.List.{flat_map};
ghost use Rattle.wast_grammar.specs.Tokens.{Name};
ghost use Rattle.wast_parser.specs.Identifiers.{identifier_tree, index_tree};
ghost use Rattle.wast_meaning.specs.Mentions as spec;
ghost use Rattle.wast_mentions.specs.Judging.{Judged};
ghost use Rattle.wast_meaning.specs.Views.{space_view};

use crate::judge::{Judge, Judgement};
use crate::mention::Mention;
use wast_meaning::Space;
use wast_parser::{Id, Index};

/// What says something of names.
pub trait Mentions {
    /// Its mentions, in the order in which they are looked up.
    ghost mentions: { Self → List (spec.Mention Name ℕ) };
}

/// What can tell a judge of its mentions.
pub trait Tell<'a, J: Judge<'a>>: Mentions {
    /// Tells of all mentions in order, up to the first of which the judge says that something it asks isn't so.
    fn tell(&self, judge: &J) -> Result<(), J::Fault>
        ensures { Judged (J.asks judge.now) J.holds J.tells result (Self.mentions self.now) };
}

/// Tells of the mentions of each of these, in order, up to the first of which the judge says that something it asks isn't so; answers that
/// fault then.
pub fn tell_each<'a, J: Judge<'a>, T: Tell<'a, J>>(items: &[T], judge: &J) -> Result<(), J::Fault>
    ensures { Judged (J.asks judge.now) J.holds J.tells result (flat_map T.mentions items.now) }
{
    for item in items {
        match item.tell(judge) {
            Ok(()) => {}
            Err(fault) => return Err(fault),
        }
    }
    Ok(())
}

/// Tells of an index of a space; answers the judge's fault where something it asks isn't so.
pub(crate) fn tell_index<'a, J: Judge<'a>>(
    space: Space,
    index: &Index<'a>,
    judge: &J,
) -> Result<(), J::Fault>
    ensures { Judged (J.asks judge.now) J.holds J.tells result (spec.Refers (space_view space) (index_tree index.now) ∷ []) }
{
    judge.judge(Mention::Refers(space, index))
}

/// Tells of an index of a space, where it is written; answers the judge's fault where something it asks isn't so.
pub fn tell_index_if<'a, J: Judge<'a>>(
    space: Space,
    index: &Option<Index<'a>>,
    judge: &J,
) -> Result<(), J::Fault>
    ensures { Judged (J.asks judge.now) J.holds J.tells result (spec.refers_if (space_view space) (option_map index_tree index.now)) }
{
    match index {
        Some(index) => tell_index(space, index, judge),
        None => Ok(()),
    }
}

/// Tells of indices of one space, in order, up to the first of which the judge says that something it asks isn't so; answers that fault
/// then.
pub fn tell_indices<'a, J: Judge<'a>>(
    space: Space,
    indices: &[Index<'a>],
    judge: &J,
) -> Result<(), J::Fault>
    ensures { Judged (J.asks judge.now) J.holds J.tells result (map (spec.Refers (space_view space)) (map index_tree indices.now)) }
{
    for index in indices {
        match tell_index(space, index, judge) {
            Ok(()) => {}
            Err(fault) => return Err(fault),
        }
    }
    Ok(())
}

/// Tells of the name of a block that is repeated, where it is written.
pub(crate) fn tell_label<'a, J: Judge<'a>>(
    label: &Option<Id<'a>>,
    judge: &J,
) -> Result<(), J::Fault>
    ensures { Judged (J.asks judge.now) J.holds J.tells result (map spec.Repeats (option_to_list (option_map identifier_tree label.now))) }
{
    match label {
        Some(id) => judge.judge(Mention::Repeats(id)),
        None => Ok(()),
    }
}
