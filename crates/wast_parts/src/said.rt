//! What fields say of names by themselves.
ghost use Rattle.std.specs.Prelude.{map, option_map};
ghost use Rattle.std.specs.List.{flat_map};
ghost use Rattle.wasm_encoder_base.specs.OperandSyntax.{Functions};
ghost use Rattle.wast_parser.specs.Identifiers.{index_tree};
ghost use Rattle.wast_value_types.specs.ValueViews.{ref_tree, val_tree};
ghost use Rattle.wast_core_types.specs.TypeViews.{item_tree};
ghost use Rattle.wast_imports.specs.ImportViews.{items_tree};
ghost use Rattle.wast_meaning.specs.Mentions.{Refers, import_mentions, ref_mentions, refers_if, says, type_mentions, val_mentions};
ghost use Rattle.wast_meaning.specs.Views.{space_view};
ghost use Rattle.wast_mentions.specs.Judging.{Judged};

use crate::judge::{PartJudge, PartJudgement, Said};
use wast_core_types::TypeItem;
use wast_imports::ImportItems;
use wast_meaning::Space;
use wast_mentions::{Tell, tell_each, tell_index_if, tell_indices};
use wast_parser::Index;
use wast_value_types::{RefType, ValType};

/// Tells of a type of references.
pub(crate) fn tell_ref_type<'a, J: PartJudge<'a>>(
    ty: &RefType<'a>,
    judge: &J,
) -> Result<(), J::Fault>
    ensures { Judged (J.asks judge.now) J.holds J.tells result (says (ref_mentions (ref_tree ty.now))) }
{
    ty.tell(&Said { judge })
}

/// Tells of a type of values.
pub(crate) fn tell_val_type<'a, J: PartJudge<'a>>(
    ty: &ValType<'a>,
    judge: &J,
) -> Result<(), J::Fault>
    ensures { Judged (J.asks judge.now) J.holds J.tells result (says (val_mentions (val_tree ty.now))) }
{
    ty.tell(&Said { judge })
}

/// Tells of a type that is defined.
pub(crate) fn tell_type<'a, J: PartJudge<'a>>(
    item: &TypeItem<'a>,
    judge: &J,
) -> Result<(), J::Fault>
    ensures { Judged (J.asks judge.now) J.holds J.tells result (says (type_mentions (item_tree item.now))) }
{
    item.tell(&Said { judge })
}

/// Tells of the types of a group.
pub(crate) fn tell_types<'a, J: PartJudge<'a>>(
    types: &[TypeItem<'a>],
    judge: &J,
) -> Result<(), J::Fault>
    ensures { Judged (J.asks judge.now) J.holds J.tells result (says (flat_map type_mentions (map item_tree types.now))) }
{
    tell_each(types, &Said { judge })
}

/// Tells of imports.
pub(crate) fn tell_imports<'a, J: PartJudge<'a>>(
    items: &ImportItems<'a>,
    judge: &J,
) -> Result<(), J::Fault>
    ensures { Judged (J.asks judge.now) J.holds J.tells result (says (import_mentions (items_tree items.now))) }
{
    items.tell(&Said { judge })
}

/// Tells of indices of functions.
pub(crate) fn tell_functions<'a, J: PartJudge<'a>>(
    indices: &[Index<'a>],
    judge: &J,
) -> Result<(), J::Fault>
    ensures { Judged (J.asks judge.now) J.holds J.tells result (says (map (Refers Functions) (map index_tree indices.now))) }
{
    tell_indices(Space::Functions, indices, &Said { judge })
}

/// Tells of an index of a space, where it is written.
pub(crate) fn tell_target<'a, J: PartJudge<'a>>(
    space: Space,
    index: &Option<Index<'a>>,
    judge: &J,
) -> Result<(), J::Fault>
    ensures { Judged (J.asks judge.now) J.holds J.tells result (says (refers_if (space_view space) (option_map index_tree index.now))) }
{
    tell_index_if(space, index, &Said { judge })
}
