//! Whole fields.
ghost use Rattle.std.specs.Prelude.{map};
ghost use Rattle.std.specs.List.{flat_map};
ghost use Rattle.wast_module_fields.specs.ModuleFieldViews.{field_tree};
ghost use Rattle.wast_meaning.specs.Mentions.{parts};
ghost use Rattle.wast_mentions.specs.Judging.{Judged};

use crate::definitions::{tell_func, tell_global, tell_table, tell_tag};
use crate::judge::{PartJudge, PartJudgement};
use crate::said::{tell_imports, tell_type, tell_types};
use crate::segments::{tell_data, tell_elem};
use wast_meaning::Space;
use wast_mentions::Mention;
use wast_module_fields::ModuleField;

/// Tells of all parts of a field in order, up to the first of which the judge says that something it asks isn't so; answers that fault then.
pub fn tell_parts<'a, J: PartJudge<'a>>(field: &ModuleField<'a>, judge: &J) -> Result<(), J::Fault>
    ensures { Judged (J.asks judge.now) J.holds J.tells result (parts (field_tree field.now)) }
{
    match field {
        ModuleField::TypeItem(item) => tell_type(item, judge),
        ModuleField::Rec(group) => tell_types(&group.types, judge),
        ModuleField::Import(imports) => tell_imports(&imports.items, judge),
        ModuleField::Func(func) => tell_func(func, judge),
        ModuleField::Table(table) => tell_table(table, judge),
        ModuleField::Memory(_) => Ok(()),
        ModuleField::Global(global) => tell_global(global, judge),
        ModuleField::Export(export) => {
            judge.judge_mention(Mention::Refers(Space::of_export(export.kind), &export.item))
        }
        ModuleField::Start(start) => {
            judge.judge_mention(Mention::Refers(Space::Functions, &start.func))
        }
        ModuleField::Elem(elem) => tell_elem(elem, judge),
        ModuleField::Data(segment) => tell_data(segment, judge),
        ModuleField::Tag(tag) => tell_tag(tag, judge),
        ModuleField::Custom(_) => Ok(()),
    }
}

/// Tells of the parts of each of these fields, in order, up to the first of which the judge says that something it asks isn't so; answers
/// that fault then.
pub fn tell_all_parts<'a, J: PartJudge<'a>>(
    fields: &[ModuleField<'a>],
    judge: &J,
) -> Result<(), J::Fault>
    ensures { Judged (J.asks judge.now) J.holds J.tells result (flat_map parts (map field_tree fields.now)) }
{
    for field in fields {
        match tell_parts(field, judge) {
            Ok(()) => {}
            Err(fault) => return Err(fault),
        }
    }
    Ok(())
}
