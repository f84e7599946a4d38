//! Fields that define something.
ghost use Rattle.std.specs.Prelude.{[], ◌∷◌};
ghost use Rattle.wast_imports.specs.ImportViews.{tag_tree};
ghost use Rattle.wast_module_fields.specs.FuncViews.{func_definition, global_definition, tag_definition};
ghost use Rattle.wast_module_fields.specs.ElemViews.{table_definition};
ghost use Rattle.wast_meaning.specs.Mentions.{Says, Uses, defined_parts};
ghost use Rattle.wast_mentions.specs.Judging.{Judged};

use crate::constants::tell_constant_if;
use crate::judge::{PartJudge, PartJudgement};
use crate::said::{tell_ref_type, tell_val_type};
use crate::segments::tell_elements;
use wast_imports::TagType;
use wast_mentions::Mention;
use wast_module_fields::{Func, FuncKind, Global, GlobalKind, Table, TableKind, Tag};

/// Tells of a function: the use of its type where it is imported, else its body as a whole.
pub(crate) fn tell_func<'a, J: PartJudge<'a>>(func: &Func<'a>, judge: &J) -> Result<(), J::Fault>
    ensures { Judged (J.asks judge.now) J.holds J.tells result (defined_parts (func_definition func.now).defined) }
{
    match &func.kind {
        FuncKind::Import { .. } => judge.judge_mention(Mention::Uses(&func.ty)),
        FuncKind::Inline { locals, expression } => judge.judge_function(
            &func.ty, locals, expression,
        ),
    }
}

/// Tells of a table: its type, then the expression with which it begins, or its elements.
pub(crate) fn tell_table<'a, J: PartJudge<'a>>(table: &Table<'a>, judge: &J) -> Result<(), J::Fault>
    ensures { Judged (J.asks judge.now) J.holds J.tells result (defined_parts (table_definition table.now).defined) }
{
    match &table.kind {
        TableKind::Import { ty, .. } => tell_ref_type(&ty.elem, judge),
        TableKind::Normal { ty, init_expr } => {
            tell_ref_type(&ty.elem, judge)?;
            tell_constant_if(init_expr, judge)
        }
        TableKind::Inline { elem, payload, .. } => {
            tell_ref_type(elem, judge)?;
            tell_elements(payload, judge)
        }
    }
}

/// Tells of a global: its type, then the expression with which it begins.
pub(crate) fn tell_global<'a, J: PartJudge<'a>>(
    global: &Global<'a>,
    judge: &J,
) -> Result<(), J::Fault>
    ensures { Judged (J.asks judge.now) J.holds J.tells result (defined_parts (global_definition global.now).defined) }
{
    match &global.kind {
        GlobalKind::Import(_) => tell_val_type(&global.ty.ty, judge),
        GlobalKind::Inline(init) => {
            tell_val_type(&global.ty.ty, judge)?;
            judge.judge_constant(init)
        }
    }
}

/// Tells of a tag: the use of its type.
pub(crate) fn tell_tag<'a, J: PartJudge<'a>>(tag: &Tag<'a>, judge: &J) -> Result<(), J::Fault>
    ensures { Judged (J.asks judge.now) J.holds J.tells result (defined_parts (tag_definition tag.now).defined) }
{
    tell_tag_type(&tag.ty, judge)
}

/// Tells of the type of a tag.
fn tell_tag_type<'a, J: PartJudge<'a>>(ty: &TagType<'a>, judge: &J) -> Result<(), J::Fault>
    ensures { Judged (J.asks judge.now) J.holds J.tells result (Says (Uses (tag_tree ty.now)) ∷ []) }
{
    match ty {
        TagType::Exception(ty) => judge.judge_mention(Mention::Uses(ty)),
    }
}
