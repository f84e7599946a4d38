//! What imports say of names (6.6, imports).
ghost use Rattle.wast_imports.specs.ImportViews.{extern_tree, items_tree, member_tree};
ghost use Rattle.wast_meaning.specs.Mentions as spec;

use crate::judge::{Judge, Judgement};
use crate::mention::Mention;
use crate::tell::{Mentions, Tell, tell_each};
use wast_imports::{ImportGroup1Item, ImportItems, ItemKind, TagType};

impl Mentions for ItemKind<'_> {
    ghost mentions = { λ t. spec.extern_mentions (extern_tree t) };
}

impl<'a, J: Judge<'a>> Tell<'a, J> for ItemKind<'a> {
    fn tell(&self, judge: &J) -> Result<(), J::Fault> {
        match self {
            ItemKind::Func(ty) => judge.judge(Mention::Uses(ty)),
            ItemKind::FuncExact(ty) => judge.judge(Mention::Uses(ty)),
            ItemKind::Table(ty) => ty.elem.tell(judge),
            ItemKind::Memory(_) => Ok(()),
            ItemKind::Global(ty) => ty.ty.tell(judge),
            ItemKind::Tag(TagType::Exception(ty)) => judge.judge(Mention::Uses(ty)),
        }
    }
}

/// An item of a group.
impl Mentions for ImportGroup1Item<'_> {
    ghost mentions = { λ i. spec.extern_mentions (member_tree i).1.extern_type };
}

impl<'a, J: Judge<'a>> Tell<'a, J> for ImportGroup1Item<'a> {
    fn tell(&self, judge: &J) -> Result<(), J::Fault> {
        self.sig.kind.tell(judge)
    }
}

impl Mentions for ImportItems<'_> {
    ghost mentions = { λ i. spec.import_mentions (items_tree i) };
}

/// The type of a group that is alike, once.
impl<'a, J: Judge<'a>> Tell<'a, J> for ImportItems<'a> {
    fn tell(&self, judge: &J) -> Result<(), J::Fault> {
        match self {
            ImportItems::Single { sig, .. } => sig.kind.tell(judge),
            ImportItems::Group1 { items, .. } => tell_each(items, judge),
            ImportItems::Group2 { sig, .. } => sig.kind.tell(judge),
        }
    }
}
