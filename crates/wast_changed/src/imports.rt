//! External types and imports.
ghost use Rattle.std.specs.Prelude.{◌≡◌, ℕ, List, false, OnOk, IsOk};
ghost use Rattle.wast_grammar.specs.Tokens.{Name};
ghost use Rattle.wast_imports.specs.ImportTree as spec;
ghost use Rattle.wast_imports.specs.ImportViews.{extern_tree, item_tree, member_tree, items_tree, from_of, imports_tree};
ghost use Rattle.wast_meaning.specs.Changed.{extern_changed, item_changed, imports_changed};
ghost use Rattle.wast_changed.specs.Memory.{kind_may_take};

use crate::changing::Changing;
use crate::list::{ByChange, TryEach, try_turn_list};
use crate::types::change_type_use;
use crate::value_types::{change_global_type, change_table_type};
use std::alloc::AllocError;
use wast_imports::{ImportGroup1Item, ImportItems, Imports, ItemKind, ItemSig, TagType};

/// An external type (6.4.13). Fails only for want of memory, of which none is asked but for a type use without an index.
pub(crate) fn change_item_kind<'a, C: Changing<'a>>(
    change: &C,
    kind: &mut ItemKind<'a>,
) -> Result<(), AllocError>
    ensures changed { OnOk result (extern_tree kind.new ≡ extern_changed (C.change change.now) (extern_tree kind.old)) }
    ensures unasked { kind_may_take kind.old ≡ false → IsOk result }
{
    match kind {
        ItemKind::Func(ty) => change_type_use(change, ty),
        ItemKind::FuncExact(ty) => change_type_use(change, ty),
        ItemKind::Table(ty) => {
            change_table_type(change, ty);
            Ok(())
        }
        ItemKind::Memory(_) => Ok(()),
        ItemKind::Global(ty) => {
            change_global_type(change, ty);
            Ok(())
        }
        ItemKind::Tag(TagType::Exception(ty)) => change_type_use(change, ty),
    }
}

/// An external type with what it is called. Fails only for want of memory, of which none is asked but for a type use without an index.
pub(crate) fn change_item_sig<'a, C: Changing<'a>>(
    change: &C,
    sig: &mut ItemSig<'a>,
) -> Result<(), AllocError>
    ensures changed { OnOk result (item_tree sig.new ≡ item_changed (C.change change.now) (item_tree sig.old)) }
    ensures unasked { kind_may_take sig.old.kind ≡ false → IsOk result }
{
    change_item_kind(change, &mut sig.kind)
}

/// What is imported from a module (6.6, imports); the name of the module stays. Fails only for want of memory.
pub(crate) fn change_import_items<'a, C: Changing<'a>>(
    change: &C,
    items: &mut ImportItems<'a>,
) -> Result<(), AllocError>
    ensures items { OnOk result (items_tree items.new ≡ imports_changed (C.change change.now) (items_tree items.old)) }
    ensures from { OnOk result (from_of items.new ≡ from_of items.old) }
{
    match items {
        ImportItems::Single { sig, .. } => change_item_sig(change, sig),
        ImportItems::Group1 { items, .. } => try_turn_list(&ByChange { change }, items),
        ImportItems::Group2 { sig, .. } => change_item_sig(change, sig),
    }
}

/// Imports from a module (6.6, imports). Fails only for want of memory.
pub fn change_imports<'a, C: Changing<'a>>(
    change: &C,
    imports: &mut Imports<'a>,
) -> Result<(), AllocError>
    ensures { OnOk result (imports_tree imports.new ≡ record (imports_tree imports.old) { items = imports_changed (C.change change.now) (imports_tree imports.old).items }) }
{
    change_import_items(change, &mut imports.items)
}

impl<'a, C: Changing<'a>> TryEach<ImportGroup1Item<'a>> for ByChange<'_, C> {
    ghost Tree = { List ℕ × spec.Item Name ℕ };

    ghost tree = { member_tree };

    ghost turned = { λ b i. (i.0, item_changed (C.change b.change.now) i.1) };

    fn try_turn(&self, item: &mut ImportGroup1Item<'a>) -> Result<(), AllocError> {
        change_item_sig(self.change, &mut item.sig)
    }
}
