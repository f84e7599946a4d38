//! Imports (6.6, imports).
ghost use Rattle.std.specs.Prelude.{ℕ, List};
ghost use Rattle.wast_grammar.specs.Tokens.{Name};
ghost use Rattle.wast_imports.specs.ImportTree as imports;
ghost use Rattle.wast_imports.specs.ImportViews.{extern_tree, items_tree, member_tree};
ghost use Rattle.wast_conversions.specs.Covered.{extern_forms};
ghost use Rattle.wast_meant.specs.Covered.{import_forms};

use crate::form::{HasForms, first_in};
use wast_imports::{ImportGroup1Item, ImportItems, ItemKind, TagType};

/// What is imported.
impl HasForms for ItemKind<'_> {
    ghost Tree = { imports.ExternType Name ℕ };

    ghost tree = { extern_tree };

    ghost forms = { extern_forms };

    fn first_form(&self) -> Option<&'static str> {
        match self {
            ItemKind::Func(ty) => ty.first_form(),
            ItemKind::FuncExact(_) => Some("exact type"),
            ItemKind::Table(ty) => ty.first_form(),
            ItemKind::Memory(_) => None,
            ItemKind::Global(ty) => ty.first_form(),
            ItemKind::Tag(TagType::Exception(ty)) => ty.first_form(),
        }
    }
}

/// An item of a group.
impl HasForms for ImportGroup1Item<'_> {
    ghost Tree = { List ℕ × imports.Item Name ℕ };

    ghost tree = { member_tree };

    ghost forms = { λ i. extern_forms i.1.extern_type };

    fn first_form(&self) -> Option<&'static str> {
        self.sig.kind.first_form()
    }
}

/// The type of a group that is alike, once.
impl HasForms for ImportItems<'_> {
    ghost Tree = { imports.ImportItems Name ℕ };

    ghost tree = { items_tree };

    ghost forms = { import_forms };

    fn first_form(&self) -> Option<&'static str> {
        match self {
            ImportItems::Single { sig, .. } => sig.kind.first_form(),
            ImportItems::Group1 { items, .. } => first_in(items),
            ImportItems::Group2 { sig, .. } => sig.kind.first_form(),
        }
    }
}
