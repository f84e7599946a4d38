//! How many functions of their index space fields have (6.6, functions and imports).
ghost use Rattle.std.specs.Prelude.{◌≡◌, length, map, replicate};
ghost use Rattle.std.specs.List.{flat_map};
ghost use Rattle.wast_imports.specs.ImportViews.{extern_tree, items_tree, member_tree};
ghost use Rattle.wast_module_fields.specs.ModuleFieldViews.{field_tree};
ghost use Rattle.wasm_layout.specs.Present.{has_any};
ghost use Rattle.wast_meant.specs.NamesMeant.{bodies_in, imported, imported_function};

use wast_imports::{ImportGroup1Item, ImportItems, ItemKind};
use wast_module_fields::{FuncKind, ModuleField};

/// How many functions a field defines or imports.
pub(crate) fn function_count(field: &ModuleField<'_>) -> usize
    ensures { result ≡ length (bodies_in (field_tree field.now)) }
{
    match field {
        ModuleField::Func(func) => match &func.kind {
            FuncKind::Import { .. } => 0,
            FuncKind::Inline { .. } => 1,
        },
        ModuleField::Import(imports) => imported_count(&imports.items),
        _ => 0,
    }
}

/// How many functions are imported.
fn imported_count(items: &ImportItems<'_>) -> usize
    ensures { result ≡ length (flat_map imported_function (imported (items_tree items.now))) }
{
    match items {
        ImportItems::Single { sig, .. } => repeated(&sig.kind, 1),
        ImportItems::Group1 { items, .. } => count_among(items),
        ImportItems::Group2 { sig, items, .. } => repeated(&sig.kind, items.len()),
    }
}

/// As many, if they are functions, else none.
fn repeated(kind: &ItemKind<'_>, count: usize) -> usize
    ensures { result ≡ length (flat_map imported_function (replicate count (extern_tree kind.now))) }
{
    if is_function(kind) { count } else { 0 }
}

/// How many members of a group are functions.
fn count_among(members: &[ImportGroup1Item<'_>]) -> usize
    ensures { result ≡ length (flat_map imported_function (map (λ i. i.1.extern_type) (map member_tree members.now))) }
{
    let mut count = 0;
    for member in members {
        if is_function(&member.sig.kind) {
            count += 1;
        }
    }
    count
}

/// Whether what is imported is a function.
fn is_function(kind: &ItemKind<'_>) -> bool
    ensures { result ≡ has_any (imported_function (extern_tree kind.now)) }
{
    match kind {
        ItemKind::Func(_) | ItemKind::FuncExact(_) => true,
        ItemKind::Table(_) | ItemKind::Memory(_) | ItemKind::Global(_) | ItemKind::Tag(_) => false,
    }
}
