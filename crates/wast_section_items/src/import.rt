//! Imports, one by one and in groups.
ghost use Rattle.std.specs.Prelude.{◌≡◌, [], All, IfOk, OnOk, map, refl};
ghost use Rattle.std.specs.List.{flat_map, AllByRecursion};
ghost use Rattle.wasm_encoder_items.specs.Imports as binary;
ghost use Rattle.wasm_encoder_items.specs.Imports.{imports_bytes};
ghost use Rattle.wasm_encoder_items.specs.Views.{imports_view, named_view};
ghost use Rattle.wasm_layout.specs.IsModule.{IsEntity, IsImport};
ghost use Rattle.wast_imports.specs.ImportViews.{from_of, items_tree, imports_tree, member_tree, member_name_tree};
ghost use Rattle.wast_fields.specs.FieldTree.{ImportField};
ghost use Rattle.wast_conversions.specs.Types.{extern_meant};
ghost use Rattle.wast_conversions.specs.Resolved.{ExternResolved, ImportResolved};
ghost use Rattle.wast_conversions.specs.Covered.{extern_forms};
ghost use Rattle.wast_meant.specs.Covered.{import_forms};
ghost use Rattle.wast_meant.specs.FieldsMeant.{import_of, imports_of};
ghost use Rattle.wast_section_items.specs.Fits.{ImportsFit};
ghost use Rattle.wast_section_items.specs.Ready.{FieldReady};

use crate::adding::add_imports;
use crate::item::SectionItem;
use std::alloc::{AllocError, Global};
use wasm_encoder_base::{EncodeError, Items};
use wasm_encoder_items::{Import, ImportCompact};
use wasm_encoder_sections::ImportSection;
use wast_conversions::entity_type;
use wast_customs::CustomPlaceAnchor;
use wast_imports::{ImportGroup1Item, ImportGroup2Item, ImportItems, Imports};

/// An entry of one import, or of several of a module (6.6, imports).
impl SectionItem for Imports<'_> {
    type Section = ImportSection;

    const ANCHOR: CustomPlaceAnchor = CustomPlaceAnchor::Import;

    ghost Item = { binary.Imports };

    ghost spell = { imports_bytes };

    ghost Fits = { ImportsFit };

    ghost Sound = { IsImport };

    ghost items = { λ i. imports_of (ImportField (imports_tree i)) };

    ghost Ready = { λ i. FieldReady (ImportField (imports_tree i)) };

    ghost one = { λ x ready. (_, refl) };

    ghost listed = { λ section. section };

    fn encode(&self, alloc: Global, section: &mut ImportSection) -> Result<(), EncodeError> {
        match import_entry(alloc, &self.items) {
            Ok(entry) => add_imports(section, entry),
            Err(_) => Err(EncodeError::Memory),
        }
    }
}

/// The entry of what is imported. Fails only for want of memory.
fn import_entry<'t>(
    alloc: Global,
    items: &'t ImportItems<'_>,
) -> Result<wasm_encoder_items::Imports<'t>, AllocError>
    requires resolved { ImportResolved (items_tree items.now) }
    requires covered { import_forms (items_tree items.now) ≡ [] }
    ensures same { IfOk result (λ entry. imports_view entry ≡ import_of (from_of items.now) (items_tree items.now)) }
    ensures sound { OnOk result (IsImport (import_of (from_of items.now) (items_tree items.now))) }
{
    match items {
        ImportItems::Single { module, name, sig } => {
            Ok(wasm_encoder_items::Imports::Single(Import {
                module: module.as_str(),
                name: name.as_str(),
                ty: entity_type(&sig.kind),
            }))
        }
        ImportItems::Group1 { module, items } => {
            let items = named_items(alloc, items)?;
            Ok(wasm_encoder_items::Imports::Compact1 {
                module: module.as_str(),
                items: Items::owned(items),
            })
        }
        ImportItems::Group2 { module, sig, items } => {
            let names = names_of(alloc, items)?;
            Ok(wasm_encoder_items::Imports::Compact2 {
                module: module.as_str(),
                ty: entity_type(&sig.kind),
                names: Items::owned(names),
            })
        }
    }
}

/// The items of a group, each with its type. Fails only for want of memory.
fn named_items<'t>(
    alloc: Global,
    members: &'t [ImportGroup1Item<'_>],
) -> Result<Vec<ImportCompact<'t>>, AllocError>
    requires resolved { All (λ i. ExternResolved i.1.extern_type) (map member_tree members.now) }
    requires covered { flat_map (λ i. extern_forms i.1.extern_type) (map member_tree members.now) ≡ [] }
    ensures same { IfOk result (λ v. map named_view v.items ≡ map (λ i. record { name = i.0; type = extern_meant i.1.extern_type }) (map member_tree members.now)) }
    ensures sound { OnOk result (AllByRecursion (λ (n : binary.Named). IsEntity n.type) (map (λ i. record { name = i.0; type = extern_meant i.1.extern_type }) (map member_tree members.now))) }
{
    let mut items = Vec::with_capacity(alloc, members.len())?;
    for member in members {
        items.push(named_item(member))?;
    }
    Ok(items)
}

/// An item of a group, with its type.
fn named_item<'t>(member: &'t ImportGroup1Item<'_>) -> ImportCompact<'t>
    requires resolved { ExternResolved (member_tree member.now).1.extern_type }
    requires covered { extern_forms (member_tree member.now).1.extern_type ≡ [] }
    ensures same { named_view result ≡ record { name = (member_tree member.now).0; type = extern_meant (member_tree member.now).1.extern_type } }
    ensures sound { IsEntity (extern_meant (member_tree member.now).1.extern_type) }
{
    ImportCompact {
        name: member.name.as_str(),
        ty: entity_type(&member.sig.kind),
    }
}

/// The names of a group in which all is alike. Fails only for want of memory.
fn names_of<'t>(
    alloc: Global,
    members: &'t [ImportGroup2Item<'_>],
) -> Result<Vec<&'t str>, AllocError>
    ensures { IfOk result (λ v. map (λ n. n.now) v.items ≡ map member_name_tree members.now) }
{
    let mut names = Vec::with_capacity(alloc, members.len())?;
    for member in members {
        names.push(member.name.as_str())?;
    }
    Ok(names)
}
