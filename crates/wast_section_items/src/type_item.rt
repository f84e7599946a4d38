//! Types and groups of types.
ghost use Rattle.std.specs.Prelude.{◌≡◌, [], All, IfOk, OnOk, map, refl};
ghost use Rattle.std.specs.List.{flat_map, AllByRecursion};
ghost use Rattle.wasm_encoder_base.specs.Types.{IsSubType};
ghost use Rattle.wasm_encoder_base.specs.Views.{sub_view};
ghost use Rattle.wasm_encoder_items.specs.TypeEntries.{TypeEntry, entry_bytes};
ghost use Rattle.wasm_layout.specs.IsModule.{IsEntry};
ghost use Rattle.wast_core_types.specs.TypeViews.{item_tree, rec_tree};
ghost use Rattle.wast_fields.specs.FieldTree.{TypeField, RecField};
ghost use Rattle.wast_conversions.specs.Types.{sub_meant};
ghost use Rattle.wast_conversions.specs.Resolved.{TypeResolved};
ghost use Rattle.wast_conversions.specs.Covered.{type_forms};
ghost use Rattle.wast_meant.specs.FieldsMeant.{types_of};
ghost use Rattle.wast_section_items.specs.Fits.{EntryFits};
ghost use Rattle.wast_section_items.specs.Ready.{FieldReady};

use crate::adding::{add_group, add_type};
use crate::item::SectionItem;
use std::alloc::{AllocError, Global};
use wasm_encoder_base::{EncodeError, SubType};
use wasm_encoder_sections::TypeSection;
use wast_conversions::sub_type;
use wast_core_types::{Rec, TypeItem};
use wast_customs::CustomPlaceAnchor;

/// An entry of one type (6.4.7).
impl SectionItem for TypeItem<'_> {
    type Section = TypeSection;

    const ANCHOR: CustomPlaceAnchor = CustomPlaceAnchor::TypeItem;

    ghost Item = { TypeEntry };

    ghost spell = { entry_bytes };

    ghost Fits = { EntryFits };

    ghost Sound = { IsEntry };

    ghost items = { λ t. types_of (TypeField (item_tree t)) };

    ghost Ready = { λ t. FieldReady (TypeField (item_tree t)) };

    ghost one = { λ x ready. (_, refl) };

    ghost listed = { λ section. section };

    fn encode(&self, alloc: Global, section: &mut TypeSection) -> Result<(), EncodeError> {
        match sub_type(alloc, &self.def) {
            Ok(definition) => add_type(section, &definition),
            Err(_) => Err(EncodeError::Memory),
        }
    }
}

/// An entry of types that may refer to each other (6.4.7).
impl SectionItem for Rec<'_> {
    type Section = TypeSection;

    const ANCHOR: CustomPlaceAnchor = CustomPlaceAnchor::TypeItem;

    ghost Item = { TypeEntry };

    ghost spell = { entry_bytes };

    ghost Fits = { EntryFits };

    ghost Sound = { IsEntry };

    ghost items = { λ r. types_of (RecField (rec_tree r)) };

    ghost Ready = { λ r. FieldReady (RecField (rec_tree r)) };

    ghost one = { λ x ready. (_, refl) };

    ghost listed = { λ section. section };

    fn encode(&self, alloc: Global, section: &mut TypeSection) -> Result<(), EncodeError> {
        match sub_types(alloc, &self.types) {
            Ok(definitions) => add_group(section, &definitions),
            Err(_) => Err(EncodeError::Memory),
        }
    }
}

/// The definitions of types. Fails only for want of memory.
fn sub_types(alloc: Global, types: &[TypeItem<'_>]) -> Result<Vec<SubType>, AllocError>
    requires resolved { All (λ t. TypeResolved t.definition) (map item_tree types.now) }
    requires covered { flat_map (λ t. type_forms t.definition) (map item_tree types.now) ≡ [] }
    ensures same { IfOk result (λ v. map sub_view v.items ≡ map (λ t. sub_meant t.definition) (map item_tree types.now)) }
    ensures sound { OnOk result (AllByRecursion IsSubType (map (λ t. sub_meant t.definition) (map item_tree types.now))) }
{
    let mut definitions = Vec::with_capacity(alloc, types.len())?;
    for item in types {
        definitions.push(sub_type(alloc, &item.def)?)?;
    }
    Ok(definitions)
}
