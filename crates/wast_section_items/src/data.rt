//! Data segments.
ghost use Rattle.std.specs.Prelude.{◌≡◌, [], ◌∷◌, List, IfOk, map, option_map, refl};
ghost use Rattle.std.specs.List.{flat_map};
ghost use Rattle.wasm_encoder_base.specs.Instr.{Instr, expr_bytes};
ghost use Rattle.wasm_encoder_items.specs.Segments as segments;
ghost use Rattle.wasm_encoder_items.specs.Segments.{data_bytes};
ghost use Rattle.wasm_layout.specs.IsModule.{IsData};
ghost use Rattle.wast_parser.specs.Identifiers.{index_tree};
ghost use Rattle.wast_core_instr.specs.ExpressionViews.{expression_tree};
ghost use Rattle.wast_data.specs.DataViews.{value_tree};
ghost use Rattle.wast_fields.specs.FieldTree.{DataField};
ghost use Rattle.wast_fields.specs.MemoryViews.{mode_tree, data_tree};
ghost use Rattle.wast_conversions.specs.Operands.{optional_meant};
ghost use Rattle.wast_conversions.specs.Resolved.{IfThere, IsNumber};
ghost use Rattle.wast_meant.specs.Covered.{data_forms, data_mode_forms, expr_forms};
ghost use Rattle.wast_meant.specs.FieldsMeant.{values_of, expr_meant, data_of, datas_of};
ghost use Rattle.wast_section_items.specs.Appends.{Appends};
ghost use Rattle.wast_section_items.specs.Fits.{DataFits};
ghost use Rattle.wast_section_items.specs.Ready.{ConstantReady, DataModeReady, FieldReady};

use crate::adding::{add_active_data, add_passive_data};
use crate::constant::constant;
use crate::item::SectionItem;
use std::alloc::{AllocError, Global};
use wasm_encoder_base::EncodeError;
use wasm_encoder_sections::DataSection;
use wast_conversions::optional_index;
use wast_core_instr::Expression;
use wast_customs::CustomPlaceAnchor;
use wast_data::DataVal;
use wast_fields::{Data, DataKind};
use wast_parser::Index;

/// Its bytes, and where it is copied, if it is (6.6, data segments).
impl SectionItem for Data<'_> {
    type Section = DataSection;

    const ANCHOR: CustomPlaceAnchor = CustomPlaceAnchor::Data;

    ghost Item = { segments.DataSegment (List Instr) };

    ghost spell = { data_bytes expr_bytes };

    ghost Fits = { DataFits };

    ghost Sound = { IsData };

    ghost items = { λ d. datas_of (DataField (data_tree d)) };

    ghost Ready = { λ d. FieldReady (DataField (data_tree d)) };

    ghost one = { λ x ready. (_, refl) };

    ghost listed = { λ section. section };

    #[tactic(auto, using(wast_conversions::proofs::Empty::front, wast_conversions::proofs::Empty::back))]
    fn encode(&self, alloc: Global, section: &mut DataSection) -> Result<(), EncodeError> {
        match bytes_of(alloc, &self.data) {
            Ok(bytes) => add_data(alloc, section, &self.kind, &bytes),
            Err(_) => Err(EncodeError::Memory),
        }
    }
}

/// Appends a segment of these bytes; refused, the section is unchanged.
fn add_data(
    alloc: Global,
    section: &mut DataSection,
    kind: &DataKind<'_>,
    bytes: &[u8],
) -> Result<(), EncodeError>
    requires ready { DataModeReady (mode_tree kind.now) }
    requires covered { data_mode_forms (mode_tree kind.now) ≡ [] }
    ensures { Appends (data_bytes expr_bytes) DataFits IsData (data_of (mode_tree kind.now) bytes.now ∷ []) section.old section.new result }
{
    match kind {
        DataKind::Passive => add_passive_data(section, bytes),
        DataKind::Active { memory, offset } => add_active(alloc, section, memory, offset, bytes),
    }
}

/// Appends a segment that is copied into a memory; refused, the section is unchanged.
fn add_active(
    alloc: Global,
    section: &mut DataSection,
    memory: &Option<Index<'_>>,
    offset: &Expression<'_>,
    bytes: &[u8],
) -> Result<(), EncodeError>
    requires memory_number { IfThere IsNumber (option_map index_tree memory.now) }
    requires offset_ready { ConstantReady (expression_tree offset.now) }
    requires offset_covered { expr_forms (expression_tree offset.now) ≡ [] }
    ensures { Appends (data_bytes expr_bytes) DataFits IsData (segments.ActiveData (optional_meant (option_map index_tree memory.now)) (expr_meant (expression_tree offset.now)) bytes.now ∷ []) section.old section.new result }
{
    match constant(alloc, offset) {
        Ok(offset) => add_active_data(section, optional_index(memory), &offset, bytes),
        Err(e) => Err(e),
    }
}

/// The bytes of values, one after another. Fails only for want of memory.
fn bytes_of(alloc: Global, values: &[DataVal<'_>]) -> Result<Vec<u8>, AllocError>
    requires { flat_map data_forms (map value_tree values.now) ≡ [] }
    ensures { IfOk result (λ v. v.items ≡ values_of (map value_tree values.now)) }
{
    let mut bytes = Vec::new(alloc);
    for value in values {
        value.push_onto(&mut bytes)?;
    }
    Ok(bytes)
}
