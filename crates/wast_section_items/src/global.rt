//! Globals.
ghost use Rattle.std.specs.Prelude.{◌≡◌, [], ◌∷◌, List};
ghost use Rattle.wasm_encoder_base.specs.Instr.{Instr, expr_bytes};
ghost use Rattle.wasm_encoder_items.specs.Segments as segments;
ghost use Rattle.wasm_encoder_items.specs.Segments.{global_item};
ghost use Rattle.wasm_layout.specs.IsModule.{IsGlobal};
ghost use Rattle.wast_value_types.specs.ValueViews.{global_tree};
ghost use Rattle.wast_core_instr.specs.ExpressionViews.{expression_tree};
ghost use Rattle.wast_fields.specs.FieldTree.{Define};
ghost use Rattle.wast_fields.specs.FuncViews.{global_definition};
ghost use Rattle.wast_conversions.specs.Types.{global_meant};
ghost use Rattle.wast_conversions.specs.Resolved.{ValResolved};
ghost use Rattle.wast_conversions.specs.Covered.{global_forms};
ghost use Rattle.wast_meant.specs.Covered.{expr_forms};
ghost use Rattle.wast_meant.specs.FieldsMeant.{expr_meant, globals_of};
ghost use Rattle.wast_section_items.specs.Appends.{Appends};
ghost use Rattle.wast_section_items.specs.Fits.{GlobalFits};
ghost use Rattle.wast_section_items.specs.One.{one_global};
ghost use Rattle.wast_section_items.specs.Ready.{ConstantReady, FieldReady};

use crate::adding::add_global;
use crate::constant::constant;
use crate::item::SectionItem;
use std::alloc::Global;
use wasm_encoder_base::EncodeError;
use wasm_encoder_sections::GlobalSection;
use wast_conversions::global_type;
use wast_core_instr::Expression;
use wast_customs::CustomPlaceAnchor;
use wast_fields::{Global as GlobalField, GlobalKind};
use wast_value_types::GlobalType;

/// Its type and its value at first (6.6, globals).
impl SectionItem for GlobalField<'_> {
    type Section = GlobalSection;

    const ANCHOR: CustomPlaceAnchor = CustomPlaceAnchor::Global;

    ghost Item = { segments.Global (List Instr) };

    ghost spell = { global_item expr_bytes };

    ghost Fits = { GlobalFits };

    ghost Sound = { IsGlobal };

    ghost items = { λ g. globals_of (global_definition g).defined };

    ghost Ready = { λ g. FieldReady (Define (global_definition g)) };

    ghost one = { one_global };

    ghost listed = { λ section. section };

    #[tactic(auto, using(wast_conversions::proofs::Empty::front, wast_conversions::proofs::Empty::back))]
    fn encode(&self, alloc: Global, section: &mut GlobalSection) -> Result<(), EncodeError> {
        match &self.kind {
            GlobalKind::Inline(init) => add_initialized(alloc, section, &self.ty, init),
            GlobalKind::Import(_) => unreachable!(),
        }
    }
}

/// Appends a global; refused, the section is unchanged.
fn add_initialized(
    alloc: Global,
    section: &mut GlobalSection,
    ty: &GlobalType<'_>,
    init: &Expression<'_>,
) -> Result<(), EncodeError>
    requires resolved { ValResolved (global_tree ty.now).val_type }
    requires covered { global_forms (global_tree ty.now) ≡ [] }
    requires init_ready { ConstantReady (expression_tree init.now) }
    requires init_covered { expr_forms (expression_tree init.now) ≡ [] }
    ensures { Appends (global_item expr_bytes) GlobalFits IsGlobal (record { type = global_meant (global_tree ty.now); init = expr_meant (expression_tree init.now) } ∷ []) section.old section.new result }
{
    match constant(alloc, init) {
        Ok(init) => add_global(section, global_type(ty), &init),
        Err(e) => Err(e),
    }
}
