//! Element segments.
ghost use Rattle.std.specs.Prelude.{◌≡◌, [], ◌∷◌, All, List, map, option_map, IfOk, OnOk, IsErrOf, refl};
ghost use Rattle.std.specs.List.{flat_map, AllByRecursion};
ghost use Rattle.wasm_encoder_base.specs.Instr.{Instr, instr_bytes, expr_bytes};
ghost use Rattle.wasm_encoder_code.specs.Laws.{IsExpression};
ghost use Rattle.wasm_encoder_items.specs.Segments as segments;
ghost use Rattle.wasm_encoder_items.specs.Segments.{ended, element_bytes};
ghost use Rattle.wasm_encoder_items.specs.SegmentViews.{ElementsFit};
ghost use Rattle.wasm_encoder_sections.specs.Writes.{Writes};
ghost use Rattle.wasm_layout.specs.IsModule.{IsElement, IsU32};
ghost use Rattle.wast_parser.specs.Identifiers.{index_tree};
ghost use Rattle.wast_value_types.specs.ValueViews.{ref_tree};
ghost use Rattle.wast_core_instr.specs.ExpressionViews.{expression_tree};
ghost use Rattle.wast_fields.specs.FieldTree.{Indices, Expressions, ElemField};
ghost use Rattle.wast_fields.specs.ElemViews.{elem_tree, mode_tree};
ghost use Rattle.wast_conversions.specs.Resolved.{IfThere, IsNumber, RefResolved};
ghost use Rattle.wast_conversions.specs.Types.{number_of};
ghost use Rattle.wast_conversions.specs.Covered.{ref_forms};
ghost use Rattle.wast_meant.specs.Covered.{elem_mode_forms, expr_forms};
ghost use Rattle.wast_meant.specs.FieldsMeant.{expr_meant, element_of, elements_of};
ghost use Rattle.wast_section_items.specs.Appends.{Appends};
ghost use Rattle.wast_section_items.specs.Fits.{ExprFits, ElementFits};
ghost use Rattle.wast_section_items.specs.Ready.{ConstantReady, ElemModeReady, FieldReady};
ghost use Rattle.wast_section_items.specs.Parts.{active_segment, segment_with, ModeFits, ModeSound};

use crate::adding::add_segment;
use crate::constant::constant;
use crate::item::SectionItem;
use std::alloc::Global;
use wasm_encoder_base::{EncodeError, Items};
use wasm_encoder_code::ConstExpr;
use wasm_encoder_items::{ElementMode, ElementSegment, Elements};
use wasm_encoder_sections::ElementSection;
use wast_conversions::{all_indices, index, ref_type};
use wast_core_instr::Expression;
use wast_customs::CustomPlaceAnchor;
use wast_fields::{Elem, ElemKind, ElemPayload};
use wast_parser::Index;
use wast_value_types::RefType;

/// Its elements, and where they are copied, if they are (6.6, element segments).
impl SectionItem for Elem<'_> {
    type Section = ElementSection;

    const ANCHOR: CustomPlaceAnchor = CustomPlaceAnchor::Elem;

    ghost Item = { segments.ElementSegment (List Instr) };

    ghost spell = { element_bytes expr_bytes };

    ghost Fits = { ElementFits };

    ghost Sound = { IsElement };

    ghost items = { λ e. elements_of (ElemField (elem_tree e)) };

    ghost Ready = { λ e. FieldReady (ElemField (elem_tree e)) };

    ghost one = { λ x ready. (_, refl) };

    ghost listed = { λ section. section };

    #[tactic(auto, using(wast_conversions::proofs::Empty::front, wast_conversions::proofs::Empty::back))]
    fn encode(&self, alloc: Global, section: &mut ElementSection) -> Result<(), EncodeError> {
        match &self.payload {
            ElemPayload::Indices(written) => add_functions(alloc, section, &self.kind, written),
            ElemPayload::Exprs { ty, exprs } => add_values(alloc, section, &self.kind, ty, exprs),
        }
    }
}

/// Appends a segment of functions; refused, the section is unchanged.
fn add_functions(
    alloc: Global,
    section: &mut ElementSection,
    kind: &ElemKind<'_>,
    written: &[Index<'_>],
) -> Result<(), EncodeError>
    requires ready { ElemModeReady (mode_tree kind.now) }
    requires covered { elem_mode_forms (mode_tree kind.now) ≡ [] }
    requires numbers { All IsNumber (map index_tree written.now) }
    ensures { Appends (element_bytes expr_bytes) ElementFits IsElement (element_of (mode_tree kind.now) (Indices (map index_tree written.now)) ∷ []) section.old section.new result }
{
    match all_indices(alloc, written) {
        Ok(functions) => {
            let elements = Elements::Functions(Items::borrowed(&functions));
            add_elements(alloc, section, kind, elements)
        }
        Err(_) => Err(EncodeError::Memory),
    }
}

/// Appends a segment of values of a type; refused, the section is unchanged.
fn add_values(
    alloc: Global,
    section: &mut ElementSection,
    kind: &ElemKind<'_>,
    ty: &RefType<'_>,
    exprs: &[Expression<'_>],
) -> Result<(), EncodeError>
    requires ready { ElemModeReady (mode_tree kind.now) }
    requires covered { elem_mode_forms (mode_tree kind.now) ≡ [] }
    requires ty_resolved { RefResolved (ref_tree ty.now) }
    requires ty_covered { ref_forms (ref_tree ty.now) ≡ [] }
    requires exprs_ready { All ConstantReady (map expression_tree exprs.now) }
    requires exprs_covered { flat_map expr_forms (map expression_tree exprs.now) ≡ [] }
    ensures { Appends (element_bytes expr_bytes) ElementFits IsElement (element_of (mode_tree kind.now) (Expressions (ref_tree ty.now) (map expression_tree exprs.now)) ∷ []) section.old section.new result }
{
    match const_exprs(alloc, exprs) {
        Ok(values) => {
            let elements = Elements::Expressions(ref_type(ty), Items::borrowed(&values));
            add_elements(alloc, section, kind, elements)
        }
        Err(e) => Err(e),
    }
}

/// Appends a segment of these elements; refused, the section is unchanged.
fn add_elements(
    alloc: Global,
    section: &mut ElementSection,
    kind: &ElemKind<'_>,
    elements: Elements<'_>,
) -> Result<(), EncodeError>
    requires ready { ElemModeReady (mode_tree kind.now) }
    requires covered { elem_mode_forms (mode_tree kind.now) ≡ [] }
    ensures same { Writes (element_bytes ended (segment_with (mode_tree kind.now) elements.entry)) (ModeFits (mode_tree kind.now) × ElementsFit elements.entry) section.old section.new result }
    ensures sound { OnOk result (ModeSound (mode_tree kind.now)) }
{
    match kind {
        ElemKind::Passive => add_segment(
            section,
            ElementSegment {
                mode: ElementMode::Passive,
                elements,
            },
        ),
        ElemKind::Declared => add_segment(
            section,
            ElementSegment {
                mode: ElementMode::Declared,
                elements,
            },
        ),
        ElemKind::Active { table, offset } => match constant(alloc, offset) {
            Ok(offset) => add_active(section, table_index(table), &offset, elements),
            Err(e) => Err(e),
        },
    }
}

/// The number of the table of a segment, where one is written.
fn table_index(written: &Option<Index<'_>>) -> Option<u32>
    requires { IfThere IsNumber (option_map index_tree written.now) }
    ensures same { result ≡ option_map number_of (option_map index_tree written.now) }
    ensures sound { IfThere (λ i. IsU32 (number_of i)) (option_map index_tree written.now) }
{
    match written {
        Some(written) => Some(index(written)),
        None => None,
    }
}

/// Appends a segment of these elements that is copied into a table; refused, the section is unchanged.
fn add_active(
    section: &mut ElementSection,
    table: Option<u32>,
    offset: &ConstExpr,
    elements: Elements<'_>,
) -> Result<(), EncodeError>
    ensures { Writes (element_bytes ended (active_segment table offset.now elements.entry)) (ElementsFit elements.entry) section.old section.new result }
{
    add_segment(
        section,
        ElementSegment {
            mode: ElementMode::Active { table, offset },
            elements,
        },
    )
}

/// The values of expressions, one by one. Refused for want of memory, and as too large where a count in one is past 4294967295.
fn const_exprs(alloc: Global, exprs: &[Expression<'_>]) -> Result<Vec<ConstExpr>, EncodeError>
    requires ready { All ConstantReady (map expression_tree exprs.now) }
    requires covered { flat_map expr_forms (map expression_tree exprs.now) ≡ [] }
    ensures ok { IfOk result (λ v. v.items ≡ map (λ is. flat_map instr_bytes is) (map expr_meant (map expression_tree exprs.now))) }
    ensures fits { OnOk result (All (λ e. ExprFits (expr_meant (expression_tree e))) exprs.now) }
    ensures too_large { IsErrOf result EncodeError.TooLarge → All (λ e. ExprFits (expr_meant (expression_tree e))) exprs.now → ⊥ }
    ensures sound { OnOk result (AllByRecursion IsExpression (map expr_meant (map expression_tree exprs.now))) }
{
    let mut values = Vec::with_capacity(alloc, exprs.len())?;
    for expr in exprs {
        values.push(constant(alloc, expr)?)?;
    }
    Ok(values)
}
