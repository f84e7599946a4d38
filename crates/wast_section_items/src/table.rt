//! Tables.
ghost use Rattle.std.specs.Prelude.{◌≡◌, [], ◌∷◌, List, option_map, option_to_list};
ghost use Rattle.std.specs.List.{flat_map};
ghost use Rattle.wasm_encoder_base.specs.Instr.{Instr, expr_bytes};
ghost use Rattle.wasm_encoder_items.specs.Segments as segments;
ghost use Rattle.wasm_encoder_items.specs.Segments.{WithInit, table_item};
ghost use Rattle.wasm_layout.specs.IsModule.{IsTable};
ghost use Rattle.wast_value_types.specs.ValueViews.{table_tree};
ghost use Rattle.wast_core_instr.specs.ExpressionViews.{expression_tree};
ghost use Rattle.wast_fields.specs.FieldTree.{Define};
ghost use Rattle.wast_fields.specs.ElemViews.{table_definition};
ghost use Rattle.wast_conversions.specs.Types.{table_meant};
ghost use Rattle.wast_conversions.specs.Resolved.{IfThere, RefResolved};
ghost use Rattle.wast_conversions.specs.Covered.{table_forms};
ghost use Rattle.wast_meant.specs.Covered.{expr_forms};
ghost use Rattle.wast_meant.specs.FieldsMeant.{expr_meant, table_of, tables_of};
ghost use Rattle.wast_section_items.specs.Appends.{Appends};
ghost use Rattle.wast_section_items.specs.Fits.{TableFits};
ghost use Rattle.wast_section_items.specs.One.{one_table};
ghost use Rattle.wast_section_items.specs.Ready.{ConstantReady, FieldReady};

use crate::adding::{add_table, add_table_with_init};
use crate::constant::constant;
use crate::item::SectionItem;
use std::alloc::Global;
use wasm_encoder_base::EncodeError;
use wasm_encoder_sections::TableSection;
use wast_conversions::table_type;
use wast_core_instr::Expression;
use wast_customs::CustomPlaceAnchor;
use wast_fields::{Table, TableKind};
use wast_value_types::TableType;

/// Its type, and the value of its elements at first, where one is written (6.6, tables).
impl SectionItem for Table<'_> {
    type Section = TableSection;

    const ANCHOR: CustomPlaceAnchor = CustomPlaceAnchor::Table;

    ghost Item = { segments.Table (List Instr) };

    ghost spell = { table_item expr_bytes };

    ghost Fits = { TableFits };

    ghost Sound = { IsTable };

    ghost items = { λ t. tables_of (table_definition t).defined };

    ghost Ready = { λ t. FieldReady (Define (table_definition t)) };

    ghost one = { one_table };

    ghost listed = { λ section. section };

    #[tactic(auto, using(wast_conversions::proofs::Empty::front, wast_conversions::proofs::Empty::back))]
    fn encode(&self, alloc: Global, section: &mut TableSection) -> Result<(), EncodeError> {
        match &self.kind {
            TableKind::Normal { ty, init_expr } => add_normal(alloc, section, ty, init_expr),
            TableKind::Import { .. } | TableKind::Inline { .. } => unreachable!(),
        }
    }
}

/// Appends a table, whose elements have a value at first where one is written; refused, the section is unchanged.
#[tactic(auto, using(wast_conversions::proofs::Empty::front))]
fn add_normal(
    alloc: Global,
    section: &mut TableSection,
    ty: &TableType<'_>,
    init: &Option<Expression<'_>>,
) -> Result<(), EncodeError>
    requires resolved { RefResolved (table_tree ty.now).element }
    requires covered { table_forms (table_tree ty.now) ≡ [] }
    requires init_ready { IfThere ConstantReady (option_map expression_tree init.now) }
    requires init_covered { flat_map expr_forms (option_to_list (option_map expression_tree init.now)) ≡ [] }
    ensures { Appends (table_item expr_bytes) TableFits IsTable (table_of (table_meant (table_tree ty.now)) (option_map expression_tree init.now) ∷ []) section.old section.new result }
{
    match init {
        Some(init) => add_initialized(alloc, section, ty, init),
        None => add_table(section, table_type(ty)),
    }
}

/// Appends a table whose elements have a value at first; refused, the section is unchanged.
fn add_initialized(
    alloc: Global,
    section: &mut TableSection,
    ty: &TableType<'_>,
    init: &Expression<'_>,
) -> Result<(), EncodeError>
    requires resolved { RefResolved (table_tree ty.now).element }
    requires covered { table_forms (table_tree ty.now) ≡ [] }
    requires init_ready { ConstantReady (expression_tree init.now) }
    requires init_covered { expr_forms (expression_tree init.now) ≡ [] }
    ensures { Appends (table_item expr_bytes) TableFits IsTable (WithInit (table_meant (table_tree ty.now)) (expr_meant (expression_tree init.now)) ∷ []) section.old section.new result }
{
    match constant(alloc, init) {
        Ok(init) => add_table_with_init(section, table_type(ty), &init),
        Err(e) => Err(e),
    }
}
