//! Functions by their types.
ghost use Rattle.wasm_encoder_base.specs.Leb.{uleb};
ghost use Rattle.wast_fields.specs.FieldTree.{Define};
ghost use Rattle.wast_fields.specs.FuncViews.{func_definition};
ghost use Rattle.wast_meant.specs.FieldsMeant.{functions_of};
ghost use Rattle.wast_section_items.specs.Fits.{NoCounts};
ghost use Rattle.wast_section_items.specs.One.{one_func};
ghost use Rattle.wast_section_items.specs.Ready.{FieldReady};
ghost use Rattle.wast_section_items.specs.Sound.{TypeSound};
ghost use Rattle.wasm_layout.specs.AbstractModule as abstract;

use crate::adding::add_function;
use crate::item::SectionItem;
use std::alloc::Global;
use wasm_encoder_base::EncodeError;
use wasm_encoder_sections::FunctionSection;
use wast_conversions::type_index;
use wast_customs::CustomPlaceAnchor;
use wast_fields::{Func, FuncKind};

/// The index of its type (6.6, functions).
impl SectionItem for Func<'_> {
    type Section = FunctionSection;

    const ANCHOR: CustomPlaceAnchor = CustomPlaceAnchor::Func;

    ghost Item = { abstract.Function };

    ghost spell = { λ f. uleb f.type_index };

    ghost Fits = { NoCounts };

    ghost Sound = { TypeSound };

    ghost items = { λ f. functions_of (func_definition f).defined };

    ghost Ready = { λ f. FieldReady (Define (func_definition f)) };

    ghost one = { one_func };

    ghost listed = { λ section. section };

    fn encode(&self, _alloc: Global, section: &mut FunctionSection) -> Result<(), EncodeError> {
        match &self.kind {
            FuncKind::Inline { .. } => add_function(section, type_index(&self.ty)),
            FuncKind::Import { .. } => unreachable!(),
        }
    }
}
