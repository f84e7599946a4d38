//! Exports.
ghost use Rattle.std.specs.Prelude.{refl};
ghost use Rattle.wasm_encoder_items.specs.Imports as binary;
ghost use Rattle.wasm_encoder_items.specs.Imports.{export_bytes};
ghost use Rattle.wasm_layout.specs.IsModule.{IsExport};
ghost use Rattle.wast_exports.specs.ExportViews.{export_tree};
ghost use Rattle.wast_fields.specs.FieldTree.{ExportField};
ghost use Rattle.wast_meant.specs.FieldsMeant.{exports_of};
ghost use Rattle.wast_section_items.specs.Fits.{ExportFits};
ghost use Rattle.wast_section_items.specs.Ready.{FieldReady};

use crate::adding::add_export;
use crate::item::SectionItem;
use std::alloc::Global;
use wasm_encoder_base::EncodeError;
use wasm_encoder_sections::ExportSection;
use wast_conversions::{export_kind, index};
use wast_customs::CustomPlaceAnchor;
use wast_exports::Export;

/// Its name, and of what it is (6.6, exports).
impl SectionItem for Export<'_> {
    type Section = ExportSection;

    const ANCHOR: CustomPlaceAnchor = CustomPlaceAnchor::Export;

    ghost Item = { binary.Export };

    ghost spell = { export_bytes };

    ghost Fits = { ExportFits };

    ghost Sound = { IsExport };

    ghost items = { λ e. exports_of (ExportField (export_tree e)) };

    ghost Ready = { λ e. FieldReady (ExportField (export_tree e)) };

    ghost one = { λ x ready. (_, refl) };

    ghost listed = { λ section. section };

    fn encode(&self, _alloc: Global, section: &mut ExportSection) -> Result<(), EncodeError> {
        add_export(
            section,
            self.name.as_str(),
            export_kind(self.kind),
            index(&self.item),
        )
    }
}
