//! Tags.
ghost use Rattle.std.specs.Prelude.{◌≡◌, ℕ};
ghost use Rattle.wasm_encoder_items.specs.EntityTypes.{tag_bytes};
ghost use Rattle.wasm_layout.specs.IsModule.{IsU32};
ghost use Rattle.wast_imports.specs.ImportViews.{tag_tree};
ghost use Rattle.wast_fields.specs.FieldTree.{Define};
ghost use Rattle.wast_fields.specs.FuncViews.{tag_definition};
ghost use Rattle.wast_conversions.specs.Types.{use_meant};
ghost use Rattle.wast_conversions.specs.Resolved.{UseResolved};
ghost use Rattle.wast_meant.specs.FieldsMeant.{tags_of};
ghost use Rattle.wast_section_items.specs.Fits.{NoCounts};
ghost use Rattle.wast_section_items.specs.One.{one_tag};
ghost use Rattle.wast_section_items.specs.Ready.{FieldReady};

use crate::adding::add_tag;
use crate::item::SectionItem;
use std::alloc::Global;
use wasm_encoder_base::EncodeError;
use wasm_encoder_items::{TagKind as EncodedKind, TagType as EncodedType};
use wasm_encoder_sections::TagSection;
use wast_conversions::type_index;
use wast_customs::CustomPlaceAnchor;
use wast_fields::{Tag, TagKind};
use wast_imports::TagType;

/// The index of its type (6.6, tags).
impl SectionItem for Tag<'_> {
    type Section = TagSection;

    const ANCHOR: CustomPlaceAnchor = CustomPlaceAnchor::Tag;

    ghost Item = { ℕ };

    ghost spell = { tag_bytes };

    ghost Fits = { NoCounts };

    ghost Sound = { IsU32 };

    ghost items = { λ t. tags_of (tag_definition t).defined };

    ghost Ready = { λ t. FieldReady (Define (tag_definition t)) };

    ghost one = { one_tag };

    ghost listed = { λ section. section };

    fn encode(&self, _alloc: Global, section: &mut TagSection) -> Result<(), EncodeError> {
        match &self.kind {
            TagKind::Inline => add_tag(section, tag_type(&self.ty)),
            TagKind::Import(_) => unreachable!(),
        }
    }
}

/// The type of a tag, an exception of a function type.
fn tag_type(ty: &TagType<'_>) -> EncodedType
    requires { UseResolved (tag_tree ty.now) }
    ensures same { result.func_type_idx ≡ use_meant (tag_tree ty.now) }
    ensures sound { IsU32 (use_meant (tag_tree ty.now)) }
{
    match ty {
        TagType::Exception(ty) => EncodedType {
            kind: EncodedKind::Exception,
            func_type_idx: type_index(ty),
        },
    }
}
