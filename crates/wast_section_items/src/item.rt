//! Items of sections.
ghost use Rattle.std.specs.Prelude.{List, ℕ};
ghost use Rattle.wasm_encoder_base.specs.Lists.{Listed};
ghost use Rattle.wast_section_items.specs.Appends.{Appends};
ghost use Rattle.wast_section_items.specs.One.{IsOne};

use std::alloc::Global;
use wasm_encoder_base::EncodeError;
use wast_customs::CustomPlaceAnchor;

/// What stands in a section: an item of it. What is encoded is ready: it is resolved, with nothing inline in place of what it defines, and
/// covered, with no form that has no binary here; its alignments, in bytes, are powers of two below 65536, and its constant expressions close
/// each block that they open, and no other.
pub trait SectionItem {
    /// The section of the encoder.
    type Section;

    /// The section as the places of custom sections name it.
    const ANCHOR: CustomPlaceAnchor;

    /// What a binary has in such a section.
    ghost Item: { Type 0 };

    ghost spell: { Item → List ℕ };

    ghost Fits: { Item → Type 0 };

    ghost Sound: { Item → Type 0 };

    /// What it stands for: one item, where it can be encoded.
    ghost items: { Self → List Item };

    ghost Ready: { Self → Type 0 };

    ghost one: { (x : Self) → Ready x → IsOne (items x) };

    ghost listed: { Self.Section → Listed };

    /// Appends what it stands for. Refused for want of memory, and as too large where a count or a length is past 4294967295; the section is
    /// unchanged then.
    fn encode(&self, alloc: Global, section: &mut Self::Section) -> Result<(), EncodeError>
        requires { Ready self.now }
        ensures { Appends spell Fits Sound (items self.now) (listed section.old) (listed section.new) result };
}
