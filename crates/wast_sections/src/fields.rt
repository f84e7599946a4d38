//! Sections of fields.
ghost use Rattle.std.specs.Prelude.{◌≡◌, ℕ, List, All, map};
ghost use Rattle.std.specs.List.{flat_map};
ghost use Rattle.wasm_encoder_base.specs.Lists.{Listed, no_items};
ghost use Rattle.wast_grammar.specs.Tokens.{Name};
ghost use Rattle.wast_module_fields.specs.FieldTree.{Field};
ghost use Rattle.wast_module_fields.specs.ModuleFieldViews.{field_tree};
ghost use Rattle.wast_section_items.specs.Appends.{Appends};
ghost use Rattle.wast_section_items.specs.Ready.{FieldReady};
ghost use Rattle.wast_sections.specs.Holds.{Holds, map_ok};

use std::alloc::Global;
use wasm_encoder_base::EncodeError;
use wast_module_fields::ModuleField;

/// What fields have in a section.
pub(crate) trait FieldItems {
    type Section: Drop;

    ghost Item: { Type 0 };

    ghost spell: { Item → List ℕ };

    ghost Fits: { Item → Type 0 };

    ghost Sound: { Item → Type 0 };

    /// The items of a field.
    ghost items: { Field Name ℕ → List Item };

    ghost listed: { Self.Section → Listed };

    /// A section without items.
    fn empty(alloc: Global) -> Self::Section
        ensures { listed result ≡ no_items };

    /// Appends the items of a field; refused, the section is unchanged.
    fn put(
        alloc: Global,
        field: &ModuleField<'_>,
        section: &mut Self::Section,
    ) -> Result<(), EncodeError>
        requires { FieldReady (field_tree field.now) }
        ensures { Appends spell Fits Sound (items (field_tree field.now)) (listed section.old) (listed section.new) result };
}

/// The section of the items of all fields.
pub(crate) fn section_of<K: FieldItems>(
    alloc: Global,
    fields: &[ModuleField<'_>],
) -> Result<K::Section, EncodeError>
    requires { All (λ f. FieldReady (field_tree f)) fields.now }
    ensures { Holds K.spell K.Fits K.Sound (flat_map K.items (map field_tree fields.now)) (map_ok K.listed result) }
{
    let mut section = K::empty(alloc);
    for field in fields {
        K::put(alloc, field, &mut section)?;
    }
    Ok(section)
}
