//! Producers as a custom section (tool conventions of WebAssembly).
ghost use Rattle.std.specs.Prelude.{◌≡◌, ◌+◌, ◌<◌, ◌^◌, [], ◌∷◌, length, map, IfOk, OnOk, IsErrOf};
ghost use Rattle.std.specs.List.{flat_map};
ghost use Rattle.wasm_encoder_base.specs.Encodes.{Encodes};
ghost use Rattle.wasm_encoder_base.specs.Lists.{listed};
ghost use Rattle.wasm_encoder_base.specs.Table.{same_text};
ghost use Rattle.wasm_encoder_custom.specs.Custom.{CustomFits};
ghost use Rattle.wasm_encoder_custom.specs.Producers.{field_bytes, producer_bytes};
ghost use Rattle.wasm_layout.specs.Layout.{Free, piece_bytes};
ghost use Rattle.wasm_layout.specs.Present.{has_any};
ghost use Rattle.wast_customs.specs.CustomTree as tree;
ghost use Rattle.wast_customs.specs.CustomSyntax.{producer_word};
ghost use Rattle.wast_customs.specs.CustomViews.{kind_view, producer_tree, producers_tree};
ghost use Rattle.wast_meant.specs.CustomsMeant.{custom_of, of_kind, producers_field, producers_fields};
ghost use Rattle.wast_custom_sections.specs.Parts.{joined, field_of_kind};

use crate::section::put_section;
use std::alloc::Global;
use wasm_encoder_base::EncodeError;
use wasm_encoder_custom::{ProducersField, ProducersSection};
use wast_customs::{Producer, ProducerKind, Producers};
use wast_parser::Spelled;

/// Appends the section of what producers say of themselves.
pub(crate) fn put_producers(
    alloc: Global,
    producers: &Producers<'_>,
    sink: &mut Vec<u8>,
) -> Result<(), EncodeError>
    ensures { Encodes (piece_bytes (Free (custom_of (tree.ProducersField (producers_tree producers.now))))) (CustomFits (custom_of (tree.ProducersField (producers_tree producers.now)))) sink.old.items sink.new.items result }
{
    let section = section_of(alloc, &producers.fields)?;
    put_section(&section, sink)
}

/// A field for each kind of which there are producers: languages, kits, and what processed the module.
fn section_of(alloc: Global, producers: &[Producer<'_>]) -> Result<ProducersSection, EncodeError>
    ensures made { IfOk result (λ section. section ≡ listed field_bytes (producers_fields (map producer_tree producers.now))) }
    ensures too_large { IsErrOf result EncodeError.TooLarge → length (flat_map field_bytes (producers_fields (map producer_tree producers.now))) < 2 ^ 32 → ⊥ }
{
    let mut section = ProducersSection::new(alloc);
    put_field(alloc, producers, ProducerKind::Language, &mut section)?;
    put_field(alloc, producers, ProducerKind::Sdk, &mut section)?;
    put_field(alloc, producers, ProducerKind::ProcessedBy, &mut section)?;
    Ok(section)
}

/// Adds the field of a kind, if there are producers of it.
fn put_field(
    alloc: Global,
    producers: &[Producer<'_>],
    kind: ProducerKind,
    section: &mut ProducersSection,
) -> Result<(), EncodeError>
    ensures added { OnOk result (section.new ≡ joined section.old (listed field_bytes (field_of_kind (map producer_tree producers.now) (kind_view kind)))) }
    ensures too_large { IsErrOf result EncodeError.TooLarge → section.old.count + length (flat_map field_bytes (field_of_kind (map producer_tree producers.now) (kind_view kind))) < 2 ^ 32 → ⊥ }
{
    if !has_kind(producers, kind) {
        return Ok(());
    }
    let values = values_of(alloc, producers, kind)?;
    section.field(kind.text(), &values)?;
    Ok(())
}

/// Whether there are producers of a kind.
fn has_kind(producers: &[Producer<'_>], kind: ProducerKind) -> bool
    ensures { result ≡ has_any (of_kind (map producer_tree producers.now) (kind_view kind)) }
{
    for producer in producers {
        if is_same_kind(kind, producer.kind) {
            return true;
        }
    }
    false
}

/// The producers of a kind with their versions.
fn values_of(
    alloc: Global,
    producers: &[Producer<'_>],
    kind: ProducerKind,
) -> Result<ProducersField, EncodeError>
    ensures made { IfOk result (λ field. field ≡ listed producer_bytes (producers_field (map producer_tree producers.now) (kind_view kind)).values) }
    ensures too_large { IsErrOf result EncodeError.TooLarge → length (flat_map producer_bytes (producers_field (map producer_tree producers.now) (kind_view kind)).values) < 2 ^ 32 → ⊥ }
{
    let mut field = ProducersField::new(alloc);
    for producer in producers {
        put_value(producer, kind, &mut field)?;
    }
    Ok(field)
}

/// Adds a producer, if it is of the kind.
fn put_value(
    producer: &Producer<'_>,
    kind: ProducerKind,
    field: &mut ProducersField,
) -> Result<(), EncodeError>
    ensures added { OnOk result (field.new ≡ joined field.old (listed producer_bytes (producers_field (producer_tree producer.now ∷ []) (kind_view kind)).values)) }
    ensures too_large { IsErrOf result EncodeError.TooLarge → field.old.count + length (flat_map producer_bytes (producers_field (producer_tree producer.now ∷ []) (kind_view kind)).values) < 2 ^ 32 → ⊥ }
{
    if is_same_kind(kind, producer.kind) {
        field.value(producer.name.as_str(), producer.version.as_str())?;
    }
    Ok(())
}

/// Whether two kinds of producers are one.
fn is_same_kind(one: ProducerKind, other: ProducerKind) -> bool
    ensures { result ≡ same_text (producer_word (kind_view one)) (producer_word (kind_view other)) }
{
    matches!(
        (one, other),
        (ProducerKind::Language, ProducerKind::Language)
            | (ProducerKind::Sdk, ProducerKind::Sdk)
            | (ProducerKind::ProcessedBy, ProducerKind::ProcessedBy)
    )
}
