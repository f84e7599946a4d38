//! The section `dylink.0` (tool conventions of WebAssembly).
ghost use Rattle.std.specs.Prelude.{◌≡◌, ◌<◌, ◌^◌, ◌++◌, length, map, IfOk, OnOk, IsErrOf};
ghost use Rattle.std.specs.List.{flat_map};
ghost use Rattle.wasm_encoder_base.specs.Encodes.{Encodes};
ghost use Rattle.wasm_encoder_custom.specs.Custom.{CustomFits};
ghost use Rattle.wasm_layout.specs.Layout.{Free, piece_bytes};
ghost use Rattle.wast_customs.specs.CustomTree as tree;
ghost use Rattle.wast_customs.specs.CustomViews.{subsection_tree, dylink_tree};
ghost use Rattle.wast_meant.specs.CustomsMeant.{custom_of};
ghost use Rattle.wast_custom_sections.specs.Parts.{subsection_bytes};

use crate::section::put_section;
use std::alloc::Global;
use std::borrow::CowStr;
use wasm_encoder_base::{Bytes, EncodeError, encode_sized};
use wasm_encoder_custom::CustomSection;
use wast_customs::{Dylink0, Dylink0Subsection};
use wast_parser::Encode;

/// Appends the section `dylink.0`: its subsections, one after the other.
pub(crate) fn put_dylink(
    alloc: Global,
    dylink: &Dylink0<'_>,
    sink: &mut Vec<u8>,
) -> Result<(), EncodeError>
    ensures { Encodes (piece_bytes (Free (custom_of (tree.DylinkField (dylink_tree dylink.now))))) (CustomFits (custom_of (tree.DylinkField (dylink_tree dylink.now)))) sink.old.items sink.new.items result }
{
    let contents = subsections(alloc, &dylink.subsections)?;
    let section = CustomSection {
        name: CowStr::Borrowed("dylink.0"),
        bytes: Bytes::borrowed(&contents),
    };
    put_section(&section, sink)
}

/// The bytes of subsections, one after the other.
fn subsections(alloc: Global, subsections: &[Dylink0Subsection<'_>]) -> Result<Vec<u8>, EncodeError>
    ensures made { IfOk result (λ v. v.items ≡ flat_map subsection_bytes (map subsection_tree subsections.now)) }
    ensures too_large { IsErrOf result EncodeError.TooLarge → length (flat_map subsection_bytes (map subsection_tree subsections.now)) < 2 ^ 32 → ⊥ }
{
    let mut contents = Vec::new(alloc);
    for subsection in subsections {
        put_subsection(alloc, subsection, &mut contents)?;
    }
    Ok(contents)
}

/// Appends a subsection: its number, its size, and what it says. Refused, what is there is left with some of that.
fn put_subsection(
    alloc: Global,
    subsection: &Dylink0Subsection<'_>,
    sink: &mut Vec<u8>,
) -> Result<(), EncodeError>
    ensures spelled { OnOk result (sink.new.items ≡ sink.old.items ++ subsection_bytes (subsection_tree subsection.now)) }
    ensures too_large { IsErrOf result EncodeError.TooLarge → length (subsection_bytes (subsection_tree subsection.now)) < 2 ^ 32 → ⊥ }
{
    let mut payload = Vec::new(alloc);
    subsection.encode(&mut payload)?;
    sink.push(subsection.id())?;
    encode_sized(&payload, sink)
}
