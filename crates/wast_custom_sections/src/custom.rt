//! Custom fields as custom sections (WebAssembly 3.0, 5.5.3, and the appendix on custom sections and annotations).
ghost use Rattle.std.specs.Prelude.{◌≡◌, IfOk};
ghost use Rattle.std.specs.List.{flat_map};
ghost use Rattle.wasm_encoder_base.specs.Encodes.{Encodes};
ghost use Rattle.wasm_encoder_custom.specs.Custom.{CustomFits};
ghost use Rattle.wasm_layout.specs.Layout.{Free, piece_bytes};
ghost use Rattle.wast_customs.specs.CustomTree as tree;
ghost use Rattle.wast_customs.specs.CustomViews.{custom_tree, raw_tree};
ghost use Rattle.wast_meant.specs.CustomsMeant.{custom_of};

use crate::dylink::put_dylink;
use crate::producers::put_producers;
use crate::section::put_section;
use std::alloc::{AllocError, Global};
use std::borrow::CowStr;
use wasm_encoder_base::{Bytes, EncodeError};
use wasm_encoder_custom::CustomSection;
use wast_customs::{Custom, RawCustomSection};

/// Appends the section of a custom field.
pub(crate) fn put_custom(
    alloc: Global,
    custom: &Custom<'_>,
    sink: &mut Vec<u8>,
) -> Result<(), EncodeError>
    ensures { Encodes (piece_bytes (Free (custom_of (custom_tree custom.now)))) (CustomFits (custom_of (custom_tree custom.now))) sink.old.items sink.new.items result }
{
    match custom {
        Custom::Raw(section) => put_raw(alloc, section, sink),
        Custom::Producers(producers) => put_producers(alloc, producers, sink),
        Custom::Dylink0(dylink) => put_dylink(alloc, dylink, sink),
    }
}

/// Appends a section by its data, which is that of all strings.
fn put_raw(
    alloc: Global,
    section: &RawCustomSection<'_>,
    sink: &mut Vec<u8>,
) -> Result<(), EncodeError>
    ensures { Encodes (piece_bytes (Free (custom_of (tree.Raw (raw_tree section.now))))) (CustomFits (custom_of (tree.Raw (raw_tree section.now)))) sink.old.items sink.new.items result }
{
    let contents = joined(alloc, &section.bytes)?;
    let section = CustomSection {
        name: CowStr::Borrowed(section.name.as_str()),
        bytes: Bytes::borrowed(&contents),
    };
    put_section(&section, sink)
}

/// Strings of bytes, one after the other. Fails only for want of memory.
pub fn joined(alloc: Global, strings: &[Bytes<'_>]) -> Result<Vec<u8>, AllocError>
    ensures { IfOk result (λ v. v.items ≡ flat_map (λ bytes. bytes) strings.now) }
{
    let mut bytes = Vec::new(alloc);
    for string in strings {
        bytes.extend_from_slice(string.as_slice())?;
    }
    Ok(bytes)
}
