//! Trees that are encoded.

ghost use Rattle.std.specs.Prelude.{◌≡◌, ◌<◌, ◌^◌, [], true, length};
ghost use Rattle.wast_grammar.specs.Spelling.{same_name};
ghost use Rattle.wast_core.specs.ModuleViews.{module_tree};
ghost use Rattle.wast_meaning.specs.Modules.{content_fields, module_breaches};
ghost use Rattle.wast_meaning.specs.Made.{is_made};

use std::alloc::Global;
use std::process::Abort;
use std::test::Fail;
use wast_core::{
    CustomPlaceAnchor, Data, Elem, Export, Func, Global as GlobalField, Imports, Memory, Module,
    ModuleKind, Rec, Table, Tag, TypeItem,
};
use wast_encode::{FuncBody, ResolveModule, SectionItem};
use wast_parser::{Gensym, ParseBuffer, parse};
use wat::{EncodeFault, EncodeOptions, Wat, encode_wat};

/// The binary of a module of one function, which is called `f`.
const NAMED: &[u8] =
    b"\0asm\x01\0\0\0\x01\x04\x01\x60\0\0\x03\x02\x01\0\x0a\x04\x01\x02\0\x0b\0\x0b\x04name\x01\x04\x01\0\x01f";

/// A tree that was encoded is resolved; encoded again, it has the same binary.
#[test]
fn ample_encode_module(rt: HostRuntime) -> Result<(), Fail> {
    match ParseBuffer::new(rt.alloc(), "(module (func $f))") {
        Ok(buffer) => {
            let Wat::Module(mut tree) = parse(&buffer)?;
            assert_named(&rt, rt.alloc(), &mut tree)?;
            assert_named(&rt, rt.alloc(), &mut tree)
        }
        Err(_) => Err("out of memory".into()),
    }
}

fn assert_named(rt: &impl Abort, alloc: Global, tree: &mut Module<'_>) -> Result<(), Fail> {
    assert_eq!(rt; encoded(alloc, tree)?.as_slice(), NAMED);
    Ok(())
}

/// The binary of a tree that can be encoded.
fn encoded(alloc: Global, tree: &mut Module<'_>) -> Result<Vec<u8>, EncodeFault> {
    if is_encodable(tree) {
        EncodeOptions::new().encode_module(alloc, tree, &mut Gensym::new())
    } else {
        Err(EncodeFault::TooLarge)
    }
}

/// Whether a tree is well formed, and has but few fields.
fn is_encodable(tree: &Module<'_>) -> bool
    ensures formed { result ≡ true → module_breaches same_name is_made (module_tree tree.now) ≡ [] }
    ensures room { result ≡ true → length (content_fields (module_tree tree.now).content) < 2 ^ 32 }
{
    match (tree.well_formed(), &tree.kind) {
        (None, ModuleKind::Text(fields)) => fields.len() < 16,
        _ => false,
    }
}

#[test]
fn ample_encode_wat(rt: HostRuntime) -> Result<(), Fail> {
    match ParseBuffer::new(rt.alloc(), "(module (func $f))") {
        Ok(buffer) => {
            let mut wat: Wat = parse(&buffer)?;
            assert_eq!(rt; encoded_wat(rt.alloc(), &mut wat)?.as_slice(), NAMED);
            Ok(())
        }
        Err(_) => Err("out of memory".into()),
    }
}

/// The binary of a text that is read, where it can be encoded.
fn encoded_wat(alloc: Global, wat: &mut Wat<'_>) -> Result<Vec<u8>, EncodeFault> {
    let Wat::Module(tree) = &*wat;
    if is_encodable(tree) {
        encode_wat(alloc, &EncodeOptions::new(), wat, &mut Gensym::new())
    } else {
        Err(EncodeFault::TooLarge)
    }
}

/// Items name the sections that they stand in, as the places of custom sections do.
#[test]
fn anchors(rt: HostRuntime) -> Result<(), Fail> {
    let named = [
        TypeItem::ANCHOR,
        Rec::ANCHOR,
        Imports::ANCHOR,
        Func::ANCHOR,
        Table::ANCHOR,
        Memory::ANCHOR,
        Tag::ANCHOR,
        GlobalField::ANCHOR,
        Export::ANCHOR,
        Elem::ANCHOR,
        FuncBody::ANCHOR,
        Data::ANCHOR,
    ];
    let wanted = [
        CustomPlaceAnchor::TypeItem,
        CustomPlaceAnchor::TypeItem,
        CustomPlaceAnchor::Import,
        CustomPlaceAnchor::Func,
        CustomPlaceAnchor::Table,
        CustomPlaceAnchor::Memory,
        CustomPlaceAnchor::Tag,
        CustomPlaceAnchor::Global,
        CustomPlaceAnchor::Export,
        CustomPlaceAnchor::Elem,
        CustomPlaceAnchor::Code,
        CustomPlaceAnchor::Data,
    ];
    assert!(rt; named == wanted);
    Ok(())
}
