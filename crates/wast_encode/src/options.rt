//! How modules are encoded.
ghost use Rattle.std.specs.Prelude.{◌≡◌, ◌+◌, ◌<◌, ◌≤◌, ◌^◌, [], None, Some, false, true, length, map, option_map, IfErr, IfOk, IsOk, OnOk, MatchResult};
ghost use Rattle.std.specs.List.{flat_map};
ghost use Rattle.wast_grammar.specs.Spelling.{same_name};
ghost use Rattle.wast_parser.specs.Problem.{Problem, is_memory};
ghost use Rattle.wast_parser.specs.Identifiers.{identifier_tree};
ghost use Rattle.wast_signatures.specs.SignatureViews.{name_tree};
ghost use Rattle.wast_core.specs.ModuleFieldViews.{field_tree};
ghost use Rattle.wast_core.specs.ModuleViews.{module_tree};
ghost use Rattle.wast_names.specs.Demand.{is_met};
ghost use Rattle.wast_names.specs.Walk.{first_unmet};
ghost use Rattle.wast_meaning.specs.Modules.{content_fields, module_breaches};
ghost use Rattle.wast_meaning.specs.Made.{is_made};
ghost use Rattle.wast_resolve.specs.Whole.{IsCalledAlike, counter_after, is_pieces, module_by, module_demands_by};
ghost use Rattle.wasm_layout.specs.Lays.{Lays};
ghost use Rattle.wast_binary.specs.Can.{CanEncode};
ghost use Rattle.wast_encode.specs.Encoded.{CountsFor, Deserves, IsBinaryOf, IsRefusedFor, LeavesFor};
ghost use Rattle.wast_binary.specs.Parts.{module_of};
ghost use Rattle.wast_encode.specs.Resolved.{ContentReady, IsEncoded, IsToldBy, IsUnlaid, IsUnresolved, IsUnencoded};

use crate::fault::{EncodeFault, fault_of};
use std::alloc::Global;
use wasm_encoder_base::Bytes;
use wast_binary::encode_fields;
use wast_core::{Module, ModuleField, ModuleKind};
use wast_custom_sections::joined;
use wast_parser::{Error, Gensym, Id, NameAnnotation};
use wast_resolve::ResolveModule;
use wast_uncovered::uncovered;

/// How modules are encoded.
#[derive(Clone, Copy, Debug)]
pub struct EncodeOptions {}

impl EncodeOptions {
    /// As the standard says: with the section of names.
    pub fn new() -> Self {
        EncodeOptions {}
    }

    /// The binary of a module (5.5.17, and 6.6, modules), which is well formed; the pieces of a binary are joined. A field that is referred to and
    /// has no name takes the next one of `gensym`, and there is room for one a field. Of a module that was refused before nothing is asked.
    ///
    /// A name that is taken is fresh where each name of the module that was made is one that `gensym` made since its last reset, as after
    /// a call with the same `gensym`; else it may be that of another item, which is refused as a duplicate.
    ///
    /// A module is refused by its first demand of names that isn't met, with its place and message; else by its first form that has no binary
    /// here, with the place of its field; else as too large exactly where, memory found, a count or a length of its binary is past 4294967295.
    /// One with more than 2147483647 items, parameters, locals, fields of structures and instructions in all, where a table or a memory counts
    /// twice, or with 2^64 bytes or more of data in an inline memory, may be refused as for want of memory.
    ///
    /// Its names are resolved then, and what stands inline in it is written out, also where it is refused after that: encoded again, it
    /// gives the same answer, where memory is found. `gensym` has come as far as its fields take names. A module whose names weren't
    /// resolved, for a demand that isn't met or for want of memory, keeps why, and each later call is refused by a copy of that, or for
    /// want of memory for the copy, and takes no name of `gensym`; its fields may be gone, and `gensym` has come as far, or for want of
    /// memory no further. Its place and its names stay. Of the pieces of a binary nothing is resolved, and a refusal leaves them as they
    /// are.
    pub fn encode_module(
        &self,
        alloc: Global,
        module: &mut Module<'_>,
        gensym: &mut Gensym,
    ) -> Result<Vec<u8>, EncodeFault>
        requires formed { (module_tree «module».old).refusal ≡ None → module_breaches same_name is_made (module_tree «module».old) ≡ [] }
        requires room { (module_tree «module».old).refusal ≡ None → gensym.old + length (content_fields (module_tree «module».old).content) < 2 ^ 32 }
        ensures binary { IfOk result (λ binary. IsBinaryOf gensym.old (module_tree «module».old) (module_tree «module».old).content binary.items) }
        ensures fault { (module_tree «module».old).refusal ≡ None → IfErr result (Deserves gensym.old (module_tree «module».old)) }
        ensures resolved { OnOk result (((module_tree «module».old).refusal ≡ None) × (module_tree «module».new ≡ module_by gensym.old (module_tree «module».old))) }
        ensures left { (module_tree «module».old).refusal ≡ None → IfErr result (LeavesFor gensym.old (module_tree «module».old) (module_tree «module».new)) }
        ensures refused { (why : Problem) → (module_tree «module».old).refusal ≡ Some why → IfErr result (IsRefusedFor why) }
        ensures kept { (why : Problem) → (module_tree «module».old).refusal ≡ Some why → module_tree «module».new ≡ module_tree «module».old }
        ensures pieces { (module_tree «module».old).refusal ≡ None → is_pieces (module_tree «module».old).content ≡ true → module_tree «module».new ≡ module_tree «module».old }
        ensures called { IsCalledAlike (module_tree «module».old) (module_tree «module».new) }
        ensures counted { OnOk result (gensym.new ≡ counter_after gensym.old (content_fields (module_tree «module».old).content)) }
        ensures reached { IfErr result (CountsFor gensym.old (module_tree «module».old) gensym.new) }
        ensures taken { (module_tree «module».old).refusal ≡ None → (module_tree «module».new).refusal ≡ None → gensym.new ≡ counter_after gensym.old (content_fields (module_tree «module».old).content) }
        ensures counted_unmet { (module_tree «module».old).refusal ≡ None → (why : Problem) → (module_tree «module».new).refusal ≡ Some why → is_memory why.cause ≡ false → gensym.new ≡ counter_after gensym.old (content_fields (module_tree «module».old).content) }
        ensures rises { gensym.old ≤ gensym.new }
        ensures bounded { gensym.new ≤ counter_after gensym.old (content_fields (module_tree «module».old).content) }
        ensures uncounted { (why : Problem) → (module_tree «module».old).refusal ≡ Some why → gensym.new ≡ gensym.old }
    {
        // Forms are looked for in the fields as they are written; a demand that isn't met is told first.
        let form = uncovered(module);
        match resolve_names(alloc, module, gensym) {
            Ok(()) => match form {
                Some((span, form)) => Err(EncodeFault::Uncovered { span, form }),
                None => encode_resolved(alloc, module),
            },
            Err(fault) => Err(fault),
        }
    }
}

/// Resolves the names of a module.
fn resolve_names(
    alloc: Global,
    module: &mut Module<'_>,
    gensym: &mut Gensym,
) -> Result<(), EncodeFault>
    requires { (module_tree «module».old).refusal ≡ None → gensym.old + length (content_fields (module_tree «module».old).content) < 2 ^ 32 }
    ensures met { (module_tree «module».old).refusal ≡ None → OnOk result (first_unmet is_met (module_demands_by gensym.old (module_tree «module».old)) ≡ None) }
    ensures resolved { OnOk result (((module_tree «module».old).refusal ≡ None) × (module_tree «module».new ≡ module_by gensym.old (module_tree «module».old))) }
    ensures fault { IfErr result (IsUnresolved gensym.old (module_tree «module».old) (module_tree «module».new)) }
    ensures kept { (why : Problem) → (module_tree «module».old).refusal ≡ Some why → module_tree «module».new ≡ module_tree «module».old }
    ensures pieces { (module_tree «module».old).refusal ≡ None → is_pieces (module_tree «module».old).content ≡ true → IsOk result }
    ensures called { IsCalledAlike (module_tree «module».old) (module_tree «module».new) }
    ensures counted { OnOk result (gensym.new ≡ counter_after gensym.old (content_fields (module_tree «module».old).content)) }
    ensures reached { IfErr result (CountsFor gensym.old (module_tree «module».old) gensym.new) }
    ensures taken { (module_tree «module».old).refusal ≡ None → (module_tree «module».new).refusal ≡ None → gensym.new ≡ counter_after gensym.old (content_fields (module_tree «module».old).content) }
    ensures counted_unmet { (module_tree «module».old).refusal ≡ None → (why : Problem) → (module_tree «module».new).refusal ≡ Some why → is_memory why.cause ≡ false → gensym.new ≡ counter_after gensym.old (content_fields (module_tree «module».old).content) }
    ensures rises { gensym.old ≤ gensym.new }
    ensures bounded { gensym.new ≤ counter_after gensym.old (content_fields (module_tree «module».old).content) }
    ensures uncounted { (why : Problem) → (module_tree «module».old).refusal ≡ Some why → gensym.new ≡ gensym.old }
{
    match module.resolve(alloc, gensym) {
        Ok(_) => Ok(()),
        Err(why) => Err(unmet(why)),
    }
}

/// A demand that isn't met, unless it is want of memory.
fn unmet(why: Error) -> EncodeFault
    ensures { IsToldBy why result }
{
    if why.is_memory() {
        EncodeFault::Memory
    } else {
        EncodeFault::Unmet(why)
    }
}

/// The binary of a module that is resolved.
fn encode_resolved(alloc: Global, module: &Module<'_>) -> Result<Vec<u8>, EncodeFault>
    requires { ContentReady (module_tree «module».now).content }
    ensures { MatchResult result (λ binary. IsEncoded (module_tree «module».now) binary.items) (λ fault. IsUnencoded (module_tree «module».now) fault) }
{
    match &module.kind {
        ModuleKind::Text(fields) => encode_text(alloc, &module.id, &module.name, fields),
        ModuleKind::Binary(pieces) => join(alloc, pieces),
    }
}

/// The pieces of a binary, joined.
fn join(alloc: Global, pieces: &[Bytes<'_>]) -> Result<Vec<u8>, EncodeFault>
    ensures { MatchResult result (λ binary. binary.items ≡ flat_map (λ piece. piece) pieces.now) (λ fault. fault ≡ EncodeFault.Memory) }
{
    match joined(alloc, pieces) {
        Ok(binary) => Ok(binary),
        Err(_) => Err(EncodeFault::Memory),
    }
}

/// The binary of the module of resolved fields.
fn encode_text<'n, 'a>(
    alloc: Global,
    id: &'n Option<Id<'a>>,
    name: &'n Option<NameAnnotation<'a>>,
    fields: &'n [ModuleField<'a>],
) -> Result<Vec<u8>, EncodeFault>
    requires { CanEncode (map field_tree fields.now) }
    ensures { MatchResult result (λ binary. Lays binary.items (module_of (option_map name_tree name.now) (option_map identifier_tree id.now) (map field_tree fields.now))) (λ fault. IsUnlaid (module_of (option_map name_tree name.now) (option_map identifier_tree id.now) (map field_tree fields.now)) fault) }
{
    match encode_fields(alloc, id, name, fields) {
        Ok(binary) => Ok(binary),
        Err(error) => Err(fault_of(error)),
    }
}
