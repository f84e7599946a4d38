//! The binary of resolved fields.
ghost use Rattle.std.specs.Prelude.{◌≡◌, IfOk, OnOk, IsErrOf};
ghost use Rattle.std.specs.List.{flat_map, AllByRecursion};
ghost use Rattle.wasm_layout.specs.Layout.{piece_bytes, pieces};
ghost use Rattle.wasm_layout.specs.Lays.{Fits, Lays, PiecesFit};
ghost use Rattle.wast_meant.specs.CustomsMeant.{stops};
ghost use Rattle.wast_binary.specs.Can.{CanEncode};
ghost use Rattle.wast_binary.specs.Parts.{StopSound};
ghost use Rattle.wast_binary.specs.Sources.{fields_in, module_in};
ghost use Rattle.wast_binary.specs.Weight.{AreFew};

use crate::room::has_room;
use crate::stops::put_stops;
use std::alloc::Global;
use wasm_encoder::Module;
use wasm_encoder_base::EncodeError;
use wast_module_fields::ModuleField;
use wast_parser::{Id, NameAnnotation};

/// The binary of the module of resolved fields. Refused as too large only where a count or a length of it is past 4294967295, and else as for
/// want of memory: so may fields be with more than 2147483647 items, parameters, locals, fields of structures and instructions in all, where a
/// table or a memory counts twice. No text has so many.
pub fn encode_fields<'n, 'a>(
    alloc: Global,
    id: &'n Option<Id<'a>>,
    name: &'n Option<NameAnnotation<'a>>,
    fields: &'n [ModuleField<'a>],
) -> Result<Vec<u8>, EncodeError>
    requires { CanEncode (fields_in fields.now) }
    ensures lays { IfOk result (λ binary. Lays binary.items (module_in id.now name.now fields.now)) }
    ensures too_large { IsErrOf result EncodeError.TooLarge → ¬ (Fits (module_in id.now name.now fields.now)) }
{
    if has_room(fields) {
        encode_sections(alloc, id, name, fields)
    } else {
        Err(EncodeError::Memory)
    }
}

/// The same of fields in which there isn't too much.
fn encode_sections<'n, 'a>(
    alloc: Global,
    id: &'n Option<Id<'a>>,
    name: &'n Option<NameAnnotation<'a>>,
    fields: &'n [ModuleField<'a>],
) -> Result<Vec<u8>, EncodeError>
    requires can { CanEncode (fields_in fields.now) }
    requires few { AreFew (fields_in fields.now) }
    ensures lays { IfOk result (λ binary. Lays binary.items (module_in id.now name.now fields.now)) }
    ensures too_large { IsErrOf result EncodeError.TooLarge → ¬ (Fits (module_in id.now name.now fields.now)) }
{
    match sections_of(alloc, id, name, fields) {
        Ok(sections) => Ok(sections.finish()),
        Err(e) => Err(e),
    }
}

/// Its sections.
fn sections_of<'n, 'a>(
    alloc: Global,
    id: &'n Option<Id<'a>>,
    name: &'n Option<NameAnnotation<'a>>,
    fields: &'n [ModuleField<'a>],
) -> Result<Module, EncodeError>
    requires can { CanEncode (fields_in fields.now) }
    requires few { AreFew (fields_in fields.now) }
    ensures put { IfOk result (λ sections. sections ≡ flat_map piece_bytes (pieces (module_in id.now name.now fields.now))) }
    ensures sizes { OnOk result (PiecesFit (pieces (module_in id.now name.now fields.now))) }
    ensures sound { OnOk result (AllByRecursion (StopSound (module_in id.now name.now fields.now)) stops) }
    ensures too_large { IsErrOf result EncodeError.TooLarge → ¬ (Fits (module_in id.now name.now fields.now)) }
{
    let mut sections = Module::new(alloc)?;
    match put_stops(alloc, id, name, fields, &mut sections) {
        Ok(()) => Ok(sections),
        Err(e) => Err(e),
    }
}
