//! What stands in a module, stop by stop.
ghost use Rattle.std.specs.Prelude.{◌≡◌};
ghost use Rattle.wasm_layout.specs.Layout.{pieces};
ghost use Rattle.wast_meant.specs.CustomsMeant.{At, Of, customs_in, stops};
ghost use Rattle.std.specs.List.{AllByRecursion, flat_map};
ghost use Rattle.wast_binary.specs.Can.{CanEncode};
ghost use Rattle.wast_binary.specs.Noted.{Covers};
ghost use Rattle.wast_binary.specs.Parts.{KindSound, StopSound};
ghost use Rattle.wast_binary.specs.Puts.{Puts};
ghost use Rattle.wast_binary.specs.Sources.{fields_in, module_in, pieces_at};
ghost use Rattle.wast_binary.specs.Views.{kind_view, stop_view};
ghost use Rattle.wast_binary.specs.Weight.{AreFew};

use crate::data_count::put_data_count;
use crate::names_section::put_names;
use crate::present::Present;
use crate::sections::{
    put_codes, put_datas, put_elements, put_exports, put_functions, put_globals, put_imports,
    put_memories, put_start, put_tables, put_tags, put_types,
};
use crate::stop::{Kind, STOPS, Stop};
use std::alloc::Global;
use wasm_encoder::Module;
use wasm_encoder_base::EncodeError;
use wast_custom_sections::{put_customs, put_hints};
use wast_module_fields::ModuleField;
use wast_parser::{Id, NameAnnotation};

/// Appends all sections: those that fields are, and between them those of custom fields, at their places.
pub(crate) fn put_stops<'n, 'a>(
    alloc: Global,
    id: &'n Option<Id<'a>>,
    name: &'n Option<NameAnnotation<'a>>,
    fields: &'n [ModuleField<'a>],
    module: &mut Module,
) -> Result<(), EncodeError>
    requires can { CanEncode (fields_in fields.now) }
    requires few { AreFew (fields_in fields.now) }
    ensures { Puts (module_in id.now name.now fields.now) (pieces (module_in id.now name.now fields.now)) (AllByRecursion (StopSound (module_in id.now name.now fields.now)) stops) «module».old «module».new result }
{
    let customs = from_first_custom(fields);
    let present = Present::of(fields);
    for stop in &STOPS {
        match put_stop(alloc, id, name, fields, customs, present, *stop, module) {
            Ok(()) => {}
            Err(e) => return Err(e),
        }
    }
    Ok(())
}

/// Fields among which all custom sections are: from the first custom field on, so that where there is none a place of custom
/// sections costs nothing.
fn from_first_custom<'n, 'a>(fields: &'n [ModuleField<'a>]) -> &'n [ModuleField<'a>]
    ensures { flat_map customs_in (fields_in result.now) ≡ flat_map customs_in (fields_in fields.now) }
{
    let mut rest = fields;
    'fields: while let [first, behind @ ..] = rest {
        if matches!(first, ModuleField::Custom(_)) {
            break;
        }
        rest = behind;
    }
    rest
}

/// Appends the custom sections of a place, in the order of their fields, or a section, if anything stands in it. The fields from the first
/// custom one on are given beside all of them, and which there are.
fn put_stop<'n, 'a>(
    alloc: Global,
    id: &'n Option<Id<'a>>,
    name: &'n Option<NameAnnotation<'a>>,
    fields: &'n [ModuleField<'a>],
    customs: &'n [ModuleField<'a>],
    present: Present,
    stop: Stop,
    module: &mut Module,
) -> Result<(), EncodeError>
    requires customs { flat_map customs_in (fields_in customs.now) ≡ flat_map customs_in (fields_in fields.now) }
    requires present { Covers present fields.now }
    requires can { CanEncode (fields_in fields.now) }
    requires few { AreFew (fields_in fields.now) }
    ensures { Puts (module_in id.now name.now fields.now) (pieces_at id.now name.now fields.now (stop_view stop)) (StopSound (module_in id.now name.now fields.now) (stop_view stop)) «module».old «module».new result }
{
    match stop {
        Stop::At(place) => put_customs(alloc, customs, place, module),
        Stop::Of(kind) => {
            if present.has(kind) {
                put_kind(alloc, id, name, fields, customs, kind, module)
            } else {
                Ok(())
            }
        }
    }
}

/// Appends a section, if anything stands in it.
fn put_kind<'n, 'a>(
    alloc: Global,
    id: &'n Option<Id<'a>>,
    name: &'n Option<NameAnnotation<'a>>,
    fields: &'n [ModuleField<'a>],
    customs: &'n [ModuleField<'a>],
    kind: Kind,
    module: &mut Module,
) -> Result<(), EncodeError>
    requires customs { flat_map customs_in (fields_in customs.now) ≡ flat_map customs_in (fields_in fields.now) }
    requires can { CanEncode (fields_in fields.now) }
    requires few { AreFew (fields_in fields.now) }
    ensures { Puts (module_in id.now name.now fields.now) (pieces_at id.now name.now fields.now (Of (kind_view kind))) (KindSound (module_in id.now name.now fields.now) (kind_view kind)) «module».old «module».new result }
{
    match kind {
        Kind::Types => put_types(alloc, fields, module),
        Kind::Imports => put_imports(alloc, fields, module),
        Kind::Functions => put_functions(alloc, fields, module),
        Kind::Tables => put_tables(alloc, fields, module),
        Kind::Memories => put_memories(alloc, fields, module),
        Kind::Tags => put_tags(alloc, fields, module),
        Kind::Globals => put_globals(alloc, fields, module),
        Kind::Exports => put_exports(alloc, fields, module),
        Kind::Starts => put_start(fields, module),
        Kind::Elements => put_elements(alloc, fields, module),
        Kind::DataCount => put_data_count(fields, module),
        Kind::Hints => put_hints(alloc, fields, module),
        Kind::Codes => put_codes(alloc, fields, module),
        Kind::Datas => put_datas(alloc, fields, module),
        Kind::Names => put_names(alloc, id, name, fields, customs, module),
    }
}
