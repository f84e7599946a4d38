//! Whether the count of data segments has a section (5.5.15), and which it is.
ghost use Rattle.std.specs.Prelude.{◌≡◌, ◌≤◌, length, map};
ghost use Rattle.std.specs.List.{flat_map, list_any};
ghost use Rattle.wasm_encoder_base.specs.Encodes.{Encodes};
ghost use Rattle.wasm_encoder_sections.specs.Sections.{data_count_section};
ghost use Rattle.wasm_encoder.specs.Module.{numbered};
ghost use Rattle.wasm_layout.specs.IsModule.{IsU32};
ghost use Rattle.wast_module_fields.specs.FieldTree.{Define};
ghost use Rattle.wast_module_fields.specs.FuncViews.{func_definition};
ghost use Rattle.wast_module_fields.specs.ModuleFieldViews.{field_tree};
ghost use Rattle.wast_meant.specs.FieldsMeant.{datas_of};
ghost use Rattle.wast_binary.specs.DataCount as spec;
ghost use Rattle.wast_binary.specs.DataCount.{field_says_data};
ghost use Rattle.wast_binary.specs.Puts.{PutsCount};

use wasm_encoder::Module;
use wasm_encoder_base::EncodeError;
use wasm_encoder_sections::DataCountSection;
use wast_conversions::as_u32;
use wast_core_instr::{BulkOp, GcOp, Instruction};
use wast_custom_sections::add_section;
use wast_module_fields::{Func, FuncKind, ModuleField};

/// Appends the section of the count of data segments, if a function refers to one.
pub(crate) fn put_data_count(
    fields: &[ModuleField<'_>],
    module: &mut Module,
) -> Result<(), EncodeError>
    ensures { PutsCount (list_any field_says_data (map field_tree fields.now)) (length (flat_map datas_of (map field_tree fields.now))) «module».old «module».new result }
{
    if refer_to_data(fields) {
        put_count(count_of(fields), module)
    } else {
        Ok(())
    }
}

/// Appends the section of a count.
fn put_count(count: usize, module: &mut Module) -> Result<(), EncodeError>
    ensures { Encodes (numbered 12 (data_count_section count)) (IsU32 count) «module».old «module».new result }
{
    let count = as_u32(count)?;
    add_section(&DataCountSection { count }, module)
}

/// How many data segments there are.
fn count_of(fields: &[ModuleField<'_>]) -> usize
    ensures { result ≡ length (flat_map datas_of (map field_tree fields.now)) }
{
    let mut count = 0;
    for field in fields {
        count += data_in(field);
    }
    count
}

/// How many a field is: one or none.
fn data_in(field: &ModuleField<'_>) -> usize
    ensures count { result ≡ length (datas_of (field_tree field.now)) }
    ensures one { result ≤ 1 }
{
    match field {
        ModuleField::Data(_) => 1,
        _ => 0,
    }
}

/// Whether a function of the fields refers to a data segment.
fn refer_to_data(fields: &[ModuleField<'_>]) -> bool
    ensures { result ≡ list_any field_says_data (map field_tree fields.now) }
{
    for field in fields {
        if refers_to_data(field) {
            return true;
        }
    }
    false
}

/// Whether a field is a function that refers to a data segment.
fn refers_to_data(field: &ModuleField<'_>) -> bool
    ensures { result ≡ field_says_data (field_tree field.now) }
{
    match field {
        ModuleField::Func(func) => func_refers(func),
        _ => false,
    }
}

/// Whether a function refers to a data segment in its body.
fn func_refers(func: &Func<'_>) -> bool
    ensures { result ≡ field_says_data (Define (func_definition func.now)) }
{
    match &func.kind {
        FuncKind::Import { .. } => false,
        FuncKind::Inline { expression, .. } => body_refers(&expression.instrs),
    }
}

/// Whether one of the instructions refers to a data segment.
fn body_refers(instrs: &[Instruction<'_>]) -> bool
    ensures { result ≡ list_any spec.is_of_data instrs.now }
{
    for instr in instrs {
        if is_of_data(instr) {
            return true;
        }
    }
    false
}

/// Whether an instruction is `memory.init`, `data.drop`, `array.new_data` or `array.init_data`.
fn is_of_data(instr: &Instruction<'_>) -> bool
    ensures { result ≡ spec.is_of_data instr.now }
{
    match instr {
        Instruction::Bulk(op) => matches!(op, BulkOp::MemoryInit(_) | BulkOp::DataDrop(_)),
        Instruction::Gc(op) => matches!(op, GcOp::ArrayNewData(_) | GcOp::ArrayInitData(_)),
        _ => false,
    }
}
