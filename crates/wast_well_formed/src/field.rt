//! Fields.
ghost use Rattle.std.specs.Prelude.{◌≡◌, not, ◌&&◌};
ghost use Rattle.std.specs.List.{list_all};
ghost use Rattle.wast_module_fields.specs.FieldTree.{is_start};
ghost use Rattle.wast_module_fields.specs.ModuleFieldViews.{field_tree};
ghost use Rattle.wast_meaning.specs.Mentions.{parts};
ghost use Rattle.wast_meaning.specs.WellFormed as spec;
ghost use Rattle.wast_meaning.specs.WellFormed.{part_formed};

use crate::parts::parts_formed;
use wast_module_fields::{MemoryKind, ModuleField};

/// The power of 2 that a page has in bytes where none is written.
const PAGE_SIZE_LOG2: u32 = 16;

/// Whether the expressions in a field are formed, a memory with its segment inline has pages whose size fits, and the field isn't a
/// start function behind another: `started` says that one stands before it.
pub fn field_formed(field: &ModuleField<'_>, started: bool) -> bool
    ensures { result ≡ (list_all part_formed (parts (field_tree field.now)) && spec.pages_formed (field_tree field.now) && not (started && is_start (field_tree field.now))) }
{
    parts_formed(field) && pages_formed(field) && !(started && is_start(field))
}

/// Whether the size of the pages of a memory whose segment stands inline is 2 to a power below 64, in bytes.
fn pages_formed(field: &ModuleField<'_>) -> bool
    ensures { result ≡ spec.pages_formed (field_tree field.now) }
{
    match field {
        ModuleField::Memory(memory) => match &memory.kind {
            MemoryKind::Inline { page_size_log2, .. } => page_size_log2.unwrap_or(PAGE_SIZE_LOG2)
                < 64,
            MemoryKind::Import { .. } | MemoryKind::Normal(_) => true,
        },
        _ => true,
    }
}

/// Whether a field is a start function.
pub fn is_start(field: &ModuleField<'_>) -> bool
    ensures { result ≡ is_start (field_tree field.now) }
{
    matches!(field, ModuleField::Start(_))
}
