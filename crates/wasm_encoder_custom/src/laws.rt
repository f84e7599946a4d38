//! Laws of the sections' bytes: functions without parameters whose contracts are the laws. They do nothing.

ghost use Rattle.std.specs.Prelude.{◌≡◌};
ghost use Rattle.wasm_encoder_custom.specs.Laws.{OneCustom, OneNameSubsection, OneField, OneModuleName, OneInstance, OneValue, OneFrame, OneFunctionHints};

use crate::symbols::SymbolTable;

/// Custom sections are told apart by their bytes, whatever follows these.
pub fn one_custom()
    ensures { OneCustom }
{}

/// So are the subsections of a name section.
pub fn one_name_subsection()
    ensures { OneNameSubsection }
{}

/// So are the fields of a producers section.
pub fn one_field()
    ensures { OneField }
{}

/// So are the names of processes and modules, the instances, the values and the frames of core dumps.
pub fn one_core_dump()
    ensures names { OneModuleName }
    ensures instances { OneInstance }
    ensures values { OneValue }
    ensures frames { OneFrame }
{}

/// So are the hints of functions.
pub fn one_hint()
    ensures { OneFunctionHints }
{}

/// The constants of [`SymbolTable`](crate::SymbolTable) are the flags of symbols in the linking section of the tool
/// conventions: one bit each.
pub fn symbol_flags()
    ensures binding_weak { SymbolTable.WASM_SYM_BINDING_WEAK ≡ 0x01 }
    ensures binding_local { SymbolTable.WASM_SYM_BINDING_LOCAL ≡ 0x02 }
    ensures visibility_hidden { SymbolTable.WASM_SYM_VISIBILITY_HIDDEN ≡ 0x04 }
    ensures undefined { SymbolTable.WASM_SYM_UNDEFINED ≡ 0x10 }
    ensures exported { SymbolTable.WASM_SYM_EXPORTED ≡ 0x20 }
    ensures explicit_name { SymbolTable.WASM_SYM_EXPLICIT_NAME ≡ 0x40 }
    ensures no_strip { SymbolTable.WASM_SYM_NO_STRIP ≡ 0x80 }
{}
