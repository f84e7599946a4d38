//! The symbol table of a linking section.

ghost use Rattle.std.specs.Prelude.{◌≡◌, ◌+◌, ◌<◌, ◌^◌, length, IfOk, IfSome};
ghost use Rattle.std.specs.Borrow.{sem};
ghost use Rattle.wasm_encoder_base.specs.Bytes.{sized, optional};
ghost use Rattle.wasm_encoder_base.specs.Adds.{Adds, KeptIfRefused};
ghost use Rattle.wasm_encoder_base.specs.Lists.{no_items, with_item, list_bytes, HasRoom};
ghost use Rattle.wasm_encoder_custom.specs.contracts.symbols.SymbolTable.{the_row};
ghost use Rattle.wasm_encoder_custom.specs.Linking.{symbol_table_bytes, symbol_bytes, data_symbol_bytes, definition_bytes, FunctionSymbol, GlobalSymbol, TableSymbol};

use std::alloc::{AllocError, Global};
use std::marker::Model;
use wasm_encoder_base::{Added, Encode, EncodeError, EncodedList, Part};

/// The symbol table of a linking section: functions, globals, tables and data by which object files are linked.
///
/// Which symbols have a name or a definition is said by their flags; that these fit is left to the caller.
#[derive(Debug, Drop)]
pub struct SymbolTable {
    symbols: EncodedList,
}

impl Model for SymbolTable {
    ghost use Rattle.wasm_encoder_base.specs.Lists.{Listed};

    ghost Value = { Listed };

    ghost view = { λ table. table.symbols };
}

impl SymbolTable {
    /// A weak symbol: of several definitions one is kept, and none beside a definition that isn't weak.
    pub const WASM_SYM_BINDING_WEAK: u32 = 1;

    /// A symbol that is known in its own object file alone.
    pub const WASM_SYM_BINDING_LOCAL: u32 = 2;

    /// A symbol that isn't exported when the last link is done.
    pub const WASM_SYM_VISIBILITY_HIDDEN: u32 = 4;

    /// A symbol that isn't defined here.
    pub const WASM_SYM_UNDEFINED: u32 = 16;

    /// A symbol to be exported from the linked module.
    pub const WASM_SYM_EXPORTED: u32 = 32;

    /// A symbol with a name of its own, in place of its import's.
    pub const WASM_SYM_EXPLICIT_NAME: u32 = 64;

    /// A symbol to be kept though nothing uses it.
    pub const WASM_SYM_NO_STRIP: u32 = 128;

    /// A table without symbols.
    pub fn new(alloc: Global) -> Self
        ensures { result ≡ no_items }
    {
        SymbolTable {
            symbols: EncodedList::new(alloc),
        }
    }

    /// Appends a function's symbol: its flags, its index, and its name where it has one.
    pub fn function(
        &mut self,
        flags: u32,
        index: u32,
        name: Option<&str>,
    ) -> Result<Added<'_, Self>, EncodeError>
        ensures* refused { sem 𝓛 (KeptIfRefused the_row self.entry result) }
        ensures adds { Adds self.entry (with_item self.old (symbol_bytes FunctionSymbol flags index (optional (λ text. sized text.now) name.entry))) (HasRoom self.old × IfSome name.entry (λ text. length text.now < 2 ^ 32)) result }
    {
        self.symbols.append(&((0u8, flags, index), name))?;
        Ok(Added { target: self })
    }

    /// Appends a global's symbol: its flags, its index, and its name where it has one.
    pub fn global(
        &mut self,
        flags: u32,
        index: u32,
        name: Option<&str>,
    ) -> Result<Added<'_, Self>, EncodeError>
        ensures* refused { sem 𝓛 (KeptIfRefused the_row self.entry result) }
        ensures adds { Adds self.entry (with_item self.old (symbol_bytes GlobalSymbol flags index (optional (λ text. sized text.now) name.entry))) (HasRoom self.old × IfSome name.entry (λ text. length text.now < 2 ^ 32)) result }
    {
        self.symbols.append(&((2u8, flags, index), name))?;
        Ok(Added { target: self })
    }

    /// Appends a table's symbol: its flags, its index, and its name where it has one.
    pub fn table(
        &mut self,
        flags: u32,
        index: u32,
        name: Option<&str>,
    ) -> Result<Added<'_, Self>, EncodeError>
        ensures* refused { sem 𝓛 (KeptIfRefused the_row self.entry result) }
        ensures adds { Adds self.entry (with_item self.old (symbol_bytes TableSymbol flags index (optional (λ text. sized text.now) name.entry))) (HasRoom self.old × IfSome name.entry (λ text. length text.now < 2 ^ 32)) result }
    {
        self.symbols.append(&((5u8, flags, index), name))?;
        Ok(Added { target: self })
    }

    /// Appends a data symbol: its flags, its name, and where it lies, if it is defined here.
    pub fn data(
        &mut self,
        flags: u32,
        name: &str,
        definition: Option<DataSymbolDefinition>,
    ) -> Result<Added<'_, Self>, EncodeError>
        ensures* refused { sem 𝓛 (KeptIfRefused the_row self.entry result) }
        ensures adds { Adds self.entry (with_item self.old (data_symbol_bytes flags name.now (optional definition_bytes definition))) (HasRoom self.old × (length name.now < 2 ^ 32)) result }
    {
        self.symbols.append(&((1u8, flags, name), definition))?;
        Ok(Added { target: self })
    }

    /// The same table, in memory of its own. Fails only where no memory is found.
    pub fn clone(&self) -> Result<Self, AllocError>
        ensures { IfOk result (λ table. table ≡ self.now) }
    {
        let symbols = self.symbols.clone()?;
        Ok(SymbolTable { symbols })
    }
}

/// The table as a subsection of a linking section: its number 8, its size, the count and the symbols.
impl Encode for SymbolTable {
    ghost can_encode = { λ _. Unit {0} };

    ghost fits = { λ table. length (list_bytes table) < 2 ^ 32 };

    ghost spelling = { λ table. symbol_table_bytes (list_bytes table) };

    fn encode(&self, sink: &mut Vec<u8>) -> Result<(), EncodeError> {
        (8u8, Part(&self.symbols)).encode(sink)
    }
}

/// Where a data symbol lies.
#[derive(Clone, Debug, Drop)]
pub struct DataSymbolDefinition {
    /// The index of the data segment.
    pub index: u32,
    /// The offset in the segment, in bytes.
    pub offset: u32,
    /// The size in bytes, which may be 0.
    pub size: u32,
}

/// The index, the offset, the size.
impl Encode for DataSymbolDefinition {
    ghost can_encode = { λ _. Unit {0} };

    ghost fits = { λ _. Unit {0} };

    ghost spelling = { definition_bytes };

    fn encode(&self, sink: &mut Vec<u8>) -> Result<(), EncodeError> {
        (self.index, self.offset, self.size).encode(sink)
    }
}
