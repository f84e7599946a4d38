//! The table section (WebAssembly 3.0, 5.5.7).

ghost use Rattle.std.specs.Prelude.{◌≡◌, ◌<◌, ◌^◌, length, nat_eq, IfOk};
ghost use Rattle.std.specs.Borrow.{sem};
ghost use Rattle.wasm_encoder_base.specs.Adds.{Adds, KeptIfRefused};
ghost use Rattle.wasm_encoder_base.specs.Lists.{no_items, with_item, list_bytes, list_section, HasRoom};
ghost use Rattle.wasm_encoder_items.specs.Segments.{WithoutInit, WithInit, table_item, ended};
ghost use Rattle.wasm_encoder_items.specs.Views.{table_view};
ghost use Rattle.wasm_encoder_sections.specs.contracts.tables.TableSection.{the_row};

use std::alloc::{AllocError, Global};
use std::marker::Model;
use wasm_encoder_base::{Added, Encode, EncodeError, EncodedList, Part, Section, SectionId};
use wasm_encoder_code::ConstExpr;
use wasm_encoder_items::{InitTable, TableType};

/// The table section: a module's tables. Contracts see how many there are, and their bytes.
#[derive(Debug, Drop)]
pub struct TableSection {
    tables: EncodedList,
}

impl Model for TableSection {
    ghost use Rattle.wasm_encoder_base.specs.Lists.{Listed};

    ghost Value = { Listed };

    ghost view = { λ section. section.tables };
}

impl TableSection {
    /// A section without tables.
    pub fn new(alloc: Global) -> Self
        ensures { result ≡ no_items }
    {
        TableSection {
            tables: EncodedList::new(alloc),
        }
    }

    /// How many tables there are.
    pub fn len(&self) -> u32
        ensures { result ≡ self.now.count }
    {
        self.tables.len()
    }

    /// Whether there are no tables.
    pub fn is_empty(&self) -> bool
        ensures { result ≡ nat_eq self.now.count 0 }
    {
        self.tables.is_empty()
    }

    /// Appends a table, whose elements are null at first.
    pub fn table(&mut self, table_type: TableType) -> Result<Added<'_, Self>, EncodeError>
        ensures* refused { sem 𝓛 (KeptIfRefused the_row self.entry result) }
        ensures adds { Adds self.entry (with_item self.old (table_item ended (WithoutInit (table_view table_type)))) (HasRoom self.old) result }
    {
        self.tables.append(&table_type)?;
        Ok(Added { target: self })
    }

    /// Appends a table, whose elements have the value at first.
    pub fn table_with_init(
        &mut self,
        table_type: TableType,
        init: &ConstExpr,
    ) -> Result<Added<'_, Self>, EncodeError>
        ensures* refused { sem 𝓛 (KeptIfRefused the_row self.entry result) }
        ensures adds { Adds self.entry (with_item self.old (table_item ended (WithInit (table_view table_type) init.now))) (HasRoom self.old) result }
    {
        let table = InitTable {
            ty: table_type,
            init,
        };
        self.tables.append(&table)?;
        Ok(Added { target: self })
    }

    /// The same section, in memory of its own. Fails only where no memory is found.
    pub fn clone(&self) -> Result<Self, AllocError>
        ensures { IfOk result (λ section. section ≡ self.now) }
    {
        let tables = self.tables.clone()?;
        Ok(TableSection { tables })
    }
}

/// The size, and the list of tables.
impl Encode for TableSection {
    ghost can_encode = { λ _. Unit {0} };

    ghost fits = { λ section. length (list_bytes section) < 2 ^ 32 };

    ghost spelling = { list_section };

    fn encode(&self, sink: &mut Vec<u8>) -> Result<(), EncodeError> {
        Part(&self.tables).encode(sink)
    }
}

impl Section for TableSection {
    ghost section_id = { λ _. 4 };

    fn id(&self) -> u8 {
        SectionId::Table.into()
    }
}
