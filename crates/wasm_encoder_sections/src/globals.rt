//! The global section (WebAssembly 3.0, 5.5.9).

ghost use Rattle.std.specs.Prelude.{◌≡◌, ◌<◌, ◌^◌, length, nat_eq, IfOk};
ghost use Rattle.std.specs.Borrow.{sem};
ghost use Rattle.wasm_encoder_base.specs.Adds.{Adds, KeptIfRefused};
ghost use Rattle.wasm_encoder_base.specs.Lists.{no_items, with_item, list_bytes, list_section, HasRoom};
ghost use Rattle.wasm_encoder_items.specs.Segments.{global_item, ended};
ghost use Rattle.wasm_encoder_items.specs.Views.{global_view};
ghost use Rattle.wasm_encoder_sections.specs.contracts.globals.GlobalSection.{the_row};

use std::alloc::{AllocError, Global};
use std::marker::Model;
use wasm_encoder_base::{
    Added, Encode, EncodeError, EncodedList, Part, RawBytes, Section, SectionId,
};
use wasm_encoder_code::ConstExpr;
use wasm_encoder_items::{GlobalType, InitGlobal};

/// The global section: a module's globals. Contracts see how many there are, and their bytes.
#[derive(Debug, Drop)]
pub struct GlobalSection {
    globals: EncodedList,
}

impl Model for GlobalSection {
    ghost use Rattle.wasm_encoder_base.specs.Lists.{Listed};

    ghost Value = { Listed };

    ghost view = { λ section. section.globals };
}

impl GlobalSection {
    /// A section without globals.
    pub fn new(alloc: Global) -> Self
        ensures { result ≡ no_items }
    {
        GlobalSection {
            globals: EncodedList::new(alloc),
        }
    }

    /// How many globals there are.
    pub fn len(&self) -> u32
        ensures { result ≡ self.now.count }
    {
        self.globals.len()
    }

    /// Whether there are no globals.
    pub fn is_empty(&self) -> bool
        ensures { result ≡ nat_eq self.now.count 0 }
    {
        self.globals.is_empty()
    }

    /// Appends a global and its value at first.
    pub fn global(
        &mut self,
        global_type: GlobalType,
        init_expr: &ConstExpr,
    ) -> Result<Added<'_, Self>, EncodeError>
        ensures* refused { sem 𝓛 (KeptIfRefused the_row self.entry result) }
        ensures adds { Adds self.entry (with_item self.old (global_item ended (record { type = global_view global_type; init = init_expr.now }))) (HasRoom self.old) result }
    {
        let global = InitGlobal {
            ty: global_type,
            init: init_expr,
        };
        self.globals.append(&global)?;
        Ok(Added { target: self })
    }

    /// Appends a global that is encoded already.
    pub fn raw(&mut self, bytes: &[u8]) -> Result<Added<'_, Self>, EncodeError>
        ensures* refused { sem 𝓛 (KeptIfRefused the_row self.entry result) }
        ensures adds { Adds self.entry (with_item self.old (bytes.now)) (HasRoom self.old) result }
    {
        self.globals.append(&RawBytes(bytes))?;
        Ok(Added { target: self })
    }

    /// The same section, in memory of its own. Fails only where no memory is found.
    pub fn clone(&self) -> Result<Self, AllocError>
        ensures { IfOk result (λ section. section ≡ self.now) }
    {
        let globals = self.globals.clone()?;
        Ok(GlobalSection { globals })
    }
}

/// The size, and the list of globals.
impl Encode for GlobalSection {
    ghost can_encode = { λ _. Unit {0} };

    ghost fits = { λ section. length (list_bytes section) < 2 ^ 32 };

    ghost spelling = { list_section };

    fn encode(&self, sink: &mut Vec<u8>) -> Result<(), EncodeError> {
        Part(&self.globals).encode(sink)
    }
}

impl Section for GlobalSection {
    ghost section_id = { λ _. 6 };

    fn id(&self) -> u8 {
        SectionId::Global.into()
    }
}
