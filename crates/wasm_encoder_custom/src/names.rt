//! The name section (WebAssembly 3.0, the appendix on custom sections, which has some of its subsections).

ghost use Rattle.std.specs.Prelude.{◌≡◌, ◌+◌, ◌<◌, ◌^◌, ◌++◌, [], length, IfOk};
ghost use Rattle.std.specs.Borrow.{sem};
ghost use Rattle.std.specs.Cow.{cow_str_bytes};
ghost use Rattle.wasm_encoder_base.specs.Bytes.{sized};
ghost use Rattle.wasm_encoder_base.specs.Adds.{Adds, KeptIfRefused};
ghost use Rattle.wasm_encoder_base.specs.Leb.{uleb};
ghost use Rattle.wasm_encoder_base.specs.Lists.{no_items, with_item, list_bytes, HasRoom};
ghost use Rattle.wasm_encoder_custom.specs.Custom.{custom_bytes, CustomFits, subsection};
ghost use Rattle.wasm_encoder_custom.specs.Names.{name_section, number_of, inner_number_of, Functions, Types, Tables, Memories, Globals, Elements, DataSegments, Tags, Locals, Labels, Fields, Parameters, TagParameters};
ghost use Rattle.wasm_encoder_custom.specs.contracts.names.NameSection.{the_row};

use crate::custom::{CustomSection, encode_custom};
use crate::name_map::{IndirectNameMap, NameMap};
use std::alloc::{AllocError, Global};
use std::borrow::CowStr;
use std::marker::Model;
use wasm_encoder_base::{
    Added, Bytes, Encode, EncodeError, Measure, Part, RawBytes, Section, SectionId,
};

/// The custom section `name`: names for a module and for what is in it. Contracts see its data.
///
/// Each subsection is to be added at most once, in the order of their numbers; that is left to the caller.
#[derive(Debug, Drop)]
pub struct NameSection {
    bytes: Vec<u8>,
}

impl Model for NameSection {
    ghost use Rattle.std.specs.Prelude.{List, ℕ};

    ghost Value = { List ℕ };

    ghost view = { λ section. section.bytes.items };
}

/// The numbers of the subsections.
enum Subsection {
    Module = 0,
    Function = 1,
    Local = 2,
    Label = 3,
    Type = 4,
    Table = 5,
    Memory = 6,
    Global = 7,
    Element = 8,
    Data = 9,
    Field = 10,
    Tag = 11,
    Parameter = 12,
    TagParameter = 13,
}

impl NameSection {
    /// A section without names.
    pub fn new(alloc: Global) -> Self
        ensures { result ≡ [] }
    {
        NameSection {
            bytes: Vec::new(alloc),
        }
    }

    /// Appends the name of the module: subsection 0.
    pub fn module(&mut self, name: &str) -> Result<Added<'_, Self>, EncodeError>
        ensures* refused { sem 𝓛 (KeptIfRefused the_row self.entry result) }
        ensures adds { Adds self.entry (self.old ++ subsection 0 (sized name.now)) (length (sized name.now) < 2 ^ 32) result }
    {
        self.subsection(Subsection::Module as u8, &name)
    }

    /// Appends the names of functions: subsection 1.
    pub fn functions(&mut self, names: &NameMap) -> Result<Added<'_, Self>, EncodeError>
        ensures* refused { sem 𝓛 (KeptIfRefused the_row self.entry result) }
        ensures adds { Adds self.entry (self.old ++ subsection (number_of Functions) (list_bytes names.now)) (length (list_bytes names.now) < 2 ^ 32) result }
    {
        self.subsection(Subsection::Function as u8, names)
    }

    /// Appends the names of locals, by function: subsection 2.
    pub fn locals(&mut self, names: &IndirectNameMap) -> Result<Added<'_, Self>, EncodeError>
        ensures* refused { sem 𝓛 (KeptIfRefused the_row self.entry result) }
        ensures adds { Adds self.entry (self.old ++ subsection (inner_number_of Locals) (list_bytes names.now)) (length (list_bytes names.now) < 2 ^ 32) result }
    {
        self.subsection(Subsection::Local as u8, names)
    }

    /// Appends the names of labels, by function: subsection 3.
    pub fn labels(&mut self, names: &IndirectNameMap) -> Result<Added<'_, Self>, EncodeError>
        ensures* refused { sem 𝓛 (KeptIfRefused the_row self.entry result) }
        ensures adds { Adds self.entry (self.old ++ subsection (inner_number_of Labels) (list_bytes names.now)) (length (list_bytes names.now) < 2 ^ 32) result }
    {
        self.subsection(Subsection::Label as u8, names)
    }

    /// Appends the names of types: subsection 4.
    pub fn types(&mut self, names: &NameMap) -> Result<Added<'_, Self>, EncodeError>
        ensures* refused { sem 𝓛 (KeptIfRefused the_row self.entry result) }
        ensures adds { Adds self.entry (self.old ++ subsection (number_of Types) (list_bytes names.now)) (length (list_bytes names.now) < 2 ^ 32) result }
    {
        self.subsection(Subsection::Type as u8, names)
    }

    /// Appends the names of tables: subsection 5.
    pub fn tables(&mut self, names: &NameMap) -> Result<Added<'_, Self>, EncodeError>
        ensures* refused { sem 𝓛 (KeptIfRefused the_row self.entry result) }
        ensures adds { Adds self.entry (self.old ++ subsection (number_of Tables) (list_bytes names.now)) (length (list_bytes names.now) < 2 ^ 32) result }
    {
        self.subsection(Subsection::Table as u8, names)
    }

    /// Appends the names of memories: subsection 6.
    pub fn memories(&mut self, names: &NameMap) -> Result<Added<'_, Self>, EncodeError>
        ensures* refused { sem 𝓛 (KeptIfRefused the_row self.entry result) }
        ensures adds { Adds self.entry (self.old ++ subsection (number_of Memories) (list_bytes names.now)) (length (list_bytes names.now) < 2 ^ 32) result }
    {
        self.subsection(Subsection::Memory as u8, names)
    }

    /// Appends the names of globals: subsection 7.
    pub fn globals(&mut self, names: &NameMap) -> Result<Added<'_, Self>, EncodeError>
        ensures* refused { sem 𝓛 (KeptIfRefused the_row self.entry result) }
        ensures adds { Adds self.entry (self.old ++ subsection (number_of Globals) (list_bytes names.now)) (length (list_bytes names.now) < 2 ^ 32) result }
    {
        self.subsection(Subsection::Global as u8, names)
    }

    /// Appends the names of element segments: subsection 8.
    pub fn elements(&mut self, names: &NameMap) -> Result<Added<'_, Self>, EncodeError>
        ensures* refused { sem 𝓛 (KeptIfRefused the_row self.entry result) }
        ensures adds { Adds self.entry (self.old ++ subsection (number_of Elements) (list_bytes names.now)) (length (list_bytes names.now) < 2 ^ 32) result }
    {
        self.subsection(Subsection::Element as u8, names)
    }

    /// Appends the names of data segments: subsection 9.
    pub fn data(&mut self, names: &NameMap) -> Result<Added<'_, Self>, EncodeError>
        ensures* refused { sem 𝓛 (KeptIfRefused the_row self.entry result) }
        ensures adds { Adds self.entry (self.old ++ subsection (number_of DataSegments) (list_bytes names.now)) (length (list_bytes names.now) < 2 ^ 32) result }
    {
        self.subsection(Subsection::Data as u8, names)
    }

    /// Appends the names of tags, subsection 11: the same as [`tags`](NameSection::tags).
    pub fn tag(&mut self, names: &NameMap) -> Result<Added<'_, Self>, EncodeError>
        ensures* refused { sem 𝓛 (KeptIfRefused the_row self.entry result) }
        ensures adds { Adds self.entry (self.old ++ subsection (number_of Tags) (list_bytes names.now)) (length (list_bytes names.now) < 2 ^ 32) result }
    {
        self.subsection(Subsection::Tag as u8, names)
    }

    /// Appends the names of fields, by structure type: subsection 10.
    pub fn fields(&mut self, names: &IndirectNameMap) -> Result<Added<'_, Self>, EncodeError>
        ensures* refused { sem 𝓛 (KeptIfRefused the_row self.entry result) }
        ensures adds { Adds self.entry (self.old ++ subsection (inner_number_of Fields) (list_bytes names.now)) (length (list_bytes names.now) < 2 ^ 32) result }
    {
        self.subsection(Subsection::Field as u8, names)
    }

    /// Appends the names of tags: subsection 11.
    pub fn tags(&mut self, names: &NameMap) -> Result<Added<'_, Self>, EncodeError>
        ensures* refused { sem 𝓛 (KeptIfRefused the_row self.entry result) }
        ensures adds { Adds self.entry (self.old ++ subsection (number_of Tags) (list_bytes names.now)) (length (list_bytes names.now) < 2 ^ 32) result }
    {
        self.subsection(Subsection::Tag as u8, names)
    }

    /// Appends the names of parameters, by function type: subsection 12.
    pub fn parameters(&mut self, names: &IndirectNameMap) -> Result<Added<'_, Self>, EncodeError>
        ensures* refused { sem 𝓛 (KeptIfRefused the_row self.entry result) }
        ensures adds { Adds self.entry (self.old ++ subsection (inner_number_of Parameters) (list_bytes names.now)) (length (list_bytes names.now) < 2 ^ 32) result }
    {
        self.subsection(Subsection::Parameter as u8, names)
    }

    /// Appends the names of parameters, by tag: subsection 13.
    pub fn tag_parameters(
        &mut self,
        names: &IndirectNameMap,
    ) -> Result<Added<'_, Self>, EncodeError>
        ensures* refused { sem 𝓛 (KeptIfRefused the_row self.entry result) }
        ensures adds { Adds self.entry (self.old ++ subsection (inner_number_of TagParameters) (list_bytes names.now)) (length (list_bytes names.now) < 2 ^ 32) result }
    {
        self.subsection(Subsection::TagParameter as u8, names)
    }

    /// Appends a subsection with this number and these contents.
    pub fn raw(&mut self, number: u8, contents: &[u8]) -> Result<Added<'_, Self>, EncodeError>
        ensures* refused { sem 𝓛 (KeptIfRefused the_row self.entry result) }
        ensures adds { Adds self.entry (self.old ++ subsection number contents.now) (length contents.now < 2 ^ 32) result }
    {
        self.subsection(number, &RawBytes(contents))
    }

    /// The section with its data borrowed.
    pub fn as_custom(&self) -> CustomSection<'_>
        ensures name { cow_str_bytes result.name ≡ (name_section self.now).name }
        ensures bytes { result.bytes ≡ (name_section self.now).contents }
    {
        CustomSection {
            name: CowStr::Borrowed("name"),
            bytes: Bytes::borrowed(self.bytes.as_slice()),
        }
    }

    /// The same section, in memory of its own. Fails only where no memory is found.
    pub fn clone(&self) -> Result<Self, AllocError>
        ensures { IfOk result (λ section. section ≡ self.now) }
    {
        let bytes = self.bytes.clone()?;
        Ok(NameSection { bytes })
    }

    /// Appends a subsection with this number.
    fn subsection<T: Measure>(
        &mut self,
        number: u8,
        contents: &T,
    ) -> Result<Added<'_, Self>, EncodeError>
        requires { T.Encode.can_encode contents.now }
        ensures* refused { sem 𝓛 (KeptIfRefused the_row self.entry result) }
        ensures adds { Adds self.entry (self.old ++ subsection number (T.Encode.spelling contents.now)) ((length (T.Encode.spelling contents.now) < 2 ^ 32) × T.Encode.fits contents.now) result }
    {
        (number, Part(contents)).encode(&mut self.bytes)?;
        Ok(Added { target: self })
    }
}

/// The size, `name`, and the subsections.
impl Encode for NameSection {
    ghost can_encode = { λ _. Unit {0} };

    ghost fits = { λ section. CustomFits (name_section section) };

    ghost spelling = { λ section. custom_bytes (name_section section) };

    fn encode(&self, sink: &mut Vec<u8>) -> Result<(), EncodeError> {
        encode_custom("name", &RawBytes(self.bytes.as_slice()), sink)
    }
}

impl Section for NameSection {
    ghost section_id = { λ _. 0 };

    fn id(&self) -> u8 {
        SectionId::Custom.into()
    }
}
