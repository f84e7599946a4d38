//! Core dumps (tool conventions of WebAssembly).

ghost use Rattle.std.specs.Prelude.{◌≡◌, ◌+◌, ◌<◌, ◌^◌, length, codes, IfOk, OnOk, IsErrOf, All};
ghost use Rattle.std.specs.Borrow.{sem};
ghost use Rattle.std.specs.Cow.{cow_str_bytes};
ghost use Rattle.wasm_encoder_base.specs.Bytes.{sized};
ghost use Rattle.wasm_encoder_base.specs.Adds.{Adds, KeptIfRefused};
ghost use Rattle.wasm_encoder_base.specs.Lists.{no_items, with_item, list_bytes, HasRoom};
ghost use Rattle.wasm_encoder_custom.specs.CoreDump.{value_bytes, named_bytes, instance_bytes, frame_bytes, with_frame, process_section, modules_section, instances_section, stack_section};
ghost use Rattle.wasm_encoder_custom.specs.Custom.{custom_bytes, CustomFits};
ghost use Rattle.wasm_encoder_custom.specs.contracts.dump.CoreDumpModulesSection.{the_row as modules_row};
ghost use Rattle.wasm_encoder_custom.specs.contracts.dump.CoreDumpInstancesSection.{the_row as instances_row};
ghost use Rattle.wasm_encoder_custom.specs.contracts.dump.CoreDumpStackSection.{the_row as stack_row};

use crate::custom::{CustomSection, encode_custom};
use std::alloc::{AllocError, Global};
use std::borrow::CowStr;
use std::marker::Model;
use wasm_encoder_base::{
    Added, Bytes, Encode, EncodeError, EncodedList, Ieee32, Ieee64, Measure, Section, SectionId,
};

/// The custom section `core`: the name of the process of a core dump, which contracts see.
#[derive(Debug, Drop)]
pub struct CoreDumpSection {
    name: String,
}

impl Model for CoreDumpSection {
    ghost use Rattle.std.specs.Prelude.{List, ℕ};
    ghost use Rattle.std.specs.String.{string_bytes};

    ghost Value = { List ℕ };

    ghost view = { λ section. string_bytes section.name };
}

impl CoreDumpSection {
    /// A section with this name. Fails only where no memory is found.
    pub fn new(alloc: Global, name: &str) -> Result<Self, AllocError>
        ensures { IfOk result (λ section. section ≡ name.now) }
    {
        let name = String::from_str(alloc, name)?;
        Ok(CoreDumpSection { name })
    }

    /// The same section, in memory of its own. Fails only where no memory is found.
    pub fn clone(&self) -> Result<Self, AllocError>
        ensures { IfOk result (λ section. section ≡ self.now) }
    {
        let name = self.name.clone()?;
        Ok(CoreDumpSection { name })
    }
}

/// The size, `core`, a byte 0, and the name.
impl Encode for CoreDumpSection {
    ghost can_encode = { λ _. Unit {0} };

    ghost fits = { λ section. CustomFits (process_section section) };

    ghost spelling = { λ section. custom_bytes (process_section section) };

    fn encode(&self, sink: &mut Vec<u8>) -> Result<(), EncodeError> {
        encode_custom("core", &(0u8, self.name.as_str()), sink)
    }
}

impl Section for CoreDumpSection {
    ghost section_id = { λ _. 0 };

    fn id(&self) -> u8 {
        SectionId::Custom.into()
    }
}

/// The custom section `coremodules`: the modules of a core dump, by their names.
#[derive(Debug, Drop)]
pub struct CoreDumpModulesSection {
    modules: EncodedList,
}

impl Model for CoreDumpModulesSection {
    ghost use Rattle.wasm_encoder_base.specs.Lists.{Listed};

    ghost Value = { Listed };

    ghost view = { λ section. section.modules };
}

impl CoreDumpModulesSection {
    /// A section without modules.
    pub fn new(alloc: Global) -> Self
        ensures { result ≡ no_items }
    {
        CoreDumpModulesSection {
            modules: EncodedList::new(alloc),
        }
    }

    /// Appends a module by its name.
    pub fn module(&mut self, name: &str) -> Result<Added<'_, Self>, EncodeError>
        ensures* refused { sem 𝓛 (KeptIfRefused modules_row self.entry result) }
        ensures adds { Adds self.entry (with_item self.old (named_bytes name.now)) (HasRoom self.old × (length name.now < 2 ^ 32)) result }
    {
        self.modules.append(&(0u8, name))?;
        Ok(Added { target: self })
    }

    /// How many modules there are.
    pub fn len(&self) -> u32
        ensures { result ≡ self.now.count }
    {
        self.modules.len()
    }

    /// The section with its data in memory of its own. Fails only where no memory is found.
    pub fn as_custom(&self) -> Result<CustomSection<'static>, EncodeError>
        ensures name { IfOk result (λ section. cow_str_bytes section.name ≡ (modules_section self.now).name) }
        ensures bytes { IfOk result (λ section. section.bytes ≡ (modules_section self.now).contents) }
        ensures too_large { IsErrOf result EncodeError.TooLarge → ⊥ }
    {
        let bytes = spelled(self.modules.allocator(), &self.modules)?;
        Ok(owned_custom("coremodules", bytes))
    }
}

/// The size, `coremodules`, and the list of modules, each a byte 0 and its name.
impl Encode for CoreDumpModulesSection {
    ghost can_encode = { λ _. Unit {0} };

    ghost fits = { λ section. CustomFits (modules_section section) };

    ghost spelling = { λ section. custom_bytes (modules_section section) };

    fn encode(&self, sink: &mut Vec<u8>) -> Result<(), EncodeError> {
        encode_custom("coremodules", &self.modules, sink)
    }
}

impl Section for CoreDumpModulesSection {
    ghost section_id = { λ _. 0 };

    fn id(&self) -> u8 {
        SectionId::Custom.into()
    }
}

/// The custom section `coreinstances`: the instances of a core dump.
#[derive(Debug, Drop)]
pub struct CoreDumpInstancesSection {
    instances: EncodedList,
}

impl Model for CoreDumpInstancesSection {
    ghost use Rattle.wasm_encoder_base.specs.Lists.{Listed};

    ghost Value = { Listed };

    ghost view = { λ section. section.instances };
}

impl CoreDumpInstancesSection {
    /// A section without instances.
    pub fn new(alloc: Global) -> Self
        ensures { result ≡ no_items }
    {
        CoreDumpInstancesSection {
            instances: EncodedList::new(alloc),
        }
    }

    /// Appends an instance: its module's index, and the indices of its memories and globals.
    pub fn instance(
        &mut self,
        module_index: u32,
        memories: &[u32],
        globals: &[u32],
    ) -> Result<Added<'_, Self>, EncodeError>
        ensures* refused { sem 𝓛 (KeptIfRefused instances_row self.entry result) }
        ensures adds { Adds self.entry (with_item self.old (instance_bytes (record { module_index = module_index; memories = memories.now; globals = globals.now }))) (HasRoom self.old × (length memories.now < 2 ^ 32) × (length globals.now < 2 ^ 32)) result }
    {
        self.instances
            .append(&((0u8, module_index), memories, globals))?;
        Ok(Added { target: self })
    }

    /// How many instances there are.
    pub fn len(&self) -> u32
        ensures { result ≡ self.now.count }
    {
        self.instances.len()
    }

    /// The section with its data in memory of its own. Fails only where no memory is found.
    pub fn as_custom(&self) -> Result<CustomSection<'static>, EncodeError>
        ensures name { IfOk result (λ section. cow_str_bytes section.name ≡ (instances_section self.now).name) }
        ensures bytes { IfOk result (λ section. section.bytes ≡ (instances_section self.now).contents) }
        ensures too_large { IsErrOf result EncodeError.TooLarge → ⊥ }
    {
        let bytes = spelled(self.instances.allocator(), &self.instances)?;
        Ok(owned_custom("coreinstances", bytes))
    }
}

/// The size, `coreinstances`, and the list of instances.
impl Encode for CoreDumpInstancesSection {
    ghost can_encode = { λ _. Unit {0} };

    ghost fits = { λ section. CustomFits (instances_section section) };

    ghost spelling = { λ section. custom_bytes (instances_section section) };

    fn encode(&self, sink: &mut Vec<u8>) -> Result<(), EncodeError> {
        encode_custom("coreinstances", &self.instances, sink)
    }
}

impl Section for CoreDumpInstancesSection {
    ghost section_id = { λ _. 0 };

    fn id(&self) -> u8 {
        SectionId::Custom.into()
    }
}

/// The custom section `corestack`: the stack of a thread of a core dump.
#[derive(Debug, Drop)]
pub struct CoreDumpStackSection {
    name: String,
    frames: EncodedList,
}

impl Model for CoreDumpStackSection {
    ghost use Rattle.std.specs.String.{string_bytes};
    ghost use Rattle.wasm_encoder_custom.specs.CoreDump.{Thread};

    ghost Value = { Thread };

    ghost view = { λ section. record { name = string_bytes section.name; frames = section.frames } };
}

impl CoreDumpStackSection {
    /// The stack of a thread with this name, without frames. Fails only where no memory is found.
    pub fn new(alloc: Global, name: &str) -> Result<Self, AllocError>
        ensures { IfOk result (λ section. section ≡ record { name = name.now; frames = no_items }) }
    {
        let name = String::from_str(alloc, name)?;
        Ok(CoreDumpStackSection {
            name,
            frames: EncodedList::new(alloc),
        })
    }

    /// Appends a frame: the indices of its instance and its function, the offset of its instruction in bytes from the start
    /// of the function's body, and the values of its locals and of its operand stack.
    pub fn frame(
        &mut self,
        instance_index: u32,
        function_index: u32,
        code_offset: u32,
        locals: &[CoreDumpValue],
        stack: &[CoreDumpValue],
    ) -> Result<Added<'_, Self>, EncodeError>
        ensures* refused { sem 𝓛 (KeptIfRefused stack_row self.entry result) }
        ensures adds { Adds self.entry (with_frame self.old (frame_bytes (record { instance_index = instance_index; function_index = function_index; code_offset = code_offset; locals = locals.now; stack = stack.now }))) (HasRoom self.old.frames × (length locals.now < 2 ^ 32) × (length stack.now < 2 ^ 32)) result }
    {
        let place = (0u8, instance_index, function_index);
        self.frames.append(&((place, code_offset), locals, stack))?;
        Ok(Added { target: self })
    }

    /// The section with its data in memory of its own. Refused as too large where the thread's name has more than 4294967295
    /// bytes, and for want of memory.
    pub fn as_custom(&self) -> Result<CustomSection<'static>, EncodeError>
        ensures name { IfOk result (λ section. cow_str_bytes section.name ≡ (stack_section self.now).name) }
        ensures bytes { IfOk result (λ section. section.bytes ≡ (stack_section self.now).contents) }
        ensures fits { OnOk result (length self.now.name < 2 ^ 32) }
        ensures too_large { IsErrOf result EncodeError.TooLarge → length self.now.name < 2 ^ 32 → ⊥ }
    {
        let name = (0u8, self.name.as_str());
        let bytes = spelled(self.frames.allocator(), &(name, &self.frames))?;
        Ok(owned_custom("corestack", bytes))
    }

    /// The same section, in memory of its own. Fails only where no memory is found.
    pub fn clone(&self) -> Result<Self, AllocError>
        ensures { IfOk result (λ section. section ≡ self.now) }
    {
        let name = self.name.clone()?;
        let frames = self.frames.clone()?;
        Ok(CoreDumpStackSection { name, frames })
    }
}

/// The size, `corestack`, a byte 0, the thread's name, and the list of frames.
impl Encode for CoreDumpStackSection {
    ghost can_encode = { λ _. Unit {0} };

    ghost fits = { λ section. CustomFits (stack_section section) };

    ghost spelling = { λ section. custom_bytes (stack_section section) };

    fn encode(&self, sink: &mut Vec<u8>) -> Result<(), EncodeError> {
        let name = (0u8, self.name.as_str());
        encode_custom("corestack", &(name, &self.frames), sink)
    }
}

impl Section for CoreDumpStackSection {
    ghost section_id = { λ _. 0 };

    fn id(&self) -> u8 {
        SectionId::Custom.into()
    }
}

/// The value of a local or an operand.
#[derive(Clone, Debug, Drop)]
pub enum CoreDumpValue {
    /// A value that isn't known.
    Missing,
    I32(i32),
    I64(i64),
    F32(Ieee32),
    F64(Ieee64),
}

/// The byte of the type, then the value.
impl Encode for CoreDumpValue {
    ghost can_encode = { λ _. Unit {0} };

    ghost fits = { λ _. Unit {0} };

    ghost spelling = { value_bytes };

    fn encode(&self, sink: &mut Vec<u8>) -> Result<(), EncodeError> {
        match self {
            CoreDumpValue::Missing => 0x01u8.encode(sink),
            CoreDumpValue::I32(value) => (0x7Fu8, *value).encode(sink),
            CoreDumpValue::I64(value) => (0x7Eu8, *value).encode(sink),
            CoreDumpValue::F32(value) => (0x7Du8, *value).encode(sink),
            CoreDumpValue::F64(value) => (0x7Cu8, *value).encode(sink),
        }
    }
}

/// The spelling of a value, in a vector of its own.
fn spelled<T: Encode>(alloc: Global, value: &T) -> Result<Vec<u8>, EncodeError>
    requires { T.can_encode value.now }
    ensures ok { IfOk result (λ bytes. bytes.items ≡ T.spelling value.now) }
    ensures fits { OnOk result (T.fits value.now) }
    ensures too_large { IsErrOf result EncodeError.TooLarge → T.fits value.now → ⊥ }
{
    let mut bytes = Vec::new(alloc);
    value.encode(&mut bytes)?;
    Ok(bytes)
}

/// A custom section that owns its data.
fn owned_custom(name: &'static str, bytes: Vec<u8>) -> CustomSection<'static>
    ensures name { cow_str_bytes result.name ≡ name.entry.now }
    ensures bytes { result.bytes ≡ bytes.items }
{
    CustomSection {
        name: CowStr::Borrowed(name),
        bytes: Bytes::owned(bytes),
    }
}
