ghost use Rattle.std.specs.Prelude.{◌≡◌, ◌++◌, ◌<◌, ◌^◌, IfOk, IfErr, OnOk, OnErr, IsErrOf, List, ℕ, length, map};
ghost use Rattle.std.specs.Borrow.{sem, RestsIfErr, Lends};
ghost use Rattle.wasm_encoder_base.specs.Bytes.{counted, sized};
ghost use Rattle.wasm_encoder_base.specs.Instr.{instr_bytes};
ghost use Rattle.wasm_encoder_base.specs.Views.{val_view};
ghost use Rattle.wasm_encoder_instr.specs.Instruction.{instr_view, can_encode_instr, fits_instr};
ghost use Rattle.wasm_encoder_code.specs.Body.{locals_bytes};
ghost use Rattle.wasm_encoder_code.specs.Locals.{pair_bytes, LocalsFit};
ghost use Rattle.wasm_encoder_code.specs.Sink.{bytes_in, bytes_row};
ghost use Rattle.wasm_encoder_code.specs.contracts.function.Function.{the_row};

use crate::locals::joined;
use crate::sink::InstructionSink;
use std::alloc::{AllocError, Global};
use std::marker::Model;
use wasm_encoder_base::{Added, Encode, EncodeError, ValType, encode_sized};
use wasm_encoder_instr::Instruction;

/// The body of a function (5.5.13): its locals and its instructions. The `end` that closes it is left to the caller. Contracts
/// see the bytes.
#[derive(Debug, Drop)]
pub struct Function {
    bytes: Vec<u8>,
}

impl Model for Function {
    ghost use Rattle.std.specs.Prelude.{List, ℕ};

    ghost Value = { List ℕ };

    ghost view = { λ function. function.bytes.items };
}

/// The same bytes.
impl PartialEq for Function {
    ghost use Rattle.std.specs.Prelude.{nat_eq};
    ghost use Rattle.std.specs.Cmp.Lexicographic.{pointwise};
    ghost use Rattle.std.specs.Cmp.{partial_equiv_from_equiv};
    ghost use Rattle.std.specs.Cmp.Lexicographic.{nat_list_eq_equiv};

    ghost eq = { pointwise nat_eq };

    ghost laws = { partial_equiv_from_equiv nat_list_eq_equiv };

    fn eq(&self, other: &Self) -> bool {
        self.bytes == other.bytes
    }
}

impl Eq for Function {
    ghost use Rattle.std.specs.Cmp.Lexicographic.{nat_list_eq_equiv};

    ghost laws = { nat_list_eq_equiv };
}

/// The size, then the bytes.
impl Encode for Function {
    ghost use Rattle.wasm_encoder_base.specs.Bytes.{sized};
    ghost use Rattle.std.specs.Prelude.{◌<◌, ◌^◌, length};

    ghost can_encode = { λ _. Unit {0} };

    ghost fits = { λ function. length function < 2 ^ 32 };

    ghost spelling = { sized };

    fn encode(&self, sink: &mut Vec<u8>) -> Result<(), EncodeError> {
        encode_sized(self.bytes.as_slice(), sink)
    }
}

impl Function {
    /// A body with these locals, as many of each type as its number says, and no instructions. Refused as too large where there
    /// are more than 4294967295 pairs, and for want of memory.
    pub fn new(alloc: Global, locals: &[(u32, ValType)]) -> Result<Self, EncodeError>
        ensures ok { IfOk result (λ function. function ≡ counted pair_bytes locals.now) }
        ensures fits { OnOk result (length locals.now < 2 ^ 32) }
        ensures too_large { IsErrOf result EncodeError.TooLarge → length locals.now < 2 ^ 32 → ⊥ }
    {
        let mut bytes = Vec::new(alloc);
        locals.len().encode(&mut bytes)?;
        for (count, val_type) in locals {
            count.encode(&mut bytes)?;
            val_type.encode(&mut bytes)?;
        }
        Ok(Function { bytes })
    }

    /// A body with locals of these types, neighbours of one type joined, and no instructions. Refused as too large where there
    /// are more than 4294967295 runs, or locals in one, and for want of memory.
    #[tactic(auto, using(crate::proofs::Joined::runs_bytes, crate::proofs::Joined::runs_length))]
    pub fn new_with_locals_types(alloc: Global, locals: &[ValType]) -> Result<Self, EncodeError>
        ensures ok { IfOk result (λ function. function ≡ locals_bytes (map val_view locals.now)) }
        ensures fits { OnOk result (LocalsFit (map val_view locals.now)) }
        ensures too_large { IsErrOf result EncodeError.TooLarge → LocalsFit (map val_view locals.now) → ⊥ }
    {
        let runs = joined(alloc, locals)?;
        Function::new(alloc, runs.as_slice())
    }

    /// A sink that appends instructions to this body.
    pub fn instructions(&mut self) -> InstructionSink<'_>
        ensures* lends { sem 𝓛 (Lends the_row bytes_row self.entry result.sink (λ w. w.items)) }
        ensures value { bytes_in result ≡ self.old }
    {
        InstructionSink::new(&mut self.bytes)
    }

    /// Appends the instruction's bytes. One with a memory argument is one that [`can_encode`](Instruction::can_encode): its
    /// `align` is below 16. Refused for want of memory, and as too large where a count in it is past 4294967295; the body is
    /// unchanged then.
    pub fn instruction(&mut self, instruction: &Instruction) -> Result<Added<'_, Self>, EncodeError>
        requires { can_encode_instr instruction.now }
        ensures* refused { sem 𝓛 (RestsIfErr the_row self.entry (λ added. added.target.ghost_name) result (λ n. n ≡ self.old)) }
        ensures ok { IfOk result (λ added. added.target.now ≡ self.old ++ instr_bytes (instr_view instruction.now)) }
        ensures same_reference { IfOk result (λ added. added.target.ghost_name ≡ self.entry.ghost_name) }
        ensures fits { OnOk result (fits_instr instruction.now) }
        ensures too_large { IsErrOf result EncodeError.TooLarge → fits_instr instruction.now → ⊥ }
    {
        self.push(instruction)?;
        Ok(Added { target: self })
    }

    /// Appends the bytes as they are. Fails only where no memory is found; the body is unchanged then.
    pub fn raw(&mut self, bytes: &[u8]) -> Result<Added<'_, Self>, EncodeError>
        ensures* refused { sem 𝓛 (RestsIfErr the_row self.entry (λ added. added.target.ghost_name) result (λ n. n ≡ self.old)) }
        ensures ok { IfOk result (λ added. added.target.now ≡ self.old ++ bytes.now) }
        ensures same_reference { IfOk result (λ added. added.target.ghost_name ≡ self.entry.ghost_name) }
        ensures too_large { IsErrOf result EncodeError.TooLarge → ⊥ }
    {
        self.push_raw(bytes)?;
        Ok(Added { target: self })
    }

    /// How many bytes the body has, without the size that a code section puts before it. It takes no memory.
    pub fn byte_len(&self) -> usize
        ensures { result ≡ length self.now }
    {
        self.bytes.as_slice().len()
    }

    /// The bytes of the body: the locals and what was appended, without the size, and with no `end` but those appended. It takes no memory.
    pub fn into_raw_body(self) -> Vec<u8>
        ensures { result.items ≡ self }
    {
        let Function { bytes } = self;
        bytes
    }

    /// The same bytes, in a vector of their own. Fails only where no memory is found.
    pub fn clone(&self) -> Result<Self, AllocError>
        ensures { IfOk result (λ function. function ≡ self.now) }
    {
        let bytes = self.bytes.clone()?;
        Ok(Function { bytes })
    }

    fn push(&mut self, instruction: &Instruction) -> Result<(), EncodeError>
        requires { can_encode_instr instruction.now }
        ensures ok { OnOk result (self.new ≡ self.old ++ instr_bytes (instr_view instruction.now)) }
        ensures fits { OnOk result (fits_instr instruction.now) }
        ensures refused { OnErr result (self.new ≡ self.old) }
        ensures too_large { IsErrOf result EncodeError.TooLarge → fits_instr instruction.now → ⊥ }
    {
        instruction.encode(&mut self.bytes)
    }

    fn push_raw(&mut self, bytes: &[u8]) -> Result<(), EncodeError>
        ensures ok { OnOk result (self.new ≡ self.old ++ bytes.now) }
        ensures refused { OnErr result (self.new ≡ self.old) }
        ensures too_large { IsErrOf result EncodeError.TooLarge → ⊥ }
    {
        self.bytes.extend_from_slice(bytes)?;
        Ok(())
    }
}
