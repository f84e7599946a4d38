ghost use Rattle.std.specs.Prelude.{◌≡◌, ◌++◌, [], ◌∷◌, IfOk, IfErr, OnOk, OnErr, IsErrOf, IfSome, IfNone, List, ℕ, ◌<◌, ◌^◌, All};
ghost use Rattle.std.specs.List.{flat_map};
ghost use Rattle.wasm_encoder_base.specs.Instr.{instr_bytes};
ghost use Rattle.wasm_encoder_instr.specs.Instruction.{instr_view, can_encode_instr, fits_instr};
ghost use Rattle.wasm_encoder_base.specs.Leb.{uleb};
ghost use Rattle.wasm_encoder_code.specs.Sink.{IsMade};
ghost use Rattle.wasm_encoder_base.specs.Front.{StandsInFront};

use std::alloc::{AllocError, Global};
use std::marker::Model;
use wasm_encoder_base::{
    Encode, EncodeError, HeapType, Ieee32, Ieee64, RawBytes, encode_both, read_u32,
};
use wasm_encoder_instr::{GcOp, Instruction, NumericOp, VectorArgOp};

/// A constant expression (5.4): the bytes of its instructions, without the `end`. Contracts see the bytes.
///
/// No call but [`extended`](ConstExpr::extended) is refused as too large.
#[derive(Debug, Drop)]
pub struct ConstExpr {
    bytes: Vec<u8>,
}

impl Model for ConstExpr {
    ghost use Rattle.std.specs.Prelude.{List, ℕ};

    ghost Value = { List ℕ };

    ghost view = { λ expression. expression.bytes.items };
}

/// The bytes and the `end`.
impl Encode for ConstExpr {
    ghost can_encode = { λ _. Unit {0} };

    ghost fits = { λ _. Unit {0} };

    ghost spelling = { λ expression. expression ++ 0x0B ∷ [] };

    fn encode(&self, sink: &mut Vec<u8>) -> Result<(), EncodeError> {
        encode_both(&RawBytes(self.bytes.as_slice()), &0x0Bu8, sink)
    }
}

impl ConstExpr {
    /// No instructions.
    pub fn empty(alloc: Global) -> Self
        ensures { result ≡ [] }
    {
        ConstExpr {
            bytes: Vec::new(alloc),
        }
    }

    /// The bytes as they are. Fails only where no memory is found.
    pub fn raw(alloc: Global, bytes: &[u8]) -> Result<Self, EncodeError>
        ensures { IsMade (bytes.now) (Unit {0}) result }
    {
        let bytes = Vec::from_slice(alloc, bytes)?;
        Ok(ConstExpr { bytes })
    }

    /// The instructions. One with a memory argument is one that [`can_encode`](Instruction::can_encode): its `align` is below 16.
    /// Refused for want of memory, and as too large where a count in one is past 4294967295.
    pub fn extended(alloc: Global, instructions: &[Instruction]) -> Result<Self, EncodeError>
        requires { All can_encode_instr instructions.now }
        ensures { IsMade (flat_map (λ i. instr_bytes (instr_view i)) instructions.now) (All fits_instr instructions.now) result }
    {
        let bytes = spelled(alloc, instructions)?;
        Ok(ConstExpr { bytes })
    }

    /// The same bytes, in a vector of their own. Fails only where no memory is found.
    pub fn clone(&self) -> Result<Self, AllocError>
        ensures { IfOk result (λ expression. expression ≡ self.now) }
    {
        let bytes = self.bytes.clone()?;
        Ok(ConstExpr { bytes })
    }

    /// The function's index, where the bytes begin with the opcode of `ref.func` and the shortest spelling of an index, whatever follows; else
    /// none, of an index that is padded too. It takes no memory.
    pub fn get_ref_func(&self) -> Option<u32>
        ensures found { IfSome result (λ index. StandsInFront (0xD2 ∷ uleb index) self.now) }
        ensures none { IfNone result ((n : ℕ) → n < 2 ^ 32 → StandsInFront (0xD2 ∷ uleb n) self.now → ⊥) }
    {
        match self.bytes.as_slice() {
            [0xD2, rest @ ..] => index_at(rest),
            _ => None,
        }
    }

    /// With a further instruction; refused, the expression is dropped.
    fn with_instruction(self, instruction: &Instruction) -> Result<Self, EncodeError>
        requires { can_encode_instr instruction.now }
        ensures { IsMade (self ++ instr_bytes (instr_view instruction.now)) (fits_instr instruction.now) result }
    {
        let ConstExpr { mut bytes } = self;
        instruction.encode(&mut bytes)?;
        Ok(ConstExpr { bytes })
    }

    /// `global.get`
    pub fn global_get(alloc: Global, global: u32) -> Result<Self, EncodeError>
        ensures { IsMade (instr_bytes (instr_view (Instruction.GlobalGet global))) (Unit {0}) result }
    {
        ConstExpr::empty(alloc).with_instruction(&Instruction::GlobalGet(global))
    }

    /// `ref.null`
    pub fn ref_null(alloc: Global, heap_type: HeapType) -> Result<Self, EncodeError>
        ensures { IsMade (instr_bytes (instr_view (Instruction.Gc (GcOp.RefNull heap_type)))) (Unit {0}) result }
    {
        ConstExpr::empty(alloc).with_instruction(&Instruction::Gc(GcOp::RefNull(heap_type)))
    }

    /// `ref.func`
    pub fn ref_func(alloc: Global, function: u32) -> Result<Self, EncodeError>
        ensures { IsMade (instr_bytes (instr_view (Instruction.Gc (GcOp.RefFunc function)))) (Unit {0}) result }
    {
        ConstExpr::empty(alloc).with_instruction(&Instruction::Gc(GcOp::RefFunc(function)))
    }

    /// `i32.const`
    pub fn i32_const(alloc: Global, value: i32) -> Result<Self, EncodeError>
        ensures { IsMade (instr_bytes (instr_view (Instruction.I32Const value))) (Unit {0}) result }
    {
        ConstExpr::empty(alloc).with_instruction(&Instruction::I32Const(value))
    }

    /// `i64.const`
    pub fn i64_const(alloc: Global, value: i64) -> Result<Self, EncodeError>
        ensures { IsMade (instr_bytes (instr_view (Instruction.I64Const value))) (Unit {0}) result }
    {
        ConstExpr::empty(alloc).with_instruction(&Instruction::I64Const(value))
    }

    /// `f32.const`
    pub fn f32_const(alloc: Global, value: Ieee32) -> Result<Self, EncodeError>
        ensures { IsMade (instr_bytes (instr_view (Instruction.F32Const value))) (Unit {0}) result }
    {
        ConstExpr::empty(alloc).with_instruction(&Instruction::F32Const(value))
    }

    /// `f64.const`
    pub fn f64_const(alloc: Global, value: Ieee64) -> Result<Self, EncodeError>
        ensures { IsMade (instr_bytes (instr_view (Instruction.F64Const value))) (Unit {0}) result }
    {
        ConstExpr::empty(alloc).with_instruction(&Instruction::F64Const(value))
    }

    /// `v128.const`: 16 bytes, the lowest first.
    pub fn v128_const(alloc: Global, value: i128) -> Result<Self, EncodeError>
        ensures { IsMade (instr_bytes (instr_view (Instruction.VectorArg (VectorArgOp.V128Const value)))) (Unit {0}) result }
    {
        ConstExpr::empty(alloc).with_instruction(&Instruction::VectorArg(VectorArgOp::V128Const(
            value,
        )))
    }

    /// `global.get` at the end; refused, the expression is dropped.
    pub fn with_global_get(self, global: u32) -> Result<Self, EncodeError>
        ensures { IsMade (self ++ instr_bytes (instr_view (Instruction.GlobalGet global))) (Unit {0}) result }
    {
        self.with_instruction(&Instruction::GlobalGet(global))
    }

    /// `ref.null` at the end; refused, the expression is dropped.
    pub fn with_ref_null(self, heap_type: HeapType) -> Result<Self, EncodeError>
        ensures { IsMade (self ++ instr_bytes (instr_view (Instruction.Gc (GcOp.RefNull heap_type)))) (Unit {0}) result }
    {
        self.with_instruction(&Instruction::Gc(GcOp::RefNull(heap_type)))
    }

    /// `ref.func` at the end; refused, the expression is dropped.
    pub fn with_ref_func(self, function: u32) -> Result<Self, EncodeError>
        ensures { IsMade (self ++ instr_bytes (instr_view (Instruction.Gc (GcOp.RefFunc function)))) (Unit {0}) result }
    {
        self.with_instruction(&Instruction::Gc(GcOp::RefFunc(function)))
    }

    /// `i32.const` at the end; refused, the expression is dropped.
    pub fn with_i32_const(self, value: i32) -> Result<Self, EncodeError>
        ensures { IsMade (self ++ instr_bytes (instr_view (Instruction.I32Const value))) (Unit {0}) result }
    {
        self.with_instruction(&Instruction::I32Const(value))
    }

    /// `i64.const` at the end; refused, the expression is dropped.
    pub fn with_i64_const(self, value: i64) -> Result<Self, EncodeError>
        ensures { IsMade (self ++ instr_bytes (instr_view (Instruction.I64Const value))) (Unit {0}) result }
    {
        self.with_instruction(&Instruction::I64Const(value))
    }

    /// `f32.const` at the end; refused, the expression is dropped.
    pub fn with_f32_const(self, value: Ieee32) -> Result<Self, EncodeError>
        ensures { IsMade (self ++ instr_bytes (instr_view (Instruction.F32Const value))) (Unit {0}) result }
    {
        self.with_instruction(&Instruction::F32Const(value))
    }

    /// `f64.const` at the end; refused, the expression is dropped.
    pub fn with_f64_const(self, value: Ieee64) -> Result<Self, EncodeError>
        ensures { IsMade (self ++ instr_bytes (instr_view (Instruction.F64Const value))) (Unit {0}) result }
    {
        self.with_instruction(&Instruction::F64Const(value))
    }

    /// `v128.const` at the end, 16 bytes, the lowest first; refused, the expression is dropped.
    pub fn with_v128_const(self, value: i128) -> Result<Self, EncodeError>
        ensures { IsMade (self ++ instr_bytes (instr_view (Instruction.VectorArg (VectorArgOp.V128Const value)))) (Unit {0}) result }
    {
        self.with_instruction(&Instruction::VectorArg(VectorArgOp::V128Const(value)))
    }

    /// `i32.add` at the end; refused, the expression is dropped.
    pub fn with_i32_add(self) -> Result<Self, EncodeError>
        ensures { IsMade (self ++ instr_bytes (instr_view (Instruction.Numeric NumericOp.I32Add))) (Unit {0}) result }
    {
        self.with_instruction(&Instruction::Numeric(NumericOp::I32Add))
    }

    /// `i32.sub` at the end; refused, the expression is dropped.
    pub fn with_i32_sub(self) -> Result<Self, EncodeError>
        ensures { IsMade (self ++ instr_bytes (instr_view (Instruction.Numeric NumericOp.I32Sub))) (Unit {0}) result }
    {
        self.with_instruction(&Instruction::Numeric(NumericOp::I32Sub))
    }

    /// `i32.mul` at the end; refused, the expression is dropped.
    pub fn with_i32_mul(self) -> Result<Self, EncodeError>
        ensures { IsMade (self ++ instr_bytes (instr_view (Instruction.Numeric NumericOp.I32Mul))) (Unit {0}) result }
    {
        self.with_instruction(&Instruction::Numeric(NumericOp::I32Mul))
    }

    /// `i64.add` at the end; refused, the expression is dropped.
    pub fn with_i64_add(self) -> Result<Self, EncodeError>
        ensures { IsMade (self ++ instr_bytes (instr_view (Instruction.Numeric NumericOp.I64Add))) (Unit {0}) result }
    {
        self.with_instruction(&Instruction::Numeric(NumericOp::I64Add))
    }

    /// `i64.sub` at the end; refused, the expression is dropped.
    pub fn with_i64_sub(self) -> Result<Self, EncodeError>
        ensures { IsMade (self ++ instr_bytes (instr_view (Instruction.Numeric NumericOp.I64Sub))) (Unit {0}) result }
    {
        self.with_instruction(&Instruction::Numeric(NumericOp::I64Sub))
    }

    /// `i64.mul` at the end; refused, the expression is dropped.
    pub fn with_i64_mul(self) -> Result<Self, EncodeError>
        ensures { IsMade (self ++ instr_bytes (instr_view (Instruction.Numeric NumericOp.I64Mul))) (Unit {0}) result }
    {
        self.with_instruction(&Instruction::Numeric(NumericOp::I64Mul))
    }
}

/// The index at the front of the bytes.
fn index_at(bytes: &[u8]) -> Option<u32>
    ensures found { IfSome result (λ index. StandsInFront (uleb index) bytes.now) }
    ensures none { IfNone result ((n : ℕ) → n < 2 ^ 32 → StandsInFront (uleb n) bytes.now → ⊥) }
{
    let (index, _) = read_u32(bytes)?;
    Some(index)
}

/// The items' spellings, one after another.
fn spelled<T: Encode>(alloc: Global, items: &[T]) -> Result<Vec<u8>, EncodeError>
    requires { All T.can_encode items.now }
    ensures ok { IfOk result (λ bytes. bytes.items ≡ flat_map T.spelling items.now) }
    ensures fits { OnOk result (All T.fits items.now) }
    ensures too_large { IsErrOf result EncodeError.TooLarge → All T.fits items.now → ⊥ }
{
    let mut bytes = Vec::new(alloc);
    for item in items {
        item.encode(&mut bytes)?;
    }
    Ok(bytes)
}
