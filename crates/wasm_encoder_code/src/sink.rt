ghost use Rattle.std.specs.Prelude.{◌≡◌};
ghost use Rattle.std.specs.Borrow.{sem};
ghost use Rattle.wasm_encoder_base.specs.Instr.{instr_bytes};
ghost use Rattle.wasm_encoder_instr.specs.Instruction.{instr_view, can_encode_instr, fits_instr};
ghost use Rattle.wasm_encoder_code.specs.Sink.{Appends, RestsUnchanged, bytes_in};

use wasm_encoder_base::{Encode, EncodeError, HeapType, Ieee32, Ieee64};
use wasm_encoder_instr::{BlockType, GcOp, Instruction, NumericOp, VectorArgOp};

/// Appends instructions to a vector of bytes; its calls chain. A refused call leaves the vector as it was; none but
/// [`instruction`](InstructionSink::instruction) is refused as too large.
#[derive(Debug, Drop)]
pub struct InstructionSink<'a> {
    sink: &'a mut Vec<u8>,
}

impl<'a> InstructionSink<'a> {
    /// A sink that appends to this vector.
    pub fn new(sink: &'a mut Vec<u8>) -> InstructionSink<'a>
        ensures value { bytes_in result ≡ sink.old.items }
        ensures same_reference { result.sink.ghost_name ≡ sink.entry.ghost_name }
    {
        InstructionSink { sink }
    }

    /// Appends the instruction's bytes. One with a memory argument is one that [`can_encode`](Instruction::can_encode): its
    /// `align` is below 16. Refused for want of memory, and as too large where a count in it is past 4294967295; the bytes are
    /// unchanged then.
    pub fn instruction(self, instruction: &Instruction) -> Result<Self, EncodeError>
        requires { can_encode_instr instruction.now }
        ensures* refused { sem 𝓛 (RestsUnchanged self.entry result) }
        ensures appended { Appends (instr_bytes (instr_view instruction.now)) (fits_instr instruction.now) self.entry result }
    {
        let InstructionSink { sink } = self;
        instruction.encode(sink)?;
        Ok(InstructionSink { sink })
    }

    /// `unreachable`
    pub fn unreachable(self) -> Result<Self, EncodeError>
        ensures* refused { sem 𝓛 (RestsUnchanged self.entry result) }
        ensures appended { Appends (instr_bytes (instr_view (Instruction.Unreachable))) (Unit {0}) self.entry result }
    {
        self.instruction(&Instruction::Unreachable)
    }

    /// `nop`
    pub fn nop(self) -> Result<Self, EncodeError>
        ensures* refused { sem 𝓛 (RestsUnchanged self.entry result) }
        ensures appended { Appends (instr_bytes (instr_view (Instruction.Nop))) (Unit {0}) self.entry result }
    {
        self.instruction(&Instruction::Nop)
    }

    /// `block`
    pub fn block(self, block_type: BlockType) -> Result<Self, EncodeError>
        ensures* refused { sem 𝓛 (RestsUnchanged self.entry result) }
        ensures appended { Appends (instr_bytes (instr_view (Instruction.Block block_type))) (Unit {0}) self.entry result }
    {
        self.instruction(&Instruction::Block(block_type))
    }

    /// `loop`
    pub fn loop_(self, block_type: BlockType) -> Result<Self, EncodeError>
        ensures* refused { sem 𝓛 (RestsUnchanged self.entry result) }
        ensures appended { Appends (instr_bytes (instr_view (Instruction.Loop block_type))) (Unit {0}) self.entry result }
    {
        self.instruction(&Instruction::Loop(block_type))
    }

    /// `if`
    pub fn if_(self, block_type: BlockType) -> Result<Self, EncodeError>
        ensures* refused { sem 𝓛 (RestsUnchanged self.entry result) }
        ensures appended { Appends (instr_bytes (instr_view (Instruction.If block_type))) (Unit {0}) self.entry result }
    {
        self.instruction(&Instruction::If(block_type))
    }

    /// `else`
    pub fn else_(self) -> Result<Self, EncodeError>
        ensures* refused { sem 𝓛 (RestsUnchanged self.entry result) }
        ensures appended { Appends (instr_bytes (instr_view (Instruction.Else))) (Unit {0}) self.entry result }
    {
        self.instruction(&Instruction::Else)
    }

    /// `end`
    pub fn end(self) -> Result<Self, EncodeError>
        ensures* refused { sem 𝓛 (RestsUnchanged self.entry result) }
        ensures appended { Appends (instr_bytes (instr_view (Instruction.End))) (Unit {0}) self.entry result }
    {
        self.instruction(&Instruction::End)
    }

    /// `br`: label 0 is of the innermost block.
    pub fn br(self, label: u32) -> Result<Self, EncodeError>
        ensures* refused { sem 𝓛 (RestsUnchanged self.entry result) }
        ensures appended { Appends (instr_bytes (instr_view (Instruction.Br label))) (Unit {0}) self.entry result }
    {
        self.instruction(&Instruction::Br(label))
    }

    /// `br_if`: label 0 is of the innermost block.
    pub fn br_if(self, label: u32) -> Result<Self, EncodeError>
        ensures* refused { sem 𝓛 (RestsUnchanged self.entry result) }
        ensures appended { Appends (instr_bytes (instr_view (Instruction.BrIf label))) (Unit {0}) self.entry result }
    {
        self.instruction(&Instruction::BrIf(label))
    }

    /// `return`
    pub fn return_(self) -> Result<Self, EncodeError>
        ensures* refused { sem 𝓛 (RestsUnchanged self.entry result) }
        ensures appended { Appends (instr_bytes (instr_view (Instruction.Return))) (Unit {0}) self.entry result }
    {
        self.instruction(&Instruction::Return)
    }

    /// `call`
    pub fn call(self, function: u32) -> Result<Self, EncodeError>
        ensures* refused { sem 𝓛 (RestsUnchanged self.entry result) }
        ensures appended { Appends (instr_bytes (instr_view (Instruction.Call function))) (Unit {0}) self.entry result }
    {
        self.instruction(&Instruction::Call(function))
    }

    /// `drop`
    pub fn drop(self) -> Result<Self, EncodeError>
        ensures* refused { sem 𝓛 (RestsUnchanged self.entry result) }
        ensures appended { Appends (instr_bytes (instr_view (Instruction.Drop))) (Unit {0}) self.entry result }
    {
        self.instruction(&Instruction::Drop)
    }

    /// `select`
    pub fn select(self) -> Result<Self, EncodeError>
        ensures* refused { sem 𝓛 (RestsUnchanged self.entry result) }
        ensures appended { Appends (instr_bytes (instr_view (Instruction.Select))) (Unit {0}) self.entry result }
    {
        self.instruction(&Instruction::Select)
    }

    /// `local.get`
    pub fn local_get(self, local: u32) -> Result<Self, EncodeError>
        ensures* refused { sem 𝓛 (RestsUnchanged self.entry result) }
        ensures appended { Appends (instr_bytes (instr_view (Instruction.LocalGet local))) (Unit {0}) self.entry result }
    {
        self.instruction(&Instruction::LocalGet(local))
    }

    /// `local.set`
    pub fn local_set(self, local: u32) -> Result<Self, EncodeError>
        ensures* refused { sem 𝓛 (RestsUnchanged self.entry result) }
        ensures appended { Appends (instr_bytes (instr_view (Instruction.LocalSet local))) (Unit {0}) self.entry result }
    {
        self.instruction(&Instruction::LocalSet(local))
    }

    /// `local.tee`
    pub fn local_tee(self, local: u32) -> Result<Self, EncodeError>
        ensures* refused { sem 𝓛 (RestsUnchanged self.entry result) }
        ensures appended { Appends (instr_bytes (instr_view (Instruction.LocalTee local))) (Unit {0}) self.entry result }
    {
        self.instruction(&Instruction::LocalTee(local))
    }

    /// `global.get`
    pub fn global_get(self, global: u32) -> Result<Self, EncodeError>
        ensures* refused { sem 𝓛 (RestsUnchanged self.entry result) }
        ensures appended { Appends (instr_bytes (instr_view (Instruction.GlobalGet global))) (Unit {0}) self.entry result }
    {
        self.instruction(&Instruction::GlobalGet(global))
    }

    /// `global.set`
    pub fn global_set(self, global: u32) -> Result<Self, EncodeError>
        ensures* refused { sem 𝓛 (RestsUnchanged self.entry result) }
        ensures appended { Appends (instr_bytes (instr_view (Instruction.GlobalSet global))) (Unit {0}) self.entry result }
    {
        self.instruction(&Instruction::GlobalSet(global))
    }

    /// `ref.null`
    pub fn ref_null(self, heap_type: HeapType) -> Result<Self, EncodeError>
        ensures* refused { sem 𝓛 (RestsUnchanged self.entry result) }
        ensures appended { Appends (instr_bytes (instr_view (Instruction.Gc (GcOp.RefNull heap_type)))) (Unit {0}) self.entry result }
    {
        self.instruction(&Instruction::Gc(GcOp::RefNull(heap_type)))
    }

    /// `ref.func`
    pub fn ref_func(self, function: u32) -> Result<Self, EncodeError>
        ensures* refused { sem 𝓛 (RestsUnchanged self.entry result) }
        ensures appended { Appends (instr_bytes (instr_view (Instruction.Gc (GcOp.RefFunc function)))) (Unit {0}) self.entry result }
    {
        self.instruction(&Instruction::Gc(GcOp::RefFunc(function)))
    }

    /// `i32.const`
    pub fn i32_const(self, value: i32) -> Result<Self, EncodeError>
        ensures* refused { sem 𝓛 (RestsUnchanged self.entry result) }
        ensures appended { Appends (instr_bytes (instr_view (Instruction.I32Const value))) (Unit {0}) self.entry result }
    {
        self.instruction(&Instruction::I32Const(value))
    }

    /// `i64.const`
    pub fn i64_const(self, value: i64) -> Result<Self, EncodeError>
        ensures* refused { sem 𝓛 (RestsUnchanged self.entry result) }
        ensures appended { Appends (instr_bytes (instr_view (Instruction.I64Const value))) (Unit {0}) self.entry result }
    {
        self.instruction(&Instruction::I64Const(value))
    }

    /// `f32.const`
    pub fn f32_const(self, value: Ieee32) -> Result<Self, EncodeError>
        ensures* refused { sem 𝓛 (RestsUnchanged self.entry result) }
        ensures appended { Appends (instr_bytes (instr_view (Instruction.F32Const value))) (Unit {0}) self.entry result }
    {
        self.instruction(&Instruction::F32Const(value))
    }

    /// `f64.const`
    pub fn f64_const(self, value: Ieee64) -> Result<Self, EncodeError>
        ensures* refused { sem 𝓛 (RestsUnchanged self.entry result) }
        ensures appended { Appends (instr_bytes (instr_view (Instruction.F64Const value))) (Unit {0}) self.entry result }
    {
        self.instruction(&Instruction::F64Const(value))
    }

    /// `v128.const`: 16 bytes, the lowest first.
    pub fn v128_const(self, value: i128) -> Result<Self, EncodeError>
        ensures* refused { sem 𝓛 (RestsUnchanged self.entry result) }
        ensures appended { Appends (instr_bytes (instr_view (Instruction.VectorArg (VectorArgOp.V128Const value)))) (Unit {0}) self.entry result }
    {
        self.instruction(&Instruction::VectorArg(VectorArgOp::V128Const(value)))
    }

    /// `i32.add`
    pub fn i32_add(self) -> Result<Self, EncodeError>
        ensures* refused { sem 𝓛 (RestsUnchanged self.entry result) }
        ensures appended { Appends (instr_bytes (instr_view (Instruction.Numeric NumericOp.I32Add))) (Unit {0}) self.entry result }
    {
        self.instruction(&Instruction::Numeric(NumericOp::I32Add))
    }

    /// `i32.sub`
    pub fn i32_sub(self) -> Result<Self, EncodeError>
        ensures* refused { sem 𝓛 (RestsUnchanged self.entry result) }
        ensures appended { Appends (instr_bytes (instr_view (Instruction.Numeric NumericOp.I32Sub))) (Unit {0}) self.entry result }
    {
        self.instruction(&Instruction::Numeric(NumericOp::I32Sub))
    }

    /// `i32.mul`
    pub fn i32_mul(self) -> Result<Self, EncodeError>
        ensures* refused { sem 𝓛 (RestsUnchanged self.entry result) }
        ensures appended { Appends (instr_bytes (instr_view (Instruction.Numeric NumericOp.I32Mul))) (Unit {0}) self.entry result }
    {
        self.instruction(&Instruction::Numeric(NumericOp::I32Mul))
    }

    /// `i64.add`
    pub fn i64_add(self) -> Result<Self, EncodeError>
        ensures* refused { sem 𝓛 (RestsUnchanged self.entry result) }
        ensures appended { Appends (instr_bytes (instr_view (Instruction.Numeric NumericOp.I64Add))) (Unit {0}) self.entry result }
    {
        self.instruction(&Instruction::Numeric(NumericOp::I64Add))
    }

    /// `i64.sub`
    pub fn i64_sub(self) -> Result<Self, EncodeError>
        ensures* refused { sem 𝓛 (RestsUnchanged self.entry result) }
        ensures appended { Appends (instr_bytes (instr_view (Instruction.Numeric NumericOp.I64Sub))) (Unit {0}) self.entry result }
    {
        self.instruction(&Instruction::Numeric(NumericOp::I64Sub))
    }

    /// `i64.mul`
    pub fn i64_mul(self) -> Result<Self, EncodeError>
        ensures* refused { sem 𝓛 (RestsUnchanged self.entry result) }
        ensures appended { Appends (instr_bytes (instr_view (Instruction.Numeric NumericOp.I64Mul))) (Unit {0}) self.entry result }
    {
        self.instruction(&Instruction::Numeric(NumericOp::I64Mul))
    }
}
