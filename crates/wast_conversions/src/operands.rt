//! Operands.
ghost use Rattle.std.specs.Prelude.{◌≡◌, ◌^◌, ◌<◌, [], map, option_map, unwrap_or};
ghost use Rattle.std.specs.List.{flat_map, AllByRecursion};
ghost use Rattle.std.specs.Int.{w128, cast_unsigned};
ghost use Rattle.wasm_encoder_base.specs.Instr as binary;
ghost use Rattle.wasm_encoder_base.specs.Instr.{in_range, IsBlockType, IsCatch, IsMemArg};
ghost use Rattle.wasm_encoder_instr.specs.Block.{block_view};
ghost use Rattle.wasm_encoder_instr.specs.Catch.{catch_view};
ghost use Rattle.wasm_encoder_instr.specs.MemArg.{memory_view, mem_arg_view};
ghost use Rattle.wasm_encoder_instr.specs.Ordering.{ordering_bytes};
ghost use Rattle.wasm_layout.specs.IsModule.{IsU32, IsU64};
ghost use Rattle.wast_parser.specs.Identifiers.{index_tree};
ghost use Rattle.wast_signatures.specs.SignatureViews.{sig_tree};
ghost use Rattle.wast_value_types.specs.ValueViews.{val_tree};
ghost use Rattle.wast_vector_operands.specs.VectorViews.{vector_tree};
ghost use Rattle.wast_operands.specs.OperandViews.{table_arg_tree, memory_arg_tree, mem_arg_tree, target_tree, ordering_tree};
ghost use Rattle.wast_typed_operands.specs.TypedViews.{block_tree, catch_tree};
ghost use Rattle.wast_conversions.specs.Types.{number_of};
ghost use Rattle.wast_conversions.specs.Operands.{IsPower, logarithm, vector_meant, optional_meant, results_meant, inline_meant, block_meant, catch_meant, target_meant, mem_arg_meant, ordering_meant};
ghost use Rattle.wast_conversions.specs.Resolved.{IsNumber, IfThere, ResultsResolved, ShortResolved, BlockResolved, CatchResolved, TargetResolved, MemArgResolved};
ghost use Rattle.wast_conversions.specs.Covered.{val_forms, inline_forms, use_forms, vector_forms, target_forms, mem_arg_forms};

use crate::indices::{index, optional_index};
use crate::types::val_type;
use wasm_encoder_instr::Lane;
use wast_operands::{
    ArrayFill, I8x16Shuffle, LaneArg, MemArg, MemArgTarget, MemoryArg, Ordering, TableArg,
    V128Const,
};
use wast_signatures::FunctionType;
use wast_typed_operands::{BlockType, TryTableCatch, TryTableCatchKind};
use wast_value_types::ValType;

/// The number of a table that may be left out, and is 0 then (6.5, table instructions).
pub fn table_arg(arg: &TableArg<'_>) -> u32
    requires { IfThere IsNumber (table_arg_tree arg.now) }
    ensures same { result ≡ optional_meant (table_arg_tree arg.now) }
    ensures sound { IsU32 (optional_meant (table_arg_tree arg.now)) }
{
    optional_index(&arg.dst)
}

/// The number of a memory that may be left out, and is 0 then (6.5, memory instructions).
pub fn memory_arg(arg: &MemoryArg<'_>) -> u32
    requires { IfThere IsNumber (memory_arg_tree arg.now) }
    ensures same { result ≡ optional_meant (memory_arg_tree arg.now) }
    ensures sound { IsU32 (optional_meant (memory_arg_tree arg.now)) }
{
    optional_index(&arg.mem)
}

/// The number of the array type that is filled (6.5, aggregate instructions).
pub fn array_fill(fill: &ArrayFill<'_>) -> u32
    requires { IsNumber (index_tree fill.now.array) }
    ensures same { result ≡ number_of (index_tree fill.now.array) }
    ensures sound { IsU32 (number_of (index_tree fill.now.array)) }
{
    index(&fill.array)
}

/// The number of a lane (6.5, vector instructions).
pub fn lane_arg(arg: LaneArg) -> Lane
    ensures same { result ≡ arg.lane }
    ensures sound { in_range (binary.Lane arg.lane) }
{
    arg.lane
}

/// The numbers of the lanes that a shuffle takes (6.5, vector instructions), in order.
pub fn shuffle(lanes: &I8x16Shuffle) -> [Lane; 16]
    ensures same { result ≡ lanes.now.lanes }
    ensures sound { in_range (binary.Shuffle lanes.now.lanes) }
{
    lanes_in_range(&lanes.lanes);
    lanes.lanes
}

/// Lanes are numbers of 8 bits.
fn lanes_in_range(lanes: &[Lane])
    ensures { AllByRecursion (λ n. n < 256) lanes.now }
{}

/// The number of 128 bits that a constant of them (6.5, vector instructions) is, whose lanes are integers: its lanes' bytes are its own,
/// the low one first.
pub fn v128_const(value: &V128Const<'_>) -> i128
    requires { vector_forms (vector_tree value.now) ≡ [] }
    ensures same { cast_unsigned w128 result ≡ vector_meant (vector_tree value.now) }
    ensures sound { in_range (binary.V128 (vector_meant (vector_tree value.now))) }
{
    match value.to_le_bytes() {
        Some(bytes) => u128::from_le_bytes(bytes).cast_signed(),
        None => unreachable!(),
    }
}

/// The encoder's ordering that the ordering of an atomic instruction is.
pub fn ordering(ordering: Ordering) -> wasm_encoder_instr::Ordering
    ensures { ordering_bytes result ≡ ordering_meant (ordering_tree ordering) }
{
    match ordering {
        Ordering::SeqCst => wasm_encoder_instr::Ordering::SeqCst,
        Ordering::AcqRel => wasm_encoder_instr::Ordering::AcqRel,
    }
}

/// The encoder's memory argument that a memory argument (6.5, memory instructions) stands for: the number of its memory, its offset in
/// bytes, and the logarithm of its alignment. It can be encoded where the alignment, in bytes, is a power of two below 65536.
#[tactic(auto, using(crate::proofs::Empty::front, crate::proofs::Logarithms::logarithm_below, crate::proofs::Logarithms::logarithm_exact))]
pub fn mem_arg(arg: &MemArg<'_>) -> wasm_encoder_instr::MemArg
    requires resolved { MemArgResolved (mem_arg_tree arg.now) }
    requires covered { mem_arg_forms (mem_arg_tree arg.now) ≡ [] }
    ensures same { mem_arg_view result ≡ mem_arg_meant (mem_arg_tree arg.now) }
    ensures aligned { IsPower arg.now.align → result.align < 16 }
    ensures power { IsPower arg.now.align → 2 ^ result.align ≡ arg.now.align }
    ensures sound { IsPower arg.now.align → IsMemArg (mem_arg_meant (mem_arg_tree arg.now)) }
{
    wasm_encoder_instr::MemArg {
        offset: offset(arg),
        align: alignment_logarithm(arg.align),
        target: mem_arg_target(&arg.target),
    }
}

/// The logarithm of an alignment.
#[tactic(auto, unfolding(crate::specs::Operands::logarithm))]
fn alignment_logarithm(align: u64) -> u32
    ensures { result ≡ logarithm align }
{
    align.trailing_zeros()
}

/// The offset of a memory argument.
fn offset(arg: &MemArg<'_>) -> u64
    ensures same { result ≡ arg.now.offset }
    ensures sound { IsU64 arg.now.offset }
{
    arg.offset
}

/// The memory that a memory argument is of, 0 where none is written.
fn mem_arg_target(target: &Option<Box<MemArgTarget<'_>>>) -> wasm_encoder_instr::MemArgTarget
    requires resolved { IfThere TargetResolved (option_map (λ t. target_tree t.value) target.now) }
    requires covered { target_forms (option_map (λ t. target_tree t.value) target.now) ≡ [] }
    ensures same { memory_view result ≡ unwrap_or (option_map target_meant (option_map (λ t. target_tree t.value) target.now)) 0 }
    ensures sound { IsU32 (unwrap_or (option_map target_meant (option_map (λ t. target_tree t.value) target.now)) 0) }
{
    match target {
        None => wasm_encoder_instr::MemArgTarget::Memory(0),
        Some(target) => match &**target {
            MemArgTarget::Memory(memory) => wasm_encoder_instr::MemArgTarget::Memory(index(memory)),
            MemArgTarget::Array(_) => unreachable!(),
        },
    }
}

/// The encoder's type of a block that a block's type (6.5, control instructions) stands for: a type by its number, where the use has one;
/// else no result, or the one that is written.
pub fn block_type(ty: &BlockType<'_>) -> wasm_encoder_instr::BlockType
    requires resolved { BlockResolved (block_tree ty.now).type_use }
    requires covered { use_forms (block_tree ty.now).type_use ≡ [] }
    ensures same { block_view result ≡ block_meant (block_tree ty.now).type_use }
    ensures sound { IsBlockType (block_meant (block_tree ty.now).type_use) }
{
    match &ty.ty.index {
        Some(number) => wasm_encoder_instr::BlockType::FunctionType(index(number)),
        None => short_block(&ty.ty.inline),
    }
}

/// The type of a block without parameters and with one result at most.
#[tactic(auto, using(crate::proofs::Empty::front, crate::proofs::Empty::back))]
fn short_block(inline: &Option<FunctionType<'_>>) -> wasm_encoder_instr::BlockType
    requires resolved { ShortResolved (option_map sig_tree inline.now) }
    requires covered { inline_forms (option_map sig_tree inline.now) ≡ [] }
    ensures same { block_view result ≡ inline_meant (option_map sig_tree inline.now) }
    ensures sound { IsBlockType (inline_meant (option_map sig_tree inline.now)) }
{
    match inline {
        Some(ty) => results_type(&ty.results),
        None => wasm_encoder_instr::BlockType::Empty,
    }
}

/// The type of a block with no result or one.
#[tactic(auto, using(crate::proofs::Empty::front))]
fn results_type(results: &[ValType<'_>]) -> wasm_encoder_instr::BlockType
    requires resolved { ResultsResolved (map val_tree results.now) }
    requires covered { flat_map val_forms (map val_tree results.now) ≡ [] }
    ensures same { block_view result ≡ results_meant (map val_tree results.now) }
    ensures sound { IsBlockType (results_meant (map val_tree results.now)) }
{
    match results {
        [ty, ..] => wasm_encoder_instr::BlockType::Result(val_type(ty)),
        [] => wasm_encoder_instr::BlockType::Empty,
    }
}

/// The encoder's clause that a clause of a `try_table` (6.5, control instructions) stands for: the number of its label, and of its tag,
/// where it has one.
pub fn catch(clause: &TryTableCatch<'_>) -> wasm_encoder_instr::Catch
    requires { CatchResolved (catch_tree clause.now) }
    ensures same { catch_view result ≡ catch_meant (catch_tree clause.now) }
    ensures sound { IsCatch (catch_meant (catch_tree clause.now)) }
{
    let label = &clause.label;
    match &clause.kind {
        TryTableCatchKind::Catch(tag) => wasm_encoder_instr::Catch::One {
            tag: index(tag),
            label: index(label),
        },
        TryTableCatchKind::CatchRef(tag) => wasm_encoder_instr::Catch::OneRef {
            tag: index(tag),
            label: index(label),
        },
        TryTableCatchKind::CatchAll => wasm_encoder_instr::Catch::All {
            label: index(label),
        },
        TryTableCatchKind::CatchAllRef => wasm_encoder_instr::Catch::AllRef {
            label: index(label),
        },
    }
}
