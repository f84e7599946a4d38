//! Instructions, each by its word.
ghost use Rattle.std.specs.Prelude.{◌≡◌, ◌⊎◌, ℕ, Ok, Err, IfOk, IfErr};
ghost use Rattle.wast_typed_operands.specs.Tokens.{Name};
ghost use Rattle.wast_typed_operands.specs.Lawful.{Lawful};
ghost use Rattle.wast_typed_operands.specs.State.{ahead, Keeps};
ghost use Rattle.wast_typed_operands.specs.Reading.{Gives, out_of_memory};
ghost use Rattle.wast_mnemonics.specs.Words.{word_operands, proposal_operands};
ghost use Rattle.wast_mnemonics.specs.declared.word.Word.TheVariants as words;
ghost use Rattle.wast_mnemonics.specs.declared.proposal.ProposalWord.TheVariants as proposal_words;
ghost use Rattle.wast_core_instr.specs.InstructionTree as spec;
ghost use Rattle.wast_core_instr.specs.InstructionSyntax.{instruction, operands};
ghost use Rattle.wast_core_instr.specs.WordViews.{bulk_word, gc_word, instruction_word, proposal_word};
ghost use Rattle.wast_core_instr.specs.InstructionViews.{instruction_operands, instruction_tree};
ghost use Rattle.wast_core_instr.specs.InstructionViews as views;

use crate::bulk::BulkOp;
use crate::compose::{
    index_proposal, indices_proposal, ordered_index, ordered_indices, ordered_optional_index,
    plain, plain_proposal, with_block, with_call, with_index, with_indices, with_label, with_lane,
    with_memarg, with_memarg_lane, with_optional_index,
};
use crate::gc::GcOp;
use crate::instruction::Instruction;
use crate::proposal::ProposalOp;
use crate::vector_arg::VectorArgOp;
use std::alloc::Global;
use wast_mnemonics::{
    BlockWord, CastProposal, CastWord, CopyWord, IndexWord, IndicesProposal, IndicesWord, InitWord,
    MemoryLaneWord, MemoryWord, NameWord, ProposalWord, RefWord, ResumeProposal, Word,
};
use wast_operands::{
    FloatLit, LoadOrStoreLane, MemArg, MemoryArg, MemoryCopy, Resume, ResumeThrow, ResumeThrowRef,
    TableCopy,
};
use wast_typed_operands::{
    Error, Index, Meaning, Parse, Parser, RefCastDescEq, SelectTypes, TryTable, pair,
};

impl<'a> Meaning for Instruction<'a> {
    ghost Tree = { spec.Instruction Name ℕ };

    ghost tree = { instruction_tree };

    ghost syntax = { instruction };

    fn lawful()
        ensures { Lawful (instruction {N = Name} {P = ℕ}) }
    {}
}

impl<'a> Parse<'a> for Instruction<'a> {
    fn parse(parser: &mut Parser<'a>) -> Result<Self, Error> {
        match parser.among("expected an instruction") {
            Ok((word, _)) => parse_operands(parser, word),
            Err(e) => Err(e),
        }
    }
}

/// Reads the instruction of a word, with the operands of its row. What is met often has a function of its own: one that held what all
/// of them need would set it to zero for each instruction.
fn parse_operands<'a>(parser: &mut Parser<'a>, word: Word) -> Result<Instruction<'a>, Error>
    ensures read { Gives instruction_operands result parser.new ((operands (word_operands word)).reads (ahead parser.old)) }
    ensures same { IfOk result (λ i. instruction_word i ≡ word) }
    ensures keeps { Keeps parser.old parser.new }
{
    match word {
        Word::Plain(word) => Ok(plain(word)),
        Word::Name(word) => parse_label(parser, word),
        Word::Block(word) => parse_block(parser, word),
        Word::Index(word) => parse_index(parser, word),
        Word::I32Const => parse_i32_const(parser),
        Word::I64Const => parse_i64_const(parser),
        Word::Memory(word) => parse_memory(parser, word),
        word => parse_seldom(parser, word),
    }
}

/// The same of every word, for those that are met seldom: what their operands need is set to zero here alone.
#[inline(never)]
fn parse_seldom<'a>(parser: &mut Parser<'a>, word: Word) -> Result<Instruction<'a>, Error>
    ensures read { Gives instruction_operands result parser.new ((operands (word_operands word)).reads (ahead parser.old)) }
    ensures same { IfOk result (λ i. instruction_word i ≡ word) }
    ensures keeps { Keeps parser.old parser.new }
{
    match word {
        Word::Plain(word) => Ok(plain(word)),
        Word::Name(word) => parse_label(parser, word),
        Word::Block(word) => parse_block(parser, word),
        Word::TryTable => TryTable::parse(parser).map(Instruction::TryTable),
        Word::Index(word) => parse_index(parser, word),
        Word::Indices(word) => parse_indices(parser, word),
        Word::ArrayNewFixed => Ok(Instruction::Gc(GcOp::ArrayNewFixed(Box::parse(parser)?))),
        Word::BrTable => Box::parse(parser).map(Instruction::BrTable),
        Word::Indirect(word) => Ok(with_call(word, Box::parse(parser)?)),
        Word::OptionalIndex(word) => Ok(with_optional_index(word, Option::parse(parser)?)),
        Word::Copy(word) => parse_copy(parser, word).map(Instruction::Bulk),
        Word::Init(word) => parse_init(parser, word).map(Instruction::Bulk),
        Word::RefNull => Ok(Instruction::Gc(GcOp::RefNull(Box::parse(parser)?))),
        Word::Ref(word) => parse_ref(parser, word).map(Instruction::Gc),
        Word::Cast(word) => parse_cast(parser, word).map(Instruction::Gc),
        Word::I32Const => parse_i32_const(parser),
        Word::I64Const => parse_i64_const(parser),
        Word::F32Const => FloatLit::parse(parser).map(Instruction::F32Const),
        Word::F64Const => FloatLit::parse(parser).map(Instruction::F64Const),
        Word::V128Const => Ok(Instruction::VectorArg(VectorArgOp::V128Const(Box::parse(parser)?))),
        Word::Select => SelectTypes::parse(parser).map(Instruction::Select),
        Word::Lane(word) => Ok(with_lane(word, Parse::parse(parser)?)),
        Word::I8x16Shuffle => Ok(Instruction::VectorArg(VectorArgOp::I8x16Shuffle(Parse::parse(
            parser,
        )?))),
        Word::Memory(word) => parse_memory(parser, word),
        Word::MemoryLane(word) => parse_memory_lane(parser, word),
        Word::AtomicFence => Ok(Instruction::AtomicFence(Option::parse(parser)?)),
        Word::Proposal(word) => parse_boxed_proposal(parser, word),
    }
}

#[inline(never)]
fn parse_label<'a>(parser: &mut Parser<'a>, word: NameWord) -> Result<Instruction<'a>, Error>
    ensures read { Gives instruction_operands result parser.new ((operands (word_operands (words.Name word))).reads (ahead parser.old)) }
    ensures same { IfOk result (λ i. instruction_word i ≡ words.Name word) }
    ensures keeps { Keeps parser.old parser.new }
{
    Ok(with_label(word, Option::parse(parser)?))
}

#[inline(never)]
fn parse_block<'a>(parser: &mut Parser<'a>, word: BlockWord) -> Result<Instruction<'a>, Error>
    ensures read { Gives instruction_operands result parser.new ((operands (word_operands (words.Block word))).reads (ahead parser.old)) }
    ensures same { IfOk result (λ i. instruction_word i ≡ words.Block word) }
    ensures keeps { Keeps parser.old parser.new }
{
    match Box::parse(parser) {
        Ok(block_type) => Ok(with_block(word, block_type)),
        Err(e) => Err(e),
    }
}

#[inline(never)]
fn parse_index<'a>(parser: &mut Parser<'a>, word: IndexWord) -> Result<Instruction<'a>, Error>
    ensures read { Gives instruction_operands result parser.new ((operands (word_operands (words.Index word))).reads (ahead parser.old)) }
    ensures same { IfOk result (λ i. instruction_word i ≡ words.Index word) }
    ensures keeps { Keeps parser.old parser.new }
{
    match Index::parse(parser) {
        Ok(index) => Ok(with_index(word, index)),
        Err(e) => Err(e),
    }
}

#[inline(never)]
fn parse_i32_const<'a>(parser: &mut Parser<'a>) -> Result<Instruction<'a>, Error>
    ensures read { Gives instruction_operands result parser.new ((operands (word_operands words.I32Const)).reads (ahead parser.old)) }
    ensures same { IfOk result (λ i. instruction_word i ≡ words.I32Const) }
    ensures keeps { Keeps parser.old parser.new }
{
    match i32::parse(parser) {
        Ok(value) => Ok(Instruction::I32Const(value)),
        Err(e) => Err(e),
    }
}

#[inline(never)]
fn parse_i64_const<'a>(parser: &mut Parser<'a>) -> Result<Instruction<'a>, Error>
    ensures read { Gives instruction_operands result parser.new ((operands (word_operands words.I64Const)).reads (ahead parser.old)) }
    ensures same { IfOk result (λ i. instruction_word i ≡ words.I64Const) }
    ensures keeps { Keeps parser.old parser.new }
{
    match i64::parse(parser) {
        Ok(value) => Ok(Instruction::I64Const(value)),
        Err(e) => Err(e),
    }
}

#[inline(never)]
fn parse_memory<'a>(parser: &mut Parser<'a>, word: MemoryWord) -> Result<Instruction<'a>, Error>
    ensures read { Gives instruction_operands result parser.new ((operands (word_operands (words.Memory word))).reads (ahead parser.old)) }
    ensures same { IfOk result (λ i. instruction_word i ≡ words.Memory word) }
    ensures keeps { Keeps parser.old parser.new }
{
    let memarg = MemArg::parse(parser, u64::from(word.natural_alignment()))?;
    Ok(with_memarg(word, memarg))
}

fn parse_indices<'a>(parser: &mut Parser<'a>, word: IndicesWord) -> Result<Instruction<'a>, Error>
    ensures read { Gives instruction_operands result parser.new ((operands (word_operands (words.Indices word))).reads (ahead parser.old)) }
    ensures same { IfOk result (λ i. instruction_word i ≡ words.Indices word) }
    ensures keeps { Keeps parser.old parser.new }
{
    let (first, second) = pair(parser)?;
    Ok(with_indices(parser.alloc(), word, first, second)?)
}

fn parse_copy<'a>(parser: &mut Parser<'a>, word: CopyWord) -> Result<BulkOp<'a>, Error>
    ensures read { Gives views.bulk_operands result parser.new ((operands (word_operands (words.Copy word))).reads (ahead parser.old)) }
    ensures same { IfOk result (λ op. bulk_word op ≡ words.Copy word) }
    ensures keeps { Keeps parser.old parser.new }
{
    match word {
        CopyWord::MemoryCopy => MemoryCopy::parse(parser).map(BulkOp::MemoryCopy),
        CopyWord::TableCopy => TableCopy::parse(parser).map(BulkOp::TableCopy),
    }
}

fn parse_init<'a>(parser: &mut Parser<'a>, word: InitWord) -> Result<BulkOp<'a>, Error>
    ensures read { Gives views.bulk_operands result parser.new ((operands (word_operands (words.Init word))).reads (ahead parser.old)) }
    ensures same { IfOk result (λ op. bulk_word op ≡ words.Init word) }
    ensures keeps { Keeps parser.old parser.new }
{
    match word {
        InitWord::MemoryInit => Box::parse(parser).map(BulkOp::MemoryInit),
        InitWord::TableInit => Box::parse(parser).map(BulkOp::TableInit),
    }
}

fn parse_ref<'a>(parser: &mut Parser<'a>, word: RefWord) -> Result<GcOp<'a>, Error>
    ensures read { Gives views.gc_operands result parser.new ((operands (word_operands (words.Ref word))).reads (ahead parser.old)) }
    ensures same { IfOk result (λ op. gc_word op ≡ words.Ref word) }
    ensures keeps { Keeps parser.old parser.new }
{
    match word {
        RefWord::RefTest => Box::parse(parser).map(GcOp::RefTest),
        RefWord::RefCast => Box::parse(parser).map(GcOp::RefCast),
    }
}

fn parse_cast<'a>(parser: &mut Parser<'a>, word: CastWord) -> Result<GcOp<'a>, Error>
    ensures read { Gives views.gc_operands result parser.new ((operands (word_operands (words.Cast word))).reads (ahead parser.old)) }
    ensures same { IfOk result (λ op. gc_word op ≡ words.Cast word) }
    ensures keeps { Keeps parser.old parser.new }
{
    match word {
        CastWord::BrOnCast => Box::parse(parser).map(GcOp::BrOnCast),
        CastWord::BrOnCastFail => Box::parse(parser).map(GcOp::BrOnCastFail),
    }
}

fn parse_memory_lane<'a>(
    parser: &mut Parser<'a>,
    word: MemoryLaneWord,
) -> Result<Instruction<'a>, Error>
    ensures read { Gives instruction_operands result parser.new ((operands (word_operands (words.MemoryLane word))).reads (ahead parser.old)) }
    ensures same { IfOk result (λ i. instruction_word i ≡ words.MemoryLane word) }
    ensures keeps { Keeps parser.old parser.new }
{
    match LoadOrStoreLane::parse(parser, u64::from(word.natural_alignment())) {
        Ok(operands) => Ok(with_memarg_lane(word, operands)),
        Err(e) => Err(e),
    }
}

fn parse_boxed_proposal<'a>(
    parser: &mut Parser<'a>,
    word: ProposalWord,
) -> Result<Instruction<'a>, Error>
    ensures read { Gives instruction_operands result parser.new ((operands (word_operands (words.Proposal word))).reads (ahead parser.old)) }
    ensures same { IfOk result (λ i. instruction_word i ≡ words.Proposal word) }
    ensures keeps { Keeps parser.old parser.new }
{
    let alloc = parser.alloc();
    in_box(alloc, parse_proposal(parser, word)).map(Instruction::Proposal)
}

/// What was read, in a box.
fn in_box<T: Drop>(alloc: Global, answer: Result<T, Error>) -> Result<Box<T>, Error>
    ensures boxed { IfOk result (λ b. answer ≡ Ok b.value) }
    ensures refused { IfErr result (λ p. (p ≡ out_of_memory) ⊎ (answer ≡ Err p)) }
{
    Ok(Box::new(alloc, answer?)?)
}

fn parse_proposal<'a>(parser: &mut Parser<'a>, word: ProposalWord) -> Result<ProposalOp<'a>, Error>
    ensures read { Gives views.proposal_operands result parser.new ((operands (word_operands (words.Proposal word))).reads (ahead parser.old)) }
    ensures same { IfOk result (λ op. proposal_word op ≡ words.Proposal word) }
    ensures keeps { Keeps parser.old parser.new }
{
    match word {
        ProposalWord::Plain(word) => Ok(plain_proposal(word)),
        ProposalWord::Index(word) => Ok(index_proposal(word, Index::parse(parser)?)),
        ProposalWord::Indices(word) => parse_proposal_indices(parser, word),
        ProposalWord::MemoryDiscard => MemoryArg::parse(parser).map(ProposalOp::MemoryDiscard),
        ProposalWord::RefCastDescEq => RefCastDescEq::parse(parser).map(ProposalOp::RefCastDescEq),
        ProposalWord::Cast(word) => parse_proposal_cast(parser, word),
        ProposalWord::Resume(word) => parse_resume(parser, word),
        ProposalWord::ResumeThrow => ResumeThrow::parse(parser).map(ProposalOp::ResumeThrow),
        ProposalWord::OrderedIndex(word) => Ok(ordered_index(word, Parse::parse(parser)?)),
        ProposalWord::OrderedOptionalIndex(word) => Ok(ordered_optional_index(
            word,
            Parse::parse(parser)?,
        )),
        ProposalWord::OrderedIndices(word) => Ok(ordered_indices(word, Parse::parse(parser)?)),
    }
}

fn parse_proposal_indices<'a>(
    parser: &mut Parser<'a>,
    word: IndicesProposal,
) -> Result<ProposalOp<'a>, Error>
    ensures read { Gives views.proposal_operands result parser.new ((operands (proposal_operands (proposal_words.Indices word))).reads (ahead parser.old)) }
    ensures same { IfOk result (λ op. proposal_word op ≡ words.Proposal (proposal_words.Indices word)) }
    ensures keeps { Keeps parser.old parser.new }
{
    let (first, second) = pair(parser)?;
    Ok(indices_proposal(word, first, second))
}

fn parse_proposal_cast<'a>(
    parser: &mut Parser<'a>,
    word: CastProposal,
) -> Result<ProposalOp<'a>, Error>
    ensures read { Gives views.proposal_operands result parser.new ((operands (proposal_operands (proposal_words.Cast word))).reads (ahead parser.old)) }
    ensures same { IfOk result (λ op. proposal_word op ≡ words.Proposal (proposal_words.Cast word)) }
    ensures keeps { Keeps parser.old parser.new }
{
    match word {
        CastProposal::BrOnCastDescEq => Box::parse(parser).map(ProposalOp::BrOnCastDescEq),
        CastProposal::BrOnCastDescEqFail => Box::parse(parser).map(ProposalOp::BrOnCastDescEqFail),
    }
}

fn parse_resume<'a>(parser: &mut Parser<'a>, word: ResumeProposal) -> Result<ProposalOp<'a>, Error>
    ensures read { Gives views.proposal_operands result parser.new ((operands (proposal_operands (proposal_words.Resume word))).reads (ahead parser.old)) }
    ensures same { IfOk result (λ op. proposal_word op ≡ words.Proposal (proposal_words.Resume word)) }
    ensures keeps { Keeps parser.old parser.new }
{
    match word {
        ResumeProposal::Resume => Resume::parse(parser).map(ProposalOp::Resume),
        ResumeProposal::ResumeThrowRef => ResumeThrowRef::parse(parser).map(
            ProposalOp::ResumeThrowRef,
        ),
    }
}
