//! Which instruction of the text format a word is, and what stands after it (WebAssembly Core Specification 3.0, 6.5, and
//! proposals): a part of the crate `wast_core_instr`.
//!
//! The mnemonics of the table of `wasm_encoder_base`, and those of the instructions that are refused as uncovered, are one
//! list, with one entry for each: `select`, `ref.test` and `ref.cast`, which have two opcodes each, stand there once. A
//! [`Word`] is one of these 623. It has a variant for each way in which operands are written, so that a reader chooses by
//! a short `match`; operations without operands are the encoder's own. It is a `WordSet` of `wast_parser`, so a parser takes
//! one by `among` and a cursor looks for one by `peek_among`; the look-up is by a hash.
//!
//! ```
//! let word = Word::of(b"i64.load16_u");
//! ```
//!
//! is `Some(Word::Memory(MemoryWord::Access(AccessOp::I64Load16U)))`, whose natural alignment is 2, and `Word::of(b"i64")` is
//! `None`.
//!
//! # What has to be believed
//!
//! | File of `specs/` | Says |
//! |---|---|
//! | `TextTable` | the list: mnemonic, what stands after it, and the entries of the table among which that chooses |
//! | `Mnemonics`, `ProposalMnemonics` | how each word is written |
//! | `Words` | the entry of each word |
//! | `Heads` | which instruction a mnemonic and its operands are |
//! | `Samples`, `Laws` | entries by hand, and the statements of the law functions |
//!
//! `Rows` serves private contracts. The laws: the list is the table and the uncovered instructions, each mnemonic once
//! ([`laws::text_table`]); each word has the entry of its mnemonic ([`laws::every_word`]).
#![tactic(auto)]

mod alignment;
pub mod laws;
mod lookup;
mod proposal;
mod slots;
mod table;
mod word;

pub use proposal::{
    CastProposal, IndexProposal, IndicesProposal, OrderedIndexProposal, OrderedIndicesProposal,
    OrderedOptionalIndexProposal, PlainProposal, ProposalWord, ResumeProposal,
};
pub use word::{
    BlockWord, CastWord, CopyWord, IndexWord, IndicesWord, IndirectWord, InitWord, LaneWord,
    MemoryLaneWord, MemoryWord, NameWord, OptionalIndexWord, PlainWord, RefWord, VectorMemoryWord,
    Word,
};
