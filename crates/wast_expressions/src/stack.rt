//! Instructions in a row, and the groups that are open while they are read.
ghost use Rattle.std.specs.Prelude.{◌≡◌, ◌↔◌, [], ◌∷◌, ◌++◌, MatchOption, OnOk, IfErr, IsTrue};
ghost use Rattle.wast_parser.specs.Reading.{out_of_memory};
ghost use Rattle.wast_expressions.specs.Items.{expression_of};
ghost use Rattle.wast_expressions.specs.Partial.{expression, takes_items};

use crate::hint::BranchHint;
use std::alloc::Global;
use std::marker::Model;
use wast_parser::Error;

/// Instructions in a row, and the hints among them, whose indices rise where they are read.
#[derive(Drop)]
pub struct Instructions<I> {
    pub instrs: Vec<I>,
    pub hints: Vec<BranchHint>,
}

/// What an open group waits for.
#[derive(Drop)]
pub(crate) enum Level<I> {
    /// Operands: where they end stands their instruction, with its hint.
    EndWith(Option<u32>, I),
    /// The items of a block: where they end stands an `end`.
    BlockEnd,
    /// The conditions of an `if`, with its hint.
    Conditions(Option<u32>, I),
    /// An arm.
    Arm,
    /// What may stand behind the first arm.
    AfterThen,
    /// What may stand behind the second.
    AfterElse,
}

/// The groups that are open, and the instructions so far. Contracts see the innermost group first, and each instruction
/// with its hint.
#[derive(Drop)]
pub(crate) struct Unfolding<I> {
    levels: Vec<Level<I>>,
    instrs: Vec<I>,
    hints: Vec<BranchHint>,
}

impl<I> Model for Unfolding<I> {
    ghost use Rattle.std.specs.Prelude.{◌≡◌, map, reverse};
    ghost use Rattle.wast_expressions.specs.Items.{expression_of};
    ghost use Rattle.wast_expressions.specs.Partial.{Partial, hint_tree, hinted};

    ghost Value = { Partial I };

    ghost view = { λ u. record { stack = reverse u.levels.items; out = hinted (record { instrs = u.instrs.items; hints = map hint_tree u.hints.items }) } };

    ghost invariant = { λ u. expression_of (hinted (record { instrs = u.instrs.items; hints = map hint_tree u.hints.items })) ≡ record { instrs = u.instrs.items; hints = map hint_tree u.hints.items } };
}

impl<I: Drop> Unfolding<I> {
    /// No group, and no instruction.
    pub(crate) fn new(alloc: Global) -> Self
        ensures { result ≡ record { stack = []; out = [] } }
    {
        Unfolding {
            levels: Vec::new(alloc),
            instrs: Vec::new(alloc),
            hints: Vec::new(alloc),
        }
    }

    /// Opens a group.
    #[inline(always)]
    pub(crate) fn open(&mut self, level: Level<I>) -> Result<(), Error>
        ensures opened { OnOk result (self.new ≡ record self.old { stack = level ∷ self.old.stack }) }
        ensures memory { IfErr result (λ e. e ≡ out_of_memory) }
    {
        match self.levels.push(level) {
            Ok(()) => Ok(()),
            Err(_) => Err(Error::memory()),
        }
    }

    /// The innermost group, which is left.
    #[inline(always)]
    pub(crate) fn leave(&mut self) -> Option<Level<I>>
        ensures { MatchOption result ((self.old.stack ≡ []) × (self.new ≡ self.old)) (λ l. self.old ≡ record self.new { stack = l ∷ self.new.stack }) }
    {
        self.levels.pop()
    }

    /// Whether items stand in the innermost group.
    pub(crate) fn takes_items(&self) -> bool
        ensures { result ≡ takes_items self.now.stack }
    {
        match self.levels.last() {
            Some(Level::EndWith(_, _) | Level::BlockEnd | Level::Arm) => true,
            _ => false,
        }
    }

    /// Whether no group is open.
    pub(crate) fn is_closed(&self) -> bool
        ensures { IsTrue result ↔ (self.now.stack ≡ []) }
    {
        self.levels.is_empty()
    }

    /// Appends an instruction, with its hint. An index past 4294967295 is refused as want of memory.
    #[inline(always)]
    pub(crate) fn push(&mut self, hint: Option<u32>, instr: I) -> Result<(), Error>
        ensures pushed { OnOk result (self.new ≡ record self.old { out = self.old.out ++ (hint, instr) ∷ [] }) }
        ensures memory { IfErr result (λ e. e ≡ out_of_memory) }
    {
        let index = u32::try_from(self.instrs.as_slice().len());
        match self.instrs.push(instr) {
            Ok(()) => {}
            Err(_) => return Err(Error::memory()),
        }
        let Some(value) = hint else {
            return Ok(());
        };
        let Ok(instr_index) = index else {
            return Err(Error::memory());
        };
        match self.hints.push(BranchHint { instr_index, value }) {
            Ok(()) => {}
            Err(_) => return Err(Error::memory()),
        }
        Ok(())
    }

    /// What was unfolded.
    pub(crate) fn finish(self) -> Instructions<I>
        ensures { expression result ≡ expression_of self.out }
    {
        let Unfolding {
            mut instrs,
            hints,
            ..
        } = self;
        instrs.shrink_to_fit();
        Instructions { instrs, hints }
    }
}
