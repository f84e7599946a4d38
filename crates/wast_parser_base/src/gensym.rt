//! Names that are made where none was written.

ghost use Rattle.std.specs.Prelude.{◌≡◌, ◌+◌, ◌-◌, ◌^◌, ◌↔◌, IfOk, IsErr, IsSome, None, OnErr, OnOk, Some};
ghost use Rattle.wast_parser_base.specs.Identifier.{made_name};

use crate::id::Id;
use std::marker::Model;
use wast_lexer::Span;

/// Makes identifiers with numbers that rise. Contracts see the number of the last one, 0 before the first.
#[derive(Debug, Drop)]
pub struct Gensym {
    counter: u32,
}

impl Model for Gensym {
    ghost use Rattle.std.specs.Prelude.{ℕ};

    ghost Value = { ℕ };

    ghost view = { λ g. g.counter };
}

/// There is no number left for another name.
#[derive(Clone, Copy, Debug, PartialEq, Eq)]
pub struct Exhausted;

impl Gensym {
    /// One that has made no name.
    pub fn new() -> Self
        ensures { result ≡ 0 }
    {
        Gensym { counter: 0 }
    }

    /// Begins anew.
    pub fn reset(&mut self)
        ensures { self.new ≡ 0 }
    {
        self.counter = 0;
    }

    /// The next identifier, at a place: its generation is the number behind that of the last one, so it differs from all that
    /// were made since the last reset, and from all that were read.
    ///
    /// Answers [`Exhausted`] exactly where 4294967295 names were made, and nothing is changed then.
    pub fn generate<'a>(&mut self, span: Span) -> Result<Id<'a>, Exhausted>
        ensures made { IfOk result (λ id. id ≡ made_name self.new span) }
        ensures counted { OnOk result (self.new ≡ self.old + 1) }
        ensures exhausted { IsErr result ↔ (self.old ≡ 2 ^ 32 - 1) }
        ensures refused { OnErr result (self.new ≡ self.old) }
    {
        if self.counter == u32::MAX {
            return Err(Exhausted);
        }
        self.counter += 1;
        Ok(Id::made(self.counter, span))
    }

    /// Puts the next identifier into a slot that has none; a full one stays, and no name is made.
    ///
    /// Answers [`Exhausted`] exactly where the slot has none and 4294967295 names were made; nothing is changed then.
    pub fn fill_slot<'a>(&mut self, span: Span, slot: &mut Option<Id<'a>>) -> Result<(), Exhausted>
        ensures full { IsSome slot.old → (slot.new ≡ slot.old) × (self.new ≡ self.old) }
        ensures empty { slot.old ≡ None → OnOk result ((slot.new ≡ Some (made_name self.new span)) × (self.new ≡ self.old + 1)) }
        ensures exhausted { IsErr result ↔ ((slot.old ≡ None) × (self.old ≡ 2 ^ 32 - 1)) }
        ensures refused { OnErr result ((slot.new ≡ slot.old) × (self.new ≡ self.old)) }
        ensures filled { OnOk result (IsSome slot.new) }
    {
        if slot.is_none() {
            *slot = Some(self.generate(span)?);
        }
        Ok(())
    }

    /// Puts the next identifier into a slot that has none, and answers what the slot has then; a full one stays, and no name is made.
    ///
    /// Answers [`Exhausted`] exactly where the slot has none and 4294967295 names were made; no name is made then.
    pub fn fill<'a, 's>(
        &mut self,
        span: Span,
        slot: &'s mut Option<Id<'a>>,
    ) -> Result<&'s Id<'a>, Exhausted>
        ensures full { IsSome slot.old → IfOk result (λ id. slot.old ≡ Some id.now) × (self.new ≡ self.old) }
        ensures empty { slot.old ≡ None → IfOk result (λ id. id.now ≡ made_name self.new span) × OnOk result (self.new ≡ self.old + 1) }
        ensures exhausted { IsErr result ↔ ((slot.old ≡ None) × (self.old ≡ 2 ^ 32 - 1)) }
        ensures refused { OnErr result (self.new ≡ self.old) }
    {
        self.fill_slot(span, slot)?;
        match slot {
            Some(id) => Ok(id),
            None => unreachable!(),
        }
    }
}
