//! Global types.
ghost use Rattle.std.specs.Prelude.{◌≡◌, ℕ, IfOk, IsOk, true};
ghost use Rattle.wast_words.specs.Tokens.{Name};
ghost use Rattle.wast_words.specs.Lawful.{Lawful};
ghost use Rattle.wast_value_types.specs.ValueTree as spec;
ghost use Rattle.wast_value_types.specs.ValueSyntax.{shared_global, global_type};
ghost use Rattle.wast_value_types.specs.ValueViews.{global_tree};
ghost use Rattle.wast_value_types.specs.Nameless.{val_nameless};

use crate::keyword::{Mut, Shared};
use crate::val_type::ValType;
use std::alloc::{AllocError, Global};
use wast_words::{Error, Group, Meaning, Parse, Parser, group_of, optional};

/// A global type (6.4.10); a shared one is that of a proposal.
#[derive(Drop)]
pub struct GlobalType<'a> {
    pub ty: ValType<'a>,
    pub mutable: bool,
    pub shared: bool,
}

impl<'a> GlobalType<'a> {
    /// The same global type at the same place. Fails only for want of memory, of which one without a name needs none.
    pub fn clone(&self, alloc: Global) -> Result<Self, AllocError>
        ensures same { IfOk result (λ copy. copy ≡ self.now) }
        ensures plain { val_nameless self.now.ty ≡ true → IsOk result }
    {
        Ok(GlobalType {
            ty: self.ty.clone(alloc)?,
            mutable: self.mutable,
            shared: self.shared,
        })
    }
}

impl<'a> Meaning for GlobalType<'a> {
    ghost Tree = { spec.GlobalType Name ℕ };

    ghost tree = { global_tree };

    ghost syntax = { global_type };

    fn lawful()
        ensures { Lawful (global_type {N = Name} {P = ℕ}) }
    {}
}

impl<'a> Parse<'a> for GlobalType<'a> {
    fn parse(parser: &mut Parser<'a>) -> Result<Self, Error> {
        if parser.peek::<Group<Mut>>()? {
            let ty = group_of(parser, "mut")?;
            Ok(GlobalType {
                ty,
                mutable: true,
                shared: false,
            })
        } else if parser.peek::<Group<Shared>>()? {
            let body: SharedBody = group_of(parser, "shared")?;
            Ok(body.global_type)
        } else {
            let ty = ValType::parse(parser)?;
            Ok(GlobalType {
                ty,
                mutable: false,
                shared: false,
            })
        }
    }
}

/// What stands behind the word of `(shared ..)`.
#[derive(Drop)]
struct SharedBody<'a> {
    global_type: GlobalType<'a>,
}

impl<'a> Meaning for SharedBody<'a> {
    ghost Tree = { spec.GlobalType Name ℕ };

    ghost tree = { λ b. global_tree b.global_type };

    ghost syntax = { shared_global };

    fn lawful()
        ensures { Lawful (shared_global {N = Name} {P = ℕ}) }
    {}
}

impl<'a> Parse<'a> for SharedBody<'a> {
    fn parse(parser: &mut Parser<'a>) -> Result<Self, Error> {
        let mutable = optional::<Mut>(parser)?;
        let ty = ValType::parse(parser)?;
        Ok(SharedBody {
            global_type: GlobalType {
                ty,
                mutable,
                shared: true,
            },
        })
    }
}
