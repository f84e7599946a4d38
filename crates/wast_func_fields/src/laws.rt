//! A law of fields: a function without parameters whose contract is the law. It does nothing.
ghost use Rattle.std.specs.Prelude.{ℕ};
ghost use Rattle.wast_field_syntax.specs.Tokens.{Name};
ghost use Rattle.wast_field_syntax.specs.Lawful.{Lawful};
ghost use Rattle.wast_field_syntax.specs.FuncSyntax.{all_locals};

/// What [`Local::parse_remainder`](crate::Local::parse_remainder) reads is spelled, and what is spelled is read.
pub fn locals()
    ensures { Lawful (all_locals {N = Name} {P = ℕ}) }
{}
