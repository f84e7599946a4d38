//! Table types and memory types.
ghost use Rattle.std.specs.Prelude.{◌≡◌, ℕ, IfOk, IsOk, true};
ghost use Rattle.wast_words.specs.Tokens.{Name};
ghost use Rattle.wast_words.specs.Lawful.{Lawful};
ghost use Rattle.wast_words.specs.State.{ahead, Keeps};
ghost use Rattle.wast_words.specs.Reading.{Gives};
ghost use Rattle.wast_value_types.specs.ValueTree as spec;
ghost use Rattle.wast_value_types.specs.ValueSyntax.{table_type, memory_type, page_size, power_of_two, exponent};
ghost use Rattle.wast_value_types.specs.ValueViews.{table_tree, memory_tree};
ghost use Rattle.wast_value_types.specs.Nameless.{heap_nameless};

use crate::keyword::{PageSize, Shared};
use crate::limits::Limits;
use crate::ref_type::RefType;
use std::alloc::{AllocError, Global};
use wast_words::{Error, Group, Meaning, Parse, Parser, group_of, optional};

/// A table type (6.4.12); a shared one is that of a proposal.
#[derive(Drop)]
pub struct TableType<'a> {
    pub limits: Limits,
    pub elem: RefType<'a>,
    pub shared: bool,
}

impl<'a> TableType<'a> {
    /// The same table type at the same place. Fails only for want of memory, of which one without a name needs none.
    pub fn clone(&self, alloc: Global) -> Result<Self, AllocError>
        ensures same { IfOk result (λ copy. copy ≡ self.now) }
        ensures plain { heap_nameless self.now.elem.heap ≡ true → IsOk result }
    {
        Ok(TableType {
            limits: self.limits,
            elem: self.elem.clone(alloc)?,
            shared: self.shared,
        })
    }
}

impl<'a> Meaning for TableType<'a> {
    ghost Tree = { spec.TableType Name ℕ };

    ghost tree = { table_tree };

    ghost syntax = { table_type };

    fn lawful()
        ensures { Lawful (table_type {N = Name} {P = ℕ}) }
    {}
}

impl<'a> Parse<'a> for TableType<'a> {
    fn parse(parser: &mut Parser<'a>) -> Result<Self, Error> {
        let shared = optional::<Shared>(parser)?;
        let limits = Limits::parse(parser)?;
        let elem = RefType::parse(parser)?;
        Ok(TableType {
            limits,
            elem,
            shared,
        })
    }
}

/// A memory type (6.4.11). The page size, where one is written, is 2 to this power, in bytes; it is a proposal's, and so is that threads
/// share a memory.
#[derive(Clone, Copy, PartialEq, Eq, Hash)]
pub struct MemoryType {
    pub limits: Limits,
    pub shared: bool,
    pub page_size_log2: Option<u32>,
}

impl Meaning for MemoryType {
    ghost Tree = { spec.MemoryType };

    ghost tree = { memory_tree };

    ghost syntax = { memory_type };

    fn lawful()
        ensures { Lawful (memory_type {N = Name} {P = ℕ}) }
    {}
}

impl<'a> Parse<'a> for MemoryType {
    fn parse(parser: &mut Parser<'a>) -> Result<Self, Error> {
        let limits = Limits::parse(parser)?;
        let shared = optional::<Shared>(parser)?;
        let page_size_log2 = page_size(parser)?;
        Ok(MemoryType {
            limits,
            shared,
            page_size_log2,
        })
    }
}

/// Reads `(pagesize n)` of a memory type where it stands, which is a proposal's; answers the power to which 2 is n. Refused where no token can be read here, where n is no power of
/// two that is a `u32`, where the group isn't spelled behind its word, or for want of memory; the depth and the registered names stay then,
/// and the parser goes back nowhere.
pub fn page_size(parser: &mut Parser<'_>) -> Result<Option<u32>, Error>
    ensures read { Gives (λ p. p) result parser.new (page_size.reads (ahead parser.old)) }
    ensures keeps { Keeps parser.old parser.new }
{
    if parser.peek::<Group<PageSize>>()? {
        let size: PowerOfTwo = group_of(parser, "pagesize")?;
        Ok(Some(size.exponent))
    } else {
        Ok(None)
    }
}

/// A power of two that is a `u32`.
#[derive(Drop)]
struct PowerOfTwo {
    exponent: u32,
}

impl Meaning for PowerOfTwo {
    ghost Tree = { ℕ };

    ghost tree = { λ p. p.exponent };

    ghost syntax = { power_of_two };

    fn lawful()
        ensures { Lawful (power_of_two {N = Name} {P = ℕ}) }
    {}
}

impl<'a> Parse<'a> for PowerOfTwo {
    fn parse(parser: &mut Parser<'a>) -> Result<Self, Error> {
        let span = parser.cur_span();
        let size = u32::parse(parser)?;
        match exponent(size) {
            Some(exponent) => Ok(PowerOfTwo { exponent }),
            None => Err(parser.error_at(span, "a page size is a power of two")),
        }
    }
}

/// The power to which 2 is this number, where there is one.
fn exponent(size: u32) -> Option<u32>
    ensures { result ≡ exponent size }
{
    if size == 0 {
        return None;
    }
    let exponent = size.ilog2();
    if size == 1 << exponent {
        Some(exponent)
    } else {
        None
    }
}
