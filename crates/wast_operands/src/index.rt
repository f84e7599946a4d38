//! Operands that are indices.
ghost use Rattle.std.specs.Prelude.{◌≡◌, ℕ, List, map, Option, IfOk, option_map};
ghost use Rattle.wast_vector_operands.specs.Tokens.{Name};
ghost use Rattle.wast_vector_operands.specs.Lawful.{Lawful};
ghost use Rattle.wast_vector_operands.specs.Identifiers.{Reference, index, index_tree};
ghost use Rattle.wast_operands.specs.OperandSyntax.{but_last, label_table, optional_index, optional_indices, one_or_two, two_indices, index_count};
ghost use Rattle.wast_operands.specs.OperandViews.{pair_tree, label_table_tree, table_arg_tree, memory_arg_tree, table_copy_tree, memory_copy_tree, table_init_tree, memory_init_tree, struct_access_tree, array_copy_tree, array_init_tree, array_new_data_tree, array_new_elem_tree, array_new_fixed_tree};
ghost use Rattle.wast_vector_operands.specs.State.{ahead, Keeps};
ghost use Rattle.wast_vector_operands.specs.Reading.{Gives};

use std::alloc::AllocError;
use wast_vector_operands::{Error, Index, Meaning, Parse, Parser, list_of, pair};

/// The labels of `br_table`, of which the last written is the default.
#[derive(Drop)]
pub struct BrTableIndices<'a> {
    pub labels: Vec<Index<'a>>,
    pub default: Index<'a>,
}

impl<'a> Meaning for BrTableIndices<'a> {
    ghost Tree = { List (Reference Name ℕ) × Reference Name ℕ };

    ghost tree = { label_table_tree };

    ghost syntax = { label_table };

    fn lawful()
        ensures { Lawful (label_table {N = Name} {P = ℕ}) }
    {}
}

impl<'a> Parse<'a> for BrTableIndices<'a> {
    fn parse(parser: &mut Parser<'a>) -> Result<Self, Error> {
        let first = Index::parse(parser)?;
        let more = list_of(parser)?;
        Ok(last_apart(first, more)?)
    }
}

/// The last of some labels as the default.
fn last_apart<'a>(first: Index<'a>, more: Vec<Index<'a>>) -> Result<BrTableIndices<'a>, AllocError>
    ensures { IfOk result (λ t. label_table_tree t ≡ but_last (index_tree first.entry) (map index_tree more.entry.items)) }
{
    let mut labels = more;
    match labels.pop() {
        Some(default) => {
            labels.insert(0, first)?;
            Ok(BrTableIndices { labels, default })
        }
        None => Ok(BrTableIndices {
            labels,
            default: first,
        }),
    }
}

/// The table of an instruction; absent it is table 0.
#[derive(Drop)]
pub struct TableArg<'a> {
    pub dst: Option<Index<'a>>,
}

impl<'a> Meaning for TableArg<'a> {
    ghost Tree = { Option (Reference Name ℕ) };

    ghost tree = { table_arg_tree };

    ghost syntax = { optional_index };

    fn lawful()
        ensures { Lawful (optional_index {N = Name} {P = ℕ}) }
    {}
}

impl<'a> Parse<'a> for TableArg<'a> {
    fn parse(parser: &mut Parser<'a>) -> Result<Self, Error> {
        let dst = Option::parse(parser)?;
        Ok(TableArg { dst })
    }
}

/// The memory of an instruction; absent it is memory 0.
#[derive(Drop)]
pub struct MemoryArg<'a> {
    pub mem: Option<Index<'a>>,
}

impl<'a> Meaning for MemoryArg<'a> {
    ghost Tree = { Option (Reference Name ℕ) };

    ghost tree = { memory_arg_tree };

    ghost syntax = { optional_index };

    fn lawful()
        ensures { Lawful (optional_index {N = Name} {P = ℕ}) }
    {}
}

impl<'a> Parse<'a> for MemoryArg<'a> {
    fn parse(parser: &mut Parser<'a>) -> Result<Self, Error> {
        let mem = Option::parse(parser)?;
        Ok(MemoryArg { mem })
    }
}

/// The table that `table.copy` copies to, and the one that it copies from; absent both are table 0.
#[derive(Drop)]
pub struct TableCopy<'a> {
    pub tables: Option<Box<(Index<'a>, Index<'a>)>>,
}

impl<'a> Meaning for TableCopy<'a> {
    ghost Tree = { Option (Reference Name ℕ × Reference Name ℕ) };

    ghost tree = { table_copy_tree };

    ghost syntax = { optional_indices };

    fn lawful()
        ensures { Lawful (optional_indices {N = Name} {P = ℕ}) }
    {}
}

impl<'a> Parse<'a> for TableCopy<'a> {
    fn parse(parser: &mut Parser<'a>) -> Result<Self, Error> {
        let tables = none_or_two(parser)?;
        Ok(TableCopy { tables })
    }
}

/// The memory that `memory.copy` copies to, and the one that it copies from; absent both are memory 0.
#[derive(Drop)]
pub struct MemoryCopy<'a> {
    pub memories: Option<Box<(Index<'a>, Index<'a>)>>,
}

impl<'a> Meaning for MemoryCopy<'a> {
    ghost Tree = { Option (Reference Name ℕ × Reference Name ℕ) };

    ghost tree = { memory_copy_tree };

    ghost syntax = { optional_indices };

    fn lawful()
        ensures { Lawful (optional_indices {N = Name} {P = ℕ}) }
    {}
}

impl<'a> Parse<'a> for MemoryCopy<'a> {
    fn parse(parser: &mut Parser<'a>) -> Result<Self, Error> {
        let memories = none_or_two(parser)?;
        Ok(MemoryCopy { memories })
    }
}

/// A table, absent table 0, and a segment of elements.
#[derive(Drop)]
pub struct TableInit<'a> {
    pub table: Option<Index<'a>>,
    pub elem: Index<'a>,
}

impl<'a> Meaning for TableInit<'a> {
    ghost Tree = { Option (Reference Name ℕ) × Reference Name ℕ };

    ghost tree = { table_init_tree };

    ghost syntax = { one_or_two };

    fn lawful()
        ensures { Lawful (one_or_two {N = Name} {P = ℕ}) }
    {}
}

impl<'a> Parse<'a> for TableInit<'a> {
    fn parse(parser: &mut Parser<'a>) -> Result<Self, Error> {
        let (table, elem) = one_or_two(parser)?;
        Ok(TableInit { table, elem })
    }
}

/// A memory, absent memory 0, and a segment of data.
#[derive(Drop)]
pub struct MemoryInit<'a> {
    pub mem: Option<Index<'a>>,
    pub data: Index<'a>,
}

impl<'a> Meaning for MemoryInit<'a> {
    ghost Tree = { Option (Reference Name ℕ) × Reference Name ℕ };

    ghost tree = { memory_init_tree };

    ghost syntax = { one_or_two };

    fn lawful()
        ensures { Lawful (one_or_two {N = Name} {P = ℕ}) }
    {}
}

impl<'a> Parse<'a> for MemoryInit<'a> {
    fn parse(parser: &mut Parser<'a>) -> Result<Self, Error> {
        let (mem, data) = one_or_two(parser)?;
        Ok(MemoryInit { mem, data })
    }
}

/// A struct type, and a field of it.
#[derive(Drop)]
pub struct StructAccess<'a> {
    pub struct_type: Index<'a>,
    pub field: Index<'a>,
}

impl<'a> Meaning for StructAccess<'a> {
    ghost Tree = { Reference Name ℕ × Reference Name ℕ };

    ghost tree = { struct_access_tree };

    ghost syntax = { two_indices };

    fn lawful()
        ensures { Lawful (two_indices {N = Name} {P = ℕ}) }
    {}
}

impl<'a> Parse<'a> for StructAccess<'a> {
    fn parse(parser: &mut Parser<'a>) -> Result<Self, Error> {
        let (struct_type, field) = pair(parser)?;
        Ok(StructAccess { struct_type, field })
    }
}

/// An array type.
#[derive(Drop)]
pub struct ArrayFill<'a> {
    pub array: Index<'a>,
}

impl<'a> Meaning for ArrayFill<'a> {
    ghost Tree = { Reference Name ℕ };

    ghost tree = { λ a. index_tree a.array };

    ghost syntax = { index };

    fn lawful()
        ensures { Lawful (index {N = Name} {P = ℕ}) }
    {}
}

impl<'a> Parse<'a> for ArrayFill<'a> {
    fn parse(parser: &mut Parser<'a>) -> Result<Self, Error> {
        let array = Index::parse(parser)?;
        Ok(ArrayFill { array })
    }
}

/// The array type that `array.copy` copies to, and the one that it copies from.
#[derive(Drop)]
pub struct ArrayCopy<'a> {
    pub dest_array: Index<'a>,
    pub src_array: Index<'a>,
}

impl<'a> Meaning for ArrayCopy<'a> {
    ghost Tree = { Reference Name ℕ × Reference Name ℕ };

    ghost tree = { array_copy_tree };

    ghost syntax = { two_indices };

    fn lawful()
        ensures { Lawful (two_indices {N = Name} {P = ℕ}) }
    {}
}

impl<'a> Parse<'a> for ArrayCopy<'a> {
    fn parse(parser: &mut Parser<'a>) -> Result<Self, Error> {
        let (dest_array, src_array) = pair(parser)?;
        Ok(ArrayCopy {
            dest_array,
            src_array,
        })
    }
}

/// An array type, and a segment of data or elements.
#[derive(Drop)]
pub struct ArrayInit<'a> {
    pub array: Index<'a>,
    pub segment: Index<'a>,
}

impl<'a> Meaning for ArrayInit<'a> {
    ghost Tree = { Reference Name ℕ × Reference Name ℕ };

    ghost tree = { array_init_tree };

    ghost syntax = { two_indices };

    fn lawful()
        ensures { Lawful (two_indices {N = Name} {P = ℕ}) }
    {}
}

impl<'a> Parse<'a> for ArrayInit<'a> {
    fn parse(parser: &mut Parser<'a>) -> Result<Self, Error> {
        let (array, segment) = pair(parser)?;
        Ok(ArrayInit { array, segment })
    }
}

/// An array type, and how many operands are its elements.
#[derive(Drop)]
pub struct ArrayNewFixed<'a> {
    pub array: Index<'a>,
    pub length: u32,
}

impl<'a> Meaning for ArrayNewFixed<'a> {
    ghost Tree = { Reference Name ℕ × ℕ };

    ghost tree = { array_new_fixed_tree };

    ghost syntax = { index_count };

    fn lawful()
        ensures { Lawful (index_count {N = Name} {P = ℕ}) }
    {}
}

impl<'a> Parse<'a> for ArrayNewFixed<'a> {
    fn parse(parser: &mut Parser<'a>) -> Result<Self, Error> {
        let (array, length) = pair(parser)?;
        Ok(ArrayNewFixed { array, length })
    }
}

/// An array type, and a segment of data.
#[derive(Drop)]
pub struct ArrayNewData<'a> {
    pub array: Index<'a>,
    pub data_idx: Index<'a>,
}

impl<'a> Meaning for ArrayNewData<'a> {
    ghost Tree = { Reference Name ℕ × Reference Name ℕ };

    ghost tree = { array_new_data_tree };

    ghost syntax = { two_indices };

    fn lawful()
        ensures { Lawful (two_indices {N = Name} {P = ℕ}) }
    {}
}

impl<'a> Parse<'a> for ArrayNewData<'a> {
    fn parse(parser: &mut Parser<'a>) -> Result<Self, Error> {
        let (array, data_idx) = pair(parser)?;
        Ok(ArrayNewData { array, data_idx })
    }
}

/// An array type, and a segment of elements.
#[derive(Drop)]
pub struct ArrayNewElem<'a> {
    pub array: Index<'a>,
    pub elem_idx: Index<'a>,
}

impl<'a> Meaning for ArrayNewElem<'a> {
    ghost Tree = { Reference Name ℕ × Reference Name ℕ };

    ghost tree = { array_new_elem_tree };

    ghost syntax = { two_indices };

    fn lawful()
        ensures { Lawful (two_indices {N = Name} {P = ℕ}) }
    {}
}

impl<'a> Parse<'a> for ArrayNewElem<'a> {
    fn parse(parser: &mut Parser<'a>) -> Result<Self, Error> {
        let (array, elem_idx) = pair(parser)?;
        Ok(ArrayNewElem { array, elem_idx })
    }
}

/// Two indices, or none.
fn none_or_two<'a>(parser: &mut Parser<'a>) -> Result<Option<Box<(Index<'a>, Index<'a>)>>, Error>
    ensures read { Gives (option_map (λ p. pair_tree p.value)) result parser.new (optional_indices.reads (ahead parser.old)) }
    ensures keeps { Keeps parser.old parser.new }
{
    if parser.peek::<Index>()? {
        let indices = pair(parser)?;
        Ok(Some(Box::new(parser.alloc(), indices)?))
    } else {
        Ok(None)
    }
}

/// One index, or two of which the first may be left out.
fn one_or_two<'a>(parser: &mut Parser<'a>) -> Result<(Option<Index<'a>>, Index<'a>), Error>
    ensures read { Gives (λ x. (option_map index_tree x.0, index_tree x.1)) result parser.new (one_or_two.reads (ahead parser.old)) }
    ensures keeps { Keeps parser.old parser.new }
{
    let first = Index::parse(parser)?;
    let second: Option<Index> = Option::parse(parser)?;
    match second {
        Some(second) => Ok((Some(first), second)),
        None => Ok((None, first)),
    }
}
