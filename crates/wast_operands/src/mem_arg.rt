//! Memory arguments.
ghost use Rattle.std.specs.Prelude.{◌≡◌, codes, option_map};
ghost use Rattle.wast_vector_operands.specs.Grammar.{begun, seen};
ghost use Rattle.wast_vector_operands.specs.State.{ahead, Keeps};
ghost use Rattle.wast_vector_operands.specs.Look.{ask, join, integer_starts};
ghost use Rattle.wast_vector_operands.specs.Reading.{Asks, Gives};
ghost use Rattle.wast_operands.specs.OperandSyntax.{offset_starts, align_starts, lane_starts, u64_number, alignment, target, one_or_two_orderings, offset, align, modifiers, is_bare, as_mem_arg, mem_arg, behind_integer, integer_first, untargeted_lane, mem_arg_lane};
ghost use Rattle.wast_operands.specs.OperandViews.{target_tree, mem_arg_ordering_tree, modifiers_tree, mem_arg_tree, lane_access_tree};

use crate::number::u64_number;
use crate::ordering::Ordering;
use wast_vector_operands::{
    Error, Id, Index, ItemRef, Keyword, KeywordName, LaneArg, Parse, Parser, Span,
};

/// What a memory argument is of.
#[derive(Drop)]
pub enum MemArgTarget<'a> {
    /// A memory.
    Memory(Index<'a>),
    /// `(type index)`: an array of this type.
    Array(Index<'a>),
}

/// The ordering of an access: one for what only reads or writes, or that of reading and that of writing.
#[derive(Clone, Copy, PartialEq, Eq, Hash)]
pub enum MemArgOrdering {
    Op(Ordering),
    Rmw(Ordering, Ordering),
}

/// A memory argument (6.5, memory instructions). The alignment and the offset are in bytes; an absent target is memory 0. Few have a
/// target: it stands in a box, so that the others take no room for it.
#[derive(Drop)]
pub struct MemArg<'a> {
    pub align: u64,
    pub offset: u64,
    pub target: Option<Box<MemArgTarget<'a>>>,
    pub ordering: Option<MemArgOrdering>,
}

impl<'a> MemArg<'a> {
    /// Reads one of an instruction with this natural alignment, in bytes, which counts where none is written. Refused where none is
    /// spelled here, or for want of memory; the depth and the registered names stay then, and the parser goes back nowhere.
    pub fn parse(parser: &mut Parser<'a>, default_align: u64) -> Result<Self, Error>
        ensures read { Gives mem_arg_tree result parser.new ((mem_arg default_align).reads (ahead parser.old)) }
        ensures keeps { Keeps parser.old parser.new }
    {
        let target = parse_target(parser)?;
        let modifiers = parse_modifiers(parser)?;
        Ok(modifiers.of(target, default_align))
    }
}

/// A memory argument, and the number of a lane.
#[derive(Drop)]
pub struct LoadOrStoreLane<'a> {
    pub memarg: MemArg<'a>,
    pub lane: LaneArg,
}

impl<'a> LoadOrStoreLane<'a> {
    /// Reads one of an instruction with this natural alignment, in bytes, which counts where none is written. An integer in
    /// front is the memory where a lane still follows it, and else the lane. Refused where none is spelled here, or for want of memory;
    /// the depth and the registered names stay then, and the parser goes back nowhere.
    pub fn parse(parser: &mut Parser<'a>, default_align: u64) -> Result<Self, Error>
        ensures read { Gives lane_access_tree result parser.new ((mem_arg_lane default_align).reads (ahead parser.old)) }
        ensures keeps { Keeps parser.old parser.new }
    {
        if parser.peek::<Id>()? {
            let id = Id::parse(parser)?;
            let target = Some(Box::new(parser.alloc(), MemArgTarget::Memory(Index::Id(id)))?);
            let modifiers = parse_modifiers(parser)?;
            let lane = LaneArg::parse(parser)?;
            Ok(LoadOrStoreLane {
                memarg: modifiers.of(target, default_align),
                lane,
            })
        } else if parser.peek::<TypeRef>()? {
            let array = TypeRef::parse(parser)?;
            let target = Some(Box::new(parser.alloc(), MemArgTarget::Array(array.idx))?);
            let modifiers = parse_modifiers(parser)?;
            let lane = LaneArg::parse(parser)?;
            Ok(LoadOrStoreLane {
                memarg: modifiers.of(target, default_align),
                lane,
            })
        } else {
            parse_untargeted(parser, default_align)
        }
    }
}

/// What may stand behind the target of a memory argument.
#[derive(Clone, Copy)]
struct Modifiers {
    ordering: Option<MemArgOrdering>,
    offset: Option<u64>,
    align: Option<u64>,
}

impl Modifiers {
    /// The memory argument with this target.
    fn of<'a>(self, target: Option<Box<MemArgTarget<'a>>>, default_align: u64) -> MemArg<'a>
        ensures { mem_arg_tree result ≡ as_mem_arg default_align (option_map (λ t. target_tree t.value) target.entry) (modifiers_tree self) }
    {
        MemArg {
            align: self.align.unwrap_or(default_align),
            offset: self.offset.unwrap_or(0),
            target,
            ordering: self.ordering,
        }
    }

    /// Whether none is written.
    fn is_bare(self) -> bool
        ensures { result ≡ is_bare (modifiers_tree self) }
    {
        self.ordering.is_none() && self.offset.is_none() && self.align.is_none()
    }
}

/// The word of `(type index)`.
#[derive(Drop)]
struct TypeName;

impl KeywordName for TypeName {
    ghost word = { codes "type" };

    fn text() -> &'static str {
        "type"
    }
}

/// `(type index)`
type TypeRef<'a> = ItemRef<'a, Keyword<TypeName>>;

/// The target of a memory argument, where one is written.
fn parse_target<'a>(parser: &mut Parser<'a>) -> Result<Option<Box<MemArgTarget<'a>>>, Error>
    ensures read { Gives (option_map (λ t. target_tree t.value)) result parser.new (target.reads (ahead parser.old)) }
    ensures keeps { Keeps parser.old parser.new }
{
    if parser.peek::<Index>()? {
        let memory = Index::parse(parser)?;
        Ok(Some(Box::new(parser.alloc(), MemArgTarget::Memory(memory))?))
    } else if parser.peek::<TypeRef>()? {
        let array = TypeRef::parse(parser)?;
        Ok(Some(Box::new(parser.alloc(), MemArgTarget::Array(array.idx))?))
    } else {
        Ok(None)
    }
}

/// An ordering or two, an offset and an alignment, as far as they are written.
fn parse_modifiers(parser: &mut Parser<'_>) -> Result<Modifiers, Error>
    ensures read { Gives modifiers_tree result parser.new (modifiers.reads (ahead parser.old)) }
    ensures keeps { Keeps parser.old parser.new }
{
    let ordering = parse_ordering(parser)?;
    let offset = parse_offset(parser)?;
    let align = parse_align(parser)?;
    Ok(Modifiers {
        ordering,
        offset,
        align,
    })
}

fn parse_ordering(parser: &mut Parser<'_>) -> Result<Option<MemArgOrdering>, Error>
    ensures read { Gives (option_map mem_arg_ordering_tree) result parser.new (one_or_two_orderings.reads (ahead parser.old)) }
    ensures keeps { Keeps parser.old parser.new }
{
    if !parser.peek::<Ordering>()? {
        return Ok(None);
    }
    let first = Ordering::parse(parser)?;
    let second: Option<Ordering> = Option::parse(parser)?;
    match second {
        Some(second) => Ok(Some(MemArgOrdering::Rmw(first, second))),
        None => Ok(Some(MemArgOrdering::Op(first))),
    }
}

fn parse_offset(parser: &mut Parser<'_>) -> Result<Option<u64>, Error>
    ensures read { Gives (λ n. n) result parser.new (offset.reads (ahead parser.old)) }
    ensures keeps { Keeps parser.old parser.new }
{
    if parser.peek_begun("offset=")? {
        let offset = begun_number(parser, "offset=")?;
        Ok(Some(offset))
    } else {
        Ok(None)
    }
}

fn parse_align(parser: &mut Parser<'_>) -> Result<Option<u64>, Error>
    ensures read { Gives (λ n. n) result parser.new (align.reads (ahead parser.old)) }
    ensures keeps { Keeps parser.old parser.new }
{
    if parser.peek_begun("align=")? {
        let align = begun_alignment(parser)?;
        Ok(Some(align))
    } else {
        Ok(None)
    }
}

/// The power of two behind `align=`.
fn begun_alignment(parser: &mut Parser<'_>) -> Result<u64, Error>
    ensures read { Gives (λ n. n) result parser.new ((seen (λ x. x.0) (begun (codes "align=") alignment)).reads (ahead parser.old)) }
    ensures keeps { Keeps parser.old parser.new }
{
    match begun_number(parser, "align=") {
        Ok(align) => {
            if align.is_power_of_two() {
                Ok(align)
            } else {
                Err(parser.error_at(parser.prev_span(), "alignment must be a power of two"))
            }
        }
        Err(e) => Err(e),
    }
}

/// The number behind the front of a word.
fn begun_number(parser: &mut Parser<'_>, prefix: &str) -> Result<u64, Error>
    ensures read { Gives (λ n. n) result parser.new ((seen (λ x. x.0) (begun prefix.now u64_number)).reads (ahead parser.old)) }
    ensures keeps { Keeps parser.old parser.new }
{
    match parser.begun(prefix) {
        Ok((text, span)) => match u64_number(text) {
            Some(number) => Ok(number),
            None => Err(parser.error_at(span, "expected a number of 64 bits")),
        },
        Err(e) => Err(e),
    }
}

/// Modifiers, which may be none, and a lane; without modifiers an integer may be in front.
fn parse_untargeted<'a>(
    parser: &mut Parser<'a>,
    default_align: u64,
) -> Result<LoadOrStoreLane<'a>, Error>
    ensures read { Gives lane_access_tree result parser.new ((untargeted_lane default_align).reads (ahead parser.old)) }
    ensures keeps { Keeps parser.old parser.new }
{
    let modifiers = parse_modifiers(parser)?;
    if modifiers.is_bare() {
        let access = parse_integer_first(parser, default_align)?;
        Ok(access)
    } else {
        let lane = LaneArg::parse(parser)?;
        Ok(LoadOrStoreLane {
            memarg: modifiers.of(None, default_align),
            lane,
        })
    }
}

/// An integer, which is the memory where a lane still follows it, and else the lane.
fn parse_integer_first<'a>(
    parser: &mut Parser<'a>,
    default_align: u64,
) -> Result<LoadOrStoreLane<'a>, Error>
    ensures read { Gives lane_access_tree result parser.new ((integer_first default_align).reads (ahead parser.old)) }
    ensures keeps { Keeps parser.old parser.new }
{
    let (number, span) = <(u32, Span)>::parse(parser)?;
    let access = parse_behind_integer(parser, default_align, number, span)?;
    Ok(access)
}

fn parse_behind_integer<'a>(
    parser: &mut Parser<'a>,
    default_align: u64,
    number: u32,
    span: Span,
) -> Result<LoadOrStoreLane<'a>, Error>
    ensures read { Gives lane_access_tree result parser.new ((behind_integer default_align (number, span)).reads (ahead parser.old)) }
    ensures keeps { Keeps parser.old parser.new }
{
    if peek_lane(parser)? {
        let target = Some(Box::new(
            parser.alloc(),
            MemArgTarget::Memory(Index::Num(number, span)),
        )?);
        let modifiers = parse_modifiers(parser)?;
        let lane = LaneArg::parse(parser)?;
        Ok(LoadOrStoreLane {
            memarg: modifiers.of(target, default_align),
            lane,
        })
    } else if number < 256 {
        Ok(LoadOrStoreLane {
            memarg: BARE.of(None, default_align),
            lane: LaneArg { lane: number as u8 },
        })
    } else {
        Err(parser.error_at(span, "integer out of range"))
    }
}

const BARE: Modifiers = Modifiers {
    ordering: None,
    offset: None,
    align: None,
};

/// Whether modifiers or a lane begin here.
fn peek_lane(parser: &Parser<'_>) -> Result<bool, Error>
    ensures { Asks result parser.now.source (ask lane_starts (ahead parser.now)) }
{
    match parser.peek::<Ordering>() {
        Ok(true) => Ok(true),
        Ok(false) => peek_offset(parser),
        Err(e) => Err(e),
    }
}

/// Whether an offset, an alignment or a lane begins here.
fn peek_offset(parser: &Parser<'_>) -> Result<bool, Error>
    ensures { Asks result parser.now.source (ask (join offset_starts (join align_starts integer_starts)) (ahead parser.now)) }
{
    match parser.peek_begun("offset=") {
        Ok(true) => Ok(true),
        Ok(false) => peek_align(parser),
        Err(e) => Err(e),
    }
}

/// Whether an alignment or a lane begins here.
fn peek_align(parser: &Parser<'_>) -> Result<bool, Error>
    ensures { Asks result parser.now.source (ask (join align_starts integer_starts) (ahead parser.now)) }
{
    match parser.peek_begun("align=") {
        Ok(true) => Ok(true),
        Ok(false) => parser.peek::<u32>(),
        Err(e) => Err(e),
    }
}
