//! Whole lists of fields, resolved.
ghost use Rattle.std.specs.Prelude.{◌≡◌, ◌+◌, ◌^◌, ◌<◌, ◌≤◌, [], None, false, map, length, IfErr, IfOk, OnErr, OnOk};
ghost use Rattle.wasm_encoder_base.specs.Table.{Functions, Globals, Memories, Tables};
ghost use Rattle.wast_grammar.specs.Spelling.{same_name};
ghost use Rattle.wast_parser.specs.Identifiers.{index_tree};
ghost use Rattle.wast_parser.specs.Problem.{is_memory};
ghost use Rattle.wast_core.specs.ModuleFieldViews.{field_tree};
ghost use Rattle.wast_names.specs.Demand.{Answers, Refuses};
ghost use Rattle.wast_names.specs.Space.{known, number_of, resolved};
ghost use Rattle.wast_meaning.specs.Demands.{demands};
ghost use Rattle.wast_meaning.specs.Implied.{implied as implied_types};
ghost use Rattle.wast_meaning.specs.Numbered.{expanded, numbered};
ghost use Rattle.wast_meaning.specs.Spaces.{space_word};
ghost use Rattle.wast_implied.specs.Views.{known as gathered};
ghost use Rattle.wast_resolve.specs.Resolving.{Means, ns_space};
ghost use Rattle.wast_resolve.specs.Whole.{AreResolved, counter_after, demands_by, names_spaces, resolved_by, written_by};

use crate::names;
use crate::names::{Ns, Resolver};
use std::alloc::{AllocError, Global};
use wast_core::ModuleField;
use wast_deinline::deinline_import_export::{discard, run_in_place};
use wast_expanded::{InPlace, by_value, expand_in_place};
use wast_implied::Implied;
use wast_parser::{Error, Gensym, Index};

/// What the names of a module mean whose fields are resolved. Each call makes an index the number that it means in a space, at the same
/// place.
///
/// Each refuses a name that means none by `` unknown func: failed to find name `$f` `` at the identifier, or by want of memory for this
/// message. The index is unchanged then.
#[derive(Drop)]
pub struct Names<'a> {
    pub(crate) resolver: Resolver<'a>,
}

impl<'a> Names<'a> {
    /// An index of functions.
    pub fn resolve_func(&self, index: &mut Index<'a>) -> Result<(), Error>
        ensures resolved { OnOk result (index_tree index.new ≡ resolved (names_spaces self.now Functions) (index_tree index.old)) }
        ensures answers { Answers result (known (space_word Functions) (names_spaces self.now Functions) (index_tree index.old)) }
        ensures unknown { OnErr result (number_of (names_spaces self.now Functions) (index_tree index.old) ≡ None) }
        ensures refused { OnErr result (index.new ≡ index.old) }
    {
        self.resolve(index, Ns::Func)
    }

    /// An index of memories.
    pub fn resolve_memory(&self, index: &mut Index<'a>) -> Result<(), Error>
        ensures resolved { OnOk result (index_tree index.new ≡ resolved (names_spaces self.now Memories) (index_tree index.old)) }
        ensures answers { Answers result (known (space_word Memories) (names_spaces self.now Memories) (index_tree index.old)) }
        ensures unknown { OnErr result (number_of (names_spaces self.now Memories) (index_tree index.old) ≡ None) }
        ensures refused { OnErr result (index.new ≡ index.old) }
    {
        self.resolve(index, Ns::Memory)
    }

    /// An index of tables.
    pub fn resolve_table(&self, index: &mut Index<'a>) -> Result<(), Error>
        ensures resolved { OnOk result (index_tree index.new ≡ resolved (names_spaces self.now Tables) (index_tree index.old)) }
        ensures answers { Answers result (known (space_word Tables) (names_spaces self.now Tables) (index_tree index.old)) }
        ensures unknown { OnErr result (number_of (names_spaces self.now Tables) (index_tree index.old) ≡ None) }
        ensures refused { OnErr result (index.new ≡ index.old) }
    {
        self.resolve(index, Ns::Table)
    }

    /// An index of globals.
    pub fn resolve_global(&self, index: &mut Index<'a>) -> Result<(), Error>
        ensures resolved { OnOk result (index_tree index.new ≡ resolved (names_spaces self.now Globals) (index_tree index.old)) }
        ensures answers { Answers result (known (space_word Globals) (names_spaces self.now Globals) (index_tree index.old)) }
        ensures unknown { OnErr result (number_of (names_spaces self.now Globals) (index_tree index.old) ≡ None) }
        ensures refused { OnErr result (index.new ≡ index.old) }
    {
        self.resolve(index, Ns::Global)
    }

    /// An index of the items that a space of names has.
    fn resolve(&self, index: &mut Index<'a>, ns: Ns) -> Result<(), Error>
        ensures resolved { OnOk result (index_tree index.new ≡ resolved (names_spaces self.now (ns_space ns)) (index_tree index.old)) }
        ensures answers { Answers result (known (space_word (ns_space ns)) (names_spaces self.now (ns_space ns)) (index_tree index.old)) }
        ensures unknown { OnErr result (number_of (names_spaces self.now (ns_space ns)) (index_tree index.old) ≡ None) }
        ensures refused { OnErr result (index.new ≡ index.old) }
    {
        self.resolver.resolve(index, ns)?;
        Ok(())
    }
}

/// The fields, written out, with the types that uses take and with numbers for indices, and what their names mean (6.1.3, and 6.6, type
/// uses). A field that is referred to and has no name takes the next one of `gensym`, and there is room for one a field. A name that is
/// taken is fresh where each name of the fields that was made is one that `gensym` made since its last reset; else it may be that of
/// another item.
///
/// Refuses fields of which, written out, a demand of names isn't met, by the first, with its place and message; else only where no memory
/// is found, or there are more than 4294967295 items of a kind, types with those that uses imply, fields of a structure, parameters and
/// locals of a function, or blocks inside each other, or 2^64 bytes or more of data in an inline memory, which is told as want of memory. The
/// fields are gone then, and as many names are taken as where they are resolved; fewer, it may be, where no memory is found.
pub fn resolve<'a>(
    alloc: Global,
    fields: Vec<ModuleField<'a>>,
    gensym: &mut Gensym,
) -> Result<(Vec<ModuleField<'a>>, Names<'a>), Error>
    requires { gensym.old + length fields.items < 2 ^ 32 }
    ensures answers { Answers result (demands_by gensym.old (map field_tree fields.entry.items)) }
    ensures resolved { IfOk result (λ r. map field_tree r.0.items ≡ resolved_by gensym.old (map field_tree fields.entry.items)) }
    ensures names { IfOk result (λ r. Means (names_spaces r.1) (written_by gensym.old (map field_tree fields.entry.items))) }
    ensures counted { OnOk result (gensym.new ≡ counter_after gensym.old (map field_tree fields.entry.items)) }
    ensures rises { gensym.old ≤ gensym.new }
    ensures bounded { gensym.new ≤ counter_after gensym.old (map field_tree fields.entry.items) }
    ensures counted_unmet { IfErr result (λ e. is_memory e.cause ≡ false → gensym.new ≡ counter_after gensym.old (map field_tree fields.entry.items)) }
{
    match by_value(&Resolves { alloc }, gensym, fields) {
        (fields, Ok(names)) => Ok((fields, names)),
        (fields, Err(e)) => {
            discard(fields);
            Err(e)
        }
    }
}

/// Resolves fields.
#[derive(Drop)]
struct Resolves {
    alloc: Global,
}

impl<'a> InPlace<Vec<ModuleField<'a>>> for Resolves {
    type State = Gensym;

    type Answer = Names<'a>;

    type Refusal = Error;

    ghost takes = { λ w s old. s + length old.items < 2 ^ 32 };

    ghost done = { λ w s old after new n. AreResolved s (map field_tree old.items) after (map field_tree new.items) n };

    ghost refused = { λ w s old e. Refuses (demands_by s (map field_tree old.items)) e };

    ghost leaves = { λ s old after. (s ≤ after) × (after ≤ counter_after s (map field_tree old.items)) };

    ghost leaves_refused = { λ s old after e. is_memory e.cause ≡ false → after ≡ counter_after s (map field_tree old.items) };

    fn run(
        &self,
        gensym: &mut Gensym,
        fields: &mut Vec<ModuleField<'a>>,
    ) -> Result<Names<'a>, Error> {
        resolve_in_place(self.alloc, fields, gensym)
    }
}

/// The same as [`resolve`](crate::resolve) in the fields' place; refused, they may be gone.
pub(crate) fn resolve_in_place<'a>(
    alloc: Global,
    fields: &mut Vec<ModuleField<'a>>,
    gensym: &mut Gensym,
) -> Result<Names<'a>, Error>
    requires { gensym.old + length fields.old.items < 2 ^ 32 }
    ensures answers { Answers result (demands_by gensym.old (map field_tree fields.old.items)) }
    ensures resolved { OnOk result (map field_tree fields.new.items ≡ resolved_by gensym.old (map field_tree fields.old.items)) }
    ensures names { IfOk result (λ n. Means (names_spaces n) (written_by gensym.old (map field_tree fields.old.items))) }
    ensures counted { OnOk result (gensym.new ≡ counter_after gensym.old (map field_tree fields.old.items)) }
    ensures rises { gensym.old ≤ gensym.new }
    ensures bounded { gensym.new ≤ counter_after gensym.old (map field_tree fields.old.items) }
    ensures counted_unmet { IfErr result (λ e. is_memory e.cause ≡ false → gensym.new ≡ counter_after gensym.old (map field_tree fields.old.items)) }
{
    match expand_written(alloc, fields, gensym) {
        Ok(()) => number_expanded(alloc, fields),
        Err(e) => Err(Error::from(e)),
    }
}

/// Writes fields out, and gives uses their types.
fn expand_written<'a>(
    alloc: Global,
    fields: &mut Vec<ModuleField<'a>>,
    gensym: &mut Gensym,
) -> Result<(), AllocError>
    requires { gensym.old + length fields.old.items < 2 ^ 32 }
    ensures expanded { OnOk result (map field_tree fields.new.items ≡ expanded same_name (written_by gensym.old (map field_tree fields.old.items))) }
    ensures counted { OnOk result (gensym.new ≡ counter_after gensym.old (map field_tree fields.old.items)) }
    ensures rises { gensym.old ≤ gensym.new }
    ensures bounded { gensym.new ≤ counter_after gensym.old (map field_tree fields.old.items) }
{
    match run_in_place(alloc, fields, gensym) {
        Ok(()) => expand_in_place(alloc, fields),
        Err(e) => Err(e),
    }
}

/// Makes the indices of fields numbers, in which no use implies a type.
fn number_expanded<'a>(alloc: Global, fields: &mut Vec<ModuleField<'a>>) -> Result<Names<'a>, Error>
    requires { implied_types same_name (map field_tree fields.old.items) ≡ [] }
    ensures answers { Answers result (demands same_name (map field_tree fields.old.items)) }
    ensures numbered { OnOk result (map field_tree fields.new.items ≡ numbered same_name (map field_tree fields.old.items)) }
    ensures names { IfOk result (λ n. Means (names_spaces n) (map field_tree fields.old.items)) }
{
    match Implied::of(alloc, none_of(fields)) {
        Ok(implied) => number_known(alloc, &implied, fields),
        Err(e) => Err(Error::from(e)),
    }
}

/// The same where the types that uses in the fields imply are at hand.
fn number_known<'a>(
    alloc: Global,
    implied: &Implied<'a>,
    fields: &mut Vec<ModuleField<'a>>,
) -> Result<Names<'a>, Error>
    requires { (gathered implied.now).implied ≡ implied_types same_name (map field_tree fields.old.items) }
    ensures answers { Answers result (demands same_name (map field_tree fields.old.items)) }
    ensures numbered { OnOk result (map field_tree fields.new.items ≡ numbered same_name (map field_tree fields.old.items)) }
    ensures names { IfOk result (λ n. Means (names_spaces n) (map field_tree fields.old.items)) }
{
    match names::resolve_known(alloc, fields, implied) {
        Ok(resolver) => Ok(Names { resolver }),
        Err(e) => Err(e),
    }
}

/// None of some items.
fn none_of<T>(items: &[T]) -> &[T]
    ensures { result.now ≡ [] }
{
    &items[..0]
}
