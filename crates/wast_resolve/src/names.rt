//! What names mean, and indices as numbers.
ghost use Rattle.std.specs.Prelude.{◌≡◌, ◌++◌, Some, None, map, IfOk, OnErr, OnOk};
ghost use Rattle.std.specs.List.{flat_map};
ghost use Rattle.wast_grammar.specs.Spelling.{same_name};
ghost use Rattle.wast_parser.specs.Identifiers.{index_tree};
ghost use Rattle.wast_core.specs.ModuleFieldViews.{field_tree};
ghost use Rattle.wast_names.specs.Demand.{Answers, Refuses, is_met};
ghost use Rattle.wast_names.specs.Space as names;
ghost use Rattle.wast_names.specs.Space.{known, number_of, resolved};
ghost use Rattle.wast_names.specs.Walk.{first_unmet};
ghost use Rattle.wast_meaning.specs.Demands.{demands, item_demands, order_demands};
ghost use Rattle.wast_meaning.specs.Implied.{implied as implied_types};
ghost use Rattle.wast_meaning.specs.Numbered.{numbered};
ghost use Rattle.wast_meaning.specs.Spaces.{items, space_word};
ghost use Rattle.wast_spaces.specs.Joins.{spaces_behind, type_fields};
ghost use Rattle.wast_spaces.specs.Views.{fields_of_types, spaces_of};
ghost use Rattle.wast_implied.specs.Views.{known as gathered};
ghost use Rattle.wast_resolve.specs.Resolving.{AreNumbered, Means, ns_space, resolver_spaces};

use crate::numbered::number_fields;
use std::alloc::Global;
use wast_core::ModuleField;
use wast_deinline::deinline_import_export::discard;
use wast_demands::{check_mentions, ordered_spaces};
use wast_expanded::{InPlace, by_value};
use wast_implied::Implied;
use wast_meaning::Space;
use wast_parser::{Error, Index};
use wast_spaces::Spaces;

/// An index space of a module in which names may be looked up.
#[derive(Clone, Copy, Debug, PartialEq, Eq)]
pub enum Ns {
    Func,
    Table,
    Global,
    Memory,
    Tag,
    TypeItem,
}

/// What the names of a module mean, in each of its index spaces.
#[derive(Drop)]
pub struct Resolver<'a> {
    pub(crate) spaces: Spaces<'a>,
}

impl<'a> Resolver<'a> {
    /// Makes an index of a space the number that it means, at the same place, and answers that.
    ///
    /// Refuses a name that means none by `` unknown func: failed to find name `$f` `` at the identifier, or by want of memory for this
    /// message. The index is unchanged then.
    pub fn resolve(&self, index: &mut Index<'a>, ns: Ns) -> Result<u32, Error>
        ensures number { IfOk result (λ number. number_of (resolver_spaces self.now (ns_space ns)) (index_tree index.old) ≡ Some number) }
        ensures resolved { OnOk result (index_tree index.new ≡ resolved (resolver_spaces self.now (ns_space ns)) (index_tree index.old)) }
        ensures answers { Answers result (known (space_word (ns_space ns)) (resolver_spaces self.now (ns_space ns)) (index_tree index.old)) }
        ensures unknown { OnErr result (number_of (resolver_spaces self.now (ns_space ns)) (index_tree index.old) ≡ None) }
        ensures refused { OnErr result (index.new ≡ index.old) }
    {
        match ns {
            Ns::Func => self.spaces.space(Space::Functions).resolve(index, "func"),
            Ns::Table => self.spaces.space(Space::Tables).resolve(index, "table"),
            Ns::Global => self.spaces.space(Space::Globals).resolve(index, "global"),
            Ns::Memory => self.spaces.space(Space::Memories).resolve(index, "memory"),
            Ns::Tag => self.spaces.space(Space::Tags).resolve(index, "tag"),
            Ns::TypeItem => self.spaces.space(Space::Types).resolve(index, "type"),
        }
    }
}

/// The fields with numbers for indices, nothing else of them changed, and what their names mean (6.1.3). The recorded places of instructions
/// aren't promised, for `field_tree` doesn't have them. Types that uses imply have their numbers, behind those that are written, but are not
/// added: that is done by `types::expand`.
///
/// Refuses fields of which a demand of names isn't met, by the first, with its place and message; else only where no memory is found, or
/// there are more than 4294967295 items of a kind, types with those that uses imply, fields of a structure, parameters and locals of a
/// function, or blocks inside each other, which is told as want of memory. The fields are gone then.
pub fn resolve<'a>(
    alloc: Global,
    fields: Vec<ModuleField<'a>>,
) -> Result<(Vec<ModuleField<'a>>, Resolver<'a>), Error>
    ensures answers { Answers result (demands same_name (map field_tree fields.entry.items)) }
    ensures numbered { IfOk result (λ r. map field_tree r.0.items ≡ numbered same_name (map field_tree fields.entry.items)) }
    ensures names { IfOk result (λ r. Means (resolver_spaces r.1) (map field_tree fields.entry.items)) }
{
    match by_value(&Numbers { alloc }, &mut (), fields) {
        (fields, Ok(resolver)) => Ok((fields, resolver)),
        (fields, Err(e)) => {
            discard(fields);
            Err(e)
        }
    }
}

/// Makes indices numbers.
#[derive(Drop)]
struct Numbers {
    alloc: Global,
}

impl<'a> InPlace<Vec<ModuleField<'a>>> for Numbers {
    type State = ();

    type Answer = Resolver<'a>;

    type Refusal = Error;

    ghost takes = { λ w s old. Unit {0} };

    ghost done = { λ w s old after new r. AreNumbered (map field_tree old.items) (map field_tree new.items) r };

    ghost refused = { λ w s old e. Refuses (demands same_name (map field_tree old.items)) e };

    ghost leaves = { λ s old after. Unit {0} };

    ghost leaves_refused = { λ s old after e. Unit {0} };

    fn run(
        &self,
        _state: &mut (),
        fields: &mut Vec<ModuleField<'a>>,
    ) -> Result<Resolver<'a>, Error> {
        resolve_in_place(self.alloc, fields)
    }
}

/// The same in the fields' place; refused, some of them may be changed.
fn resolve_in_place<'a>(
    alloc: Global,
    fields: &mut Vec<ModuleField<'a>>,
) -> Result<Resolver<'a>, Error>
    ensures answers { Answers result (demands same_name (map field_tree fields.old.items)) }
    ensures numbered { OnOk result (map field_tree fields.new.items ≡ numbered same_name (map field_tree fields.old.items)) }
    ensures names { IfOk result (λ r. Means (resolver_spaces r) (map field_tree fields.old.items)) }
{
    match Implied::of(alloc, fields) {
        Ok(implied) => resolve_known(alloc, fields, &implied),
        Err(e) => Err(Error::from(e)),
    }
}

/// The same where the types that uses in the fields imply are at hand.
pub(crate) fn resolve_known<'a>(
    alloc: Global,
    fields: &mut Vec<ModuleField<'a>>,
    implied: &Implied<'a>,
) -> Result<Resolver<'a>, Error>
    requires { (gathered implied.now).implied ≡ implied_types same_name (map field_tree fields.old.items) }
    ensures answers { Answers result (demands same_name (map field_tree fields.old.items)) }
    ensures numbered { OnOk result (map field_tree fields.new.items ≡ numbered same_name (map field_tree fields.old.items)) }
    ensures names { IfOk result (λ r. Means (resolver_spaces r) (map field_tree fields.old.items)) }
{
    match ordered_spaces(alloc, fields) {
        Ok(spaces) => resolve_with(alloc, fields, spaces, implied),
        Err(e) => Err(e),
    }
}

/// The same where imports stand before definitions, no item bears the name of an earlier one, and these are the fields' index spaces.
fn resolve_with<'a>(
    alloc: Global,
    fields: &mut Vec<ModuleField<'a>>,
    spaces: Spaces<'a>,
    implied: &Implied<'a>,
) -> Result<Resolver<'a>, Error>
    requires ordered { first_unmet is_met (order_demands (map field_tree fields.old.items) ++ item_demands same_name (flat_map items (map field_tree fields.old.items))) ≡ None }
    requires spaces { spaces_of spaces ≡ spaces_behind (λ t. names.empty) (flat_map items (map field_tree fields.old.items)) }
    requires fields { fields_of_types spaces ≡ type_fields (flat_map items (map field_tree fields.old.items)) }
    requires implied { (gathered implied.now).implied ≡ implied_types same_name (map field_tree fields.old.items) }
    ensures answers { Answers result (demands same_name (map field_tree fields.old.items)) }
    ensures numbered { OnOk result (map field_tree fields.new.items ≡ numbered same_name (map field_tree fields.old.items)) }
    ensures names { IfOk result (λ r. Means (resolver_spaces r) (map field_tree fields.old.items)) }
{
    match number_ordered(alloc, fields, &spaces, implied) {
        Ok(()) => Ok(Resolver { spaces }),
        Err(e) => Err(e),
    }
}

/// Tests what is mentioned in such fields, and makes their indices numbers.
fn number_ordered<'a>(
    alloc: Global,
    fields: &mut Vec<ModuleField<'a>>,
    spaces: &Spaces<'a>,
    implied: &Implied<'a>,
) -> Result<(), Error>
    requires ordered { first_unmet is_met (order_demands (map field_tree fields.old.items) ++ item_demands same_name (flat_map items (map field_tree fields.old.items))) ≡ None }
    requires spaces { spaces_of spaces.now ≡ spaces_behind (λ t. names.empty) (flat_map items (map field_tree fields.old.items)) }
    requires fields { fields_of_types spaces.now ≡ type_fields (flat_map items (map field_tree fields.old.items)) }
    requires implied { (gathered implied.now).implied ≡ implied_types same_name (map field_tree fields.old.items) }
    ensures answers { Answers result (demands same_name (map field_tree fields.old.items)) }
    ensures numbered { OnOk result (map field_tree fields.new.items ≡ numbered same_name (map field_tree fields.old.items)) }
{
    match check_mentions(alloc, fields, spaces, implied) {
        Ok(()) => number_met(alloc, fields, spaces, implied),
        Err(e) => Err(e),
    }
}

/// Makes indices numbers where all demands are met.
fn number_met<'a>(
    alloc: Global,
    fields: &mut Vec<ModuleField<'a>>,
    spaces: &Spaces<'a>,
    implied: &Implied<'a>,
) -> Result<(), Error>
    requires met { first_unmet is_met (demands same_name (map field_tree fields.old.items)) ≡ None }
    requires spaces { spaces_of spaces.now ≡ spaces_behind (λ t. names.empty) (flat_map items (map field_tree fields.old.items)) }
    requires fields { fields_of_types spaces.now ≡ type_fields (flat_map items (map field_tree fields.old.items)) }
    requires implied { (gathered implied.now).implied ≡ implied_types same_name (map field_tree fields.old.items) }
    ensures answers { Answers result (demands same_name (map field_tree fields.old.items)) }
    ensures numbered { OnOk result (map field_tree fields.new.items ≡ numbered same_name (map field_tree fields.old.items)) }
{
    match number_fields(alloc, implied, fields, spaces) {
        Ok(()) => Ok(()),
        Err(e) => Err(Error::from(e)),
    }
}
