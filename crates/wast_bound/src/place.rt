//! The test of what is mentioned at a place.
ghost use Rattle.std.specs.Prelude.{◌≡◌, ℕ, refl};
ghost use Rattle.std.specs.Result.{is_ok};
ghost use Rattle.wasm_encoder_base.specs.Table as table;
ghost use Rattle.wast_grammar.specs.Tokens.{Name};
ghost use Rattle.wast_grammar.specs.Spelling.{same_name};
ghost use Rattle.wast_parser.specs.Identifiers.{index_tree};
ghost use Rattle.wast_signatures.specs.SignatureViews.{use_tree};
ghost use Rattle.wast_names.specs.Demand.{Demand};
ghost use Rattle.wast_names.specs.Space as names;
ghost use Rattle.wast_meaning.specs.Demands.{mention_demands, says_demands, use_demands};
ghost use Rattle.wast_meaning.specs.Scope.{members};
ghost use Rattle.wast_meaning.specs.Spaces.{space_word};
ghost use Rattle.wast_meaning.specs.Views.{space_view};
ghost use Rattle.wast_bound.specs.Bound.{Broken, are_kept, is_kept};

use crate::known::Known;
use wast_core::{FunctionType, TypeUse};
use wast_meaning::Space;
use wast_mentions::{Judge, Judgement, Mention, Tell};
use wast_parser::Index;

/// That a name that is made up isn't bound.
#[derive(Drop)]
pub(crate) struct Unbound;

/// A fault, unless all is bound.
pub(crate) fn answer(is_bound: bool) -> Result<(), Unbound>
    ensures { is_ok result ≡ is_bound }
{
    if is_bound { Ok(()) } else { Err(Unbound) }
}

/// Who tests whether the names that are made up and mentioned at a place are bound.
#[derive(Clone, Copy)]
pub(crate) struct Place<K> {
    pub(crate) known: K,
}

impl<K: Known> Judgement for Place<K> {
    type Fault = Unbound;

    ghost Demand = { Demand Name ℕ };

    ghost holds = { is_kept };

    ghost asks = { λ p. mention_demands same_name (K.scope p.known) };

    ghost tells = { Broken };

    ghost anywhere = { λ first fault none. absurd (none refl) };
}

impl<'a, K: Known> Judge<'a> for Place<K> {
    fn judge(&self, mention: Mention<'_, 'a>) -> Result<(), Unbound> {
        match mention {
            Mention::Refers(space, index) => answer(is_bound(self.known, space, index)),
            Mention::Member { owner, field } => answer(is_member_bound(self.known, owner, field)),
            Mention::Uses(ty) => answer(is_use_bound(self.known, ty)),
            Mention::UsesInBlock(ty) => answer(is_use_bound(self.known, ty)),
            Mention::Repeats(_) => Ok(()),
        }
    }
}

/// The same of what a type use says itself.
#[derive(Clone, Copy)]
struct Said<K> {
    known: K,
}

impl<K: Known> Judgement for Said<K> {
    type Fault = Unbound;

    ghost Demand = { Demand Name ℕ };

    ghost holds = { is_kept };

    ghost asks = { λ s. says_demands same_name (K.scope s.known) };

    ghost tells = { Broken };

    ghost anywhere = { λ first fault none. absurd (none refl) };
}

impl<'a, K: Known> Judge<'a> for Said<K> {
    fn judge(&self, mention: Mention<'_, 'a>) -> Result<(), Unbound> {
        match mention {
            Mention::Refers(space, index) => answer(is_bound(self.known, space, index)),
            Mention::Member { owner, field } => answer(is_member_bound(self.known, owner, field)),
            Mention::Uses(_) => Ok(()),
            Mention::UsesInBlock(_) => Ok(()),
            Mention::Repeats(_) => Ok(()),
        }
    }
}

/// Whether an index of a space means something, if its name is made up.
fn is_bound<K: Known>(known: K, space: Space, index: &Index<'_>) -> bool
    ensures { result ≡ are_kept (names.known (space_word (space_view space)) ((K.scope known).spaces (space_view space)) (index_tree index.now)) }
{
    match index {
        Index::Num(_, _) => true,
        Index::Id(id) => !id.is_made() || known.has(space, id),
    }
}

/// Whether a field of the struct type before it means something, if its name is made up.
fn is_member_bound<K: Known>(known: K, owner: &Index<'_>, field: &Index<'_>) -> bool
    ensures { result ≡ are_kept (names.known (space_word table.Fields) (members (K.scope known) (index_tree owner.now)) (index_tree field.now)) }
{
    match field {
        Index::Num(_, _) => true,
        Index::Id(id) => !id.is_made() || known.has_member(owner, id),
    }
}

/// Whether the names in a type use that are made up are bound. That its signature is that of the type is no matter of names.
pub(crate) fn is_use_bound<'a, K: Known>(known: K, ty: &TypeUse<'a, FunctionType<'a>>) -> bool
    ensures { result ≡ are_kept (use_demands same_name (K.scope known) (use_tree ty.now)) }
{
    ty.tell(&Said { known }).is_ok()
}
