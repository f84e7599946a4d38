//! A place in a body, and the test of what is mentioned there.
ghost use Rattle.std.specs.Prelude.{◌≡◌, ◌⊎◌, ℕ, [], ◌∷◌, false};
ghost use Rattle.std.specs.List.{flat_map};
ghost use Rattle.wasm_encoder_base.specs.Table as table;
ghost use Rattle.wast_grammar.specs.Tokens.{Name};
ghost use Rattle.wast_parser.specs.Identifiers.{ByName, identifier_tree, index_tree};
ghost use Rattle.wast_parser.specs.Reading.{out_of_memory};
ghost use Rattle.wast_signatures.specs.SignatureViews.{sig_tree, use_tree};
ghost use Rattle.wast_names.specs.Demand.{Answers, Demand, LabelMismatch, TypeMismatch, is_met, told};
ghost use Rattle.wast_meaning.specs.Mentions.{use_mentions};
ghost use Rattle.wast_meaning.specs.Spaces.{space_word};
ghost use Rattle.wast_meaning.specs.Views.{space_view};
ghost use Rattle.wast_scopes.specs.Known.{agreement_by, agreements_by, known_by, members_by, mention_by, repeats_by, says_by, use_by};
ghost use Rattle.wast_scopes.specs.Views.{Refused, known_here, refused_anywhere};

use crate::labels::Labels;
use crate::scope::Scope;
use std::alloc::Global;
use wast_meaning::Space;
use wast_mentions::{Judge, Judgement, Mention, Tell};
use wast_names::resolve_error;
use wast_parser::{Error, Id, Index, Span};
use wast_signatures::{FunctionType, TypeUse};

/// A place: what is known outside blocks, and the labels of the blocks that are open. As a judge it tests whether names mean something,
/// type uses agree with the types that they name, and a name that is repeated is that of the innermost block.
#[derive(Drop)]
pub struct Place<'p, 's, 'a> {
    pub scope: &'p Scope<'s, 'a>,
    pub labels: &'p Labels<'a>,
}

impl Judgement for Place<'_, '_, '_> {
    type Fault = Error;

    ghost Demand = { Demand Name ℕ };

    ghost holds = { is_met };

    ghost asks = { λ p. mention_by (known_here p) };

    ghost tells = { Refused };

    ghost anywhere = { refused_anywhere };
}

impl<'a> Judge<'a> for Place<'_, '_, 'a> {
    fn judge(&self, mention: Mention<'_, 'a>) -> Result<(), Error> {
        match mention {
            Mention::Refers(space, index) => self.check_index(space, index),
            Mention::Member { owner, field } => self.check_member(owner, field),
            Mention::Uses(ty) => self.check_use(ty),
            Mention::UsesInBlock(ty) => self.check_use(ty),
            Mention::Repeats(id) => self.check_repeated(id),
        }
    }
}

impl<'a> Place<'_, '_, 'a> {
    /// Refuses a name that means nothing in a space, by `` unknown func: failed to find name `$f` `` at it.
    pub(crate) fn check_index(&self, space: Space, index: &Index<'a>) -> Result<(), Error>
        ensures { Answers result (known_by (space_word (space_view space)) ((known_here self.now).look (space_view space)) (index_tree index.now)) }
    {
        match index {
            Index::Num(_, _) => Ok(()),
            Index::Id(id) => self.check_name(space, id),
        }
    }

    /// The same of a name.
    fn check_name(&self, space: Space, id: &Id<'a>) -> Result<(), Error>
        ensures { Answers result (known_by (space_word (space_view space)) ((known_here self.now).look (space_view space)) (ByName (identifier_tree id.now))) }
    {
        match self.look(space, id) {
            Some(_) => Ok(()),
            None => Err(resolve_error(self.scope.alloc, id, space.word())),
        }
    }

    /// The number that a name means in a space.
    fn look(&self, space: Space, id: &Id<'a>) -> Option<u32>
        ensures { result ≡ (known_here self.now).look (space_view space) (identifier_tree id.now).0 }
    {
        match space {
            Space::Labels => self.labels.get(id),
            _ => self.scope.look(space, id),
        }
    }

    /// Refuses the name of a field that the struct type before it doesn't have.
    fn check_member(&self, owner: &Index<'a>, field: &Index<'a>) -> Result<(), Error>
        ensures { Answers result (known_by (space_word table.Fields) (members_by (known_here self.now) (index_tree owner.now)) (index_tree field.now)) }
    {
        match field {
            Index::Num(_, _) => Ok(()),
            Index::Id(id) => match self.scope.member(owner, id) {
                Some(_) => Ok(()),
                None => Err(resolve_error(self.scope.alloc, id, "field")),
            },
        }
    }

    /// Refuses a name that isn't that of the innermost block, by `mismatching labels between end and block` at it.
    fn check_repeated(&self, id: &Id<'a>) -> Result<(), Error>
        ensures { Answers result (repeats_by self.now.labels.now (identifier_tree id.now) ∷ []) }
    {
        if self.labels.repeats(id) {
            return Ok(());
        }
        Err(label_mismatch(self.scope.alloc, id.span()))
    }

    /// Refuses a type use that names something unknown, or whose signature isn't that of the type that it names.
    pub(crate) fn check_use(&self, ty: &TypeUse<'a, FunctionType<'a>>) -> Result<(), Error>
        ensures { Answers result (use_by (known_here self.now) (use_tree ty.now)) }
    {
        match self.check_said(ty) {
            Ok(()) => self.check_agreement(ty),
            Err(e) => Err(e),
        }
    }

    /// Refuses a type use that names something unknown: its index, then the types of its signature.
    fn check_said(&self, ty: &TypeUse<'a, FunctionType<'a>>) -> Result<(), Error>
        ensures { Answers result (flat_map (says_by (known_here self.now)) (use_mentions (use_tree ty.now))) }
    {
        ty.tell(&Said { place: self })
    }

    /// Refuses a signature that isn't that of the type that stands beside it, by `inline function type doesn't match type reference` at
    /// the index of the type.
    fn check_agreement(&self, ty: &TypeUse<'a, FunctionType<'a>>) -> Result<(), Error>
        ensures { Answers result (agreements_by (known_here self.now) (use_tree ty.now)) }
    {
        match (&ty.index, &ty.inline) {
            (Some(index), Some(signature)) => self.check_signature(index, signature),
            _ => Ok(()),
        }
    }

    /// The same of a signature and an index.
    fn check_signature(&self, index: &Index<'a>, signature: &FunctionType<'a>) -> Result<(), Error>
        ensures { Answers result (agreement_by (known_here self.now) (index_tree index.now) (sig_tree signature.now) ∷ []) }
    {
        if self.scope.agrees(index, signature) {
            return Ok(());
        }
        Err(type_mismatch(self.scope.alloc, index.span()))
    }
}

/// A place where type uses are no mentions of their own.
#[derive(Drop)]
struct Said<'q, 'p, 's, 'a> {
    place: &'q Place<'p, 's, 'a>,
}

impl Judgement for Said<'_, '_, '_, '_> {
    type Fault = Error;

    ghost Demand = { Demand Name ℕ };

    ghost holds = { is_met };

    ghost asks = { λ s. says_by (known_here s.place.now) };

    ghost tells = { Refused };

    ghost anywhere = { refused_anywhere };
}

impl<'a> Judge<'a> for Said<'_, '_, '_, 'a> {
    fn judge(&self, mention: Mention<'_, 'a>) -> Result<(), Error> {
        match mention {
            Mention::Refers(space, index) => self.place.check_index(space, index),
            Mention::Member { owner, field } => self.place.check_member(owner, field),
            Mention::Uses(_) => Ok(()),
            Mention::UsesInBlock(_) => Ok(()),
            Mention::Repeats(id) => self.place.check_repeated(id),
        }
    }
}

/// The error that a signature isn't that of the type that its use names; or want of memory for the message.
fn type_mismatch(alloc: Global, place: Span) -> Error
    ensures { (result ≡ out_of_memory) ⊎ (result ≡ told (record { place = place; complaint = TypeMismatch; holds = false })) }
{
    match String::from_str(alloc, "inline function type doesn't match type reference") {
        Ok(text) => Error::new(place, text),
        Err(e) => Error::from(e),
    }
}

/// The error that a name that is repeated isn't the block's; or want of memory for the message.
fn label_mismatch(alloc: Global, place: Span) -> Error
    ensures { (result ≡ out_of_memory) ⊎ (result ≡ told (record { place = place; complaint = LabelMismatch; holds = false })) }
{
    match String::from_str(alloc, "mismatching labels between end and block") {
        Ok(text) => Error::new(place, text),
        Err(e) => Error::from(e),
    }
}
