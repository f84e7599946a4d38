//! Parameters and locals.
ghost use Rattle.std.specs.Prelude.{◌≡◌, ℕ, map};
ghost use Rattle.std.specs.List.{list_any};
ghost use Rattle.wast_grammar.specs.Tokens.{Name};
ghost use Rattle.wast_grammar.specs.Spelling.{same_name};
ghost use Rattle.wast_parser.specs.Identifiers.{identifier_tree};
ghost use Rattle.wast_signatures.specs.SignatureViews.{param_tree, use_tree};
ghost use Rattle.wast_fields.specs.FuncViews.{local_tree};
ghost use Rattle.wast_names.specs.Position.{bears};
ghost use Rattle.wast_names.specs.Space.{name_in};
ghost use Rattle.wast_meaning.specs.Scope.{Scope, params_of};
ghost use Rattle.wast_bound.specs.Places.{inside, locals_among};

use crate::known::Known;
use wast_core::{FunctionType, Local, TypeUse};
use wast_meaning::Space;
use wast_names::is_borne;
use wast_parser::{Id, Index};
use wast_signatures::Param;

/// A place in a function, outside its instructions.
#[derive(Clone, Copy)]
pub(crate) struct Inside<'h, 'a, K> {
    pub(crate) outside: K,
    pub(crate) ty: &'h TypeUse<'a, FunctionType<'a>>,
    pub(crate) locals: &'h [Local<'a>],
}

impl<K: Known> Known for Inside<'_, '_, K> {
    ghost scope = { λ i. inside (K.scope i.outside) i.ty.now i.locals.now };

    fn has(&self, space: Space, id: &Id<'_>) -> bool {
        match space {
            Space::Locals => is_local(self.ty, self.locals, id),
            _ => self.outside.has(space, id),
        }
    }

    fn has_member(&self, owner: &Index<'_>, id: &Id<'_>) -> bool {
        self.outside.has_member(owner, id)
    }
}

/// Whether a parameter or local bears a name. Where no signature is written, the parameters are those of the type, without names.
fn is_local(ty: &TypeUse<'_, FunctionType<'_>>, locals: &[Local<'_>], id: &Id<'_>) -> bool
    ensures { (s : Scope Name ℕ) → result ≡ list_any (bears same_name (identifier_tree id.now).0) (map name_in (locals_among s ty.now locals.now)) }
{
    is_param_of(ty, id) || is_among(locals, id)
}

/// Whether a parameter of a type use bears a name.
fn is_param_of(ty: &TypeUse<'_, FunctionType<'_>>, id: &Id<'_>) -> bool
    ensures { (s : Scope Name ℕ) → result ≡ list_any (bears same_name (identifier_tree id.now).0) (map name_in (params_of s (use_tree ty.now))) }
{
    match &ty.inline {
        Some(signature) => is_param(&signature.params, id),
        None => false,
    }
}

/// Whether one of these parameters bears a name.
fn is_param(params: &[Param<'_>], id: &Id<'_>) -> bool
    ensures { result ≡ list_any (bears same_name (identifier_tree id.now).0) (map name_in (map (λ p. p.id) (map param_tree params.now))) }
{
    for param in params {
        if is_borne(&param.0, id) {
            return true;
        }
    }
    false
}

/// Whether one of these locals bears a name.
fn is_among(locals: &[Local<'_>], id: &Id<'_>) -> bool
    ensures { result ≡ list_any (bears same_name (identifier_tree id.now).0) (map name_in (map (λ l. l.id) (map local_tree locals.now))) }
{
    for local in locals {
        if is_borne(&local.id, id) {
            return true;
        }
    }
    false
}
