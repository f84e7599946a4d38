//! Gathering.
ghost use Rattle.std.specs.Prelude.{◌≡◌, ◌-◌, ◌^◌, ◌<◌, [], ◌∷◌, true, None, Some, map, option_map, unwrap_or, IfOk, OnOk};
ghost use Rattle.wast_signatures.specs.SignatureViews.{param_tree, sig_tree, use_tree};
ghost use Rattle.wast_core_types.specs.TypeViews.{item_tree};
ghost use Rattle.wast_names.specs.Walk.{reached};
ghost use Rattle.wast_meaning.specs.Mentions.{Uses, UsesInBlock};
ghost use Rattle.wast_names.specs.Space.{grown};
ghost use Rattle.wast_meaning.specs.Implied.{is_short, no_sig, plain_sig, unnamed, unnamed_local};
ghost use Rattle.wast_implied.specs.Shapes.{Shape, same_shape, shape, shape_of_key};
ghost use Rattle.wast_implied.specs.Known.{after_mentions, after_use, after_written, nothing};
ghost use Rattle.wast_implied.specs.Views.{implied_tree, known};

use crate::key::Key;
use std::alloc::{AllocError, Global};
use std::collections::BTreeMap;
use wast_core_types::{InnerTypeKind, TypeItem};
use wast_parser::Span;
use wast_signatures::{FunctionType, Param, TypeUse};
use wast_value_types::ValType;

/// A type that no field writes and a use implies.
#[derive(Drop)]
pub struct ImpliedType<'a> {
    /// Where the keyword of the field stands that uses it first.
    pub span: Span,
    /// Its signature, without names of parameters.
    pub signature: FunctionType<'a>,
}

/// The types that the uses in a module's fields imply, and the number that each use takes (6.5, control instructions, and 6.6, type uses).
#[derive(Drop)]
pub struct Implied<'a> {
    alloc: Global,
    numbers: BTreeMap<Key<'a>, u32>,
    count: u32,
    types: Vec<ImpliedType<'a>>,
}

impl<'a> Implied<'a> {
    /// Those of no fields.
    pub(crate) fn new(alloc: Global) -> Self
        ensures { known result ≡ nothing }
    {
        Implied {
            alloc,
            numbers: BTreeMap::new(alloc),
            count: 0,
            types: Vec::new(alloc),
        }
    }

    /// The number that a use without an index takes: that of the first plain type with its signature, which is the empty one where none
    /// is written. Fails only where no memory is found to look it up.
    pub fn number_of(&self, signature: Option<&FunctionType<'a>>) -> Result<Option<u32>, AllocError>
        ensures { IfOk result (λ number. number ≡ (known self.now).types.look (shape (unwrap_or (option_map (λ s. sig_tree s.now) signature.entry) no_sig))) }
    {
        match signature {
            Some(signature) => self.find(signature),
            None => self.find(&empty(self.alloc)),
        }
    }

    /// The implied types in order, each at the place of the field that uses it first. Their numbers follow those of all written types.
    pub fn types(&self) -> &[ImpliedType<'a>]
        ensures { map implied_tree result.now ≡ (known self.now).implied }
    {
        &self.types
    }

    /// The number of the first plain type with a signature.
    fn find(&self, signature: &FunctionType<'a>) -> Result<Option<u32>, AllocError>
        ensures { IfOk result (λ number. number ≡ (known self.now).types.look (shape (sig_tree signature.now))) }
    {
        let key = Key::of(self.alloc, signature)?;
        Ok(self.get(&key))
    }

    /// The number of a key.
    fn get(&self, key: &Key<'a>) -> Option<u32>
        ensures { result ≡ (known self.now).types.look (shape_of_key key.now) }
    {
        self.numbers.get(key).copied()
    }

    // WRITTEN TYPES

    /// Takes up the types of a group.
    pub(crate) fn add_group(&mut self, items: &[TypeItem<'a>]) -> Result<(), AllocError>
        ensures { OnOk result (known self.new ≡ reached after_written (known self.old) (map (λ t. (t, true)) (map item_tree items.now))) }
    {
        for item in items {
            self.add_type(item, true)?;
        }
        Ok(())
    }

    /// Takes up a type, in a group or outside.
    pub(crate) fn add_type(&mut self, item: &TypeItem<'a>, in_group: bool) -> Result<(), AllocError>
        ensures { OnOk result (known self.new ≡ after_written (known self.old) (item_tree item.now, in_group)) }
    {
        match plain_signature(item, in_group) {
            Some(signature) => {
                let key = Key::of(self.alloc, signature)?;
                self.grow(Some(key))
            }
            None => self.grow(None),
        }
    }

    // USES

    /// Takes up the type that a use at a place implies.
    pub(crate) fn add_use(
        &mut self,
        span: Span,
        ty: &TypeUse<'a, FunctionType<'a>>,
    ) -> Result<(), AllocError>
        ensures { OnOk result (known self.new ≡ after_mentions span (known self.old) (Uses (use_tree ty.now) ∷ [])) }
    {
        match (&ty.index, &ty.inline) {
            (Some(_), _) => Ok(()),
            (None, Some(signature)) => self.add_signature(span, signature),
            (None, None) => self.add_signature(span, &empty(self.alloc)),
        }
    }

    /// Takes up the type that the use of a block implies. One without parameters and with at most one result needs none.
    pub(crate) fn add_block(
        &mut self,
        span: Span,
        ty: &TypeUse<'a, FunctionType<'a>>,
    ) -> Result<(), AllocError>
        ensures { OnOk result (known self.new ≡ after_mentions span (known self.old) (UsesInBlock (use_tree ty.now) ∷ [])) }
    {
        match (&ty.index, &ty.inline) {
            (None, Some(signature)) => self.add_long(span, signature),
            (Some(_), _) => Ok(()),
            (None, None) => Ok(()),
        }
    }

    /// Takes up the signature of the use of a block without an index, unless it is short.
    fn add_long(&mut self, span: Span, signature: &FunctionType<'a>) -> Result<(), AllocError>
        ensures { OnOk result (known self.new ≡ after_mentions span (known self.old) (UsesInBlock (record { index = None; inline = Some (sig_tree signature.now) }) ∷ [])) }
    {
        if is_short(signature) {
            return Ok(());
        }
        self.add_signature(span, signature)
    }

    /// Takes up the signature of a use without an index, at a place.
    fn add_signature(&mut self, span: Span, signature: &FunctionType<'a>) -> Result<(), AllocError>
        ensures { OnOk result (known self.new ≡ after_use (known self.old) (span, sig_tree signature.now)) }
    {
        let key = Key::of(self.alloc, signature)?;
        if self.get(&key).is_some() {
            return Ok(());
        }
        let signature = unnamed(self.alloc, signature)?;
        self.types.push(ImpliedType { span, signature })?;
        self.grow(Some(key))
    }

    // THE MAP

    /// One more type, which is a plain function type with this key, or isn't one. Of two with one key the first keeps it.
    fn grow(&mut self, key: Option<Key<'a>>) -> Result<(), AllocError>
        ensures { OnOk result (known self.new ≡ record { types = grown same_shape (known self.old).types (option_map shape_of_key key.entry); implied = (known self.old).implied }) }
    {
        if self.count == u32::MAX {
            return Err(AllocError);
        }
        match key {
            Some(key) => self.grow_with(key),
            None => {
                self.count += 1;
                Ok(())
            }
        }
    }

    /// One more type, which is a plain function type with this key.
    fn grow_with(&mut self, key: Key<'a>) -> Result<(), AllocError>
        requires { self.old.count < 2 ^ 32 - 1 }
        ensures { OnOk result (known self.new ≡ record { types = grown same_shape (known self.old).types (Some (shape_of_key key.entry)); implied = (known self.old).implied }) }
    {
        self.bind_first(key)?;
        self.count += 1;
        Ok(())
    }

    /// Gives a key the next number, where it has none.
    fn bind_first(&mut self, key: Key<'a>) -> Result<(), AllocError>
        ensures look { OnOk result ((s : Shape) → (known self.new).types.look s ≡ (grown same_shape (known self.old).types (Some (shape_of_key key.entry))).look s) }
        ensures count { self.new.count ≡ self.old.count }
        ensures types { self.new.types ≡ self.old.types }
    {
        if self.get(&key).is_none() {
            self.numbers.insert(key, self.count)?;
        }
        Ok(())
    }
}

/// The signature of a plain function type: one that is final, without a supertype and outside groups.
fn plain_signature<'a, 'b>(item: &'b TypeItem<'a>, in_group: bool) -> Option<&'b FunctionType<'a>>
    ensures { option_map (λ s. sig_tree s.now) result ≡ plain_sig (item_tree item.now, in_group) }
{
    if !item.def.final_type || item.def.parent.is_some() || in_group {
        return None;
    }
    match &item.def.kind {
        InnerTypeKind::Func(signature) => Some(signature),
        _ => None,
    }
}

/// Whether a signature has no parameters, and at most one result.
pub fn is_short(signature: &FunctionType<'_>) -> bool
    ensures { result ≡ is_short (sig_tree signature.now) }
{
    signature.params.is_empty() && signature.results.len() <= 1
}

/// The signature without parameters and results.
fn empty<'a>(alloc: Global) -> FunctionType<'a>
    ensures { sig_tree result ≡ no_sig }
{
    FunctionType {
        params: Vec::new(alloc),
        results: Vec::new(alloc),
    }
}

/// The same signature without names of parameters. Fails only where no memory is found for it.
fn unnamed<'a>(alloc: Global, signature: &FunctionType<'a>) -> Result<FunctionType<'a>, AllocError>
    ensures { IfOk result (λ copy. sig_tree copy ≡ unnamed (sig_tree signature.now)) }
{
    let params = unnamed_params(alloc, &signature.params)?;
    let results = copied_types(alloc, &signature.results)?;
    Ok(FunctionType { params, results })
}

/// The same parameters without names.
fn unnamed_params<'a>(alloc: Global, params: &[Param<'a>]) -> Result<Vec<Param<'a>>, AllocError>
    ensures { IfOk result (λ copies. map param_tree copies.items ≡ map unnamed_local (map param_tree params.now)) }
{
    let mut copies = Vec::new(alloc);
    for param in params {
        let ty = param.2.clone(alloc)?;
        copies.push((None, None, ty))?;
    }
    Ok(copies)
}

/// The same types. Fails only where no memory is found for them.
pub fn copied_types<'a>(
    alloc: Global,
    types: &[ValType<'a>],
) -> Result<Vec<ValType<'a>>, AllocError>
    ensures { IfOk result (λ copies. copies.items ≡ types.now) }
{
    let mut copies = Vec::with_capacity(alloc, types.len())?;
    for ty in types {
        copies.push(ty.clone(alloc)?)?;
    }
    Ok(copies)
}
