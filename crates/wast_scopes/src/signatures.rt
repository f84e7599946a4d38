//! The function types of a module by number.
ghost use Rattle.std.specs.Prelude.{◌≡◌, ◌++◌, true, [], ◌∷◌, Option, Some, None, map, IfOk, OnOk, option_map};
ghost use Rattle.std.specs.List.{flat_map};
ghost use Rattle.wasm_encoder_base.specs.Table as table;
ghost use Rattle.wast_signatures.specs.SignatureViews.{sig_tree};
ghost use Rattle.wast_core_types.specs.TypeViews.{item_tree};
ghost use Rattle.wast_module_fields.specs.ModuleFieldViews.{field_tree};
ghost use Rattle.wast_meaning.specs.Implied.{func_sig, written_types};
ghost use Rattle.wast_names.specs.Views.{space};
ghost use Rattle.wast_spaces.specs.Views.{spaces_of};
ghost use Rattle.wast_implied.specs.Views.{implied_tree, known};
ghost use Rattle.wast_scopes.specs.Numbered.{numbered_sig, same_sig_by};
ghost use Rattle.wast_scopes.specs.NumberedViews.{sig_of_numbered};
ghost use Rattle.wast_scopes.specs.Signatures.{Adds, func_type, sig_in, signatures};

use crate::numbered::NumberedSignature;
use std::alloc::{AllocError, Global};
use wast_core_types::{InnerTypeKind, TypeItem};
use wast_implied::{Implied, ImpliedType};
use wast_meaning::Space;
use wast_module_fields::ModuleField;
use wast_names::Namespace;
use wast_signatures::FunctionType;
use wast_spaces::Spaces;

/// The function types of a module by number, written and implied, in which each index is the number that it means (6.6, type uses).
#[derive(Drop)]
pub struct Signatures {
    /// None where a type is no function type.
    types: Vec<Option<NumberedSignature>>,
}

impl Signatures {
    /// Those of these fields: written types in order, then those that uses imply. Fails only where no memory is found.
    pub fn of<'a>(
        alloc: Global,
        fields: &[ModuleField<'a>],
        spaces: &Spaces<'a>,
        implied: &Implied<'a>,
    ) -> Result<Self, AllocError>
        ensures { IfOk result (λ s. signatures s ≡ map (option_map (numbered_sig (spaces_of spaces.now table.Types).look)) (map func_type (flat_map written_types (map field_tree fields.now)) ++ map (λ u. Some u.1) (known implied.now).implied)) }
    {
        match Signatures::written(alloc, fields, spaces.space(Space::Types)) {
            Ok(written) => written.with_implied(alloc, implied, spaces.space(Space::Types)),
            Err(e) => Err(e),
        }
    }

    /// Those that the fields write.
    fn written<'a>(
        alloc: Global,
        fields: &[ModuleField<'a>],
        types: &Namespace<'a>,
    ) -> Result<Self, AllocError>
        ensures { IfOk result (λ s. signatures s ≡ map (option_map (numbered_sig (space types.now).look)) (map func_type (flat_map written_types (map field_tree fields.now)))) }
    {
        let mut all = Signatures {
            types: Vec::new(alloc),
        };
        for field in fields {
            all.add_field(alloc, field, types)?;
        }
        Ok(all)
    }

    /// The same and those that are implied.
    fn with_implied<'a>(
        mut self,
        alloc: Global,
        implied: &Implied<'a>,
        types: &Namespace<'a>,
    ) -> Result<Self, AllocError>
        ensures { IfOk result (λ s. signatures s ≡ signatures self ++ map (option_map (numbered_sig (space types.now).look)) (map (λ u. Some u.1) (known implied.now).implied)) }
    {
        self.add_implied(alloc, implied.types(), types)?;
        Ok(self)
    }

    /// Whether a signature is that of the function type with this number, where names mean what they do in this space of types. Where there
    /// is no such type, any is.
    pub(crate) fn agrees<'a>(
        &self,
        number: u32,
        signature: &FunctionType<'a>,
        types: &Namespace<'a>,
    ) -> bool
        ensures { result ≡ same_sig_by (space types.now).look (sig_tree signature.now) (sig_in (signatures self.now) number) }
    {
        match self.get(number) {
            Some(other) => other.is_of(signature, types),
            None => true,
        }
    }

    /// The function type with a number.
    pub(crate) fn get(&self, number: u32) -> Option<&NumberedSignature>
        ensures { option_map (λ s. sig_of_numbered s.now) result ≡ sig_in (signatures self.now) number }
    {
        match self.types.get(number as usize) {
            Some(Some(signature)) => Some(signature),
            _ => None,
        }
    }

    /// The types that a field writes.
    fn add_field<'a>(
        &mut self,
        alloc: Global,
        field: &ModuleField<'a>,
        types: &Namespace<'a>,
    ) -> Result<(), AllocError>
        ensures { Adds (space types.now).look result self.old self.new (map func_type (written_types (field_tree field.now))) }
    {
        match field {
            ModuleField::TypeItem(item) => self.add_type(alloc, item, types),
            ModuleField::Rec(group) => self.add_group(alloc, &group.types, types),
            _ => Ok(()),
        }
    }

    /// The types of a group.
    fn add_group<'a>(
        &mut self,
        alloc: Global,
        items: &[TypeItem<'a>],
        types: &Namespace<'a>,
    ) -> Result<(), AllocError>
        ensures { Adds (space types.now).look result self.old self.new (map func_type (map (λ t. (t, true)) (map item_tree items.now))) }
    {
        for item in items {
            self.add_type(alloc, item, types)?;
        }
        Ok(())
    }

    /// A type that is written.
    fn add_type<'a>(
        &mut self,
        alloc: Global,
        item: &TypeItem<'a>,
        types: &Namespace<'a>,
    ) -> Result<(), AllocError>
        ensures { Adds (space types.now).look result self.old self.new (func_sig (item_tree item.now).definition.comp.inner ∷ []) }
    {
        match &item.def.kind {
            InnerTypeKind::Func(signature) => self.add_signature(alloc, signature, types),
            _ => self.add(None),
        }
    }

    /// Types that are implied.
    fn add_implied<'a>(
        &mut self,
        alloc: Global,
        implied: &[ImpliedType<'a>],
        types: &Namespace<'a>,
    ) -> Result<(), AllocError>
        ensures { Adds (space types.now).look result self.old self.new (map (λ u. Some u.1) (map implied_tree implied.now)) }
    {
        for ty in implied {
            self.add_signature(alloc, &ty.signature, types)?;
        }
        Ok(())
    }

    /// A function type.
    fn add_signature<'a>(
        &mut self,
        alloc: Global,
        signature: &FunctionType<'a>,
        types: &Namespace<'a>,
    ) -> Result<(), AllocError>
        ensures { Adds (space types.now).look result self.old self.new (Some (sig_tree signature.now) ∷ []) }
    {
        let signature = NumberedSignature::of(alloc, signature, types)?;
        self.add(Some(signature))
    }

    /// One more type, which may be no function type.
    fn add(&mut self, signature: Option<NumberedSignature>) -> Result<(), AllocError>
        ensures { OnOk result (signatures self.new ≡ signatures self.old ++ option_map sig_of_numbered signature ∷ []) }
    {
        self.types.push(signature)?;
        Ok(())
    }
}
