//! Whole fields.
ghost use Rattle.std.specs.Prelude.{◌≡◌, ℕ, map, IfOk, OnOk};
ghost use Rattle.wast_grammar.specs.Tokens.{Name};
ghost use Rattle.wast_parser.specs.Spelling.{same_name};
ghost use Rattle.wast_signatures.specs.TypeTree.{Sig};
ghost use Rattle.wast_names.specs.Walk.{reached};
ghost use Rattle.wast_module_fields.specs.ModuleFieldViews.{field_tree};
ghost use Rattle.wast_meaning.specs.Implied.{implied, type_count, type_taken};
ghost use Rattle.wast_implied.specs.Shapes.{shape};
ghost use Rattle.wast_implied.specs.Known.{after_field, after_written_field};
ghost use Rattle.wast_implied.specs.Views.{known};

use crate::gathered::Implied;
use std::alloc::{AllocError, Global};
use wast_module_fields::ModuleField;

impl<'a> Implied<'a> {
    /// Those of these fields. Fails only where no memory is found, or there are more than 4294967295 types, which is told as want of memory.
    pub fn of(alloc: Global, fields: &[ModuleField<'a>]) -> Result<Self, AllocError>
        ensures types { IfOk result (λ all. (known all).implied ≡ implied same_name (map field_tree fields.now)) }
        ensures numbers { IfOk result (λ all. (s : Sig Name ℕ) → (known all).types.look (shape s) ≡ type_taken same_name (map field_tree fields.now) s) }
        ensures count { IfOk result (λ all. (known all).types.count ≡ type_count same_name (map field_tree fields.now)) }
    {
        let mut all = Implied::new(alloc);
        all.add_written(fields)?;
        all.add_implied(fields)?;
        Ok(all)
    }

    /// Takes up the types that the fields write.
    fn add_written(&mut self, fields: &[ModuleField<'a>]) -> Result<(), AllocError>
        ensures { OnOk result (known self.new ≡ reached after_written_field (known self.old) (map field_tree fields.now)) }
    {
        for field in fields {
            self.add_written_field(field)?;
        }
        Ok(())
    }

    /// Takes up the types that a field writes.
    fn add_written_field(&mut self, field: &ModuleField<'a>) -> Result<(), AllocError>
        ensures { OnOk result (known self.new ≡ after_written_field (known self.old) (field_tree field.now)) }
    {
        match field {
            ModuleField::TypeItem(item) => self.add_type(item, false),
            ModuleField::Rec(group) => self.add_group(&group.types),
            _ => Ok(()),
        }
    }

    /// Takes up the types that the uses in the fields imply.
    fn add_implied(&mut self, fields: &[ModuleField<'a>]) -> Result<(), AllocError>
        ensures { OnOk result (known self.new ≡ reached after_field (known self.old) (map field_tree fields.now)) }
    {
        for field in fields {
            self.add_field(field)?;
        }
        Ok(())
    }

    /// Takes up the types that the uses in a field imply.
    pub(crate) fn add_field(&mut self, field: &ModuleField<'a>) -> Result<(), AllocError>
        ensures { OnOk result (known self.new ≡ after_field (known self.old) (field_tree field.now)) }
    {
        match field {
            ModuleField::Import(imports) => self.add_imports(imports),
            ModuleField::Func(func) => self.add_func(func),
            ModuleField::Table(table) => self.add_table(table),
            ModuleField::Global(global) => self.add_global(global),
            ModuleField::Elem(elem) => self.add_elem(elem),
            ModuleField::Data(data) => self.add_data(data),
            ModuleField::Tag(tag) => self.add_tag(tag),
            _ => Ok(()),
        }
    }
}
