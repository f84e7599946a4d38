//! Fields.
ghost use Rattle.std.specs.Prelude.{◌≡◌, ℕ, OnOk, map};
ghost use Rattle.wast_grammar.specs.Tokens.{Name};
ghost use Rattle.wast_module_fields.specs.FieldTree as spec;
ghost use Rattle.wast_exports.specs.ExportViews.{export_tree};
ghost use Rattle.wast_module_fields.specs.ModuleFieldViews.{field_tree, start_tree};
ghost use Rattle.wast_meaning.specs.Changed.{field_changed};
ghost use Rattle.wast_meaning.specs.Written.{space_of_kind};
ghost use Rattle.wasm_encoder_base.specs.Table.{Functions};
ghost use Rattle.wast_changed.specs.Rewritten.{together};

use crate::definition::{change_func, change_global, change_table, change_tag};
use crate::segment::{change_data, change_elem};
use std::alloc::{AllocError, Global};
use wast_changed::{
    Changing, Rewriting, TryEach, change_imports, change_rec, change_type_item, try_turn_list,
};
use wast_meaning::Space;
use wast_module_fields::{Export, ModuleField, Start};

/// A field (6.6, modules) with what becomes of its indices. Fails only for want of memory.
#[tactic(auto, using(crate::proofs::Defined::memory_field_kept))]
pub fn change_field<'a, R: Rewriting<'a>>(
    alloc: Global,
    rewriting: &R,
    field: &mut ModuleField<'a>,
) -> Result<(), AllocError>
    ensures { OnOk result (field_tree field.new ≡ field_changed (together (R.change rewriting.now) (R.in_constant rewriting.now) (R.in_function rewriting.now)) (field_tree field.old)) }
{
    match field {
        ModuleField::TypeItem(item) => {
            change_type_item(rewriting, item);
            Ok(())
        }
        ModuleField::Rec(group) => {
            change_rec(rewriting, group);
            Ok(())
        }
        ModuleField::Import(imports) => change_imports(rewriting, imports),
        ModuleField::Func(func) => change_func(alloc, rewriting, func),
        ModuleField::Table(table) => change_table(alloc, rewriting, table),
        ModuleField::Memory(_) => Ok(()),
        ModuleField::Global(global) => change_global(alloc, rewriting, global),
        ModuleField::Export(export) => {
            change_export(rewriting, export);
            Ok(())
        }
        ModuleField::Start(start) => {
            change_start(rewriting, start);
            Ok(())
        }
        ModuleField::Elem(elem) => change_elem(alloc, rewriting, elem),
        ModuleField::Data(segment) => change_data(alloc, rewriting, segment),
        ModuleField::Tag(tag) => change_tag(rewriting, tag),
        ModuleField::Custom(_) => Ok(()),
    }
}

/// Fields, each by the same rewriting. Fails only for want of memory; of the fields nothing is promised then.
pub fn change_fields<'a, R: Rewriting<'a>>(
    alloc: Global,
    rewriting: &R,
    fields: &mut [ModuleField<'a>],
) -> Result<(), AllocError>
    ensures { OnOk result (map field_tree fields.new ≡ map (field_changed (together (R.change rewriting.now) (R.in_constant rewriting.now) (R.in_function rewriting.now))) (map field_tree fields.old)) }
{
    try_turn_list(&Fields { alloc, rewriting }, fields)
}

/// Fields by a rewriting.
#[derive(Drop)]
struct Fields<'r, R> {
    alloc: Global,
    rewriting: &'r R,
}

impl<'a, R: Rewriting<'a>> TryEach<ModuleField<'a>> for Fields<'_, R> {
    ghost Tree = { spec.Field Name ℕ };

    ghost tree = { field_tree };

    ghost turned = { λ f. field_changed (together (R.change f.rewriting.now) (R.in_constant f.rewriting.now) (R.in_function f.rewriting.now)) };

    fn try_turn(&self, item: &mut ModuleField<'a>) -> Result<(), AllocError> {
        change_field(self.alloc, self.rewriting, item)
    }
}

/// An export (6.6, exports).
fn change_export<'a, C: Changing<'a>>(change: &C, export: &mut Export<'a>)
    ensures { export_tree export.new ≡ record (export_tree export.old) { item = (C.change change.now).index (space_of_kind (export_tree export.old).kind) (export_tree export.old).item } }
{
    change.index(Space::of_export(export.kind), &mut export.item);
}

/// The start function (6.6, start function).
fn change_start<'a, C: Changing<'a>>(change: &C, start: &mut Start<'a>)
    ensures { start_tree start.new ≡ record { place = (start_tree start.old).place; func = (C.change change.now).index Functions (start_tree start.old).func } }
{
    change.index(Space::Functions, &mut start.func);
}
