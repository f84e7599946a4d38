//! Fields (6.6).
ghost use Rattle.std.specs.Prelude.{◌≡◌, ℕ, option_map, option_to_list};
ghost use Rattle.std.specs.List.{flat_map};
ghost use Rattle.wast_grammar.specs.Tokens.{Name};
ghost use Rattle.wast_signatures.specs.TypeTree as types;
ghost use Rattle.wast_core_instr.specs.ExpressionViews.{expression_tree};
ghost use Rattle.wast_imports.specs.ImportViews.{tag_tree};
ghost use Rattle.wast_data.specs.DataTree as data_values;
ghost use Rattle.wast_data.specs.DataViews.{value_tree};
ghost use Rattle.wast_fields.specs.FieldTree as spec;
ghost use Rattle.wast_fields.specs.FuncViews.{local_tree, func_definition, global_definition, tag_definition};
ghost use Rattle.wast_fields.specs.MemoryViews.{memory_definition, data_tree};
ghost use Rattle.wast_fields.specs.MemoryViews as datas;
ghost use Rattle.wast_fields.specs.ElemViews.{elem_tree, elements_tree, table_definition};
ghost use Rattle.wast_fields.specs.ElemViews as elems;
ghost use Rattle.wast_core.specs.ModuleFieldViews.{field_tree};
ghost use Rattle.wast_conversions.specs.Covered.{val_forms, use_forms};
ghost use Rattle.wast_meant.specs.Covered.{data_forms, expr_forms, elements_forms, defined_forms, elem_mode_forms, data_mode_forms, field_forms};
ghost use Rattle.wast_uncovered.specs.First.{first, said};

use crate::form::{HasForms, first_in};
use wast_core::ModuleField;
use wast_core_instr::Expression;
use wast_data::DataVal;
use wast_fields::{
    Data, DataKind, Elem, ElemKind, ElemPayload, Func, FuncKind, Global, GlobalKind, Local, Memory,
    MemoryKind, Table, TableKind, Tag,
};
use wast_imports::TagType;

impl HasForms for ModuleField<'_> {
    ghost Tree = { spec.Field Name ℕ };

    ghost tree = { field_tree };

    ghost forms = { field_forms };

    fn first_form(&self) -> Option<&'static str> {
        match self {
            ModuleField::TypeItem(item) => item.first_form(),
            ModuleField::Rec(group) => first_in(&group.types),
            ModuleField::Import(imports) => imports.items.first_form(),
            ModuleField::Func(func) => func.first_form(),
            ModuleField::Table(table) => table.first_form(),
            ModuleField::Memory(memory) => memory.first_form(),
            ModuleField::Global(global) => global.first_form(),
            ModuleField::Elem(elem) => elem.first_form(),
            ModuleField::Data(segment) => segment.first_form(),
            ModuleField::Tag(tag) => tag.first_form(),
            ModuleField::Export(_) | ModuleField::Start(_) | ModuleField::Custom(_) => None,
        }
    }
}

impl HasForms for Expression<'_> {
    ghost Tree = { spec.Expr Name ℕ };

    ghost tree = { expression_tree };

    ghost forms = { expr_forms };

    fn first_form(&self) -> Option<&'static str> {
        first_in(&self.instrs)
    }
}

// DEFINITIONS

/// The use of its type, its locals, then its body.
impl HasForms for Func<'_> {
    ghost Tree = { spec.Definition Name ℕ };

    ghost tree = { func_definition };

    ghost forms = { λ d. defined_forms d.defined };

    #[tactic(auto, using(crate::proofs::First::first_joined))]
    fn first_form(&self) -> Option<&'static str> {
        match &self.kind {
            FuncKind::Import { is_exact: true, .. } => Some("exact type"),
            FuncKind::Import { .. } => self.ty.first_form(),
            FuncKind::Inline { locals, expression } => {
                let inside = first_in(locals).or(expression.first_form());
                self.ty.first_form().or(inside)
            }
        }
    }
}

impl HasForms for Local<'_> {
    ghost Tree = { types.Local Name ℕ };

    ghost tree = { local_tree };

    ghost forms = { λ l. val_forms l.val_type };

    fn first_form(&self) -> Option<&'static str> {
        self.ty.first_form()
    }
}

/// Its type, then the expression with which it begins, or its elements.
impl HasForms for Table<'_> {
    ghost Tree = { spec.Definition Name ℕ };

    ghost tree = { table_definition };

    ghost forms = { λ d. defined_forms d.defined };

    #[tactic(auto, using(crate::proofs::First::first_joined))]
    fn first_form(&self) -> Option<&'static str> {
        match &self.kind {
            TableKind::Import { ty, .. } => ty.first_form(),
            TableKind::Normal { ty, init_expr } => ty.first_form().or(init_form(init_expr)),
            TableKind::Inline { elem, payload, .. } => elem.first_form().or(payload.first_form()),
        }
    }
}

/// The first form of an expression, where one is written.
fn init_form(init: &Option<Expression<'_>>) -> Option<&'static str>
    ensures { said result ≡ first (flat_map expr_forms (option_to_list (option_map expression_tree init.now))) }
{
    match init {
        Some(expression) => expression.first_form(),
        None => None,
    }
}

/// The data that stand inline.
impl HasForms for Memory<'_> {
    ghost Tree = { spec.Definition Name ℕ };

    ghost tree = { memory_definition };

    ghost forms = { λ d. defined_forms d.defined };

    fn first_form(&self) -> Option<&'static str> {
        match &self.kind {
            MemoryKind::Import { .. } | MemoryKind::Normal(_) => None,
            MemoryKind::Inline { data, .. } => first_in(data),
        }
    }
}

/// Its type, then the expression with which it begins.
impl HasForms for Global<'_> {
    ghost Tree = { spec.Definition Name ℕ };

    ghost tree = { global_definition };

    ghost forms = { λ d. defined_forms d.defined };

    #[tactic(auto, using(crate::proofs::First::first_joined))]
    fn first_form(&self) -> Option<&'static str> {
        match &self.kind {
            GlobalKind::Import(_) => self.ty.first_form(),
            GlobalKind::Inline(init) => self.ty.first_form().or(init.first_form()),
        }
    }
}

impl HasForms for Tag<'_> {
    ghost Tree = { spec.Definition Name ℕ };

    ghost tree = { tag_definition };

    ghost forms = { λ d. defined_forms d.defined };

    fn first_form(&self) -> Option<&'static str> {
        tag_form(&self.ty)
    }
}

fn tag_form(ty: &TagType<'_>) -> Option<&'static str>
    ensures { said result ≡ first (use_forms (tag_tree ty.now)) }
{
    match ty {
        TagType::Exception(ty) => ty.first_form(),
    }
}

// SEGMENTS

/// Its offset, where it is active, then its elements.
impl HasForms for Elem<'_> {
    ghost Tree = { spec.Elem Name ℕ };

    ghost tree = { elem_tree };

    ghost forms = { λ e. field_forms (spec.ElemField e) };

    #[tactic(auto, using(crate::proofs::First::first_joined))]
    fn first_form(&self) -> Option<&'static str> {
        self.kind.first_form().or(self.payload.first_form())
    }
}

impl HasForms for ElemKind<'_> {
    ghost Tree = { spec.ElemMode Name ℕ };

    ghost tree = { elems.mode_tree };

    ghost forms = { elem_mode_forms };

    fn first_form(&self) -> Option<&'static str> {
        match self {
            ElemKind::Passive | ElemKind::Declared => None,
            ElemKind::Active { offset, .. } => offset.first_form(),
        }
    }
}

/// Of expressions their type first.
impl HasForms for ElemPayload<'_> {
    ghost Tree = { spec.Elements Name ℕ };

    ghost tree = { elements_tree };

    ghost forms = { elements_forms };

    #[tactic(auto, using(crate::proofs::First::first_joined))]
    fn first_form(&self) -> Option<&'static str> {
        match self {
            ElemPayload::Indices(_) => None,
            ElemPayload::Exprs { ty, exprs } => ty.first_form().or(first_in(exprs)),
        }
    }
}

/// Its offset, where it is active, then its values.
impl HasForms for Data<'_> {
    ghost Tree = { spec.Data Name ℕ };

    ghost tree = { data_tree };

    ghost forms = { λ d. field_forms (spec.DataField d) };

    #[tactic(auto, using(crate::proofs::First::first_joined))]
    fn first_form(&self) -> Option<&'static str> {
        self.kind.first_form().or(first_in(&self.data))
    }
}

impl HasForms for DataKind<'_> {
    ghost Tree = { spec.DataMode Name ℕ };

    ghost tree = { datas.mode_tree };

    ghost forms = { data_mode_forms };

    fn first_form(&self) -> Option<&'static str> {
        match self {
            DataKind::Passive => None,
            DataKind::Active { offset, .. } => offset.first_form(),
        }
    }
}

impl HasForms for DataVal<'_> {
    ghost Tree = { data_values.DataVal };

    ghost tree = { value_tree };

    ghost forms = { data_forms };

    fn first_form(&self) -> Option<&'static str> {
        match self {
            DataVal::String(_) | DataVal::Integral(_) => None,
            DataVal::Float(_) => Some("float data"),
        }
    }
}
