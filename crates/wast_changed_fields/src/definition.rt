//! Fields that define something.
ghost use Rattle.std.specs.Prelude.{◌≡◌, ℕ, OnOk, option_map};
ghost use Rattle.wast_grammar.specs.Tokens.{Name};
ghost use Rattle.wast_signatures.specs.TypeTree as types;
ghost use Rattle.wast_core_instr.specs.ExpressionViews.{expression_tree};
ghost use Rattle.wast_module_fields.specs.FuncViews.{defined_func, func_definition, global_definition, local_tree, tag_definition};
ghost use Rattle.wast_module_fields.specs.ElemViews.{defined_table, table_definition};
ghost use Rattle.wast_meaning.specs.Changed.{defined_changed, local_changed};
ghost use Rattle.wast_changed.specs.Rewritten.{expr_changed, together};

use crate::segment::change_elements;
use std::alloc::{AllocError, Global};
use wast_changed::{
    Changing, Each, Rewriting, change_global_type, change_ref_type, change_table_type,
    change_type_use, change_val_type, turn_list,
};
use wast_core_instr::Expression;
use wast_imports::TagType;
use wast_module_fields::{
    Func, FuncKind, Global as GlobalField, GlobalKind, Local, Table, TableKind, Tag,
};
use wast_signatures::{FunctionType, TypeUse};

/// A function (6.6, functions). Fails only for want of memory.
pub(crate) fn change_func<'a, R: Rewriting<'a>>(
    alloc: Global,
    rewriting: &R,
    func: &mut Func<'a>,
) -> Result<(), AllocError>
    ensures { OnOk result (func_definition func.new ≡ record (func_definition func.old) { defined = defined_changed (together (R.change rewriting.now) (R.in_constant rewriting.now) (R.in_function rewriting.now)) (func_definition func.old).defined }) }
{
    change_defined_func(alloc, rewriting, &mut func.kind, &mut func.ty)
}

/// A function that is imported, or has a body. The body is rewritten while its type use and its locals are those from before; the
/// locals are taken out of their place meanwhile.
#[tactic(auto, using(crate::proofs::Defined::imported_func_changed))]
fn change_defined_func<'a, R: Rewriting<'a>>(
    alloc: Global,
    rewriting: &R,
    kind: &mut FuncKind<'a>,
    ty: &mut TypeUse<'a, FunctionType<'a>>,
) -> Result<(), AllocError>
    ensures { OnOk result (defined_func kind.new ty.new ≡ defined_changed (together (R.change rewriting.now) (R.in_constant rewriting.now) (R.in_function rewriting.now)) (defined_func kind.old ty.old)) }
{
    let mut taken = match kind {
        FuncKind::Import { .. } => return change_type_use(rewriting, ty),
        FuncKind::Inline { locals, .. } => std::mem::replace(locals, Vec::new(alloc)),
    };
    let body = match kind {
        FuncKind::Import { .. } => Ok(()),
        FuncKind::Inline { expression, .. } => rewriting.body(alloc, ty, &taken, expression),
    };
    turn_list(&Locals { change: rewriting }, &mut taken);
    if let FuncKind::Inline { locals, .. } = kind {
        std::mem::swap(locals, &mut taken);
    }
    body?;
    change_type_use(rewriting, ty)
}

/// Locals with what becomes of their indices.
#[derive(Drop)]
struct Locals<'c, C> {
    change: &'c C,
}

impl<'a, C: Changing<'a>> Each<Local<'a>> for Locals<'_, C> {
    ghost Tree = { types.Local Name ℕ };

    ghost tree = { local_tree };

    ghost turned = { λ l. local_changed (C.change l.change.now) };

    fn turn(&self, item: &mut Local<'a>) {
        change_val_type(self.change, &mut item.ty);
    }
}

/// A table (6.6, tables). Fails only for want of memory.
pub(crate) fn change_table<'a, R: Rewriting<'a>>(
    alloc: Global,
    rewriting: &R,
    table: &mut Table<'a>,
) -> Result<(), AllocError>
    ensures { OnOk result (table_definition table.new ≡ record (table_definition table.old) { defined = defined_changed (together (R.change rewriting.now) (R.in_constant rewriting.now) (R.in_function rewriting.now)) (table_definition table.old).defined }) }
{
    change_defined_table(alloc, rewriting, &mut table.kind)
}

/// A table that is imported, or written with its size, or with its elements.
fn change_defined_table<'a, R: Rewriting<'a>>(
    alloc: Global,
    rewriting: &R,
    kind: &mut TableKind<'a>,
) -> Result<(), AllocError>
    ensures { OnOk result (defined_table kind.new ≡ defined_changed (together (R.change rewriting.now) (R.in_constant rewriting.now) (R.in_function rewriting.now)) (defined_table kind.old)) }
{
    match kind {
        TableKind::Import { ty, .. } => change_table_type(rewriting, ty),
        TableKind::Normal { ty, .. } => change_table_type(rewriting, ty),
        TableKind::Inline { elem, .. } => change_ref_type(rewriting, elem),
    }
    match kind {
        TableKind::Import { .. } => Ok(()),
        TableKind::Normal { init_expr, .. } => {
            change_optional_constant(alloc, rewriting, init_expr)
        }
        TableKind::Inline { payload, .. } => change_elements(alloc, rewriting, payload),
    }
}

/// A constant expression that may be left out.
fn change_optional_constant<'a, R: Rewriting<'a>>(
    alloc: Global,
    rewriting: &R,
    expression: &mut Option<Expression<'a>>,
) -> Result<(), AllocError>
    ensures { OnOk result (option_map expression_tree expression.new ≡ option_map (expr_changed (R.in_constant rewriting.now)) (option_map expression_tree expression.old)) }
{
    match expression {
        Some(expression) => rewriting.constant(alloc, expression),
        None => Ok(()),
    }
}

/// A global (6.6, globals). Fails only for want of memory.
pub(crate) fn change_global<'a, R: Rewriting<'a>>(
    alloc: Global,
    rewriting: &R,
    global: &mut GlobalField<'a>,
) -> Result<(), AllocError>
    ensures { OnOk result (global_definition global.new ≡ record (global_definition global.old) { defined = defined_changed (together (R.change rewriting.now) (R.in_constant rewriting.now) (R.in_function rewriting.now)) (global_definition global.old).defined }) }
{
    change_global_type(rewriting, &mut global.ty);
    match &mut global.kind {
        GlobalKind::Import(_) => Ok(()),
        GlobalKind::Inline(init) => rewriting.constant(alloc, init),
    }
}

/// A tag (6.6, tags). Fails only for want of memory.
#[tactic(auto, using(crate::proofs::Defined::tag_changed))]
pub(crate) fn change_tag<'a, R: Rewriting<'a>>(
    rewriting: &R,
    tag: &mut Tag<'a>,
) -> Result<(), AllocError>
    ensures { OnOk result (tag_definition tag.new ≡ record (tag_definition tag.old) { defined = defined_changed (together (R.change rewriting.now) (R.in_constant rewriting.now) (R.in_function rewriting.now)) (tag_definition tag.old).defined }) }
{
    let TagType::Exception(ty) = &mut tag.ty;
    change_type_use(rewriting, ty)
}
