//! Fields, by what they say of names.
ghost use Rattle.std.specs.Prelude.{true, []};

use row_page::Page;
use wast_core::{
    Expression, FunctionType, ImportItems, Instruction, ItemKind, Local, MemoryKind, ModuleField,
    TableKind, TypeUse,
};
use wast_mentions::{Judge, Judgement, Mention, Tell};
use wast_parser::Index;
use wast_parts::{PartJudge, PartJudgement, tell_parts};
use wast_value_types::Limits;

/// Prints fields, one a line.
pub fn print_fields(fields: &[ModuleField<'_>], page: &Page) {
    for field in fields {
        print_field(field, page);
    }
}

fn print_field(field: &ModuleField<'_>, page: &Page) {
    print_head(field, page);
    let _ = tell_parts(field, &Printer { page });
    page.put("\n");
}

// WHAT STANDS IN FRONT

/// Prints the keyword, and what says nothing of names.
fn print_head(field: &ModuleField<'_>, page: &Page) {
    match field {
        ModuleField::TypeItem(_) => page.put("type"),
        ModuleField::Rec(_) => page.put("rec"),
        ModuleField::Import(imports) => print_imports(&imports.items, page),
        ModuleField::Func(_) => page.put("func"),
        ModuleField::Table(table) => print_table(&table.kind, page),
        ModuleField::Memory(memory) => print_memory(&memory.kind, page),
        ModuleField::Global(_) => page.put("global"),
        ModuleField::Export(export) => print_export(page, export.name.as_str()),
        ModuleField::Start(_) => page.put("start"),
        ModuleField::Elem(_) => page.put("elem"),
        ModuleField::Data(_) => page.put("data"),
        ModuleField::Tag(_) => page.put("tag"),
        ModuleField::Custom(_) => page.put("custom"),
    }
}

fn print_export(page: &Page, name: &str) {
    page.put("export ");
    page.put(name);
}

fn print_imports(items: &ImportItems<'_>, page: &Page) {
    page.put("import ");
    page.put(match items {
        ImportItems::Single { sig, .. } => word_of(&sig.kind),
        ImportItems::Group1 { .. } | ImportItems::Group2 { .. } => "of several",
    });
}

fn word_of(kind: &ItemKind<'_>) -> &'static str {
    match kind {
        ItemKind::Func(_) | ItemKind::FuncExact(_) => "func",
        ItemKind::Table(_) => "table",
        ItemKind::Memory(_) => "memory",
        ItemKind::Global(_) => "global",
        ItemKind::Tag(_) => "tag",
    }
}

fn print_table(kind: &TableKind<'_>, page: &Page) {
    match kind {
        TableKind::Normal { ty, .. } => print_limits(page, "table", &ty.limits),
        TableKind::Import { .. } | TableKind::Inline { .. } => page.put("table with inline parts"),
    }
}

fn print_memory(kind: &MemoryKind<'_>, page: &Page) {
    match kind {
        MemoryKind::Normal(ty) => print_limits(page, "memory", &ty.limits),
        MemoryKind::Import { .. } | MemoryKind::Inline { .. } => {
            page.put("memory with inline parts")
        }
    }
}

fn print_limits(page: &Page, word: &str, limits: &Limits) {
    page.put(word);
    page.put(if limits.is64 { " i64 " } else { " i32 " });
    page.write_fmt(limits.min);
    if let Some(max) = limits.max {
        page.put(" ");
        page.write_fmt(max);
    }
}

// WHAT IS SAID OF NAMES

/// Prints what trees say of names. Nothing is asked of it, and it refuses nothing.
#[derive(Drop)]
struct Printer<'p> {
    page: &'p Page,
}

impl Judgement for Printer<'_> {
    type Fault = ();

    ghost Demand = { Unit {0} };

    ghost holds = { λ demand. true };

    ghost asks = { λ printer mention. [] };

    ghost tells = { λ first fault. Unit {0} };

    ghost anywhere = { λ first fault told. told };
}

impl<'a> Judge<'a> for Printer<'_> {
    fn judge(&self, mention: Mention<'_, 'a>) -> Result<(), ()> {
        print_mention(self.page, mention);
        Ok(())
    }
}

impl PartJudgement for Printer<'_> {
    type Fault = ();

    ghost Demand = { Unit {0} };

    ghost holds = { λ demand. true };

    ghost asks = { λ printer part. [] };

    ghost tells = { λ first fault. Unit {0} };

    ghost anywhere = { λ first fault told. told };
}

impl<'a> PartJudge<'a> for Printer<'_> {
    fn judge_mention(&self, mention: Mention<'_, 'a>) -> Result<(), ()> {
        print_mention(self.page, mention);
        Ok(())
    }

    fn judge_constant(&self, expression: &Expression<'a>) -> Result<(), ()> {
        print_expression(expression, self.page);
        Ok(())
    }

    fn judge_function(
        &self,
        ty: &TypeUse<'a, FunctionType<'a>>,
        _locals: &[Local<'a>],
        body: &Expression<'a>,
    ) -> Result<(), ()> {
        print_function(ty, body, self.page);
        Ok(())
    }
}

fn print_function(ty: &TypeUse<'_, FunctionType<'_>>, body: &Expression<'_>, page: &Page) {
    print_use(page, " use", ty);
    page.put(":");
    print_expression(body, page);
}

fn print_expression(expression: &Expression<'_>, page: &Page) {
    for instruction in &expression.instrs {
        print_instruction(instruction, page);
    }
}

fn print_instruction(instruction: &Instruction<'_>, page: &Page) {
    match instruction {
        Instruction::I32Const(value) => {
            page.put(" i32.const ");
            page.write_fmt(*value);
        }
        Instruction::I64Const(value) => {
            page.put(" i64.const ");
            page.write_fmt(*value);
        }
        _ => {
            let _ = instruction.tell(&Printer { page });
        }
    }
}

fn print_mention(page: &Page, mention: Mention<'_, '_>) {
    match mention {
        Mention::Refers(space, index) => {
            page.put(" ");
            print_index(page, space.word(), index);
        }
        Mention::Member {
            owner: _owner,
            field,
        } => print_index(page, " field", field),
        Mention::Uses(ty) => print_use(page, " use", ty),
        Mention::UsesInBlock(ty) => print_use(page, " block", ty),
        Mention::Repeats(id) => print_name(page, " repeats $", id.name()),
    }
}

/// Prints a word and the index of a type use, where it has one.
fn print_use(page: &Page, word: &str, ty: &TypeUse<'_, FunctionType<'_>>) {
    match &ty.index {
        Some(index) => print_index(page, word, index),
        None => page.put(word),
    }
}

/// Prints a word and an index.
fn print_index(page: &Page, word: &str, index: &Index<'_>) {
    page.put(word);
    match index {
        Index::Num(number, _) => {
            page.put(" ");
            page.write_fmt(*number);
        }
        Index::Id(id) => print_name(page, " $", id.name()),
    }
}

fn print_name(page: &Page, before: &str, name: &str) {
    page.put(before);
    page.put(name);
}
