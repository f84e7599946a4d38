//! Types, signatures, definitions and uses.
use crate::show::{
    Show, show_all, show_between, show_each, show_head, show_if, show_place, show_read,
};
use crate::values::print_field_type;
use row_page::Page;
use wast_core_types::{
    ArrayType, CompositeType, InnerTypeKind, Rec, StructType, TypeDef, TypeItem,
};
use wast_func_fields::LocalParser;
use wast_parser::{Error, Parse, Parser};
use wast_signatures::{FunctionType, FunctionTypeNoNames, Param, StructField, TypeUse};
use wast_value_types::{
    FieldType, GlobalType, HeapType, MemoryType, RefType, StorageType, TableType, ValType,
};

/// Prints what a text is, read as one of a production.
pub fn print(page: &Page, kind: &str, parser: &mut Parser<'_>) -> Result<(), Error> {
    match kind {
        "heap" => show_all::<HeapType>(page, parser),
        "ref" => show_all::<RefType>(page, parser),
        "val" => show_all::<ValType>(page, parser),
        "field" => show_all::<FieldType>(page, parser),
        "table" => show_all::<TableType>(page, parser),
        "memory" => show_all::<MemoryType>(page, parser),
        "global" => show_all::<GlobalType>(page, parser),
        _ => print_definition(page, kind, parser),
    }
}

fn print_definition(page: &Page, kind: &str, parser: &mut Parser<'_>) -> Result<(), Error> {
    match kind {
        "sig" => show_all::<FunctionType>(page, parser),
        "bare" => show_all::<FunctionTypeNoNames>(page, parser),
        "comp" => show_all::<CompositeType>(page, parser),
        "def" => show_all::<TypeDef>(page, parser),
        "item" => show_all::<TypeItem>(page, parser),
        "rec" => show_all::<Rec>(page, parser),
        "use" => show_all::<TypeUse<FunctionType>>(page, parser),
        "bareuse" => show_all::<TypeUse<FunctionTypeNoNames>>(page, parser),
        "locals" => show_all::<LocalParser>(page, parser),
        _ => print_copy(page, kind, parser),
    }
}

/// Prints a copy of what a text is.
fn print_copy(page: &Page, kind: &str, parser: &mut Parser<'_>) -> Result<(), Error> {
    match kind {
        "storage-copy" => {
            let copy = copied_storage(parser);
            show_read(page, parser, copy, "\n")
        }
        "table-copy" => {
            let copy = copied_table(parser);
            show_read(page, parser, copy, "\n")
        }
        "global-copy" => {
            let copy = copied_global(parser);
            show_read(page, parser, copy, "\n")
        }
        _ => {
            page.put("no such type\n");
            Ok(())
        }
    }
}

fn copied_storage<'a>(parser: &mut Parser<'a>) -> Result<StorageType<'a>, Error> {
    let ty = StorageType::parse(parser)?;
    let copy = ty.clone(parser.alloc())?;
    Ok(copy)
}

fn copied_table<'a>(parser: &mut Parser<'a>) -> Result<TableType<'a>, Error> {
    let ty = TableType::parse(parser)?;
    let copy = ty.clone(parser.alloc())?;
    Ok(copy)
}

fn copied_global<'a>(parser: &mut Parser<'a>) -> Result<GlobalType<'a>, Error> {
    let ty = GlobalType::parse(parser)?;
    let copy = ty.clone(parser.alloc())?;
    Ok(copy)
}

// SIGNATURES

impl<'a> Show for Param<'a> {
    fn show(&self, page: &Page) {
        show_head(page, &self.0, &self.1);
        self.2.show(page);
    }
}

impl<'a> Show for LocalParser<'a> {
    fn show(&self, page: &Page) {
        page.put("locals");
        for local in &self.locals {
            page.put(" (");
            show_head(page, &local.id, &local.name);
            show_between(page, "", &local.ty, ")");
        }
    }
}

impl<'a> Show for FunctionType<'a> {
    fn show(&self, page: &Page) {
        page.put("sig");
        show_each(page, " (param ", &self.params, ")");
        show_each(page, " (result ", &self.results, ")");
    }
}

impl<'a> Show for FunctionTypeNoNames<'a> {
    fn show(&self, page: &Page) {
        self.0.show(page);
    }
}

impl<'a, T: Show> Show for TypeUse<'a, T> {
    fn show(&self, page: &Page) {
        show_if(page, "(type ", &self.index, ") ");
        match &self.inline {
            Some(ty) => ty.show(page),
            None => page.put("no sig"),
        }
    }
}

// DEFINITIONS

impl<'a> Show for StructField<'a> {
    fn show(&self, page: &Page) {
        show_if(page, "", &self.id, " ");
        print_field_type(page, self.mutable, &self.ty);
    }
}

impl<'a> Show for InnerTypeKind<'a> {
    fn show(&self, page: &Page) {
        match self {
            InnerTypeKind::Func(ty) => show_between(page, "(func ", ty, ")"),
            InnerTypeKind::Struct(ty) => print_struct(page, ty),
            InnerTypeKind::Array(ty) => print_array(page, ty),
            InnerTypeKind::Cont(ty) => show_between(page, "(cont ", &ty.0, ")"),
        }
    }
}

fn print_struct(page: &Page, ty: &StructType<'_>) {
    page.put("(struct");
    show_each(page, " (field ", &ty.fields, ")");
    page.put(")");
}

fn print_array(page: &Page, ty: &ArrayType<'_>) {
    page.put("(array ");
    print_field_type(page, ty.mutable, &ty.ty);
    page.put(")");
}

fn print_composite(page: &Page, shared: bool, kind: &InnerTypeKind<'_>) {
    if shared {
        show_between(page, "(shared ", kind, ")");
    } else {
        kind.show(page);
    }
}

impl<'a> Show for CompositeType<'a> {
    fn show(&self, page: &Page) {
        print_composite(page, self.shared, &self.kind);
    }
}

impl<'a> Show for TypeDef<'a> {
    fn show(&self, page: &Page) {
        page.put(if self.final_type {
            "(sub final "
        } else {
            "(sub "
        });
        show_if(page, "(of ", &self.parent, ") ");
        show_if(page, "(describes ", &self.describes, ") ");
        show_if(page, "(descriptor ", &self.descriptor, ") ");
        print_composite(page, self.shared, &self.kind);
        page.put(")");
    }
}

impl<'a> Show for TypeItem<'a> {
    fn show(&self, page: &Page) {
        show_place(page, self.span);
        show_head(page, &self.id, &self.name);
        self.def.show(page);
    }
}

impl<'a> Show for Rec<'a> {
    fn show(&self, page: &Page) {
        show_place(page, self.span);
        page.put("rec");
        show_each(page, "; ", &self.types, "");
    }
}
