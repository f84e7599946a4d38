//! Types of values, heaps, tables, memories and globals, as they are printed.
use crate::show::{Show, show_between};
use row_page::Page;
use wast_value_types::{
    AbstractHeapType, FieldType, GlobalType, HeapType, Limits, MemoryType, RefType, StorageType,
    TableType, ValType,
};

fn abstract_word(ty: AbstractHeapType) -> &'static str {
    match ty {
        AbstractHeapType::Func => "func",
        AbstractHeapType::Extern => "extern",
        AbstractHeapType::Exn => "exn",
        AbstractHeapType::Cont => "cont",
        AbstractHeapType::Any => "any",
        AbstractHeapType::Eq => "eq",
        AbstractHeapType::Struct => "struct",
        AbstractHeapType::Array => "array",
        AbstractHeapType::I31 => "i31",
        AbstractHeapType::NoFunc => "nofunc",
        AbstractHeapType::NoExtern => "noextern",
        AbstractHeapType::None => "none",
        AbstractHeapType::NoExn => "noexn",
        AbstractHeapType::NoCont => "nocont",
    }
}

fn print_abstract(page: &Page, shared: bool, word: &str) {
    if shared {
        page.put("(shared ");
        page.put(word);
        page.put(")");
    } else {
        page.put(word);
    }
}

impl<'a> Show for HeapType<'a> {
    fn show(&self, page: &Page) {
        match self {
            HeapType::Abstract { shared, ty } => print_abstract(page, *shared, abstract_word(*ty)),
            HeapType::Concrete(index) => index.show(page),
            HeapType::Exact(index) => show_between(page, "(exact ", index, ")"),
        }
    }
}

impl<'a> Show for RefType<'a> {
    fn show(&self, page: &Page) {
        let before = if self.nullable { "(ref null " } else { "(ref " };
        show_between(page, before, &self.heap, ")");
    }
}

impl<'a> Show for ValType<'a> {
    fn show(&self, page: &Page) {
        match self {
            ValType::I32 => page.put("i32"),
            ValType::I64 => page.put("i64"),
            ValType::F32 => page.put("f32"),
            ValType::F64 => page.put("f64"),
            ValType::V128 => page.put("v128"),
            ValType::Ref(ty) => ty.show(page),
        }
    }
}

impl<'a> Show for StorageType<'a> {
    fn show(&self, page: &Page) {
        match self {
            StorageType::I8 => page.put("i8"),
            StorageType::I16 => page.put("i16"),
            StorageType::Val(ty) => ty.show(page),
        }
    }
}

/// Prints what a field holds, and whether it can be set.
pub fn print_field_type(page: &Page, mutable: bool, ty: &StorageType<'_>) {
    if mutable {
        show_between(page, "(mut ", ty, ")");
    } else {
        ty.show(page);
    }
}

impl<'a> Show for FieldType<'a> {
    fn show(&self, page: &Page) {
        print_field_type(page, self.mutable, &self.ty);
    }
}

impl Show for Limits {
    fn show(&self, page: &Page) {
        page.put(if self.is64 { "i64 " } else { "i32 " });
        page.write_fmt(self.min);
        if let Some(max) = self.max {
            page.put(" ");
            page.write_fmt(max);
        }
    }
}

impl<'a> Show for TableType<'a> {
    fn show(&self, page: &Page) {
        let before = if self.shared { "shared " } else { "" };
        show_between(page, before, &self.limits, " ");
        self.elem.show(page);
    }
}

impl Show for MemoryType {
    fn show(&self, page: &Page) {
        let after = if self.shared { " shared" } else { "" };
        show_between(page, "", &self.limits, after);
        if let Some(exponent) = self.page_size_log2 {
            page.put(" pages of 2^");
            page.write_fmt(exponent);
        }
    }
}

impl<'a> Show for GlobalType<'a> {
    fn show(&self, page: &Page) {
        page.put(if self.shared { "shared " } else { "" });
        page.put(if self.mutable { "mut " } else { "" });
        self.ty.show(page);
    }
}
