//! Values of data segments.
ghost use Rattle.std.specs.Prelude.{◌≡◌, is_some, true};
ghost use Rattle.wast_data.specs.DataTree.{bytes_of};
ghost use Rattle.wast_data.specs.DataViews.{value_tree};

use crate::show::Show;
use row_page::Page;
use wast_data::DataVal;

/// How many bytes it is, and these where there are some.
impl<'a> Show for DataVal<'a> {
    fn show(&self, page: &Page) {
        match self {
            DataVal::String(_) => print_bytes(page, "string", self),
            DataVal::Integral(_) => print_bytes(page, "integers", self),
            DataVal::Float(_) => print_length(page, "floats", self),
        }
    }
}

fn print_length(page: &Page, kind: &str, value: &DataVal<'_>) {
    page.put(kind);
    page.put(", ");
    page.write_fmt(value.len());
}

fn print_bytes(page: &Page, kind: &str, value: &DataVal<'_>)
    requires { is_some (bytes_of (value_tree value.now)) ≡ true }
{
    print_length(page, kind, value);
    page.put(":");
    let mut bytes = Vec::new(page.alloc());
    match value.push_onto(&mut bytes) {
        Ok(()) => page.put_bytes(&bytes),
        Err(error) => page.fail(error),
    }
}
