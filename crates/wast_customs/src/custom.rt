//! Custom fields.
ghost use Rattle.std.specs.Prelude.{◌≡◌};
ghost use Rattle.wast_customs.specs.CustomTree.{place_of, name_of, span_of};
ghost use Rattle.wast_customs.specs.CustomViews.{custom_tree, place_tree};

use crate::dylink::Dylink0;
use crate::place::CustomPlace;
use crate::producers::Producers;
use std::alloc::Global;
use std::borrow::CowStr;
use wasm_encoder_base::Bytes;
use wast_lexer::Span;

/// A custom field: an annotation that stands for a custom section.
pub enum Custom<'a> {
    Raw(RawCustomSection<'a>),
    Producers(Producers<'a>),
    Dylink0(Dylink0<'a>),
}

/// A custom section by its data: `(@custom "name" (before func) "data" ..)`.
#[derive(Drop)]
pub struct RawCustomSection<'a> {
    /// Where the annotation's name stands.
    pub span: Span,
    pub name: CowStr<'a, Global>,
    /// After the last section where no place is written.
    pub place: CustomPlace,
    /// The data, in the strings in which it is written.
    pub bytes: Vec<Bytes<'a>>,
}

// By hand, so that what drops one is proved here once, and not in each crate that holds one.
impl Drop for Custom<'_> {
    fn drop(self) {
        match self {
            Custom::Raw(_) | Custom::Producers(_) | Custom::Dylink0(_) => {}
        }
    }
}

impl<'a> Custom<'a> {
    /// Where its section stands: that of producers after the last, that of `dylink.0` before the first.
    pub fn place(&self) -> CustomPlace
        ensures { place_tree result ≡ place_of (custom_tree self.now) }
    {
        match self {
            Custom::Raw(section) => section.place,
            Custom::Producers(_) => CustomPlace::AfterLast,
            Custom::Dylink0(_) => CustomPlace::BeforeFirst,
        }
    }

    /// What its section is called.
    pub fn name(&self) -> &str
        ensures { result.now ≡ name_of (custom_tree self.now) }
    {
        match self {
            Custom::Raw(section) => section.name.as_str(),
            Custom::Producers(_) => "producers",
            Custom::Dylink0(_) => "dylink.0",
        }
    }

    /// Where the annotation's name stands.
    pub fn span(&self) -> Span
        ensures { result ≡ span_of (custom_tree self.now) }
    {
        match self {
            Custom::Raw(section) => section.span,
            Custom::Producers(producers) => producers.span,
            Custom::Dylink0(dylink) => dylink.span,
        }
    }
}
