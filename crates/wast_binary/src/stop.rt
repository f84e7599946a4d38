//! The places and sections of a module, in their order.
use wast_customs::{CustomPlace, CustomPlaceAnchor};

/// A section of a module.
#[derive(Clone, Copy)]
pub(crate) enum Kind {
    Types,
    Imports,
    Functions,
    Tables,
    Memories,
    Tags,
    Globals,
    Exports,
    Starts,
    Elements,
    DataCount,
    Hints,
    Codes,
    Datas,
    Names,
}

/// A place of custom sections, or a section.
#[derive(Clone, Copy)]
pub(crate) enum Stop {
    At(CustomPlace),
    Of(Kind),
}

/// Each section stands between the places before and after it. That of the number of data segments stands behind `(after elem)`, that of branch
/// hints before the bodies of functions, and that of names behind `(after data)`.
pub(crate) const STOPS: [Stop; 41] = [
    Stop::At(CustomPlace::BeforeFirst),
    Stop::At(CustomPlace::Before(CustomPlaceAnchor::TypeItem)),
    Stop::Of(Kind::Types),
    Stop::At(CustomPlace::After(CustomPlaceAnchor::TypeItem)),
    Stop::At(CustomPlace::Before(CustomPlaceAnchor::Import)),
    Stop::Of(Kind::Imports),
    Stop::At(CustomPlace::After(CustomPlaceAnchor::Import)),
    Stop::At(CustomPlace::Before(CustomPlaceAnchor::Func)),
    Stop::Of(Kind::Functions),
    Stop::At(CustomPlace::After(CustomPlaceAnchor::Func)),
    Stop::At(CustomPlace::Before(CustomPlaceAnchor::Table)),
    Stop::Of(Kind::Tables),
    Stop::At(CustomPlace::After(CustomPlaceAnchor::Table)),
    Stop::At(CustomPlace::Before(CustomPlaceAnchor::Memory)),
    Stop::Of(Kind::Memories),
    Stop::At(CustomPlace::After(CustomPlaceAnchor::Memory)),
    Stop::At(CustomPlace::Before(CustomPlaceAnchor::Tag)),
    Stop::Of(Kind::Tags),
    Stop::At(CustomPlace::After(CustomPlaceAnchor::Tag)),
    Stop::At(CustomPlace::Before(CustomPlaceAnchor::Global)),
    Stop::Of(Kind::Globals),
    Stop::At(CustomPlace::After(CustomPlaceAnchor::Global)),
    Stop::At(CustomPlace::Before(CustomPlaceAnchor::Export)),
    Stop::Of(Kind::Exports),
    Stop::At(CustomPlace::After(CustomPlaceAnchor::Export)),
    Stop::At(CustomPlace::Before(CustomPlaceAnchor::Start)),
    Stop::Of(Kind::Starts),
    Stop::At(CustomPlace::After(CustomPlaceAnchor::Start)),
    Stop::At(CustomPlace::Before(CustomPlaceAnchor::Elem)),
    Stop::Of(Kind::Elements),
    Stop::At(CustomPlace::After(CustomPlaceAnchor::Elem)),
    Stop::Of(Kind::DataCount),
    Stop::At(CustomPlace::Before(CustomPlaceAnchor::Code)),
    Stop::Of(Kind::Hints),
    Stop::Of(Kind::Codes),
    Stop::At(CustomPlace::After(CustomPlaceAnchor::Code)),
    Stop::At(CustomPlace::Before(CustomPlaceAnchor::Data)),
    Stop::Of(Kind::Datas),
    Stop::At(CustomPlace::After(CustomPlaceAnchor::Data)),
    Stop::Of(Kind::Names),
    Stop::At(CustomPlace::AfterLast),
];
