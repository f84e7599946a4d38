//! Where custom sections stand.
ghost use Rattle.std.specs.Prelude.{◌≡◌};
ghost use Rattle.wast_customs.specs.CustomViews.{anchor_view, place_tree};
ghost use Rattle.wast_meant.specs.CustomsMeant.{same_anchor, same_place};

use wast_customs::{CustomPlace, CustomPlaceAnchor};
use wast_parser::Spelled;

/// Whether two places are the same.
pub(crate) fn is_same_place(one: CustomPlace, other: CustomPlace) -> bool
    ensures { result ≡ same_place (place_tree one) (place_tree other) }
{
    match (one, other) {
        (CustomPlace::BeforeFirst, CustomPlace::BeforeFirst) => true,
        (CustomPlace::Before(one), CustomPlace::Before(other)) => is_same_anchor(one, other),
        (CustomPlace::After(one), CustomPlace::After(other)) => is_same_anchor(one, other),
        (CustomPlace::AfterLast, CustomPlace::AfterLast) => true,
        _ => false,
    }
}

/// Whether two sections are the same; each has a word of its own.
fn is_same_anchor(one: CustomPlaceAnchor, other: CustomPlaceAnchor) -> bool
    ensures { result ≡ same_anchor (anchor_view one) (anchor_view other) }
{
    one.text() == other.text()
}
