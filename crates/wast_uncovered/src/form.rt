//! What may have forms without a binary.
ghost use Rattle.std.specs.Prelude.{◌≡◌, List, map};
ghost use Rattle.std.specs.List.{flat_map};
ghost use Rattle.wast_conversions.specs.Covered.{Form};
ghost use Rattle.wast_uncovered.specs.First.{first, said};

/// A tree in which forms may stand that have no binary.
pub(crate) trait HasForms {
    /// What stands for a value in the grammar.
    ghost Tree: { Type 0 };

    ghost tree: { Self → Tree };

    /// The forms that stand in it, in order.
    ghost forms: { Tree → List Form };

    /// The first of them.
    fn first_form(&self) -> Option<&'static str>
        ensures { said result ≡ first (Self.forms (Self.tree self.now)) };
}

/// The first form that stands in these.
pub(crate) fn first_in<T: HasForms>(items: &[T]) -> Option<&'static str>
    ensures { said result ≡ first (flat_map T.forms (map T.tree items.now)) }
{
    for item in items {
        if let Some(form) = item.first_form() {
            return Some(form);
        }
    }
    None
}
