//! A law of the types: a function without parameters whose contract is the law. It does nothing.
ghost use Rattle.wast_value_types.specs.Laws.{EqualTypes};

/// Two heap types, reference types or value types are equal exactly where their trees are, wherever their indices stand: so
/// `funcref` is `(ref null func)`, and `(ref 0)` is `(ref 0x0)`.
pub fn equal_types()
    ensures { EqualTypes }
{}
