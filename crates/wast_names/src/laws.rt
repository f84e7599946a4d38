//! Laws over the definitions that contracts cite: functions without parameters whose contracts are the laws. They do nothing.

ghost use Rattle.wast_names.specs.Laws.{Numbers, Distinct, OnePlace};

/// In the space of a list of items, which has as many as there are, a name means how many stand before the one that bears it: the
/// first, and of segments the last.
pub fn numbers()
    ensures { Numbers }
{}

/// The items of a kind of which no two may bear one name are all accepted exactly where none bears the name of one before it; else the
/// first that does is refused, at its identifier.
pub fn distinct()
    ensures { Distinct }
{}

/// Where no two items bear one name, the first that bears a name is the last.
pub fn one_place()
    ensures { OnePlace }
{}
