//! Laws over the definitions that contracts cite: functions without parameters whose contracts are the laws. They do nothing.

ghost use Rattle.wast_parser_base.specs.Laws.{EqualIdentifiers, MadeNamesDiffer};

/// Two identifiers are equal exactly where their names are and their generations, wherever they stand.
pub fn equal_identifiers()
    ensures { EqualIdentifiers }
{}

/// Identifiers that [`Gensym`](crate::Gensym) makes with different numbers differ, and from each that was read.
pub fn made_names_differ()
    ensures { MadeNamesDiffer }
{}
