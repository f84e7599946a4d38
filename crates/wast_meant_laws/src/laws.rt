//! Laws of the modules that trees stand for: functions without parameters whose contracts are the laws. They do nothing.

ghost use Rattle.wast_meant_laws.specs.Laws.{AtStops, NamesApart, RenamedBinary, RenamedConditions, RenamedMeaning, RenamingsCarry};

/// A renaming carries names that are read, and places, from first to second of their pairs, where of two pairs the first are equal exactly
/// where the second are; and the names that are made for what has none stay.
pub fn renamings_carry()
    ensures { RenamingsCarry }
{}

/// What names and places are doesn't matter to what fields must keep to beside names, nor to which forms they have: a renaming that keeps
/// what is made up gives the same breaches and the same first form without a binary, at the places that stand for theirs.
pub fn renamed_conditions()
    ensures { RenamedConditions }
{}

/// Renamed fields stand for the same module, but for the names of its maps, which are renamed.
pub fn renamed_meaning()
    ensures { RenamedMeaning }
{}

/// Lists of fields that differ by a renaming stand for the same module without names, so their binaries without the section of names are
/// the same bytes.
pub fn renamed_binary()
    ensures { RenamedBinary }
{}

/// The module without names depends neither on the module's name nor on which names are made up, and its pieces are those of the module
/// but for the section of names.
pub fn names_apart()
    ensures { NamesApart }
{}

/// A module that fields stand for is laid out stop by stop: at each place its custom sections, in the order of their fields, and between
/// the places the sections that are there. So it has one gap more than sections.
pub fn at_stops()
    ensures { AtStops }
{}
