//! Laws over the definitions that contracts cite: functions without parameters whose contracts are the laws. They do nothing.

ghost use Rattle.wast_deinline.specs.Laws.{FreshNames, WrittenAgain};

/// Where no name of the fields was made after so many, those that are made are fresh: they differ from each other, and from those of all
/// items and all that are mentioned.
pub fn fresh_names()
    ensures { FreshNames }
{}

/// Fields that are written out are written out as themselves, whatever names are made.
pub fn written_again()
    ensures { WrittenAgain }
{}
