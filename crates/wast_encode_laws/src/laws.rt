//! Laws over the definitions that contracts cite: functions without parameters whose contracts are the laws. They do nothing.

ghost use Rattle.wast_encode_laws.specs.Laws.{CoveredWhenResolved, FormedWhenResolved, FunctionsPlaced, MeantHintsFit, MeantNamesFit, ReadyWhenResolved, TreesOrdered, UncoveredAgain};

/// Where fields keep to all demands on names, nothing stands inline in what they are resolved to, each index that is encoded is a number, and
/// each use that needs a type has one.
pub fn ready_when_resolved()
    ensures { ReadyWhenResolved }
{}

/// What isn't covered by a binary is told of resolved fields as of the fields: the first form, with its place. Behind an ordering of theirs
/// indices alone stand, as in the code's trees ([`trees_ordered`]).
pub fn uncovered_again()
    ensures { UncoveredAgain }
{}

/// Where such fields are covered, each resolved field is: numbers and types change no forms, and implied types are of signatures that are
/// written.
pub fn covered_when_resolved()
    ensures { CoveredWhenResolved }
{}

/// In the trees of the code's fields, what stands behind an ordering of an atomic instruction is indices alone.
pub fn trees_ordered()
    ensures { TreesOrdered }
{}

/// Where fields are well formed, each resolved field is, beside names, and one of them is the start at most.
pub fn formed_when_resolved()
    ensures { FormedWhenResolved }
{}

/// Where fields keep to all demands on names, the functions of the index space are those that are imported, then those that are defined.
pub fn functions_placed()
    ensures { FunctionsPlaced }
{}

/// Where fields are well formed and keep to all demands on names, the branch hints of the module that they stand for are in the ranges of
/// their binary fields, as far as there are at most 2^32 functions, and instructions in each.
pub fn meant_hints_fit()
    ensures { MeantHintsFit }
{}

/// The indices of name maps rise, as far as there are at most 2^32 names in each.
pub fn meant_names_fit()
    ensures { MeantNamesFit }
{}
