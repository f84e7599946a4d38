//! Laws over the definitions that contracts cite: functions without parameters whose contracts are the laws. They do nothing.
//!
//! Fields are *expanded* where each use of a type without an index has the number of the type that it takes, and the implied types stand
//! behind all fields (WebAssembly Core Specification 3.0, 6.6, type uses: abbreviations).

ghost use Rattle.wast_resolve_laws.specs.Laws.{DemandsKept, FieldsKept, LabelsHandedOn, NamingsAlike, NothingImplied, NumberedSettled, OrdersAgree, RenamedDemands, RenamedNumbers, ResolvedAgain, ResolvedMet, ResolvedSettled, ScopeKept, SignaturesKept, SpacesApart, SpacesKept, TestedOnTheWay, TypesTaken, WrittenDemands, WrittenNames, WrittenSignatures, WrittenTypes};

/// A name means the same item of a space before and after fields are expanded: the types behind them have no names.
pub fn spaces_kept()
    ensures { SpacesKept }
{}

/// The names of the fields of each type are the same before and after.
pub fn fields_kept()
    ensures { FieldsKept }
{}

/// A number is that of the same function type before and after: the types that were implied are written.
pub fn signatures_kept()
    ensures { SignaturesKept }
{}

/// All that is known outside of bodies is the same before and after, how many items a space has too.
pub fn scope_kept()
    ensures { ScopeKept }
{}

/// Expanded fields imply no type: each use that needs a type has one.
pub fn nothing_implied()
    ensures { NothingImplied }
{}

/// The type that a use takes is a function type whose signature is written as that of the use, names of parameters aside.
pub fn types_taken()
    ensures { TypesTaken }
{}

/// The first demand that isn't met is the same before and after: of what expanded fields demand besides, all is met where the fields'
/// own demands are.
pub fn demands_kept()
    ensures { DemandsKept }
{}

/// A number is that of the same function type among fields and among what they are written out as.
pub fn written_signatures()
    ensures { WrittenSignatures }
{}

/// The names of the fields of each type, the types that uses imply and the type that a use takes are the same among fields and among what
/// they are written out as.
pub fn written_types()
    ensures { WrittenTypes }
{}

/// A name means the same item among fields and among what they are written out as, unless it is one that is made there.
pub fn written_names()
    ensures { WrittenNames }
{}

/// Where the names that are made are fresh, the first demand that isn't met is the same among fields and among what they are written
/// out as.
pub fn written_demands()
    ensures { WrittenDemands }
{}

/// The first demand that isn't met is the same whichever fresh names are made.
pub fn namings_alike()
    ensures { NamingsAlike }
{}

/// Where fields keep to all demands on names, what they are resolved to does, whatever names are made.
pub fn resolved_met()
    ensures { ResolvedMet }
{}

/// Where fields keep to all demands on names, each index of what they are resolved to is a number, and each use that needs a type has one.
pub fn resolved_settled()
    ensures { ResolvedSettled }
{}

/// Where fields keep to all demands on names, what they are resolved to is resolved to itself, whatever names are made.
pub fn resolved_again()
    ensures { ResolvedAgain }
{}

/// Where fields keep to all demands on names, numbering leaves nothing but numbers for indices; where each use that needs a type has one,
/// each has its number.
pub fn numbered_settled()
    ensures { NumberedSettled }
{}

/// Fields whose names and places are replaced, one to one, have the same demands, renamed: the same are met, and the first that isn't
/// is the first that isn't of the fields, whatever fresh names are made.
pub fn renamed_demands()
    ensures { RenamedDemands }
{}

/// In them a name means the number that its counterpart means, and what they are numbered as, and resolved to, is renamed like them.
pub fn renamed_numbers()
    ensures { RenamedNumbers }
{}

/// A walk over all items, with all index spaces at hand, gives each space what a walk over its items alone gives it; all demands on
/// items are met there exactly where they are in each space by itself.
pub fn spaces_apart()
    ensures { SpacesApart }
{}

/// Two lists of fields that have the same items in each space, in the same order there, give names the same numbers, and all demands on
/// items are met in one exactly where they are in the other.
pub fn orders_agree()
    ensures { OrdersAgree }
{}

/// Looking back from each instruction for the labels of the blocks that are open comes to the same demands and numbers as keeping a
/// stack of labels.
pub fn labels_handed_on()
    ensures { LabelsHandedOn }
{}

/// The first demand that isn't met, of imports after definitions, of items and of bodies, is the one that a walk meets with which tests
/// the demands of each element before it goes on.
pub fn tested_on_the_way()
    ensures { TestedOnTheWay }
{}
