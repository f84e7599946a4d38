//! The laws of significant tokens: functions that do nothing, whose contracts are the laws. The laws of productions range
//! over types, which no contract can; they stand in `proofs/`.

ghost use Rattle.wast_grammar.specs.Laws.{AnnotationName, IdentifierName, IntegerValue, NamelessIdentifier, OneList, ShownTokens, SignificantTokens, StringValue};

/// The bytes that a string stands for are those that the definition of tokens reads (6.3.3).
pub fn string_value()
    ensures { StringValue }
{}

/// The name of an annotation is the one that the definition of tokens reads (6.2.5).
pub fn annotation_name()
    ensures { AnnotationName }
{}

/// An identifier has a name exactly where it stands for a text that is not empty, and that is its name; it has none
/// exactly where it stands for nothing, or for bytes that are no text (6.3.5).
pub fn identifier_name()
    ensures named { IdentifierName }
    ensures nameless { NamelessIdentifier }
{}

/// An integer says its sign, and the number that its digits say in its base (6.3.1).
pub fn integer_value()
    ensures { IntegerValue }
{}

/// The relation and the function that say which tokens are significant agree, both ways (6.2.3 to 6.2.5).
pub fn significant_tokens()
    ensures shown { ShownTokens }
    ensures whole { SignificantTokens }
{}

/// A text has one list of significant tokens at most, with one setting and one list of names.
pub fn one_list()
    ensures { OneList }
{}
