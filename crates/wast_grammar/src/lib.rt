//! The language in which the syntax of the text format is written (WebAssembly Core Specification 3.0, chapter 6), and the
//! laws that make readers of it exact.
//!
//! The crate has definitions and laws and no code but [`laws`]. It knows no table of instructions; names
//! and places of tokens are type parameters throughout, so no definition tells one from another but by a test of names.
//!
//! # What has to be believed
//!
//! | File of `specs/` | Says |
//! |---|---|
//! | `Tokens` | significant tokens as plain data; what integers, strings, identifiers and names of annotations say |
//! | `Significant` | which tokens of a text are significant, where some annotations are registered by name |
//! | `Spelling` | which tokens spell a value, a relation for each way to make a production, without any look ahead |
//! | `Recursion` | the same where items stand in themselves |
//! | `Behind` | the same where items go up to an end; it asks by `at` of `Look` how what stands behind begins |
//!
//! # How a reader decides
//!
//! | File of `specs/` | Says |
//! |---|---|
//! | `Look` | what a reader sees: the first token, or the one behind a parenthesis; tests, and when none fits two lists |
//! | `Grammar` | productions as records: what spells a value, how it is read, what it begins with, what may not follow |
//! | `Twins` | which token lists spell the same and differ in marked parts alone |
//! | `Lawful` | what the laws say of a production |
//! | `Alike` | tokens that are alike but for names and places |
//! | `Laws` | the statements of the crate's law functions |
//!
//! The laws of productions range over types, so they are lemmas of `proofs/` and no law functions: `GrammarLaws`,
//! `TokenLaws`, `RecursionLaws` and `BehindLaws` have one for each combinator, `LeadLaws` says that a look
//! tells where a production begins, `Readings` that what is read of a text is what it spells, `Twins` that marked parts
//! may be put for one another, `Repeats` what a loop keeps, and `Decide` that tokens that are alike have one answer.
//! `Examples` and `Productions` compute worked examples of all.
//!
//! # How a production is written
//!
//! | In the syntax | Combinator |
//! |---|---|
//! | a word; a word of a set, with its value; a word that begins so | `word`, `among`, `begun` |
//! | an identifier, an integer, a float, a string; a range of them | `id`, `integer`, `float`, `string`, `only` |
//! | one after the other; the second by what the first says | `seq`, `next` |
//! | one or none, any number, so many, one or the other | `maybe`, `many`, `times`, `either` |
//! | `( .. )`, with the place where it closes, `(word ..)`, `(@name ..)` | `paren`, `fenced`, `group`, `annotation` |
//! | another value | `seen` |
//! | what a reader tells by what it sees, said as what stands there | `respelled` |
//! | a part that may be written another way | `part` |
//! | in itself, at any depth | `fix` |
//! | up to an end, where what goes on with one may not begin the next | `row`, `next_but` |
//!
//! The law of a production is one term that mirrors it: `group_laws (codes "export") _ name_laws refl`. Each side condition
//! is computed, so an ambiguous production is refused at a `refl`, where `false` stands for `true`. Where the prover has
//! to be told a part of a production, it is a list of words or of stops, or the text of a group. The tests given to
//! `maybe`, `many` and `either` are those that the production begins with, in the same order.
#![tactic(auto)]

pub mod laws;
