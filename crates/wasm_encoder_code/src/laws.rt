//! Laws of the bytes of bodies and expressions: functions without parameters whose contracts are the laws.
//! They do nothing.

ghost use Rattle.wasm_encoder_code.specs.Laws.{OneBody, OneExpression, LocalsJoined, PairsAreBody, RunsJoined, PlaceBegins};

pub use wasm_encoder_instr::laws::listed;

/// A body has one byte string, and one byte string is that of at most one body.
pub fn one_body()
    ensures { OneBody }
{}

/// An expression has one byte string, and one byte string is that of at most one expression.
pub fn one_expression()
    ensures { OneExpression }
{}

/// An instruction of a body begins at its place: after the locals and the instructions before it.
pub fn places()
    ensures { PlaceBegins }
{}

/// Joining locals gives runs with positive counts, neighbours of different types, that stand for these locals; and
/// it gives every such list of runs. So a body of such runs is that of its locals, joined.
pub fn runs()
    ensures locals_joined { LocalsJoined }
    ensures runs_joined { RunsJoined }
{}

/// What `Function::new` writes for pairs, and the bytes of an expression behind it, are the body of the locals that these
/// pairs stand for, where the pairs are such runs.
pub fn bodies()
    ensures { PairsAreBody }
{}
