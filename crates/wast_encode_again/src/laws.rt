//! A law over the definitions that contracts cite: a function without parameters whose contract is the law. It does nothing.

ghost use Rattle.wast_encode_again.specs.Laws.{EncodedAgain};

/// What encoding leaves of a module that is well formed, once its names are resolved, is well formed, meets all demands on them, and is
/// left as it is by encoding it again, wherever the counter has come by then. It stands for the same module, has the same first form
/// without a binary, at the same place, deserves the same faults, and has the same binary: so a second call, memory found, gives the same
/// bytes, or the same fault.
pub fn encoded_again()
    ensures { EncodedAgain }
{}
