//! A law of sections: a function without parameters whose contract is the law. It does nothing.

ghost use Rattle.wasm_encoder_sections.specs.Laws.{IsToldApart};

/// What a section of a kind holds is told apart by its bytes, whatever follows these: for a section that is a list, its
/// items, where each expression in them closes the blocks that it opens and no other.
pub fn one_section()
    ensures { IsToldApart }
{}
