//! Who is told of mentions.
ghost use Rattle.std.specs.Prelude.{ℕ, Bool, List, [], ◌∷◌, Option, None};
ghost use Rattle.wast_grammar.specs.Tokens.{Name};
ghost use Rattle.wast_meaning.specs.Mentions as spec;
ghost use Rattle.wast_mentions.specs.Judging.{Judged};
ghost use Rattle.wast_mentions.specs.Views.{mention_tree};

use crate::mention::Mention;

/// What is asked of mentions.
pub trait Judgement {
    /// What is told where something that is asked isn't so.
    type Fault;

    /// What is asked, and whether it is so.
    ghost Demand: { Type 0 };

    ghost holds: { Demand → Bool };

    /// What each mention asks, in order.
    ghost asks: { Self → spec.Mention Name ℕ → List Demand };

    /// Which demand a fault tells of. One that tells of none may come anywhere: want of memory.
    ghost tells: { Option Demand → Self.Fault → Type 0 };

    ghost anywhere: { (d : Option Demand) (e : Self.Fault) → tells None e → tells d e };
}

/// Who tests what is asked of mentions.
pub trait Judge<'a>: Judgement {
    /// All that this mention asks is so, or the fault tells of the first that isn't.
    fn judge(&self, mention: Mention<'_, 'a>) -> Result<(), Self::Fault>
        ensures { Judged (Self.asks self.now) Self.holds Self.tells result (mention_tree mention.entry ∷ []) };
}
