//! Who is told of the parts of fields.
ghost use Rattle.std.specs.Prelude.{ℕ, Bool, List, [], ◌∷◌, Option, None};
ghost use Rattle.wast_grammar.specs.Tokens.{Name};
ghost use Rattle.wast_core_instr.specs.ExpressionViews.{expression_tree};
ghost use Rattle.wast_meaning.specs.Mentions as spec;
ghost use Rattle.wast_mentions.specs.Judging.{Judged};
ghost use Rattle.wast_mentions.specs.Views.{mention_tree};
ghost use Rattle.wast_module_fields.specs.FuncViews.{function_tree};

use wast_core_instr::Expression;
use wast_mentions::{Judge, Judgement, Mention};
use wast_module_fields::Local;
use wast_signatures::{FunctionType, TypeUse};

/// What is asked of the parts of fields.
pub trait PartJudgement {
    /// What is told where something that is asked isn't so.
    type Fault;

    /// What is asked, and whether it is so.
    ghost Demand: { Type 0 };

    ghost holds: { Demand → Bool };

    /// What each part asks, in order.
    ghost asks: { Self → spec.Part Name ℕ → List Demand };

    /// Which demand a fault tells of. One that tells of none may come anywhere: want of memory.
    ghost tells: { Option Demand → Self.Fault → Type 0 };

    ghost anywhere: { (d : Option Demand) (e : Self.Fault) → tells None e → tells d e };
}

/// Who tests what is asked of the parts of fields.
pub trait PartJudge<'a>: PartJudgement {
    /// All that a field asks by this mention is so, or the fault tells of the first that isn't.
    fn judge_mention(&self, mention: Mention<'_, 'a>) -> Result<(), Self::Fault>
        ensures { Judged (Self.asks self.now) Self.holds Self.tells result (spec.Says (mention_tree mention.entry) ∷ []) };

    /// The same of a constant expression.
    fn judge_constant(&self, expression: &Expression<'a>) -> Result<(), Self::Fault>
        ensures { Judged (Self.asks self.now) Self.holds Self.tells result (spec.Constant (expression_tree expression.now) ∷ []) };

    /// The same of a function with a body: its type, its locals and its instructions.
    fn judge_function(
        &self,
        ty: &TypeUse<'a, FunctionType<'a>>,
        locals: &[Local<'a>],
        body: &Expression<'a>,
    ) -> Result<(), Self::Fault>
        ensures { Judged (Self.asks self.now) Self.holds Self.tells result (spec.Body (function_tree ty.now locals.now body.now) ∷ []) };
}

/// A judge of parts, as the judge of what a field says by itself.
#[derive(Drop)]
pub(crate) struct Said<'j, J: PartJudgement> {
    pub(crate) judge: &'j J,
}

impl<J: PartJudgement> Judgement for Said<'_, J> {
    type Fault = J::Fault;

    ghost Demand = { J.Demand };

    ghost holds = { J.holds };

    ghost asks = { λ s m. J.asks s.judge.now (spec.Says m) };

    ghost tells = { J.tells };

    ghost anywhere = { J.anywhere };
}

impl<'a, J: PartJudge<'a>> Judge<'a> for Said<'_, J> {
    fn judge(&self, mention: Mention<'_, 'a>) -> Result<(), J::Fault> {
        self.judge.judge_mention(mention)
    }
}
