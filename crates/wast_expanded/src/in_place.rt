//! Work on a value in its place.
ghost use Rattle.std.specs.Prelude.{IfErr, MatchResult};

/// Work on a value in its place.
pub trait InPlace<T> {
    /// What else the work changes.
    type State;

    /// What is answered where it is done.
    type Answer: Drop;

    /// What is answered where it is refused.
    type Refusal: Drop;

    /// What may be given.
    ghost takes: { Self → Self.State → T → Type 0 };

    /// What becomes of it and of what else is changed, with the answer.
    ghost done: { Self → Self.State → T → Self.State → T → Self.Answer → Type 0 };

    /// With what it is refused.
    ghost refused: { Self → Self.State → T → Self.Refusal → Type 0 };

    /// What else the work leaves, on both outcomes.
    ghost leaves: { Self.State → T → Self.State → Type 0 };

    /// What else it leaves where it is refused.
    ghost leaves_refused: { Self.State → T → Self.State → Self.Refusal → Type 0 };

    /// Does the work; refused, the value may be gone.
    fn run(&self, state: &mut Self::State, value: &mut T) -> Result<Self::Answer, Self::Refusal>
        requires { takes self.now state.old value.old }
        ensures answered { MatchResult result (λ a. done self.now state.old value.old state.new value.new a) (λ e. refused self.now state.old value.old e) }
        ensures left { leaves state.old value.old state.new }
        ensures left_refused { IfErr result (leaves_refused state.old value.old state.new) };
}

/// Works on a value that is given, and gives it back with the answer. Who calls this has no value of its own that is lent, which spares
/// the prover what the type holds; and nothing is dropped here.
pub fn by_value<T, W: InPlace<T>>(
    work: &W,
    state: &mut W::State,
    value: T,
) -> (T, Result<W::Answer, W::Refusal>)
    requires { W.takes work.now state.old value }
    ensures answered { MatchResult result.1 (λ a. W.done work.now state.old value state.new result.0 a) (λ e. W.refused work.now state.old value e) }
    ensures left { W.leaves state.old value state.new }
    ensures left_refused { IfErr result.1 (W.leaves_refused state.old value state.new) }
{
    let mut value = value;
    let answer = work.run(state, &mut value);
    (value, answer)
}
