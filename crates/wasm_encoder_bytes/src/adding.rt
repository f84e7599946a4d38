//! What calls that append share: the answer of one that chains, and the rollback of one that is refused.

ghost use Rattle.std.specs.Prelude.{◌≡◌, take, OnOk, OnErr};

/// What was added to, for a further call: a `&mut` in a struct.
#[derive(Drop)]
pub struct Added<'a, T> {
    pub target: &'a mut T,
}

/// Hands on what an append to `sink` answered; where that is an error, `sink` keeps its first `start` bytes
/// alone. Takes no memory.
pub fn rolled_back<E>(sink: &mut Vec<u8>, start: usize, answer: Result<(), E>) -> Result<(), E>
    ensures same { result ≡ answer }
    ensures kept { OnOk result (sink.new.items ≡ sink.old.items) }
    ensures cut { OnErr result (sink.new.items ≡ take start sink.old.items) }
{
    if answer.is_err() {
        sink.truncate(start);
    }
    answer
}
