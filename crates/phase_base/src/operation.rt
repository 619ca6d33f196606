//! The operations on the sends of a phase, and their words.
ghost use Rattle.std.specs.Prelude.{◌≡◌};
ghost use Rattle.phase_base.specs.OperationWords.{operation_of};

/// The operation of a phaser: how the sends of a phase make its value. In definitions that value is
/// `value_by` of `phase_accum`.
#[derive(Clone, Copy, Debug, PartialEq, Eq)]
pub enum Op {
    /// Adds them up.
    Sum,
    /// Multiplies them.
    Product,
    /// Takes the least.
    Least,
    /// Takes the greatest.
    Greatest,
    /// Takes the first.
    Any,
}

impl Op {
    /// Returns which operation a word stands for: `sum`, `product`, `least`, `greatest` or `any`.
    /// It takes no memory.
    pub fn read(word: &[u8]) -> Option<Op>
        ensures { result ≡ operation_of word.now }
    {
        if word == b"sum".as_slice() {
            Some(Op::Sum)
        } else if word == b"product".as_slice() {
            Some(Op::Product)
        } else if word == b"least".as_slice() {
            Some(Op::Least)
        } else if word == b"greatest".as_slice() {
            Some(Op::Greatest)
        } else if word == b"any".as_slice() {
            Some(Op::Any)
        } else {
            None
        }
    }
}
