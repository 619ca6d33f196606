//! Why a command was refused.

ghost use Rattle.std.specs.Prelude.{◌≡◌};
ghost use Rattle.phase_script.specs.ReplyLines.{reason_text};

/// Why a command was refused. The line of the refusal is `no`, a space and the reason's text.
#[derive(Clone, Copy, Debug, PartialEq, Eq)]
pub enum Refusal {
    /// There is no phaser yet.
    NoPhaser,
    /// There is a phaser already.
    Made,
    /// The bound is outside its limits.
    BadBound,
    /// The number of phases is outside its limits.
    BadPhases,
    /// No such task is registered.
    NoTask,
    /// The task does not signal.
    NoSignal,
    /// The task holds as many sends as it may.
    TooManySends,
    /// The task holds sends, which no block takes along.
    Held,
    /// A single is named, and the task's mode is not `Single`.
    NotSingle,
    /// The block has more phases than the bound.
    BadBlock,
    /// The task has to wait before it signals again.
    SignalTwice,
    /// No phase is left for the task to signal.
    Spent,
    /// The phase is the bound or more ahead of the slowest waiter's.
    Ahead,
    /// The first signal of the phase named otherwise.
    SingleDiffers,
    /// The phase has no room for the sends.
    PhaseFull,
    /// The task does not wait.
    NoWait,
    /// The task has to signal before it waits.
    SignalFirst,
    /// The phase is not complete yet.
    NotYet,
    /// The parent does not hold what the child asks for.
    NotAllowed,
    /// The number of the child is not above every number ever used.
    NotNew,
    /// There are as many tasks as there may be.
    TooManyTasks,
}

impl Refusal {
    /// Returns the text that follows `no` and a space, in small letters and hyphens.
    pub fn reason(self) -> &'static [u8]
        ensures { result.now ≡ reason_text self }
    {
        match self {
            Refusal::NoPhaser => b"phaser",
            Refusal::Made => b"made",
            Refusal::BadBound => b"bad-bound",
            Refusal::BadPhases => b"bad-phases",
            Refusal::NoTask => b"no-task",
            Refusal::NoSignal => b"no-signal",
            Refusal::TooManySends => b"too-many-sends",
            Refusal::Held => b"held",
            Refusal::NotSingle => b"not-single",
            Refusal::BadBlock => b"bad-block",
            Refusal::SignalTwice => b"signal-twice",
            Refusal::Spent => b"spent",
            Refusal::Ahead => b"ahead",
            Refusal::SingleDiffers => b"single-differs",
            Refusal::PhaseFull => b"phase-full",
            Refusal::NoWait => b"no-wait",
            Refusal::SignalFirst => b"signal-first",
            Refusal::NotYet => b"not-yet",
            Refusal::NotAllowed => b"not-allowed",
            Refusal::NotNew => b"not-new",
            Refusal::TooManyTasks => b"too-many-tasks",
        }
    }
}
