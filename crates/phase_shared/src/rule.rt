//! What a phaser between threads is told when it is made.
ghost use Rattle.std.specs.Prelude.{ℕ, ℤ, List, Option};
ghost use Rattle.phase_accum.specs.declared.single.Single.{Single};
ghost use Rattle.phase_history.specs.Histories.{History};

use phase_base::Spec;
use std::sync::atomic::AtomicU64;

/// Which signals a phaser allows: plain data, by which every task on the phaser abides.
///
/// A caller of a signal shows that the rule allows it. Each task that has seen a history then knows
/// that every signal in it was allowed, whoever made it.
pub trait SignalRule: Copy {
    /// Whether a signal is allowed after a history: of a task, with its lists of sends and its
    /// single.
    ghost allows: { Self → History → ℕ → List (List ℤ) → Option Single → Type 0 };

    /// Wakes those that sleep on a number of the phaser. A library for C, which may wake nobody,
    /// does nothing here, and its callers sleep and wake elsewhere.
    fn wake(number: &AtomicU64) {
        number.wake_all();
    }

    /// Whether each call tells how many phases every waiter got, and not only where a signal waits
    /// for room. A library for C does, whose callers wait elsewhere.
    fn tells_each() -> bool {
        false
    }
}

/// The rule that allows every signal.
#[derive(Clone, Copy, Debug, PartialEq, Eq)]
pub struct NoRule;

impl SignalRule for NoRule {
    ghost allows = { λ rule h task lists single. Unit {0} };
}

/// The rule that allows every signal, on a phaser that wakes nobody: its callers wait elsewhere.
#[derive(Clone, Copy, Debug, PartialEq, Eq)]
pub struct Unwoken;

impl SignalRule for Unwoken {
    ghost allows = { λ rule h task lists single. Unit {0} };

    fn wake(_number: &AtomicU64) {}

    fn tells_each() -> bool {
        true
    }
}

/// What a phaser is told when it is made.
#[derive(Drop)]
pub struct Terms<K> {
    /// How far signals may be ahead, and how many phases there are.
    pub limits: Spec,
    /// Which signals are allowed.
    pub rule: K,
}
