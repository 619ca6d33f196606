//! The tokens of a lock.
ghost use Rattle.std.specs.Prelude.{◌≡◌, true, false, []};
ghost use Rattle.turn_lock.specs.Held.{is_alone};

use atomic_table::Seat as TableSeat;

// What a seat of the table knows. No value of it is made.
pub struct Doing<N, V> {
    pub name: Option<N>,
    pub turn: bool,
    pub told: u64,
    pub client: V,
}

/// The right to take turns at the lock that made it. It has no bytes, and may go to any thread.
#[derive(Drop)]
pub struct Seat<T, N, V> {
    pub(crate) inner: TableSeat<T, Doing<N, V>>,
    ghost rests: { (inner.me.0.turn ≡ false) × (inner.me.1 ≡ []) },
}

/// The turn at a lock, with the lock's value, which `Turn::value` lends. It cannot be thrown
/// away: `TurnLock::give` ends it.
pub struct Turn<T, N, V> {
    pub(crate) inner: TableSeat<T, Doing<N, V>>,
    ghost turns: { inner.me.0.turn ≡ true },
    ghost out: { is_alone inner.me.1 ≡ true },
}
