//! Places for what a wait for a block gets, and the numbers of what stands in them.
ghost use Rattle.std.specs.Prelude.{◌≡◌, ◌≤◌, ◌++◌, ℕ, length, map, drop, IfOk};
ghost use Rattle.phase_base.specs.Limits.{Limits, AreLimits};
ghost use Rattle.phase_history.specs.Histories.{History};
ghost use Rattle.phase_history.specs.Replies.{wait_block_reply};
ghost use Rattle.handle_numbers.specs.Numbers.{value_number};

use crate::codes::value_code;
use phase_accum::Outcome;
use phase_base::BOUND_MAX;
use std::alloc::{AllocError, Global};

/// Makes places for a wait for at most so many phases. A wait for more than `BOUND_MAX` is refused,
/// as one for none is, and has no places.
pub fn places(alloc: Global, asked: usize) -> Result<Vec<Outcome>, AllocError>
    ensures reply { IfOk result (λ places. (limits : Limits) (h : History) (task : ℕ)
        → AreLimits limits
        → wait_block_reply limits h task (length places.items)
        ≡ wait_block_reply limits h task asked) }
    ensures few { IfOk result (λ places. length places.items ≤ asked) }
{
    if asked as u64 > BOUND_MAX {
        return Ok(Vec::new(alloc));
    }
    vec![in alloc; Outcome::Empty; asked]
}

/// Writes the number of each value in the first places.
pub fn write_numbers(values: &mut [i64], outcomes: &[Outcome])
    requires { length outcomes.now ≤ length values.old }
    ensures { values.new
        ≡ map value_number outcomes.now ++ drop (length outcomes.now) values.old }
{
    for k in 0..outcomes.len() {
        values[k] = value_code(outcomes[k]);
    }
}
