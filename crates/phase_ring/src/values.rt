//! The values of phases of one send each.
ghost use Rattle.std.specs.Prelude.{◌≡◌, ◌+◌, ◌-◌, ◌<◌, ◌≤◌, ◌++◌, [], drop, length, map, pos, get_or, take, IfOk};
ghost use Rattle.std.specs.List.{take_while};
ghost use Rattle.circular_buffer.specs.Buffer.{buffer};
ghost use Rattle.phase_accum.specs.Sends.{AreSends};
ghost use Rattle.phase_ring.specs.Blocks.{is_not_too_big};
ghost use Rattle.phase_ring.specs.Restarts.{plain_value};

use circular_buffer::HeapCircularBuffer;
use phase_accum::{Accumulate, Outcome};
use phase_base::BOUND_MAX;
use std::alloc::{AllocError, Global};

/// The sends of phases in a row, each with one send and no single, of which nothing else is kept.
#[derive(Drop)]
pub struct Values {
    /// The phase of the first send.
    pub base: u64,
    /// The first phase from which on sends may be kept so again.
    pub again: u64,
    /// The sends, with room for as many as the bound says.
    pub queue: HeapCircularBuffer<i64>,
}

/// Writes the values of phases of these sends, one each, into the first places.
fn write_ones<A: Accumulate>(values: &[i64], out: &mut [Outcome])
    requires sends { AreSends values.now }
    requires room { length values.now ≤ length out.old }
    ensures { out.new
        ≡ map (plain_value A.operation) values.now ++ drop (length values.now) out.old }
{
    for k in 0..values.len() {
        out[k] = A::of(values[k]).finish();
    }
}

/// Counts the values of phases of these sends, one each, before the first that is too big.
fn count_good<A: Accumulate>(values: &[i64]) -> usize
    requires { AreSends values.now }
    ensures { result
        ≡ length (take_while is_not_too_big (map (plain_value A.operation) values.now)) }
{
    for k in 0..values.len() {
        if let Outcome::TooBig = A::of(values[k]).finish() {
            return k;
        }
    }
    values.len()
}

impl Values {
    /// Makes room for so many sends, and keeps none. It takes all the memory that they will need.
    pub fn with_room(alloc: Global, bound: u64) -> Result<Values, AllocError>
        requires { bound ≤ BOUND_MAX }
        ensures { IfOk result (λ values. values.queue ≡ buffer [] bound) }
    {
        let queue = HeapCircularBuffer::with_capacity(alloc, bound as usize)?;
        Ok(Values {
            base: 0,
            again: 0,
            queue,
        })
    }

    /// Returns the value of a phase.
    pub fn value<A: Accumulate>(&self, phase: u64) -> Outcome
        requires sends { AreSends self.now.queue.items }
        requires low { self.now.base ≤ phase }
        requires complete { phase < self.now.base + length self.now.queue.items }
        ensures { result ≡ plain_value A.operation
            (get_or self.now.queue.items (phase - self.now.base) (pos 0)) }
    {
        match self.queue.get((phase - self.base) as usize) {
            Some(value) => A::of(*value).finish(),
            None => unreachable!(),
        }
    }

    /// Writes the values of so many phases, the first this one, into the first places.
    pub fn write<A: Accumulate>(&self, phase: u64, count: usize, out: &mut [Outcome])
        requires sends { AreSends self.now.queue.items }
        requires low { self.now.base ≤ phase }
        requires complete { phase + count ≤ self.now.base + length self.now.queue.items }
        requires room { count ≤ length out.old }
        ensures { let behind = drop (phase - self.now.base) self.now.queue.items in
            out.new ≡ map (plain_value A.operation) (take count behind) ++ drop count out.old }
    {
        let skipped = (phase - self.base) as usize;
        let (front, back) = self.queue.as_slices();
        let in_front = skipped.min(front.len());
        let front = &front[in_front..];
        let back = &back[skipped - in_front..];
        let many = count.min(front.len());
        write_ones::<A>(&front[..many], out);
        write_ones::<A>(&back[..count - many], &mut out[many..]);
    }

    /// Counts the values of so many phases, the first this one, before the first that is too big.
    pub fn good_from<A: Accumulate>(&self, phase: u64, count: usize) -> usize
        requires sends { AreSends self.now.queue.items }
        requires low { self.now.base ≤ phase }
        requires complete { phase + count ≤ self.now.base + length self.now.queue.items }
        ensures { let behind = drop (phase - self.now.base) self.now.queue.items in
            let values = map (plain_value A.operation) (take count behind) in
            result ≡ length (take_while is_not_too_big values) }
    {
        let skipped = (phase - self.base) as usize;
        let (front, back) = self.queue.as_slices();
        let in_front = skipped.min(front.len());
        let front = &front[in_front..];
        let back = &back[skipped - in_front..];
        let many = count.min(front.len());
        let good = count_good::<A>(&front[..many]);
        if good < many {
            return good;
        }
        many + count_good::<A>(&back[..count - many])
    }
}
