//! What a filter makes of the outcomes of a block.
ghost use Rattle.std.specs.Prelude.{◌≡◌, ◌+◌, ◌<◌, ◌≤◌, ◌++◌, List, ℤ, length, map, take, vec_capacity, Ok};
ghost use Rattle.graph_base.specs.Graphs.{task_at};
ghost use Rattle.graph_base.specs.declared.line.Kind.TheVariants.{Fir as filters};
ghost use Rattle.graph_runs.specs.Steps.{HasFilter};
ghost use Rattle.stream_lists.specs.Lists.{number};
ghost use Rattle.stream_job.specs.Filtering.{HasFiltered};

use graph_runs::{filtered, filtered_all, number_taken};
use phase_accum::Outcome;
use stream_filters::{Fir, TooBigValue};
use stream_lists::Job;

/// How many numbers a filter is given at once.
const AT_ONCE: usize = 64;

/// Gives the filter of task number `t` the numbers of these outcomes, and puts its answers behind
/// `made`, where there is room for them. It uses the places of the values meanwhile.
pub fn filter_all(
    job: &Job,
    t: usize,
    filter: &mut Option<Fir>,
    outcomes: &[Outcome],
    values: &mut Vec<i64>,
    made: &mut Vec<Result<i64, TooBigValue>>,
)
    requires task { t < length job.now.graph.tasks }
    requires kind { (task_at job.now.graph t).kind ≡ filters }
    requires filter { (taken : List ℤ) × HasFilter (task_at job.now.graph t) filter.old taken }
    requires room { length made.old.items + length outcomes.now ≤ vec_capacity made.old }
    requires places { length outcomes.now ≤ vec_capacity values.old }
    ensures filtered { HasFiltered (task_at job.now.graph t) (map number outcomes.now)
        filter.old filter.new made.old.items made.new.items }
    ensures room { vec_capacity made.new ≡ vec_capacity made.old }
    ensures places { vec_capacity values.new ≡ vec_capacity values.old }
{
    if let [outcome] = outcomes {
        made.push_reserved(filtered(job, t, filter, number_taken(*outcome)));
        return;
    }
    let mut at = 0;
    while at < outcomes.len() {
        let end = outcomes.len().min(at + AT_ONCE);
        at += filter_some(job, t, filter, &outcomes[at..end], values, made);
    }
}

/// The same of the first of at most 64 outcomes, as many as it tells: all of them, or up to the
/// first whose answer is out of range.
fn filter_some(
    job: &Job,
    t: usize,
    filter: &mut Option<Fir>,
    outcomes: &[Outcome],
    values: &mut Vec<i64>,
    made: &mut Vec<Result<i64, TooBigValue>>,
) -> usize
    requires task { t < length job.now.graph.tasks }
    requires kind { (task_at job.now.graph t).kind ≡ filters }
    requires filter { (taken : List ℤ) × HasFilter (task_at job.now.graph t) filter.old taken }
    requires room { length made.old.items + length outcomes.now ≤ vec_capacity made.old }
    requires places { (1 ≤ length outcomes.now) × (length outcomes.now ≤ 64)
        × (length outcomes.now ≤ vec_capacity values.old) }
    ensures filtered { HasFiltered (task_at job.now.graph t)
        (map number (take result outcomes.now)) filter.old filter.new made.old.items
        made.new.items }
    ensures some { (1 ≤ result) × (result ≤ length outcomes.now) }
    ensures room { (vec_capacity made.new ≡ vec_capacity made.old)
        × (vec_capacity values.new ≡ vec_capacity values.old)
        × (length made.new.items ≡ length made.old.items + result) }
{
    let numbers = numbers_of(outcomes);
    values.clear();
    let answer = filtered_all(job, t, filter, &numbers[..outcomes.len()], values);
    put_good(values, made);
    match answer {
        Ok(()) => outcomes.len(),
        Err(_) => {
            made.push_reserved(Err(TooBigValue));
            values.len() + 1
        }
    }
}

/// The numbers of these outcomes, at most 64, and zeros behind them.
fn numbers_of(outcomes: &[Outcome]) -> [i64; AT_ONCE]
    requires { length outcomes.now ≤ 64 }
    ensures { take (length outcomes.now) result ≡ map number outcomes.now }
{
    let mut numbers = [0; AT_ONCE];
    for i in 0..outcomes.len() {
        numbers[i] = number_taken(outcomes[i]);
    }
    numbers
}

/// Puts these values, which are in range, behind what was made, where there is room for them.
fn put_good(values: &[i64], made: &mut Vec<Result<i64, TooBigValue>>)
    requires { length made.old.items + length values.now ≤ vec_capacity made.old }
    ensures items { made.new.items ≡ made.old.items ++ map (λ v. Ok v) values.now }
    ensures room { vec_capacity made.new ≡ vec_capacity made.old }
{
    for value in values {
        made.push_reserved(Ok(*value));
    }
}
