//! What a joiner takes one by one where it takes no block, and puts by blocks.
ghost use Rattle.std.specs.Prelude.{◌≡◌, ◌≢◌, ◌<◌, ℕ, [], false, true, length};
ghost use Rattle.graph_runs.specs.Nexts.{is_cut};
ghost use Rattle.graph_base.specs.Graphs.{task_at};
ghost use Rattle.graph_base.specs.declared.line.Kind.TheVariants as kind;
ghost use Rattle.stream_members.specs.Members.{Spot};
ghost use Rattle.stream_tasks.specs.Children.{MayStep};
ghost use Rattle.stream_tasks.specs.Joiners.{MayTakeNext};
ghost use Rattle.stream_tasks.specs.Tasks.{IsTask, IsWhole, KeepsTask};

use crate::gate::Gate;
use crate::held::Held;
use crate::hold::Given;
use crate::task_state::TaskState;
use crate::turn::{enter, get_into, is_too_big};
use crate::went::Went;
use graph_base::Kind;
use graph_runs::{first_input_of, input_of, is_cut, kind_of, number_taken, output_of, until_of};
use stream_lists::Job;

impl<'a> TaskState<'a> {
    /// Goes on where it has made something: a joiner takes one value more, where it may; else what
    /// was made is put.
    pub fn go_on_made<G: Gate>(&mut self, job: &Job, gate: &G) -> Went
        requires task { (spots : ℕ → Spot) × IsTask job.now spots self.old }
        requires met { self.old.met ≡ false }
        requires over { self.old.over ≡ false }
        requires made { self.old.made.items ≢ [] }
        ensures { KeepsTask job.now self.old self.new }
    {
        if self.takes_more(job, gate) {
            return self.take_next(job);
        }
        self.put_made(job)
    }

    /// Whether it is a joiner that takes one value more before it puts those that it has: its next
    /// step is not its first input's, where a block may begin, there is room on its output, as far
    /// as is known without a turn, and nobody looks at steps.
    fn takes_more<G: Gate>(&self, job: &Job, gate: &G) -> bool
        requires { IsWhole job.now self.now }
        ensures kind { result ≡ true → (task_at job.now.graph self.now.number).kind ≡ kind.Join }
        ensures uncut { result ≡ true
            → is_cut (task_at job.now.graph self.now.number).until self.now.begun ≡ false }
        ensures room { result ≡ true → length self.now.made.items < self.now.most }
    {
        let count = self.made.len() as u64;
        if count >= self.own || kind_of(job, self.number) != Kind::Join || !gate.is_open() {
            return false;
        }
        if first_input_of(job, self.number, self.begun) == 0 {
            return false;
        }
        let (k, _) = output_of(job, self.number, 0);
        count < self.holds[k].room() && !is_cut(until_of(job, self.number), self.begun)
    }

    /// Begins steps of a joiner: a block, where each input has a share of it, and else one.
    pub fn begin_join<G: Gate>(&mut self, job: &Job, gate: &G) -> Went
        requires step { MayStep job.now self.old }
        requires kind { (task_at job.now.graph self.old.number).kind ≡ kind.Join }
        ensures { KeepsTask job.now self.old self.new }
    {
        enter(gate, &mut self.entered, self.number, self.begun);
        match self.ready_share(job, gate) {
            0 => self.take_next(job),
            each => self.take_shares(job, each),
        }
    }

    /// Takes the value of the next step of a joiner. Where none is there, and it has taken others,
    /// it puts these.
    fn take_next(&mut self, job: &Job) -> Went
        requires { MayTakeNext job.now self.old }
        ensures { KeepsTask job.now self.old self.new }
    {
        let Some(begun) = self.begun.checked_add(1) else {
            return self.meet(Went::Stuck);
        };
        let k = first_input_of(job, self.number, self.begun);
        let p = input_of(job, self.number, k);
        match get_into(&mut self.holds[k], &mut self.outcomes, 1) {
            Ok(Given::Values(_)) => {
                let got = self.outcomes[0];
                if is_too_big(got) {
                    return self.meet(Went::TooBig);
                }
                self.made.push_reserved(number_taken(got));
                self.begun = begun;
                self.entered = false;
                Went::Moved(p)
            }
            Ok(Given::Ended) => {
                if !self.made.is_empty() {
                    return self.put_made(job);
                }
                self.over = true;
                Went::Ready
            }
            Err(held) => {
                if held == Held::Blocked && !self.made.is_empty() {
                    return self.put_made(job);
                }
                held.on(p)
            }
        }
    }
}
