//! The children that a task registers between two steps.
ghost use Rattle.std.specs.Prelude.{◌≡◌, ◌<◌, ◌≤◌, ℕ, length, None, true, false, IfSome};
ghost use Rattle.stream_lists.specs.Jobs.{Job as JobValue};
ghost use Rattle.stream_members.specs.Members.{Spot};
ghost use Rattle.graph_runs.specs.Nexts.{registrations_at};
ghost use Rattle.stream_tasks.specs.Children.{IsPlaceOn, HasChildRoom, HasKept, IsNextOn, IsNextNow};
ghost use Rattle.stream_tasks.specs.Registering.{IsRegistering, IsWith};
ghost use Rattle.stream_tasks.specs.Tasks.{HasAllNow, HasNoneDue, IsDue, IsMissing, IsTask, IsWhole};

use crate::child::Child;
use crate::hold::Hold;
use crate::task_state::TaskState;
use crate::went::Went;
use graph_base::Registration;
use graph_runs::Owed;
use stream_lists::Job;
use stream_members::AnyMember;

impl<'a> TaskState<'a> {
    /// The place of the first child, in the order of the lines, that comes now and has not all its
    /// registrations, where the task stands between two steps.
    pub fn due(&self, job: &Job) -> Option<usize>
        requires { IsWhole job.now self.now }
        ensures none { result ≡ None → HasNoneDue job.now self.now }
        ensures some { IfSome result (IsDue job.now self.now) }
    {
        if self.over || !self.made.is_empty() || !self.deal.values.is_empty() {
            return None;
        }
        match self.owed {
            Owed::Nothing => self.first_missing(job),
            Owed::Value { .. } | Owed::Exchange { .. } => None,
        }
    }

    /// The place of the first child that comes after so many steps and has not all its
    /// registrations.
    fn first_missing(&self, job: &Job) -> Option<usize>
        requires { IsWhole job.now self.now }
        ensures none { result ≡ None → HasAllNow job.now self.now }
        ensures some { IfSome result (IsMissing job.now self.now) }
    {
        for i in 0..self.children.len() {
            if is_missing(job, &self.children[i], self.begun) {
                return Some(i);
            }
        }
        None
    }

    /// Begins to register the child at place `i`, which comes now, and tells its place. Where the
    /// child or another has been registered in part, which cannot be, it has met what ends all.
    pub fn begin(&mut self, i: usize) -> Option<usize>
        requires met { self.old.met ≡ false }
        requires due { (job : JobValue) × IsDue job self.old i }
        ensures task { (job : JobValue) (spots : ℕ → Spot) → IsTask job spots self.old
            → IsTask job spots self.new }
        ensures with { (job : JobValue) (spots : ℕ → Spot) → IsTask job spots self.old
            → IsDue job self.old i → IsWith job spots self.new result }
    {
        if self.children[i].numbers.is_empty() && self.child_holds.is_empty() {
            return Some(i);
        }
        self.met = true;
        None
    }

    /// Makes the next registration of the child at place `i` among its children, which it is
    /// registering. Where all are made it answers `Registered`, without an event.
    pub fn register(&mut self, job: &Job, i: usize) -> Went
        requires whole { IsWhole job.now self.old }
        requires met { self.old.met ≡ false }
        requires registering { (spots : ℕ → Spot) × IsRegistering job.now spots self.old i }
        ensures whole { IsWhole job.now self.new }
        ensures registering { (spots : ℕ → Spot) → IsRegistering job.now spots self.old i
            → self.new.met ≡ false → IsRegistering job.now spots self.new i }
    {
        let child = self.children[i].task;
        let made = self.children[i].numbers.len();
        if made >= job.graph().registrations(child) {
            return Went::Registered(child);
        }
        if !self.has_room(i) {
            self.met = true;
            return Went::Stuck;
        }
        let registration = job.graph().registration(child, made);
        let Some(k) = place_on(job, self.number, registration.phaser) else {
            self.met = true;
            return Went::Stuck;
        };
        self.add(job, i, k, registration)
    }

    /// Makes the next registration of the child at place `i`, on registration `k` of its own.
    fn add(&mut self, job: &Job, i: usize, k: usize, registration: Registration) -> Went
        requires whole { IsWhole job.now self.old }
        requires room { HasChildRoom self.old i }
        requires next { (spots : ℕ → Spot) × IsNextOn job.now spots self.old i k registration }
        ensures whole { IsWhole job.now self.new }
        ensures registering { (spots : ℕ → Spot) → IsNextOn job.now spots self.old i k registration
            → IsRegistering job.now spots self.new i }
    {
        if job.graph().task(self.children[i].task).joins_now {
            return self.add_now(i, k, registration.phaser);
        }
        match self.holds[k].add(registration.mode) {
            Ok(member) => {
                self.keep(i, member, 0);
                Went::Moved(registration.phaser)
            }
            Err(held) => held.on(registration.phaser),
        }
    }

    /// Makes the registration of the child at place `i`, which joins now, on registration `k` of
    /// its own, phaser `p`.
    fn add_now(&mut self, i: usize, k: usize, p: usize) -> Went
        requires room { HasChildRoom self.old i }
        requires next { (job : JobValue) × (spots : ℕ → Spot) × IsWhole job self.old
            × IsNextNow job spots self.old i k p }
        ensures whole { (job : JobValue) → IsWhole job self.old → IsWhole job self.new }
        ensures registering { (job : JobValue) (spots : ℕ → Spot) → IsWhole job self.old
            → IsNextNow job spots self.old i k p → IsRegistering job spots self.new i }
    {
        match self.holds[k].add_now() {
            Ok((member, start)) => {
                self.keep(i, member, start);
                Went::Moved(p)
            }
            Err(held) => held.on(p),
        }
    }

    /// Whether there is room for another registration of the child at place `i`.
    fn has_room(&self, i: usize) -> bool
        requires { i < length self.now.children.items }
        ensures { result ≡ true → HasChildRoom self.now i }
    {
        let numbers = &self.children[i].numbers;
        numbers.len() < numbers.capacity() && self.child_holds.len() < self.child_holds.capacity()
    }

    /// Keeps another registration of the child at place `i`, and where the child begins.
    fn keep(&mut self, i: usize, member: AnyMember<'a>, start: u64)
        requires child { i < length self.old.children.items }
        requires room { HasChildRoom self.old i }
        ensures { HasKept i member.entry start self.old self.new }
    {
        let child = &mut self.children[i];
        child.numbers.push_reserved(member.number());
        child.start = start;
        self.child_holds.push_reserved(Hold::On(member));
    }
}

/// Whether a child comes after so many steps, and its registrations are not all made.
fn is_missing(job: &Job, child: &Child, steps: u64) -> bool
    requires { child.now.task < length job.now.graph.tasks }
    ensures no { result ≡ false → child.now.at ≡ steps
        → length (registrations_at job.now child.now.task) ≤ length child.now.numbers.items }
    ensures at { result ≡ true → child.now.at ≡ steps }
    ensures few { result ≡ true
        → length child.now.numbers.items < length (registrations_at job.now child.now.task) }
{
    child.at == steps && !is_whole(job, child)
}

/// Whether all registrations of a child are made.
fn is_whole(job: &Job, child: &Child) -> bool
    requires { child.now.task < length job.now.graph.tasks }
    ensures yes { result ≡ true
        → length (registrations_at job.now child.now.task) ≤ length child.now.numbers.items }
    ensures no { result ≡ false
        → length child.now.numbers.items < length (registrations_at job.now child.now.task) }
{
    child.numbers.len() >= job.graph().registrations(child.task)
}

/// Which registration of task number `t` is on phaser `p`.
fn place_on(job: &Job, t: usize, p: usize) -> Option<usize>
    requires { t < length job.now.graph.tasks }
    ensures { IfSome result (IsPlaceOn job.now t p) }
{
    for k in 0..job.graph().registrations(t) {
        if job.graph().registration(t, k).phaser == p {
            return Some(k);
        }
    }
    None
}
