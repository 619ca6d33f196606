//! The laws. The contract of each function is the law.
ghost use Rattle.std.specs.Prelude.{◌≡◌, ◌+◌, ◌-◌, ◌<◌, ◌≤◌, ◌↔◌, ℕ, ℤ, List, [], ◌∷◌, length, map, get_or, Some, None, Bool, true, false, nat_le, ◌&&◌, if◌then◌else◌};
ghost use Rattle.phase_accum.specs.declared.outcome.Outcome.TheVariants.{Empty};
ghost use Rattle.graph_base.specs.Graphs.{Graph, Task, phaser_at, task_at};
ghost use Rattle.graph_base.specs.declared.line.Kind.TheVariants.{Source};
ghost use Rattle.graph_base.specs.declared.line.Parent.{Parent};
ghost use Rattle.phase_base.specs.declared.operation.Op.TheVariants.{Any};
ghost use Rattle.graph_base.specs.TaskLines.{HasEnds, IsGraph};
ghost use Rattle.stream_lists.specs.Entries.{AreInRange, HasEntry, output_values, sends_at, Takes};
ghost use Rattle.stream_lists.specs.Exact.{exact_lines, exact_lists};
ghost use Rattle.stream_lists.specs.Jobs.{Job, count_at, counted, index_in, least, samples_at, samples_in, start_at, with_samples, with_starts};
ghost use Rattle.stream_lists.specs.Lists.{ends_on, entry, lines_of, list_of_phaser, list_over, contributions_on, number, numbers_above, numbers_of, output_list, output_on};
ghost use Rattle.stream_lists.specs.Meetings.{meet_on, meeting_line};
ghost use Rattle.stream_lists.specs.Ranges.{Fits, answer_of};
ghost use Rattle.stream_lists.specs.Spans.{greatest, lengths_of, LooksAt, puts_on, signalled_by, takes_from, nowhere, offset_of, span_in, span_of, spans_of, spans_up_to, schedule_of};
ghost use Rattle.stream_lists.specs.declared.span.Span.{Span};

/// A phaser has a place among those of a line where it stands there, and each input of a task
/// stands at its own. A parent signals what its child signals, and waits for what its child waits
/// for.
pub fn places()
    ensures found { (qs : List ℕ) (p j : ℕ) → index_in qs p ≡ Some j
        → (j < length qs) × (get_or qs j 0 ≡ p) }
    ensures input { (graph : Graph) (t k : ℕ) → IsGraph graph → t < length graph.tasks
        → k < length (task_at graph t).inputs
        → index_in (task_at graph t).inputs (get_or (task_at graph t).inputs k 0) ≡ Some k }
    ensures signals { (graph : Graph) (t p j : ℕ) (u : Parent) → IsGraph graph
        → t < length graph.tasks → (task_at graph t).parent ≡ Some u
        → index_in (signalled_by (task_at graph t)) p ≡ Some j
        → (i : ℕ) × (index_in (signalled_by (task_at graph u.task)) p ≡ Some i) }
    ensures waits { (graph : Graph) (t k : ℕ) (u : Parent) → IsGraph graph
        → t < length graph.tasks → (task_at graph t).parent ≡ Some u
        → k < length (task_at graph t).inputs
        → (i : ℕ) × (i < length (task_at graph u.task).inputs)
        × (get_or (task_at graph u.task).inputs i 0 ≡ get_or (task_at graph t).inputs k 0) }
{}

/// Each input that an output of a task looks at stands above that output: a peer's X above its E,
/// and X and E above its Y.
pub fn outputs_look_above()
    ensures { (graph : Graph) (t j k p : ℕ) → IsGraph graph → t < length graph.tasks
        → index_in (signalled_by (task_at graph t)) p ≡ Some j
        → k < length (task_at graph t).inputs → LooksAt (task_at graph t).kind j k
        → get_or (task_at graph t).inputs k 0 < p }
{}

/// The spans of the tasks above it decide the span of each task, and in a graph that was read it is
/// the same over the spans of all tasks.
pub fn spans_above_decide()
    ensures above { (job : Job) (t : ℕ) → t < length job.graph.tasks
        → span_in job t ≡ span_of job (lengths_of job) (spans_up_to job (lengths_of job) t) t }
    ensures all { (job : Job) (t : ℕ) → IsGraph job.graph → t < length job.graph.tasks
        → span_in job t ≡ span_of job (lengths_of job) (spans_of job) t }
{}

/// The lists of the phasers above it decide the list of each phaser of a graph that was read, and
/// over the lists of all phasers it is the same.
pub fn lists_above_decide()
    ensures lists { (job : Job) (p : ℕ) → IsGraph job.graph → p < length job.graph.phasers
        → list_of_phaser job p ≡ list_over job (schedule_of job) (numbers_of job) p }
    ensures numbers { (job : Job) (p : ℕ) → IsGraph job.graph → p < length job.graph.phasers
        → get_or (numbers_of job) p []
        ≡ map number (list_over job (schedule_of job) (numbers_of job) p) }
{}

/// The lists of the phasers above a phaser decide what each task puts on it, and so its members.
pub fn members_above_decide()
    ensures members { (job : Job) (p : ℕ) → IsGraph job.graph → p < length job.graph.phasers
        → contributions_on job (schedule_of job) (numbers_above job p) p
        ≡ contributions_on job (schedule_of job) (numbers_of job) p }
    ensures output { (job : Job) (t j p : ℕ) → IsGraph job.graph → t < length job.graph.tasks
        → p < length job.graph.phasers → index_in (signalled_by (task_at job.graph t)) p ≡ Some j
        → output_on job (schedule_of job) (numbers_above job p) t j
        ≡ output_on job (schedule_of job) (numbers_of job) t j }
{}

/// So many steps of a task put as many values on each of its outputs as they say, where the samples
/// of a source are as many, and what the steps look at was taken. So each task of a graph that was
/// read does in its steps, and the list of each phaser is as long as the greatest end of a task's
/// values on it.
pub fn lengths_are_ends()
    ensures steps { (samples : List ℤ) (taken : List (List ℤ)) (task : Task) (steps j : ℕ)
        → HasEnds task.kind (length task.inputs) (length task.outputs)
        → j < length (signalled_by task) → (task.kind ≡ Source → steps ≤ length samples)
        → ((k : ℕ) → k < length task.inputs → LooksAt task.kind 0 k
        → length (get_or taken k []) ≡ takes_from task steps k)
        → length (output_list samples taken task steps j) ≡ puts_on task steps j }
    ensures outputs { (job : Job) (t j : ℕ) → IsGraph job.graph → t < length job.graph.tasks
        → j < length (signalled_by (task_at job.graph t))
        → length (output_on job (schedule_of job) (numbers_of job) t j)
        ≡ puts_on (task_at job.graph t) (span_in job t).steps j }
    ensures lengths { (job : Job) (p : ℕ) → IsGraph job.graph → p < length job.graph.phasers
        → get_or (lengths_of job) p 0 ≡ greatest (ends_on job p) }
{}

/// Each phase of a phaser's list has a value of some task. Where no two tasks meet, each phase of a
/// phaser with `any` has that of one task alone, and it is all that is sent there.
pub fn phases_have_entries()
    ensures some { (job : Job) (p n : ℕ) → IsGraph job.graph → p < length job.graph.phasers
        → n < length (list_of_phaser job p) → (t : ℕ) × HasEntry job p n t }
    ensures alone { (job : Job) (p n t u : ℕ) → IsGraph job.graph → meeting_line job ≡ None
        → p < length job.graph.phasers → (phaser_at job.graph p).op ≡ Any
        → HasEntry job p n t → HasEntry job p n u → t ≡ u }
    ensures sends { (job : Job) (p n t : ℕ) → IsGraph job.graph → meeting_line job ≡ None
        → p < length job.graph.phasers → (phaser_at job.graph p).op ≡ Any
        → (has : HasEntry job p n t) → sends_at job p n
        ≡ entry (output_values job t has.output) (n - (span_in job t).offset) ∷ [] }
{}

/// Two tasks meet on a phaser exactly where both have a value in one of its phases.
pub fn tasks_meet_in_a_phase()
    ensures { (job : Job) (t p u : ℕ) → IsGraph job.graph → t < length job.graph.tasks
        → u < length job.graph.tasks → (meet_on job.graph (spans_of job) t p u ≡ true)
        ↔ ((n : ℕ) × HasEntry job p n t × HasEntry job p n u) }
{}

/// The phases from which sinks join now move those sinks alone: each other task has its span, the
/// phasers' lists are as long, the same tasks meet, and a sink that begins later makes no more
/// steps. Where each task may begin as early, the job has the same answer, as where none joins now.
/// A child that does not join now begins just `at` steps after its parent.
pub fn starts_move_sinks_alone()
    ensures child { (above : List Span) (u : Parent) → offset_of above 0 (Some u)
        ≡ (let span = get_or above u.task nowhere in
        if span.live && nat_le u.at span.steps then Some (span.offset + u.at) else None) }
    ensures others { (job : Job) (starts : List ℕ) (t : ℕ) → IsGraph job.graph
        → t < length job.graph.tasks → (task_at job.graph t).joins_now ≡ false
        → span_in (with_starts starts job) t ≡ span_in job t }
    ensures lengths { (job : Job) (starts : List ℕ) → IsGraph job.graph
        → lengths_of (with_starts starts job) ≡ lengths_of job }
    ensures meetings { (job : Job) (starts : List ℕ) → IsGraph job.graph
        → meeting_line (with_starts starts job) ≡ meeting_line job }
    ensures steps { (job : Job) (starts : List ℕ) (t : ℕ) → IsGraph job.graph
        → t < length job.graph.tasks
        → (span_in (with_starts starts job) t).steps ≤ (span_in (least job) t).steps }
    ensures answer { (job : Job) (starts : List ℕ)
        → ((t : ℕ) → start_at (with_starts starts job) t ≡ start_at job t)
        → answer_of (with_starts starts job) ≡ answer_of job }
    ensures none_joins { (job : Job) (starts : List ℕ)
        → ((t : ℕ) → (task_at job.graph t).joins_now ≡ false)
        → answer_of (with_starts starts job) ≡ answer_of job }
{}

/// A job fits exactly where each value that a filter or a peer makes is in range, at each of its
/// steps, and so is the value of each phase that some task takes, before the phaser's single.
pub fn fits_is_all_in_range()
    ensures { (job : Job) → IsGraph job.graph → Fits job ↔ AreInRange job }
{}

/// Where a job fits, its lists are composed of whole numbers without any range: what live tasks put
/// on their outputs, what is taken of each phaser's list, and what the sinks get are the exact
/// numbers. The range shows in a phaser's list alone, in phases that no task takes.
pub fn exact_where_it_fits()
    ensures outputs { (job : Job) (t j : ℕ) → IsGraph job.graph → Fits job
        → t < length job.graph.tasks → (span_in job t).live ≡ true
        → output_on job (schedule_of job) (numbers_of job) t j
        ≡ output_on job (schedule_of job) (exact_lists job) t j }
    ensures lists { (job : Job) (p : ℕ) → IsGraph job.graph → Fits job
        → p < length job.graph.phasers → list_of_phaser job p
        ≡ list_over job (schedule_of job) (exact_lists job) p }
    ensures taken { (job : Job) (p n t : ℕ) → IsGraph job.graph → Fits job
        → p < length job.graph.phasers → n < length (list_of_phaser job p) → Takes job p n t
        → number (get_or (list_of_phaser job p) n Empty) ≡ entry (get_or (exact_lists job) p []) n }
    ensures lines { (job : Job) → IsGraph job.graph → Fits job
        → lines_of job ≡ exact_lines job }
{}

/// More samples make no task begin elsewhere and no list shorter: where no two tasks meet on a
/// phaser with `any` in a job whose sources have at least as many, none do with fewer. So one look,
/// at the most samples that may come, decides for all.
pub fn meetings_come_with_more()
    ensures { (job : Job) (more : List (List ℤ)) → IsGraph job.graph
        → ((t : ℕ) → t < length job.graph.tasks → (task_at job.graph t).kind ≡ Source
        → length (samples_at job t) ≤ length (samples_in job more t))
        → meeting_line (with_samples more job) ≡ None → meeting_line job ≡ None }
{}

/// Where no two tasks meet in a job whose sources have so many samples, one number for each source,
/// none do where each source has at most as many, whatever phases its sinks join from. So one look
/// by `meeting_with`, at the most samples that may come, decides for all.
pub fn none_meet_with_fewer()
    ensures { (job : Job) (counts : List ℕ) → IsGraph job.graph
        → ((t : ℕ) → t < length job.graph.tasks → (task_at job.graph t).kind ≡ Source
        → length (samples_at job t) ≤ count_at job.graph counts t)
        → meeting_line (counted job.graph counts) ≡ None → meeting_line job ≡ None }
{}
