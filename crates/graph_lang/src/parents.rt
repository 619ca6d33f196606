//! Parents, and what a task's line needs of the lines above it.
ghost use Rattle.std.specs.Prelude.{◌≡◌, ◌||◌, ◌&&◌, ◌∷◌, [], not, is_some, option_map, IsTrue, IfSome, Some, None, if◌then◌else◌};
ghost use Rattle.std.specs.List.{list_all};
ghost use Rattle.graph_text.specs.Plain.{plain};
ghost use Rattle.phase_base.specs.Words.{is_name};
ghost use Rattle.graph_text.specs.Decls.{IsBy};
ghost use Rattle.graph_text.specs.Lines.{by_of};
ghost use Rattle.phase_base.specs.Numbers.{nat_value};
ghost use Rattle.graph_base.specs.Names.{names_of, place_of};
ghost use Rattle.graph_base.specs.GraphFields.{task_of};
ghost use Rattle.graph_lang.specs.WordValues.{parent_of, joins_now};
ghost use Rattle.graph_base.specs.TaskLines.{has_children};
ghost use Rattle.graph_lang.specs.Faults.{is_parent_known, is_in_order, may_be_parent, is_held, holds_for, is_plain, is_within_bound, is_block_within, are_distinct};
ghost use Rattle.graph_lang.specs.Reading.{last_kind};

use crate::body::{are_among, are_distinct, are_in_order, is_exchange_below};
use crate::draft::{Draft, place_of, task_named};
use crate::fault::FaultKind;
use graph_base::{Kind, Parent, Place, TaskLine};
use graph_text::{By, name_text};
use indexmap::IndexMap;

/// The parent of a task, where it has one, after so many steps; the outer `None` is a name that is
/// no task's.
pub(crate) fn parent_of(
    names: &IndexMap<String, Place>,
    by: Option<By<'_>>,
    at: Option<u64>,
) -> Option<Option<Parent>>
    requires by { IfSome (by_of by) IsBy }
    requires at { at ≡ option_map (λ by. nat_value by.at) (by_of by) }
    ensures { result ≡ (if is_parent_known (names_of names.now.entries) (by_of by.entry)
        then Some (option_map (parent_of (names_of names.now.entries)) (by_of by.entry))
        else None) }
{
    match (by, at) {
        (Some(by), Some(at)) => {
            let task = task_named(names, name_text(by.parent))?;
            Some(Some(Parent { task, at }))
        }
        _ => Some(None),
    }
}

/// Whether a task with such a parent, or with none, joins now.
pub(crate) fn joins_now(by: Option<By<'_>>) -> bool
    ensures { result ≡ joins_now (by_of by.entry) }
{
    match by {
        None => false,
        Some(by) => by.now,
    }
}

/// Whether a task of the kind may have children.
fn has_children(kind: Kind) -> bool
    ensures { result ≡ has_children kind }
{
    matches!(kind, Kind::Source | Kind::Fir | Kind::Sink)
}

/// Whether each output of a task stands below each of its inputs; of a peer also E below X.
fn is_in_order(task: &TaskLine) -> bool
    ensures { result ≡ is_in_order (task_of task.now) }
{
    are_in_order(&task.inputs, &task.outputs) && is_exchange_below(task.kind, &task.inputs)
}

impl Draft {
    /// Whether a parent, where there is one, may have children: it does not join now.
    fn may_be_parent(&self, parent: Option<Parent>) -> bool
        ensures { result ≡ may_be_parent self.now parent }
    {
        match parent {
            None => true,
            Some(parent) => match self.tasks.get(parent.task) {
                None => true,
                Some(above) => has_children(above.kind) && !above.joins_now,
            },
        }
    }

    /// Whether a parent, where there is one, waits for what the task waits for, and signals what
    /// it signals.
    fn holds_for(&self, task: &TaskLine) -> bool
        ensures { result ≡ holds_for self.now (task_of task.now) task.now.parent }
    {
        match task.parent {
            None => true,
            Some(parent) => match self.tasks.get(parent.task) {
                None => are_among(&task.inputs, &[]) && are_among(&task.outputs, &[]),
                Some(above) => {
                    are_among(&task.inputs, &above.inputs)
                        && are_among(&task.outputs, &above.outputs)
                }
            },
        }
    }

    /// Whether phaser number `y` has no single.
    fn is_plain(&self, y: usize) -> bool
        ensures { result ≡ is_plain self.now y }
    {
        match self.phasers.get(y) {
            None => true,
            Some(line) => line.single.is_none(),
        }
    }

    /// Whether no phaser of these has a single.
    fn are_plain(&self, outputs: &[usize]) -> bool
        ensures { result ≡ list_all (is_plain self.now) outputs.now }
    {
        outputs.iter().all(|y| self.is_plain(*y))
    }

    /// Whether a block of so many steps is at most the bound of phaser number `p`.
    fn is_within_bound(&self, block: u64, p: usize) -> bool
        ensures { result ≡ is_within_bound self.now block p }
    {
        match self.phasers.get(p) {
            None => block <= 1,
            Some(line) => block <= line.bound,
        }
    }

    /// Whether a block of so many steps is at most the bound of each of these phasers.
    fn are_as_wide(&self, block: u64, phasers: &[usize]) -> bool
        ensures { result ≡ list_all (is_within_bound self.now block) phasers.now }
    {
        phasers.iter().all(|p| self.is_within_bound(block, *p))
    }

    /// Whether the block of a task is at most the bound of each of its phasers.
    fn is_block_within(&self, task: &TaskLine) -> bool
        ensures { result ≡ is_block_within self.now (task_of task.now) }
    {
        self.are_as_wide(task.block, &task.inputs) && self.are_as_wide(task.block, &task.outputs)
    }

    /// Whether the name of a task's line is there already, or a phaser stands twice in the line.
    pub(crate) fn is_twice(&self, name: &[u8], phasers: &[&[u8]]) -> bool
        requires { IsTrue (is_name name.now) }
        ensures { result
            ≡ (is_some (place_of self.now.names name.now)
            || not (are_distinct (plain phasers.now))) }
    {
        place_of(&self.names, name_text(name)).is_some() || !are_distinct(phasers)
    }

    /// The first kind of fault of a task whose numbers and names were read.
    pub(crate) fn last_kind(&self, task: &TaskLine) -> Option<FaultKind>
        ensures { result ≡ last_kind self.now (task_of task.now) }
    {
        if !is_in_order(task) {
            return Some(FaultKind::OutBeforeIn);
        }
        if !self.may_be_parent(task.parent) {
            return Some(FaultKind::BadParent);
        }
        if !(self.are_plain(&task.outputs) && self.holds_for(task)) {
            return Some(FaultKind::NotHeld);
        }
        if !self.is_block_within(task) {
            return Some(FaultKind::OverBound);
        }
        None
    }
}
