//! Which input or output of a task a phaser is.
ghost use Rattle.std.specs.Prelude.{◌≡◌, ◌<◌, ℕ, length, Some};
ghost use Rattle.graph_base.specs.GraphFields.{task_of};
ghost use Rattle.graph_base.specs.declared.line.Kind.TheVariants.{Split};
ghost use Rattle.stream_lists.specs.Jobs.{index_in};
ghost use Rattle.stream_lists.specs.Spans.{signalled_by};

use graph_base::{Kind, TaskLine};

/// The place of a phaser among those of a line.
fn place_of(phasers: &[usize], p: usize) -> Option<usize>
    ensures { result ≡ index_in phasers.now p }
{
    phasers.iter().position(|q| *q == p)
}

/// Returns which input of a task phaser number `p` is, the first being 0, or that it is none of
/// them. It takes no memory.
pub fn input_number(task: &TaskLine, p: usize) -> Option<usize>
    ensures { result ≡ index_in (task_of task.now).inputs p }
{
    place_of(&task.inputs, p)
}

/// Returns which output of a task phaser number `p` is, in the order in which a step signals them,
/// or that it is none of them. A peer's output 0 is its second input, which it signals too. It
/// takes no memory.
pub fn output_number(task: &TaskLine, p: usize) -> Option<usize>
    ensures number { result ≡ index_in (signalled_by (task_of task.now)) p }
    ensures turn { (j : ℕ) → result ≡ Some j → task.now.kind ≡ Split
        → j < length task.now.outputs.items }
{
    if task.kind != Kind::Peer {
        return place_of(&task.outputs, p);
    }
    if task.inputs.get(1).copied().unwrap_or(0) == p {
        return Some(0);
    }
    if task.outputs.first().copied().unwrap_or(0) == p {
        return Some(1);
    }
    None
}
