//! The arrows of a drawing.
ghost use Rattle.std.specs.Prelude.{◌≡◌, ◌++◌, ◌<◌, length, OnOk, IfSome};
ghost use Rattle.std.specs.List.{All, flat_map, range_with_len};
ghost use Rattle.graph_base.specs.Graphs.{task_at};
ghost use Rattle.graph_base.specs.GraphFields.{task_of};
ghost use Rattle.graph_base.specs.Registrations.{signalled_by};
ghost use Rattle.graph_show.specs.Drawings.{arrow, dashed, parent_arrow, signal_arrow, task_arrows, wait_arrow};

use crate::parts::put;
use graph_lang::{Graph, Kind, Parent, Place};
use itoa::Buffer;
use std::alloc::AllocError;

/// Puts an arrow between two names behind the text.
fn put_arrow<'a>(text: &mut Vec<u8>, from: &'a str, to: &'a str) -> Result<(), AllocError>
    ensures ok { OnOk result (text.new.items ≡ text.old.items ++ arrow from.now to.now) }
{
    let parts = ["    \"", from, "\" -> \"", to, "\";\n"];
    put(text, parts.as_slice())
}

/// Puts the arrow of a wait of task number `t` on phaser number `p` behind the text.
fn put_wait(text: &mut Vec<u8>, graph: &Graph, t: usize, p: usize) -> Result<(), AllocError>
    requires task { t < length graph.now.tasks }
    requires phaser { p < length graph.now.phasers }
    ensures ok { OnOk result (text.new.items ≡ text.old.items ++ wait_arrow graph.now t p) }
{
    let phaser = graph.name(Place::Phaser(p));
    put_arrow(text, phaser, graph.name(Place::Task(t)))
}

/// Puts the arrow of a signal of task number `t` to phaser number `p` behind the text.
fn put_signal(text: &mut Vec<u8>, graph: &Graph, t: usize, p: usize) -> Result<(), AllocError>
    requires task { t < length graph.now.tasks }
    requires phaser { p < length graph.now.phasers }
    ensures ok { OnOk result (text.new.items ≡ text.old.items ++ signal_arrow graph.now t p) }
{
    let task = graph.name(Place::Task(t));
    put_arrow(text, task, graph.name(Place::Phaser(p)))
}

/// Puts the arrows of the waits of task number `t` on these phasers behind the text.
fn put_waits(
    text: &mut Vec<u8>,
    graph: &Graph,
    t: usize,
    phasers: &[usize],
) -> Result<(), AllocError>
    requires task { t < length graph.now.tasks }
    requires phasers { All (λ p. p < length graph.now.phasers) phasers.now }
    ensures ok { OnOk result (text.new.items
        ≡ text.old.items ++ flat_map (wait_arrow graph.now t) phasers.now) }
{
    for p in phasers {
        put_wait(text, graph, t, *p)?;
    }
    Ok(())
}

/// Puts the arrows of the signals of task number `t` to these phasers behind the text.
fn put_signals(
    text: &mut Vec<u8>,
    graph: &Graph,
    t: usize,
    phasers: &[usize],
) -> Result<(), AllocError>
    requires task { t < length graph.now.tasks }
    requires phasers { All (λ p. p < length graph.now.phasers) phasers.now }
    ensures ok { OnOk result (text.new.items
        ≡ text.old.items ++ flat_map (signal_arrow graph.now t) phasers.now) }
{
    for p in phasers {
        put_signal(text, graph, t, *p)?;
    }
    Ok(())
}

/// Puts the arrows of all signals of task number `t` behind the text. A peer signals its second
/// input first.
fn put_all_signals(text: &mut Vec<u8>, graph: &Graph, t: usize) -> Result<(), AllocError>
    requires { t < length graph.now.tasks }
    ensures ok { OnOk result (text.new.items ≡ text.old.items
        ++ flat_map (signal_arrow graph.now t) (signalled_by (task_at graph.now t))) }
{
    let task = graph.task(t);
    if task.kind == Kind::Peer {
        put_signal(text, graph, t, task.inputs[1])?;
        return put_signal(text, graph, t, task.outputs[0]);
    }
    put_signals(text, graph, t, &task.outputs)
}

/// Puts a dashed arrow between two names, with the number of a step, behind the text.
fn put_dashed<'a>(
    text: &mut Vec<u8>,
    from: &'a str,
    to: &'a str,
    step: &'a str,
) -> Result<(), AllocError>
    ensures ok { OnOk result (text.new.items ≡ text.old.items ++ dashed from.now to.now step.now) }
{
    let parts = [
        "    \"",
        from,
        "\" -> \"",
        to,
        "\" [style=dashed, label=\"at ",
        step,
        "\"];\n",
    ];
    put(text, parts.as_slice())
}

/// Puts the arrow to a child, task number `t`, from its parent behind the text.
fn put_parent(
    text: &mut Vec<u8>,
    graph: &Graph,
    t: usize,
    parent: Option<Parent>,
) -> Result<(), AllocError>
    requires task { t < length graph.now.tasks }
    requires parent { IfSome parent (λ parent. parent.task < length graph.now.tasks) }
    ensures ok { OnOk result (text.new.items ≡ text.old.items ++ parent_arrow graph.now t parent) }
{
    let Some(parent) = parent else {
        return Ok(());
    };
    let child = graph.name(Place::Task(t));
    let mut buffer = Buffer::new();
    let step = buffer.format(parent.at);
    put_dashed(text, graph.name(Place::Task(parent.task)), child, step)
}

/// Puts the arrows of task number `t` behind the text.
fn put_arrows_of(text: &mut Vec<u8>, graph: &Graph, t: usize) -> Result<(), AllocError>
    requires { t < length graph.now.tasks }
    ensures ok { OnOk result (text.new.items ≡ text.old.items ++ task_arrows graph.now t) }
{
    let task = graph.task(t);
    put_waits(text, graph, t, &task.inputs)?;
    put_all_signals(text, graph, t)?;
    put_parent(text, graph, t, task.parent)
}

/// Puts the arrows of all tasks behind the text.
pub(crate) fn put_arrows(text: &mut Vec<u8>, graph: &Graph) -> Result<(), AllocError>
    ensures ok { OnOk result (text.new.items ≡ text.old.items
        ++ flat_map (task_arrows graph.now) (range_with_len 0 (length graph.now.tasks))) }
{
    for t in 0..graph.tasks() {
        put_arrows_of(text, graph, t)?;
    }
    Ok(())
}
