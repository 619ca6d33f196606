//! The names of a graph's sources and sinks, or of all its phasers and tasks, as a text.
ghost use Rattle.std.specs.Prelude.{◌≡◌, ◌<◌, ◌++◌, length, drop, IfOk, IfErr, OnOk, OnErr};
ghost use Rattle.std.specs.List.{All, range_with_len};
ghost use Rattle.graph_base.specs.Graphs.{IsPlace};
ghost use Rattle.phase_c.specs.Names.{HasNames, RefusesNames, WritesNames, all_names_text, name_line, names_text, phasers_text, sources_in, tasks_text};
ghost use Rattle.phase_c.specs.declared.refusal.Refusal.TheVariants.{Room};
ghost use Rattle.phase_c.specs.Refusals.{RefusesText};

use crate::refusal::Refusal;
use crate::sinks::sinks_of;
use graph_lang::{Graph, Place, read_graph};
use std::alloc::{AllocError, Global};

/// The numbers of the sources among the tasks, in the order of the lines.
fn sources_of(alloc: Global, graph: &Graph) -> Result<Vec<usize>, AllocError>
    ensures sources { IfOk result (λ sources. sources.items ≡ sources_in graph.now) }
    ensures tasks { IfOk result (λ sources.
        All (λ t. t < length graph.now.tasks) sources.items) }
{
    let mut sources = Vec::new(alloc);
    for t in 0..graph.tasks() {
        if graph.is_source(t) {
            sources.push(t)?;
        }
    }
    Ok(sources)
}

/// Appends a name and a line end.
fn push_name(names: &mut Vec<u8>, graph: &Graph, at: Place) -> Result<(), AllocError>
    requires { IsPlace graph.now at }
    ensures { OnOk result (names.new.items ≡ names.old.items ++ name_line graph.now at) }
{
    names.extend_from_slice(graph.name(at).as_bytes())?;
    names.push(b'\n')?;
    Ok(())
}

/// Appends the names of these tasks, each followed by a line end.
fn push_tasks(names: &mut Vec<u8>, graph: &Graph, tasks: &[usize]) -> Result<(), AllocError>
    requires { All (λ t. t < length graph.now.tasks) tasks.now }
    ensures { OnOk result (names.new.items
        ≡ names.old.items ++ tasks_text graph.now tasks.now) }
{
    for k in 0..tasks.len() {
        push_name(names, graph, Place::Task(tasks[k]))?;
    }
    Ok(())
}

/// Appends the names of all phasers, each followed by a line end.
fn push_phasers(names: &mut Vec<u8>, graph: &Graph) -> Result<(), AllocError>
    ensures { OnOk result (names.new.items ≡ names.old.items ++ phasers_text graph.now) }
{
    for p in 0..graph.phasers() {
        push_name(names, graph, Place::Phaser(p))?;
    }
    Ok(())
}

/// Appends the names of all tasks, each followed by a line end.
fn push_all_tasks(names: &mut Vec<u8>, graph: &Graph) -> Result<(), AllocError>
    ensures { OnOk result (names.new.items ≡ names.old.items
        ++ tasks_text graph.now (range_with_len 0 (length graph.now.tasks))) }
{
    for t in 0..graph.tasks() {
        push_name(names, graph, Place::Task(t))?;
    }
    Ok(())
}

/// The names of the sources and then of the sinks, each followed by a line end.
fn names_of(alloc: Global, graph: &Graph) -> Result<Vec<u8>, AllocError>
    ensures { IfOk result (λ names. names.items ≡ names_text graph.now) }
{
    let sources = sources_of(alloc, graph)?;
    let sinks = sinks_of(alloc, graph)?;
    let mut names = Vec::new(alloc);
    push_tasks(&mut names, graph, &sources)?;
    push_tasks(&mut names, graph, &sinks)?;
    Ok(names)
}

/// The names of all phasers and then of all tasks, each followed by a line end.
fn all_names_of(alloc: Global, graph: &Graph) -> Result<Vec<u8>, AllocError>
    ensures { IfOk result (λ names. names.items ≡ all_names_text graph.now) }
{
    let mut names = Vec::new(alloc);
    push_phasers(&mut names, graph)?;
    push_all_tasks(&mut names, graph)?;
    Ok(names)
}

/// The names of the sources and sinks of the graph of a text.
fn names_in_text(alloc: Global, text: &[u8]) -> Result<Vec<u8>, Refusal>
    ensures names { IfOk result (λ names. HasNames names_text text.now names.items) }
    ensures refused { IfErr result (λ why. RefusesText text.now why) }
{
    let graph = read_graph(alloc, text)?;
    let names = names_of(alloc, &graph)?;
    Ok(names)
}

/// The names of all phasers and tasks of the graph of a text.
fn all_names_in_text(alloc: Global, text: &[u8]) -> Result<Vec<u8>, Refusal>
    ensures names { IfOk result (λ names. HasNames all_names_text text.now names.items) }
    ensures refused { IfErr result (λ why. RefusesText text.now why) }
{
    let graph = read_graph(alloc, text)?;
    let names = all_names_of(alloc, &graph)?;
    Ok(names)
}

/// Writes these names where they have room, and how many bytes they are.
fn write(names: &[u8], out: &mut [u8], needed: &mut usize) -> Result<(), Refusal>
    ensures done { OnOk result (out.new ≡ names.now ++ drop (length names.now) out.old) }
    ensures needed { needed.new ≡ length names.now }
    ensures refused { IfErr result (λ why.
        (why ≡ Room) × (length out.old < length names.now)) }
    ensures same { OnErr result (out.new ≡ out.old) }
{
    *needed = names.len();
    if names.len() > out.len() {
        return Err(Refusal::Room);
    }
    out[..names.len()].copy_from_slice(names);
    Ok(())
}

/// Writes the names of the sources and sinks of the graph of a text, and how many bytes they are.
pub(crate) fn write_names(
    alloc: Global,
    text: &[u8],
    out: &mut [u8],
    needed: &mut usize,
) -> Result<(), Refusal>
    ensures done { OnOk result (WritesNames names_text text.now out.old out.new needed.new) }
    ensures refused { IfErr result (λ why.
        RefusesNames names_text text.now (length out.old) needed.old needed.new why) }
    ensures same { OnErr result (out.new ≡ out.old) }
{
    match names_in_text(alloc, text) {
        Ok(names) => write(&names, out, needed),
        Err(why) => Err(why),
    }
}

/// Writes the names of all phasers and tasks of the graph of a text, and how many bytes they are.
pub(crate) fn write_all_names(
    alloc: Global,
    text: &[u8],
    out: &mut [u8],
    needed: &mut usize,
) -> Result<(), Refusal>
    ensures done { OnOk result (WritesNames all_names_text text.now out.old out.new needed.new) }
    ensures refused { IfErr result (λ why.
        RefusesNames all_names_text text.now (length out.old) needed.old needed.new why) }
    ensures same { OnErr result (out.new ≡ out.old) }
{
    match all_names_in_text(alloc, text) {
        Ok(names) => write(&names, out, needed),
        Err(why) => Err(why),
    }
}
