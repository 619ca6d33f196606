//! Graphs.
ghost use Rattle.std.specs.Prelude.{◌≡◌, ◌<◌, ◌≤◌, ◌+◌, length, get_or, IsTrue, Some};
ghost use Rattle.phase_base.specs.Words.{is_name, is_file};
ghost use Rattle.graph_base.specs.Graphs.{Graph as GraphValue, IsPlace, is_sink, is_source, source_number, sources_of, task_at, phaser_at, file_at, name_at, name_among};
ghost use Rattle.graph_base.specs.TaskLines.{IsGraph, IsPhaserLine, IsTaskLine};
ghost use Rattle.graph_base.specs.Names.{place_of, names_of};
ghost use Rattle.graph_base.specs.Registrations.{registrations_of, no_registration, as_input, as_output, ends_of, exchange_mode};
ghost use Rattle.graph_base.specs.GraphFields.{task_of};

use crate::limits::{ENDS_MAX, PHASERS_MAX, TASKS_MAX};
use crate::line::{Kind, PhaserLine, TaskLine};
use crate::place::Place;
use crate::registration::Registration;
use indexmap::IndexMap;
use phase_base::{FILE_MAX, Mode, NAME_MAX};
use std::alloc::Global;
use std::marker::Model;

/// A graph, as the lines of its text declare it.
///
/// **Numbers.** Phasers, tasks and sources are each numbered from 0, in the order of their lines.
///
/// **Lines.** Each output of a task stands below its inputs, and each child below its parent, so a
/// graph can be gone through in the order of its lines.
#[derive(Drop)]
pub struct Graph {
    names: IndexMap<String, Place>,
    phasers: Vec<PhaserLine>,
    tasks: Vec<TaskLine>,
    files: Vec<String>,
}

impl Model for Graph {
    ghost use Rattle.graph_base.specs.Graphs.{Graph as GraphValue};

    ghost Value = { GraphValue };

    ghost use Rattle.graph_base.specs.GraphFields.{graph_view, IsGraphInside};

    ghost view = { graph_view };

    ghost invariant = { IsGraphInside };
}

impl Graph {
    ghost use Rattle.graph_base.specs.GraphFields.{graph_of};
    ghost use Rattle.graph_base.specs.declared.line.Kind.TheVariants.{Peer};

    /// Makes the graph of these lines: each name with what it stands for, the phasers and the tasks
    /// in the order of their lines, and the file of each source in that order. It takes no memory.
    pub fn of(
        names: IndexMap<String, Place>,
        phasers: Vec<PhaserLine>,
        tasks: Vec<TaskLine>,
        files: Vec<String>,
    ) -> Graph
        requires { IsGraph (graph_of names.entries phasers.items tasks.items files.items) }
        ensures { result ≡ graph_of names.entries phasers.items tasks.items files.items }
    {
        Graph {
            names,
            phasers,
            tasks,
            files,
        }
    }

    /// Returns how many phasers the graph has, at most `PHASERS_MAX`. It takes no memory.
    pub fn phasers(&self) -> usize
        ensures count { result ≡ length self.now.phasers }
        ensures few { result ≤ PHASERS_MAX }
        ensures graph { IsGraph self.now }
    {
        self.phasers.len()
    }

    /// Returns how many tasks the graph has, at most `TASKS_MAX`. It takes no memory.
    pub fn tasks(&self) -> usize
        ensures count { result ≡ length self.now.tasks }
        ensures few { result ≤ TASKS_MAX }
        ensures graph { IsGraph self.now }
    {
        self.tasks.len()
    }

    /// Returns how many tasks of the graph are sources. It takes no memory.
    pub fn sources(&self) -> usize
        ensures count { result ≡ sources_of self.now }
    {
        self.files.len()
    }

    /// Returns the line of phaser number `p`. It takes no memory.
    pub fn phaser(&self, p: usize) -> &PhaserLine
        requires { p < length self.now.phasers }
        ensures phaser { result.now ≡ phaser_at self.now p }
        ensures line { IsPhaserLine result.now }
    {
        &self.phasers[p]
    }

    /// Returns the line of task number `t`. It takes no memory.
    pub fn task(&self, t: usize) -> &TaskLine
        requires { t < length self.now.tasks }
        ensures task { task_of result.now ≡ task_at self.now t }
        ensures line { IsTaskLine self.now t (task_of result.now) }
    {
        &self.tasks[t]
    }

    /// Returns whether task number `t` is a source. It takes no memory.
    pub fn is_source(&self, t: usize) -> bool
        requires { t < length self.now.tasks }
        ensures { result ≡ is_source (task_at self.now t).kind }
    {
        matches!(self.task(t).kind, Kind::Source)
    }

    /// Returns whether task number `t` is a sink. It takes no memory.
    pub fn is_sink(&self, t: usize) -> bool
        requires { t < length self.now.tasks }
        ensures { result ≡ is_sink (task_at self.now t).kind }
    {
        matches!(self.task(t).kind, Kind::Sink)
    }

    /// Returns the number of a source among the sources: how many stand above task number `t`. It
    /// takes no memory.
    pub fn source_number(&self, t: usize) -> usize
        requires { t ≤ length self.now.tasks }
        ensures { result ≡ source_number self.now.tasks t }
    {
        let mut count = 0;
        for above in 0..t {
            if self.is_source(above) {
                count += 1;
            }
        }
        count
    }

    /// Returns on how many phasers task number `t` is registered, at most `ENDS_MAX + 1`. It takes
    /// no memory.
    pub fn registrations(&self, t: usize) -> usize
        requires { t < length self.now.tasks }
        ensures count { result ≡ length (registrations_of self.now (task_at self.now t)) }
        ensures few { result ≤ ENDS_MAX + 1 }
    {
        let task = self.task(t);
        task.inputs.len() + task.outputs.len()
    }

    /// Returns registration number `k` of task number `t`, from 0 on: its inputs and then its
    /// outputs, and of a peer X, E and Y. It takes no memory.
    pub fn registration(&self, t: usize, k: usize) -> Registration
        requires task { t < length self.now.tasks }
        requires number { k < length (registrations_of self.now (task_at self.now t)) }
        ensures { result
            ≡ get_or (registrations_of self.now (task_at self.now t)) k no_registration }
    {
        let task = self.task(t);
        match task.kind {
            Kind::Peer => self.peer_registration(task, k),
            _ => end_of(task, k),
        }
    }

    /// Registration number `k` of a peer: X, E and Y.
    fn peer_registration(&self, peer: &TaskLine, k: usize) -> Registration
        requires peer { peer.now.kind ≡ Peer }
        requires inputs { length peer.now.inputs.items ≡ 2 }
        requires outputs { length peer.now.outputs.items ≡ 1 }
        requires exchange { get_or peer.now.inputs.items 1 0 < length self.now.phasers }
        requires number { k < 3 }
        ensures { result
            ≡ get_or (registrations_of self.now (task_of peer.now)) k no_registration }
    {
        match k {
            0 => input(0, peer.inputs[0]),
            1 => Registration {
                phaser: peer.inputs[1],
                mode: exchange_mode(self.phaser(peer.inputs[1])),
                input: Some(1),
                output: Some(0),
            },
            _ => output(1, peer.outputs[0]),
        }
    }

    /// Returns the file of source number `source`, as it is written, of 1 to `FILE_MAX` bytes. It
    /// takes no memory.
    pub fn file(&self, source: usize) -> &str
        requires { source < sources_of self.now }
        ensures file { result.now ≡ file_at self.now source }
        ensures word { IsTrue (is_file result.now) }
        ensures few { length result.now ≤ FILE_MAX }
    {
        self.files[source].as_str()
    }

    /// Returns the name of a phaser or a task, of 1 to `NAME_MAX` bytes. It takes no memory.
    pub fn name(&self, place: Place) -> &str
        requires { IsPlace self.now place }
        ensures name { result.now ≡ name_at self.now place }
        ensures word { IsTrue (is_name result.now) }
        ensures few { length result.now ≤ NAME_MAX }
        ensures stands { place_of self.now.names result.now ≡ Some place }
    {
        name_among(&self.names, place)
    }
}

/// Number `k` of the inputs and then the outputs of a task.
fn end_of(task: &TaskLine, k: usize) -> Registration
    requires { k < length task.now.inputs.items + length task.now.outputs.items }
    ensures { result ≡ get_or (ends_of (task_of task.now)) k no_registration }
{
    let inputs = task.inputs.len();
    if k < inputs {
        input(k, task.inputs[k])
    } else {
        output(k - inputs, task.outputs[k - inputs])
    }
}

/// Input number `k` of a task, on phaser `p`.
fn input(k: usize, p: usize) -> Registration
    ensures { result ≡ as_input (k, p) }
{
    Registration {
        phaser: p,
        mode: Mode::Wait,
        input: Some(k),
        output: None,
    }
}

/// Output number `j` of a task, on phaser `p`.
fn output(j: usize, p: usize) -> Registration
    ensures { result ≡ as_output (j, p) }
{
    Registration {
        phaser: p,
        mode: Mode::Sig,
        input: None,
        output: Some(j),
    }
}

/// The mode in which a peer exchanges on a phaser.
fn exchange_mode(line: &PhaserLine) -> Mode
    ensures { result ≡ exchange_mode line.now }
{
    match line.single {
        None => Mode::SigWait,
        Some(_) => Mode::Single,
    }
}

/// The first of these names that stands for the place.
fn name_among(names: &IndexMap<String, Place>, place: Place) -> &str
    ensures { result.now ≡ name_among (names_of names.now.entries) place }
{
    for (name, at) in names {
        if *at == place {
            return name.as_str();
        }
    }
    ""
}
