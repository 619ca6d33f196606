//! The graph that the lines so far declare.
ghost use Rattle.std.specs.Prelude.{◌≡◌, ◌++◌, ◌∷◌, [], OnOk};
ghost use Rattle.graph_base.specs.Graphs.{no_graph};
ghost use Rattle.graph_base.specs.TaskLines.{IsGraph};
ghost use Rattle.graph_base.specs.Names.{names_of, place_of, phaser_named, task_named};

use graph_base::{Graph, PhaserLine, Place, TaskLine};
use indexmap::IndexMap;
use std::alloc::{AllocError, Global};
use std::marker::Model;

/// The graph that the lines so far declare.
#[derive(Drop)]
pub(crate) struct Draft {
    pub(crate) names: IndexMap<String, Place>,
    pub(crate) phasers: Vec<PhaserLine>,
    pub(crate) tasks: Vec<TaskLine>,
    pub(crate) files: Vec<String>,
}

impl Model for Draft {
    ghost use Rattle.graph_base.specs.Graphs.{Graph as GraphValue};

    ghost Value = { GraphValue };

    ghost use Rattle.graph_lang.specs.Drafts.{draft_view};

    ghost view = { draft_view };
}

impl Draft {
    /// A graph with no line.
    pub(crate) fn new(alloc: Global) -> Draft
        ensures { result ≡ no_graph }
    {
        Draft {
            names: IndexMap::new(alloc),
            phasers: Vec::new(alloc),
            tasks: Vec::new(alloc),
            files: Vec::new(alloc),
        }
    }

    /// The graph of lines that were read to the last.
    pub(crate) fn into_graph(self) -> Graph
        requires { IsGraph self }
        ensures { result ≡ self }
    {
        Graph::of(self.names, self.phasers, self.tasks, self.files)
    }
}

/// What a name stands for, where it was declared.
pub(crate) fn place_of(names: &IndexMap<String, Place>, name: &str) -> Option<Place>
    ensures { result ≡ place_of (names_of names.now.entries) name.now }
{
    names.get(name).copied()
}

/// The phaser of that name.
pub(crate) fn phaser_named(names: &IndexMap<String, Place>, name: &str) -> Option<usize>
    ensures { result ≡ phaser_named (names_of names.now.entries) name.now }
{
    match place_of(names, name) {
        Some(Place::Phaser(p)) => Some(p),
        _ => None,
    }
}

/// The task of that name.
pub(crate) fn task_named(names: &IndexMap<String, Place>, name: &str) -> Option<usize>
    ensures { result ≡ task_named (names_of names.now.entries) name.now }
{
    match place_of(names, name) {
        Some(Place::Task(t)) => Some(t),
        _ => None,
    }
}

/// Declares a new name.
pub(crate) fn add_name(
    alloc: Global,
    names: &mut IndexMap<String, Place>,
    name: &str,
    place: Place,
) -> Result<(), AllocError>
    requires { place_of (names_of names.old.entries) name.now ≡ None }
    ensures { OnOk result (names_of names.new.entries
        ≡ names_of names.old.entries ++ (name.now, place) ∷ []) }
{
    let name = String::from_str(alloc, name)?;
    names.insert(name, place)?;
    Ok(())
}
