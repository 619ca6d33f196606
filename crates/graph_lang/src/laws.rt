//! Laws of the definitions. The contract of each function is the law.
ghost use Rattle.std.specs.Prelude.{◌≡◌, ℕ, List, Result};
ghost use Rattle.graph_base.specs.Graphs.{Graph, no_graph};
ghost use Rattle.graph_text.specs.declared.version.Version.{Version};
ghost use Rattle.graph_text.specs.declared.version.Version.TheVariants.{One};
ghost use Rattle.graph_lang.specs.Reads.{Reads, version_of, without_heading};
ghost use Rattle.graph_lang.specs.declared.fault.GraphFault.{GraphFault};

pub use graph_base::laws::limits_are;

/// Lines have one reading in a version: the graph that they declare, or their first fault with its
/// first kind.
pub fn one_reading()
    ensures { (version : Version) (lines : List (List ℕ)) (a b : Result Graph GraphFault)
        → Reads version 1 no_graph lines a → Reads version 1 no_graph lines b → a ≡ b }
{}

/// A text with no heading is one of the first version, and its lines are read as they stand.
pub fn no_heading()
    ensures { (lines : List (List ℕ)) → version_of lines ≡ One
        → without_heading lines ≡ lines }
{}
