//! The number behind the constant. The contract is the law.
ghost use Rattle.std.specs.Prelude.{◌≡◌};

use crate::GRAPH_MAX;

/// A graph's text may have 1,048,576 bytes.
pub fn numbers()
    ensures graph_max { GRAPH_MAX ≡ 1048576 }
{}
