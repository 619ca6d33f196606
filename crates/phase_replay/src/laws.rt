//! The numbers behind the constants, beside the laws of the text of scripts. The contract of each
//! function is the law.
ghost use Rattle.std.specs.Prelude.{◌≡◌};

use crate::{PIECE_MAX, SCRIPT_MAX};
pub use phase_script::laws::{
    grammar_found, grammar_only, lines_are_cut_at_lf, lines_are_short, replies_are_short,
    replies_are_single_lines,
};

/// A script may have 1,073,741,824 bytes, and 65,536 are read at once.
pub fn numbers()
    ensures script_max { SCRIPT_MAX ≡ 1073741824 }
    ensures piece_max { PIECE_MAX ≡ 65536 }
{}
