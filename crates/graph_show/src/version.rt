//! The version of a text, by its lines.
ghost use Rattle.std.specs.Prelude.{◌≡◌, IfOk, map};
ghost use Rattle.phase_base.specs.Lists.{without_cr};
ghost use Rattle.graph_lang.specs.Reads.{version_of};
ghost use Rattle.graph_text.specs.Plain.{plain};

use graph_text::{Version, begins_comment, heading_of, without_cr, words_of};
use std::alloc::{AllocError, Global};

/// The version of a text of these lines.
pub(crate) fn version_of(alloc: Global, lines: &[&[u8]]) -> Result<Version, AllocError>
    ensures { IfOk result (λ version.
        version ≡ version_of (map without_cr (plain lines.now))) }
{
    for line in lines {
        let words = words_of(alloc, without_cr(line))?;
        if !begins_comment(&words) {
            return Ok(heading_of(&words).unwrap_or(Version::One));
        }
    }
    Ok(Version::One)
}
