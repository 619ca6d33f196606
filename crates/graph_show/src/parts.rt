//! Text that grows by parts.
ghost use Rattle.std.specs.Prelude.{◌≡◌, ◌++◌, OnOk};
ghost use Rattle.std.specs.List.{flat_map};

use std::alloc::AllocError;

/// Puts the parts behind the text, one behind the other.
pub(crate) fn put(text: &mut Vec<u8>, parts: &[&str]) -> Result<(), AllocError>
    ensures ok { OnOk result (text.new.items
        ≡ text.old.items ++ flat_map (λ part. part.now) parts.now) }
{
    for part in parts {
        text.extend_from_slice(part.as_bytes())?;
    }
    Ok(())
}
