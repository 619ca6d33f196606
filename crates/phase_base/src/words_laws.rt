//! The numbers behind the limits of words.
ghost use Rattle.std.specs.Prelude.{◌≡◌};

use crate::word::{FILE_MAX, NAME_MAX};

/// The limits of words, as numbers of bytes.
pub fn limits_are()
    ensures name { NAME_MAX ≡ 32 }
    ensures file { FILE_MAX ≡ 255 }
{}
