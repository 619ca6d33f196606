//! The numbers behind the constants and the statuses. The contract is the law.
ghost use Rattle.std.specs.Prelude.{◌≡◌, ◌≤◌};
ghost use Rattle.watched_io.specs.Statuses.{status_code};

use crate::{BYTES_COUNTED_MAX, CHUNK_MAX, Status};

/// A count of bytes goes to 2^64 - 1, and 65,536 are read at once.
pub fn numbers()
    ensures bytes_counted_max { BYTES_COUNTED_MAX ≡ 18446744073709551615 }
    ensures chunk_max { CHUNK_MAX ≡ 65536 }
{}

/// The process ends with a number from 0 to 5, and each tells another end.
pub fn codes()
    ensures few { (status : Status) → status_code status ≤ 5 }
    ensures apart { (one other : Status) → status_code one ≡ status_code other → one ≡ other }
{}
