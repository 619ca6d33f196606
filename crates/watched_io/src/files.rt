//! Files by their names.
ghost use Rattle.std.specs.Prelude.{◌≡◌, ◌≤◌, ℕ, List, Option, None, length, IfOk, IsErrOf};
ghost use Rattle.watched_io.specs.Files.{HasBytes, MayBeRefused, MayNeedMemory};

use crate::FileFault;
use std::alloc::Global;

/// Files that are read whole.
pub trait Files {
    /// The bytes of the file of a name, where it is known beforehand that it can be read, and what
    /// it holds.
    ghost file: { Self → List ℕ → Option (List ℕ) } = { λ _ _. None };

    /// Reads a file whole, of at most `limit` bytes.
    fn read(&mut self, alloc: Global, name: &str, limit: usize) -> Result<Vec<u8>, FileFault>
        ensures bytes { IfOk result (λ text. HasBytes (file self.old name.now) text.items) }
        ensures short { IfOk result (λ text. length text.items ≤ limit) }
        ensures read { IsErrOf result FileFault.ReadFault
            → MayBeRefused limit (file self.old name.now) }
        ensures memory { IsErrOf result FileFault.OutOfMemory
            → MayNeedMemory limit (file self.old name.now) }
        ensures same { (other : List ℕ) → file self.new other ≡ file self.old other };
}
