//! Samples in files.
ghost use Rattle.std.specs.Prelude.{◌≡◌, ◌≤◌, ℕ, List, length, IfOk, IfSome, IsErrOf};
ghost use Rattle.phase_accum.specs.Sends.{AreSends};
ghost use Rattle.graph_lang.specs.Samples.{AreSamplesOf, HasBadSample, AreShortSamples, IsBadShortSample};
ghost use Rattle.watched_io.specs.Files.{MayBeRefused, MayNeedMemory};

use crate::{SampleFault, SampleTexts, TEXT_MAX};
use std::alloc::Global;
use watched_io::Files;

/// Reads the samples in the file of this name, the whole file before the first record.
///
/// A file of more than `TEXT_MAX` bytes is a `ReadFault`, whatever its records are.
pub fn read_sample_file<F: Files, T: SampleTexts>(
    alloc: Global,
    files: &mut F,
    texts: &T,
    name: &str,
) -> Result<Vec<i64>, SampleFault>
    requires { T.may_read texts.now }
    ensures ok { IfOk result (λ values. IfSome (F.file files.old name.now)
        (AreShortSamples values.items)) }

    ensures values { IfOk result (λ values. AreSends values.items
        × (length values.items ≤ TEXT_MAX)) }

    ensures bad { (n : ℕ) → IsErrOf result (SampleFault.BadSample n)
        → IfSome (F.file files.old name.now) (IsBadShortSample n) }

    // The same where the file's bytes are not known beforehand: some text was read.
    ensures all { IfOk result (λ values. AreSamplesOf (F.file files.old name.now) values.items) }

    ensures all_bad { (n : ℕ) → IsErrOf result (SampleFault.BadSample n)
        → HasBadSample (F.file files.old name.now) n }

    ensures read { IsErrOf result SampleFault.ReadFault
        → MayBeRefused TEXT_MAX (F.file files.old name.now) }

    ensures memory { IsErrOf result SampleFault.OutOfMemory
        → MayNeedMemory TEXT_MAX (F.file files.old name.now) }

    ensures same { (other : List ℕ) → F.file files.new other ≡ F.file files.old other }
{
    let text = files.read(alloc, name, TEXT_MAX)?;
    texts.samples(alloc, text.as_slice())
}
