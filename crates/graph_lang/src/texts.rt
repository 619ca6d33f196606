//! Who reads the samples of a text.
ghost use Rattle.std.specs.Prelude.{◌≤◌, ℕ, ⊤, length, IfOk, IsErrOf};
ghost use Rattle.phase_accum.specs.Sends.{AreSends};
ghost use Rattle.graph_lang.specs.Samples.{AreRecordsOfValues, IsBadSample};

use crate::{SampleFault, samples_of};
use std::alloc::Global;

/// Who reads the samples of a text: one thread, or several.
pub trait SampleTexts {
    /// What is asked for where they read: of threads, that they may share what starts them.
    ghost may_read: { Self → Type 0 } = { λ _. ⊤ };

    /// The samples of a text, as `samples_of` answers them.
    fn samples(&self, alloc: Global, text: &[u8]) -> Result<Vec<i64>, SampleFault>
        requires { may_read self.now }
        ensures ok { IfOk result (λ values. AreRecordsOfValues text.now values.items) }
        ensures values { IfOk result (λ values. AreSends values.items
            × (length values.items ≤ length text.now)) }
        ensures bad { (n : ℕ) → IsErrOf result (SampleFault.BadSample n) → IsBadSample text.now n }
        ensures read { IsErrOf result SampleFault.ReadFault → ⊥ };
}

/// One thread reads them, and writes, from the first line to the last.
#[derive(Clone, Copy)]
pub struct OneThread;

impl SampleTexts for OneThread {
    fn samples(&self, alloc: Global, text: &[u8]) -> Result<Vec<i64>, SampleFault> {
        samples_of(alloc, text)
    }
}
