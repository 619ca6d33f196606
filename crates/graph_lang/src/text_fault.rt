//! Why no samples were read.
ghost use Rattle.std.specs.Prelude.{◌≡◌};
ghost use Rattle.graph_lang.specs.TextFaults.{as_sample_fault};

use crate::TEXT_MAX;
use thiserror::Error;
use watched_io::FileFault;

/// Why a reader gave no samples.
#[derive(Clone, Copy, Debug, PartialEq, Eq, Hash, Error)]
pub enum SampleFault {
    /// A record is not one field with one whole number from -9223372036854775807 to
    /// 9223372036854775807.
    #[error("record {number} is not one whole number from -(2^63 - 1) to 2^63 - 1")]
    BadSample {
        /// The number of the first such record, counted from 1.
        number: usize,
    },
    /// A read failed, or the text is longer than `TEXT_MAX`.
    #[error("a read failed, or the samples take more than {most} bytes", most = TEXT_MAX)]
    ReadFault,
    /// Memory ran out.
    #[error("memory ran out")]
    OutOfMemory,
}

impl From<FileFault> for SampleFault {
    ghost from_gives = { λ fault given. given ≡ as_sample_fault fault };

    fn from(fault: FileFault) -> SampleFault {
        match fault {
            FileFault::ReadFault => SampleFault::ReadFault,
            FileFault::OutOfMemory => SampleFault::OutOfMemory,
        }
    }
}
