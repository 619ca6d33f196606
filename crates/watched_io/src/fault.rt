//! What went wrong with a reader, a writer or a file.
ghost use Rattle.std.specs.Prelude.{◌≡◌};
ghost use Rattle.watched_io.specs.declared.fault.FileFault.TheVariants as file_fault;
ghost use Rattle.watched_io.specs.declared.fault.IoFault.TheVariants as io_fault;
ghost use Rattle.watched_io.specs.Faults.{as_io_fault};

use std::alloc::AllocError;
use std::io;
use std::io::ErrorKind;
use thiserror::Error;

/// A read failed.
#[derive(Clone, Copy, Debug, PartialEq, Eq, Hash, Error)]
#[error("a read failed")]
pub struct ReadFailed;

/// A write or a flush failed, or a write took no byte.
#[derive(Clone, Copy, Debug, PartialEq, Eq, Hash, Error)]
#[error("a write failed")]
pub struct WriteFailed;

/// Why a file, or what a reader has left, was not read whole.
#[derive(Clone, Copy, Debug, PartialEq, Eq, Hash, Error)]
pub enum FileFault {
    /// The file could not be opened, a read failed, or there is more than the limit.
    #[error("a file cannot be read, or is too long")]
    ReadFault,
    /// Memory ran out.
    #[error("memory ran out")]
    OutOfMemory,
}

/// Why a run that reads and writes stopped.
#[derive(Clone, Copy, Debug, PartialEq, Eq, Hash, Error)]
pub enum IoFault {
    /// A read failed, or there is more to read than the limit.
    #[error("a read failed, or there is too much to read")]
    ReadFault,
    /// A write or a flush failed, or a write took no byte.
    #[error("a write failed")]
    WriteFault,
    /// Memory ran out.
    #[error("memory ran out")]
    OutOfMemory,
}

impl From<ReadFailed> for FileFault {
    ghost from_gives = { λ _ fault. fault ≡ file_fault.ReadFault };

    fn from(_failed: ReadFailed) -> FileFault {
        FileFault::ReadFault
    }
}

impl From<AllocError> for FileFault {
    ghost from_gives = { λ _ fault. fault ≡ file_fault.OutOfMemory };

    fn from(_error: AllocError) -> FileFault {
        FileFault::OutOfMemory
    }
}

impl From<io::Error> for FileFault {
    fn from(error: io::Error) -> FileFault {
        if error.kind() == ErrorKind::OutOfMemory {
            FileFault::OutOfMemory
        } else {
            FileFault::ReadFault
        }
    }
}

impl From<ReadFailed> for IoFault {
    ghost from_gives = { λ _ fault. fault ≡ io_fault.ReadFault };

    fn from(_failed: ReadFailed) -> IoFault {
        IoFault::ReadFault
    }
}

impl From<WriteFailed> for IoFault {
    ghost from_gives = { λ _ fault. fault ≡ io_fault.WriteFault };

    fn from(_failed: WriteFailed) -> IoFault {
        IoFault::WriteFault
    }
}

impl From<AllocError> for IoFault {
    ghost from_gives = { λ _ fault. fault ≡ io_fault.OutOfMemory };

    fn from(_error: AllocError) -> IoFault {
        IoFault::OutOfMemory
    }
}

impl From<FileFault> for IoFault {
    ghost from_gives = { λ fault given. given ≡ as_io_fault fault };

    fn from(fault: FileFault) -> IoFault {
        match fault {
            FileFault::ReadFault => IoFault::ReadFault,
            FileFault::OutOfMemory => IoFault::OutOfMemory,
        }
    }
}
