//! A reader or a writer beside a note of whether one of its calls failed.
ghost use Rattle.std.specs.Prelude.{◌≡◌, true, false, IfOk, OnOk, OnErr};
ghost use Rattle.std.specs.Io.{ReadsAtMost};
ghost use Rattle.std.specs.Io.KnownBytes.{ReadConsumes, Appends, Keeps};
ghost use Rattle.watched_io.specs.Prefix.{AppendsPrefix};

use crate::{ReadFailed, WriteFailed};
use std::io::{Read, Write};

/// The greatest number of bytes that is counted.
pub const BYTES_COUNTED_MAX: u64 = 18_446_744_073_709_551_615;

/// A reader or a writer, whether one of its calls through here has failed, and how many bytes its
/// reads gave.
///
/// The note is set by a failure alone, and never taken back. The count stops at
/// `BYTES_COUNTED_MAX`.
#[derive(Drop)]
pub struct Watched<T> {
    inner: T,
    has_failed: bool,
    count: u64,
}

impl<T> Watched<T> {
    ghost use Rattle.watched_io.specs.Watched.{inner_of, has_failed_of, count_of};

    /// Watches a reader or a writer, of which no call has failed and no byte was read yet.
    pub fn new(inner: T) -> Watched<T>
        ensures inner { inner_of result ≡ inner }
        ensures failed { has_failed_of result ≡ false }
        ensures count { count_of result ≡ 0 }
    {
        Watched {
            inner,
            has_failed: false,
            count: 0,
        }
    }

    /// Returns whether a call has failed since `new`.
    pub fn has_failed(&self) -> bool
        ensures { result ≡ has_failed_of self.now }
    {
        self.has_failed
    }

    /// Returns how many bytes the reads have given since `new`, or `BYTES_COUNTED_MAX` where it is
    /// more.
    pub fn count(&self) -> u64
        ensures { result ≡ count_of self.now }
    {
        self.count
    }

    /// Returns the reader or the writer.
    pub fn into_inner(self) -> T
        ensures { result ≡ inner_of self }
    {
        let Watched {
            inner,
            has_failed: _,
            count: _,
        } = self;
        inner
    }
}

impl<R: Read> Watched<R> {
    ghost use Rattle.watched_io.specs.Watched.{inner_of, has_failed_of, count_of, CountsUp};

    /// Reads once into `piece`, and answers how many bytes were read. No failed read is tried
    /// again.
    pub fn read(&mut self, piece: &mut [u8]) -> Result<usize, ReadFailed>
        ensures bound { ReadsAtMost result piece.new }
        ensures bytes { ReadConsumes (R.remaining (inner_of self.old))
            (R.remaining (inner_of self.new)) result piece.new }

        ensures counted { IfOk result (λ n. CountsUp (count_of self.old) (count_of self.new) n) }
        ensures uncounted { OnErr result (count_of self.new ≡ count_of self.old) }
        ensures failed { OnErr result (has_failed_of self.new ≡ true) }
        ensures same { OnOk result (has_failed_of self.new ≡ has_failed_of self.old) }
    {
        match self.inner.read(piece) {
            Ok(count) => {
                self.count = self.count.saturating_add(count as u64);
                Ok(count)
            }
            Err(_) => {
                self.has_failed = true;
                Err(ReadFailed)
            }
        }
    }
}

impl<W: Write> Watched<W> {
    ghost use Rattle.watched_io.specs.Watched.{inner_of, has_failed_of, count_of};

    // Notes that a write failed.
    fn fail(&mut self) -> WriteFailed
        ensures inner { inner_of self.new ≡ inner_of self.old }
        ensures failed { has_failed_of self.new ≡ true }
        ensures uncounted { count_of self.new ≡ count_of self.old }
    {
        self.has_failed = true;
        WriteFailed
    }

    // Hands on what the writer may still hold back.
    fn flush(&mut self) -> Result<(), WriteFailed>
        ensures bytes { Keeps (W.contents (inner_of self.old)) (W.contents (inner_of self.new)) }
        ensures failed { OnErr result (has_failed_of self.new ≡ true) }
        ensures same { OnOk result (has_failed_of self.new ≡ has_failed_of self.old) }
        ensures uncounted { count_of self.new ≡ count_of self.old }
    {
        match self.inner.flush() {
            Ok(()) => Ok(()),
            Err(_) => Err(self.fail()),
        }
    }

    /// Writes all the bytes, by as many writes as that takes, and flushes the writer. No failed
    /// write is tried again, and one that takes no byte is a failure.
    pub fn send(&mut self, bytes: &[u8]) -> Result<(), WriteFailed>
        ensures ok { OnOk result (Appends (W.contents (inner_of self.old))
            (W.contents (inner_of self.new)) bytes.now) }

        ensures err { OnErr result (AppendsPrefix (W.contents (inner_of self.old))
            (W.contents (inner_of self.new)) bytes.now) }

        ensures failed { OnErr result (has_failed_of self.new ≡ true) }
        ensures same { OnOk result (has_failed_of self.new ≡ has_failed_of self.old) }
        ensures uncounted { count_of self.new ≡ count_of self.old }
    {
        let mut sent = 0;
        while sent < bytes.len() {
            match self.inner.write(&bytes[sent..]) {
                Ok(0) => return Err(self.fail()),
                Ok(count) => sent += count,
                Err(_) => return Err(self.fail()),
            }
        }
        self.flush()?;
        Ok(())
    }
}
