//! Readers and writers that go wrong once and then work, and a reader that sees what was flushed.
use phase_replay::{ReplayFault, Watched, replay};
use std::alloc::Global;
use std::cell::Cell;
use std::io;
use std::io::{Read, Write};
use std::test::Fail;

/// Gives lines `x`, a byte a read, and fails at the read of the number `fails_at` alone.
#[derive(Drop)]
struct Hiccup<'a> {
    rest: &'a [u8],
    reads: usize,
    fails_at: usize,
}

impl Read for Hiccup<'_> {
    fn read(&mut self, buf: &mut [u8]) -> io::Result<usize> {
        self.reads = self.reads.saturating_add(1);
        if self.reads == self.fails_at {
            return Err(io::Error::from(io::ErrorKind::Interrupted));
        }
        let count = self.rest.len().min(buf.len()).min(1);
        buf[..count].copy_from_slice(&self.rest[..count]);
        self.rest = &self.rest[count..];
        Ok(count)
    }
}

/// How a replay of three lines ends whose read of this number fails, with how many reads it made
/// and how many bytes it wrote.
fn read_failing_at(alloc: Global, fails_at: usize) -> (Result<(), ReplayFault>, usize, usize) {
    let mut reader = Watched::new(Hiccup {
        rest: b"x\nx\nx\n",
        reads: 0,
        fails_at,
    });
    let mut output = Vec::new(alloc);
    let mut writer = Watched::new(&mut output);
    let outcome = replay(alloc, &mut reader, &mut writer);
    (outcome, reader.into_inner().reads, output.len())
}

#[test]
fn a_read_that_fails_once_is_the_last(rt: HostRuntime) {
    for fails_at in 1..8usize {
        assert_eq!(rt;
            read_failing_at(rt.alloc(), fails_at),
            (
                Err(ReplayFault::ReadFault),
                fails_at,
                (fails_at - 1) / 2 * 9
            ),
            "{fails_at}"
        );
    }
}

/// How one call goes wrong.
#[derive(Clone, Copy, Debug, PartialEq)]
enum Wrong {
    Write,
    TakesNothing,
    Flush,
}

/// Takes all bytes, and goes wrong at the call of the number `at`, of writes and flushes, alone.
#[derive(Drop)]
struct Stumbling {
    got: usize,
    calls: usize,
    at: usize,
    wrong: Wrong,
}

impl Write for Stumbling {
    fn write(&mut self, buf: &[u8]) -> io::Result<usize> {
        self.calls = self.calls.saturating_add(1);
        if self.calls == self.at && self.wrong == Wrong::Write {
            return Err(io::Error::from(io::ErrorKind::Interrupted));
        }
        if self.calls == self.at && self.wrong == Wrong::TakesNothing {
            return Ok(0);
        }
        self.got = self.got.saturating_add(buf.len());
        Ok(buf.len())
    }

    fn flush(&mut self) -> io::Result<()> {
        self.calls = self.calls.saturating_add(1);
        if self.calls == self.at && self.wrong == Wrong::Flush {
            return Err(io::Error::from(io::ErrorKind::Interrupted));
        }
        Ok(())
    }
}

/// How a replay of two lines ends whose writer goes wrong at the call of this number, with how many
/// calls its writer had and how many bytes it took.
fn stumbling_at(alloc: Global, at: usize, wrong: Wrong) -> (Result<(), ReplayFault>, usize, usize) {
    let mut reader = Watched::new(Hiccup {
        rest: b"x\nx\n",
        reads: 0,
        fails_at: usize::MAX,
    });
    let mut writer = Watched::new(Stumbling {
        got: 0,
        calls: 0,
        at,
        wrong,
    });
    let outcome = replay(alloc, &mut reader, &mut writer);
    let inner = writer.into_inner();
    (outcome, inner.calls, inner.got)
}

// The calls of a replay of two lines, a byte a read: before each read a flush, with a write before
// it where a reply waits. The writes are calls 3 and 6, and the flushes 1, 2, 4, 5, 7 and 8.
#[test]
fn a_write_or_flush_that_fails_once_is_the_last(rt: HostRuntime) {
    for (at, wrong, got) in [
        (3usize, Wrong::Write, 0usize),
        (6, Wrong::Write, 9),
        (3, Wrong::TakesNothing, 0),
        (6, Wrong::TakesNothing, 9),
        (1, Wrong::Flush, 0),
        (2, Wrong::Flush, 0),
        (4, Wrong::Flush, 9),
        (7, Wrong::Flush, 18),
        (8, Wrong::Flush, 18),
    ] {
        assert_eq!(rt;
            stumbling_at(rt.alloc(), at, wrong),
            (Err(ReplayFault::WriteFault), at, got),
            "{wrong:?} at {at}"
        );
    }
}

/// Gives a script `size` bytes a read, and looks at each read whether the replies to all lines so
/// far were flushed.
#[derive(Drop)]
struct Waiting<'a> {
    rest: &'a [u8],
    size: usize,
    replies: usize,
    flushed: &'a Cell<usize>,
    is_answered: bool,
}

impl Read for Waiting<'_> {
    fn read(&mut self, buf: &mut [u8]) -> io::Result<usize> {
        if self.flushed.get() != self.replies {
            self.is_answered = false;
        }
        let count = self.size.min(self.rest.len()).min(buf.len());
        buf[..count].copy_from_slice(&self.rest[..count]);
        self.rest = &self.rest[count..];
        for byte in &buf[..count] {
            if *byte == b'\n' {
                self.replies = self.replies.saturating_add(9);
            }
        }
        Ok(count)
    }
}

/// Holds back what it takes until it is flushed.
#[derive(Drop)]
struct Holding<'a> {
    taken: usize,
    flushed: &'a Cell<usize>,
}

impl Write for Holding<'_> {
    fn write(&mut self, buf: &[u8]) -> io::Result<usize> {
        self.taken = self.taken.saturating_add(buf.len());
        Ok(buf.len())
    }

    fn flush(&mut self) -> io::Result<()> {
        self.flushed.set(self.taken);
        Ok(())
    }
}

/// How a replay of a script ends that is read `size` bytes at a time.
#[derive(Clone, Copy, Debug, PartialEq)]
struct Ending {
    outcome: Result<(), ReplayFault>,
    read: u64,
    is_answered: bool,
    flushed: usize,
}

fn waited(alloc: Global, script: &[u8], size: usize) -> Ending {
    let flushed = Cell::new(0usize);
    let mut reader = Watched::new(Waiting {
        rest: script,
        size,
        replies: 0,
        flushed: &flushed,
        is_answered: true,
    });
    let mut writer = Watched::new(Holding {
        taken: 0,
        flushed: &flushed,
    });
    let outcome = replay(alloc, &mut reader, &mut writer);
    Ending {
        outcome,
        read: reader.count(),
        is_answered: reader.into_inner().is_answered,
        flushed: flushed.get(),
    }
}

// The line, so many times.
fn lines_of(alloc: Global, line: &[u8], lines: usize) -> Result<Vec<u8>, Fail> {
    let mut script = Vec::new(alloc);
    for _ in 0..lines {
        script.extend_from_slice(line)?;
    }
    Ok(script)
}

#[test]
fn each_read_finds_all_lines_before_it_answered(rt: HostRuntime) -> Result<(), Fail> {
    // Lines of 64 bytes and lines of 2, so that a read of 65,536 bytes ends with a line, and its
    // replies are fewer bytes than are handed over on the way, or more.
    let long = b"xxxxxxxxxxxxxxxxxxxxxxxxxxxxxxxxxxxxxxxxxxxxxxxxxxxxxxxxxxxxxxx\n";
    let rows: [(&[u8], usize, usize); 2] = [(long, 2048, 18_432), (b"x\n", 65_536, 589_824)];
    for (line, lines, flushed) in rows {
        let script = lines_of(rt.alloc(), line, lines)?;
        for size in [1usize, 3, 65_535, 65_536] {
            let want = Ending {
                outcome: Ok(()),
                read: 131_072,
                is_answered: true,
                flushed,
            };
            let got = waited(rt.alloc(), script.as_slice(), size);
            assert_eq!(rt; got, want, "{lines}, {size}");
        }
    }
    Ok(())
}
