//! Replays with readers and writers that give, take and fail in every place.
use phase_replay::{ReplayFault, Watched, replay};
use std::alloc::Global;
use std::io;
use std::io::{Read, Write};
use std::test::Fail;

/// Gives a script, `size` bytes a read at most, and fails at the read of the number `fails_at`.
#[derive(Drop)]
struct Pieces<'a> {
    rest: &'a [u8],
    size: usize,
    reads: usize,
    fails_at: usize,
}

impl Read for Pieces<'_> {
    fn read(&mut self, buf: &mut [u8]) -> io::Result<usize> {
        if self.reads == self.fails_at {
            return Err(io::Error::from(io::ErrorKind::Interrupted));
        }
        self.reads = self.reads.saturating_add(1);
        let count = self.size.min(self.rest.len()).min(buf.len());
        buf[..count].copy_from_slice(&self.rest[..count]);
        self.rest = &self.rest[count..];
        Ok(count)
    }
}

fn pieces_of(rest: &[u8], size: usize) -> Pieces<'_> {
    Pieces {
        rest,
        size,
        reads: 0,
        fails_at: usize::MAX,
    }
}

/// How a write fails.
#[derive(Clone, Copy, PartialEq)]
enum Stop {
    Fails,
    TakesNothing,
    FailsToFlush,
}

/// Takes `size` bytes a write at most, and stops at the write of the number `stops_at`.
#[derive(Drop)]
struct Choppy {
    got: Vec<u8>,
    size: usize,
    writes: usize,
    stops_at: usize,
    stop: Stop,
}

impl Write for Choppy {
    fn write(&mut self, buf: &[u8]) -> io::Result<usize> {
        if self.writes == self.stops_at && self.stop == Stop::Fails {
            return Err(io::Error::from(io::ErrorKind::Interrupted));
        }
        if self.writes == self.stops_at && self.stop == Stop::TakesNothing {
            return Ok(0);
        }
        self.writes = self.writes.saturating_add(1);
        let count = self.size.min(buf.len());
        self.got.extend_from_slice(&buf[..count])?;
        Ok(count)
    }

    fn flush(&mut self) -> io::Result<()> {
        if self.writes == self.stops_at && self.stop == Stop::FailsToFlush {
            return Err(io::Error::from(io::ErrorKind::BrokenPipe));
        }
        Ok(())
    }
}

fn taking(alloc: Global, size: usize) -> Choppy {
    Choppy {
        got: Vec::new(alloc),
        size,
        writes: 0,
        stops_at: usize::MAX,
        stop: Stop::Fails,
    }
}

/// What a replay came to.
#[derive(Drop)]
struct Ending {
    outcome: Result<(), ReplayFault>,
    /// Whether its reader failed, and its writer.
    failed: (bool, bool),
    got: Vec<u8>,
    writes: usize,
}

fn replayed(alloc: Global, reader: Pieces<'_>, writer: Choppy) -> Ending {
    let mut reader = Watched::new(reader);
    let mut writer = Watched::new(writer);
    let outcome = replay(alloc, &mut reader, &mut writer);
    let failed = (reader.has_failed(), writer.has_failed());
    let writer = writer.into_inner();
    Ending {
        outcome,
        failed,
        writes: writer.writes,
        got: writer.got,
    }
}

#[test]
fn a_failed_read_comes_behind_the_replies_to_all_lines_read(rt: HostRuntime) {
    let replies = b"bad line\nbad line\nbad line\n";
    for fails_at in 0..7usize {
        let reader = Pieces {
            rest: b"x\ny\nz\n",
            size: 1,
            reads: 0,
            fails_at,
        };
        let run = replayed(rt.alloc(), reader, taking(rt.alloc(), 65536));
        assert_eq!(rt;
            (run.outcome, run.failed),
            (Err(ReplayFault::ReadFault), (true, false)),
            "{fails_at}"
        );
        assert_eq!(rt;
            run.got.as_slice(),
            &replies[..fails_at / 2 * 9],
            "{fails_at}"
        );
    }
}

// A replay of two lines, a byte a read and a write, whose writer stops at the write of the number.
fn stopped(alloc: Global, stops_at: usize, stop: Stop) -> Ending {
    let writer = Choppy {
        got: Vec::new(alloc),
        size: 1,
        writes: 0,
        stops_at,
        stop,
    };
    replayed(alloc, pieces_of(b"x\ny", 1), writer)
}

#[test]
fn a_failed_write_comes_behind_a_prefix_of_the_replies(rt: HostRuntime) {
    let replies = b"bad line\nbad line\n";
    for stop in [Stop::Fails, Stop::TakesNothing, Stop::FailsToFlush] {
        for stops_at in 0..18usize {
            let run = stopped(rt.alloc(), stops_at, stop);
            let flushes_then = stops_at % 9 == 0;
            if stop == Stop::FailsToFlush && !flushes_then {
                assert_eq!(rt; run.outcome, Ok(()), "{stops_at}");
            } else {
                assert_eq!(rt;
                    (run.outcome, run.failed),
                    (Err(ReplayFault::WriteFault), (false, true)),
                    "{stops_at}"
                );
                assert_eq!(rt; run.got.as_slice(), &replies[..stops_at], "{stops_at}");
            }
        }
    }
}

#[test]
fn many_replies_go_out_in_large_pieces(rt: HostRuntime) -> Result<(), Fail> {
    let script = vec![in rt.alloc(); b'\n'; 20_000]?;
    let reader = pieces_of(script.as_slice(), 65536);
    let run = replayed(rt.alloc(), reader, taking(rt.alloc(), usize::MAX));
    assert_eq!(rt;
        (run.outcome, run.got.len(), run.writes),
        (Ok(()), 180_000, 3)
    );
    Ok(())
}
