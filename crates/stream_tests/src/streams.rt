//! What no clause says: how often a reader or a writer is called, and that what is sent is flushed.
use std::io::{self, ErrorKind, Read, Write};
use std::test::Fail;
use watched_io::{ReadFailed, Watched, WriteFailed};

/// Fails at its first read, and gives a byte at each later one.
#[derive(Drop)]
struct Hiccup {
    reads: usize,
}

impl Read for Hiccup {
    fn read(&mut self, buf: &mut [u8]) -> io::Result<usize> {
        self.reads = self.reads.saturating_add(1);
        if self.reads == 1 {
            return Err(io::Error::from(ErrorKind::Interrupted));
        }
        if buf.is_empty() {
            return Ok(0);
        }
        buf[0] = b'x';
        Ok(1)
    }
}

/// A read, whether one has failed by then, and the bytes that were counted.
fn read_once(
    reader: &mut Watched<Hiccup>,
    piece: &mut [u8],
) -> (Result<usize, ReadFailed>, bool, u64) {
    let read = reader.read(piece);
    (read, reader.has_failed(), reader.count())
}

#[test]
fn a_failed_read_is_not_tried_again(rt: HostRuntime) -> Result<(), Fail> {
    let mut reader = Watched::new(Hiccup { reads: 0 });
    let mut piece = [0u8; 4];
    let first = read_once(&mut reader, piece.as_mut_slice());
    let second = read_once(&mut reader, piece.as_mut_slice());
    let reads = reader.into_inner().reads;
    assert_eq!(rt; first, (Err(ReadFailed), true, 0));
    assert_eq!(rt; second, (Ok(1), true, 1));
    assert_eq!(rt; piece.as_slice(), b"x\0\0\0".as_slice());
    assert_eq!(rt; reads, 2);
    Ok(())
}

/// What goes wrong, once.
#[derive(Clone, Copy, Debug, PartialEq)]
enum Once {
    Nothing,
    WriteFails,
    WriteTakesNothing,
    FlushFails,
}

/// Takes all bytes and counts its calls, of which one goes wrong.
#[derive(Drop)]
struct Counting {
    got: usize,
    flushed: usize,
    writes: usize,
    flushes: usize,
    once: Once,
}

impl Write for Counting {
    fn write(&mut self, buf: &[u8]) -> io::Result<usize> {
        self.writes = self.writes.saturating_add(1);
        let once = self.once;
        if once == Once::WriteFails {
            self.once = Once::Nothing;
            return Err(io::Error::from(ErrorKind::Interrupted));
        }
        if once == Once::WriteTakesNothing {
            self.once = Once::Nothing;
            return Ok(0);
        }
        self.got = self.got.saturating_add(buf.len());
        Ok(buf.len())
    }

    fn flush(&mut self) -> io::Result<()> {
        self.flushes = self.flushes.saturating_add(1);
        if self.once == Once::FlushFails {
            self.once = Once::Nothing;
            return Err(io::Error::from(ErrorKind::Interrupted));
        }
        self.flushed = self.got;
        Ok(())
    }
}

fn counting_but(once: Once) -> Counting {
    Counting {
        got: 0,
        flushed: 0,
        writes: 0,
        flushes: 0,
        once,
    }
}

/// What is answered where one thing goes wrong, and the writes and flushes by then.
fn send_but(once: Once) -> ((Result<(), WriteFailed>, bool), (usize, usize)) {
    let mut writer = Watched::new(counting_but(once));
    let sent = writer.send(b"abc");
    let has_failed = writer.has_failed();
    let inner = writer.into_inner();
    ((sent, has_failed), (inner.writes, inner.flushes))
}

#[test]
fn a_failed_write_or_flush_is_not_tried_again(rt: HostRuntime) -> Result<(), Fail> {
    for (once, writes, flushes) in [
        (Once::WriteFails, 1usize, 0usize),
        (Once::WriteTakesNothing, 1, 0),
        (Once::FlushFails, 1, 1),
    ] {
        let wanted = ((Err(WriteFailed), true), (writes, flushes));
        assert_eq!(rt; send_but(once), wanted, "{once:?}");
    }
    Ok(())
}

/// What is answered, and what was flushed, by how many calls.
fn send_well(bytes: &[u8]) -> (Result<(), WriteFailed>, (usize, usize)) {
    let mut writer = Watched::new(counting_but(Once::Nothing));
    let sent = writer.send(bytes);
    let inner = writer.into_inner();
    (sent, (inner.flushed, inner.flushes))
}

#[test]
fn what_is_sent_is_flushed(rt: HostRuntime) -> Result<(), Fail> {
    let bytes = vec![in rt.alloc(); b'x'; 1_000_000]?;
    for size in [0usize, 1, 65_535, 65_536, 65_537, 1_000_000] {
        let sent = send_well(&bytes[..size.min(bytes.len())]);
        assert_eq!(rt; sent, (Ok(()), (size, 1)), "{size}");
    }
    Ok(())
}
