//! Samples that a reader gives in pieces, and readers that fail.

use graph_lang::{SampleFault, read_samples};
use std::alloc::Global;
use std::io::{self, Read};
use std::test::Fail;
use watched_io::{FileFault, Watched, read_text};

/// Gives a text, `size` bytes a read at most, and fails at the read of the number `fails_at`.
#[derive(Drop)]
struct Pieces<'a> {
    rest: &'a [u8],
    size: usize,
    reads: usize,
    fails_at: usize,
}

impl Read for Pieces<'_> {
    fn read(&mut self, buf: &mut [u8]) -> io::Result<usize> {
        if self.reads == self.fails_at {
            return Err(io::Error::from(io::ErrorKind::Interrupted));
        }
        self.reads = self.reads.saturating_add(1);
        let count = self.size.min(self.rest.len()).min(buf.len());
        buf[..count].copy_from_slice(&self.rest[..count]);
        self.rest = &self.rest[count..];
        Ok(count)
    }
}

fn pieces_of(rest: &[u8], size: usize) -> Watched<Pieces<'_>> {
    Watched::new(Pieces {
        rest,
        size,
        reads: 0,
        fails_at: usize::MAX,
    })
}

/// Texts, each with its samples, or with the number of its first bad record.
static TEXTS: [(&str, Result<&[i64], usize>); 4] = [
    ("", Ok(&[])),
    ("1\r\n-2\r\n\r\n3", Ok(&[1, -2, 3])),
    ("\"5\"6\n\"7", Ok(&[56, 7])),
    ("1\n\n2,3\n", Err(2)),
];

/// Whether these samples were found, or this first bad record.
fn is_so(found: Result<Vec<i64>, SampleFault>, wanted: Result<&[i64], usize>) -> bool {
    match (found, wanted) {
        (Ok(found), Ok(samples)) => found.as_slice() == samples,
        (Err(fault), Err(number)) => fault == SampleFault::BadSample { number },
        _ => false,
    }
}

/// Whether a reader that gives `size` bytes a read has these samples, or this first bad record.
fn is_read_by(alloc: Global, text: &str, size: usize, wanted: Result<&[i64], usize>) -> bool {
    let mut pieces = pieces_of(text.as_bytes(), size);
    is_so(read_samples(alloc, &mut pieces), wanted)
}

/// What is found in five bytes, one a read, where a read fails, and whether the reader tells that.
fn read_failing_at(alloc: Global, fails_at: usize) -> (Result<usize, SampleFault>, bool) {
    let mut reader = Watched::new(Pieces {
        rest: b"1\nx\n2",
        size: 1,
        reads: 0,
        fails_at,
    });
    match read_samples(alloc, &mut reader) {
        Ok(values) => (Ok(values.len()), reader.has_failed()),
        Err(fault) => (Err(fault), reader.has_failed()),
    }
}

#[test]
fn samples_are_read_in_pieces_until_a_read_fails(rt: HostRuntime) -> Result<(), Fail> {
    for (text, wanted) in &TEXTS {
        for size in [1, 3, 65536] {
            assert!(rt;
                is_read_by(rt.alloc(), text, size, *wanted),
                "{text:?} by {size}"
            );
        }
    }
    // A sixth read is for the end.
    for fails_at in 0..8 {
        let fault = if fails_at < 6 {
            SampleFault::ReadFault
        } else {
            SampleFault::BadSample { number: 2 }
        };
        let found = read_failing_at(rt.alloc(), fails_at);
        assert!(rt; found == (Err(fault), fails_at < 6), "{fails_at}");
    }
    Ok(())
}

/// Whether a text is read as it is within five bytes, or is refused.
fn is_read_within_five(alloc: Global, text: &[u8], is_whole: bool) -> bool {
    let mut pieces = pieces_of(text, 2);
    match read_text(alloc, &mut pieces, 5) {
        Ok(found) => is_whole && found.as_slice() == text,
        Err(fault) => !is_whole && fault == FileFault::ReadFault,
    }
}

#[test]
fn a_byte_past_the_limit_is_a_fault(rt: HostRuntime) -> Result<(), Fail> {
    assert!(rt; is_read_within_five(rt.alloc(), b"12345", true));
    assert!(rt; is_read_within_five(rt.alloc(), b"123456", false));
    Ok(())
}
