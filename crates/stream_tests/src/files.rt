//! Samples in files that are held in memory.

use graph_lang::{OneThread, SampleFault, read_sample_file};
use std::alloc::Global;
use std::fs;
use std::test::Fail;
use watched_io::{DiskFiles, FileFault, Files, IoFault};

/// Two files, of which one has samples, and no other.
#[derive(Drop)]
struct TwoFiles;

impl Files for TwoFiles {
    fn read(&mut self, alloc: Global, name: &str, limit: usize) -> Result<Vec<u8>, FileFault> {
        let text: &[u8] = match name {
            "ramp.csv" => b"1\n-2\n3\n",
            "notes.csv" => b"1\n2\nthree\n",
            _ => return Err(FileFault::ReadFault),
        };
        if text.len() > limit {
            return Err(FileFault::ReadFault);
        }
        Vec::from_slice(alloc, text).map_err(|_| FileFault::OutOfMemory)
    }
}

/// Names of files, each with its samples or its fault.
static NAMES: [(&str, Result<&[i64], SampleFault>); 3] = [
    ("ramp.csv", Ok(&[1, -2, 3])),
    ("notes.csv", Err(SampleFault::BadSample { number: 3 })),
    ("other.csv", Err(SampleFault::ReadFault)),
];

/// Whether a file has these samples, or this fault.
fn has_samples<F: Files>(
    alloc: Global,
    files: &mut F,
    name: &str,
    wanted: Result<&[i64], SampleFault>,
) -> bool {
    match (read_sample_file(alloc, files, &OneThread, name), wanted) {
        (Ok(found), Ok(samples)) => found.as_slice() == samples,
        (Err(found), Err(fault)) => found == fault,
        _ => false,
    }
}

#[test]
fn samples_are_read_by_the_name_of_their_file(rt: HostRuntime) -> Result<(), Fail> {
    for (name, wanted) in &NAMES {
        assert!(rt;
            has_samples(rt.alloc(), &mut TwoFiles, name, *wanted),
            "{name}"
        );
    }
    Ok(())
}

/// Whether a file of at most `limit` bytes has this text, or is refused.
fn has_text<F: Files>(
    alloc: Global,
    files: &mut F,
    name: &str,
    limit: usize,
    wanted: Option<&[u8]>,
) -> bool {
    match (files.read(alloc, name, limit), wanted) {
        (Ok(found), Some(text)) => found.as_slice() == text,
        (Err(fault), None) => fault == FileFault::ReadFault,
        _ => false,
    }
}

#[test]
fn a_file_of_the_disk_is_read_within_its_limit(rt: HostRuntime) -> Result<(), Fail> {
    let name = "a_file_of_five_bytes.csv";
    fs::write(&rt, name, "1\n-2\n")?;
    let mut files = DiskFiles::new(&rt);
    let is_whole = has_text(rt.alloc(), &mut files, name, 5, Some(b"1\n-2\n"));
    let is_long = has_text(rt.alloc(), &mut files, name, 4, None);
    let has_samples = has_samples(rt.alloc(), &mut files, name, Ok(&[1, -2]));
    fs::remove_file(&rt, name)?;
    let is_gone = has_text(rt.alloc(), &mut files, name, 5, None);
    let is_folder = has_text(rt.alloc(), &mut files, ".", 5, None);
    assert_eq!(rt; (is_whole, is_long, has_samples), (true, true, true));
    assert_eq!(rt; (is_gone, is_folder), (true, true));
    Ok(())
}

#[test]
fn a_fault_of_a_file_is_the_fault_of_that_name(rt: HostRuntime) -> Result<(), Fail> {
    assert_eq!(rt; IoFault::from(FileFault::ReadFault), IoFault::ReadFault);
    assert_eq!(rt; IoFault::from(FileFault::OutOfMemory), IoFault::OutOfMemory);
    assert_eq!(rt;
        SampleFault::from(FileFault::ReadFault),
        SampleFault::ReadFault
    );
    assert_eq!(rt;
        SampleFault::from(FileFault::OutOfMemory),
        SampleFault::OutOfMemory
    );
    Ok(())
}
