//! The files of the disk.
ghost use Rattle.std.specs.Prelude.{◌≡◌, ◌≤◌, length, IfOk};

use crate::{FileFault, Files, Watched, read_text};
use std::alloc::Global;
use std::fs::File;

/// The files of the disk, opened as their names are written. Neither an opening nor a read that
/// failed is tried again.
#[derive(Drop)]
pub struct DiskFiles<'a, R> {
    rt: &'a R,
}

impl<'a, R> DiskFiles<'a, R> {
    /// Reads files by this runtime.
    pub fn new(rt: &'a R) -> DiskFiles<'a, R> {
        DiskFiles { rt }
    }
}

impl<R: std::rt::Files> Files for DiskFiles<'_, R> {
    fn read(&mut self, alloc: Global, name: &str, limit: usize) -> Result<Vec<u8>, FileFault> {
        let file = File::open(self.rt, name)?;
        read_text(alloc, &mut Watched::new(file), limit)
    }
}
