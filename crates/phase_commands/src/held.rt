//! The standard streams that a process was begun without.

use std::fs::File;
use std::os::fd::{AsRawFd, IntoRawFd};

/// The greatest number of a standard stream.
const STREAM_MAX: i32 = 2;

/// Lays the root folder, which no read and no write accepts, in the place of each standard stream
/// that is closed, until the process ends. Else the next file that is opened gets the number of the
/// stream, and who reads the input reads that file.
///
/// It is called before any file is opened, and takes no memory.
pub fn hold_closed_streams<R: std::rt::Files>(rt: &R)
where
    R::File: AsRawFd + IntoRawFd,
{
    for _ in 0..=STREAM_MAX {
        match File::open(rt, "/") {
            Ok(folder) if folder.as_raw_fd() <= STREAM_MAX => {
                let _held = folder.into_raw_fd();
            }
            _ => return,
        }
    }
}
