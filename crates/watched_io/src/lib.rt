//! Readers, writers and files; and how a run of the program ends.
//!
//! A reader or a writer is watched: beside it stands whether one of its calls failed, and how many
//! bytes its reads gave. Wrap it by `Watched::new`, and call `Watched::read` or `Watched::send`;
//! `read_text` reads all that a reader has left, up to a limit. `Files` is what a caller reads
//! files by, and `DiskFiles` reads those of the disk.
//!
//! A run ends with an exit status, a `Status`. `report` tells a fault by its line and `say` any
//! other line; `show_help`, `refuse` and `refuse_words` answer where the words of the command line
//! ask for nothing that is run. Each but `say` answers the status. A command writes to `Streams`,
//! and `Explain` says whether it explains a fault.
#![tactic(auto)]

mod disk;
mod explain;
mod fault;
mod files;
pub mod laws;
mod parts;
mod shown;
mod status;
mod streams;
mod text;
mod watched;
mod words;

pub use disk::DiskFiles;
pub use explain::Explain;
pub use fault::{FileFault, IoFault, ReadFailed, WriteFailed};
pub use files::Files;
pub use parts::{say, write_parts};
pub use shown::{refuse, show_help};
pub use status::{Status, report};
pub use streams::Streams;
pub use text::{CHUNK_MAX, read_text};
pub use watched::{BYTES_COUNTED_MAX, Watched};
pub use words::{own_words, refuse_words};
