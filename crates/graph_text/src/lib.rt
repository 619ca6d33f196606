//! The lines of a graph's text, by their words: what each declares in a text of its version, and
//! which words are numbers. The first calls are `lines_of`, `words_of`, `heading_of` and `line_at`.
//! What one needs of `phase_base` is handed on.
#![tactic(auto)]

pub mod laws;
mod line;
mod number;
mod read;
mod text;
mod version;

pub use line::{Body, By, Ends, Filter, Function, Line, PhaserWords, TaskWords};
pub use number::{int_within, nat_within};
pub use phase_base::{FILE_MAX, NAME_MAX, Op, file_text, name_text, without_cr};
pub use read::line_at;
pub use text::{are_printable, begins_comment, lines_of, words_of};
pub use version::{Version, heading_of, is_third_word};
