//! A graph and its faults, for people: its drawing, and what explains a fault of its text.
//!
//! The drawing is text for Graphviz: phasers as ellipses with their operation, bound and single,
//! tasks as boxes with their kind and what their line says of file, of a filter's numbers, factor,
//! `until`, `now` and block, an arrow for each wait and each signal, and parents dashed to their
//! children. `write_drawing` writes it; `drawing_text` gives it as bytes.
//!
//! A fault is explained by its line, with the word that is at fault marked, by what was expected in
//! its place, and where the line is not in the grammar by the form of such a line: by
//! `explanation`.
//!
//! Proved: how the lines of an explanation are laid out, that the marked place is one of the faulty
//! line, and the form. Only tested: which word is marked, and what is said to be expected.
#![tactic(auto)]

mod above;
mod arrows;
mod below;
mod drawing;
mod explain_parts;
mod explained;
mod forms;
mod grammar;
mod limits;
mod mark;
mod meeting_place;
mod names;
mod nodes;
mod notes;
mod parts;
mod version;
mod wanted;

pub use drawing::{drawing_text, write_drawing};
pub use explained::explanation;
pub use meeting_place::MeetingPlace;
