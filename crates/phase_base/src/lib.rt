//! What every layer speaks of: the modes in which a task is registered, the entry of a registered
//! task, the limits that a phaser is made with, the operations on the sends of a phase, and the
//! words by which texts name them. The first calls are `Spec::new` and `Op::read`; of the words of
//! a graph's text `is_name` and `is_file`; of any text's numbers `nat` and `int`.
#![tactic(auto)]

mod entry;
pub mod laws;
mod limits;
mod line;
mod member;
mod mode;
mod number;
mod operation;
mod spec;
mod word;
pub mod words_laws;

pub use entry::Entry;
pub use limits::{BOUND_MAX, MEMBERS_MAX, PHASES_MAX, SENDS_MAX};
pub use line::without_cr;
pub use member::Member;
pub use mode::Mode;
pub use number::{int, is_int, is_nat, nat};
pub use operation::Op;
pub use spec::{Spec, SpecFault};
pub use word::{
    FILE_MAX, NAME_MAX, file_text, is_digit, is_file, is_kind_word, is_mark, is_name, name_text,
};
