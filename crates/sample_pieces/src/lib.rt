//! Samples whose text comes in pieces: as from a pipe, where nobody knows how much will come.
//!
//! The first call is `SampleReader::read`; `laws` says why the pieces may be cut anywhere.
#![tactic(auto)]

pub mod laws;
mod number;
mod plain;
mod reader;
mod step;

pub use reader::{Found, SampleReader, Taken};
