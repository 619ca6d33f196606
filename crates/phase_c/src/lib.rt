//! Graphs and filters for C, and for whatever calls C: an export for each call of `phase.h` that
//! stands on no phaser of a caller's.
//!
//! No export requires anything of its caller, so each looks at all that it is lent. The numbers of
//! statuses stand in `specs/Told.antt`, those of kinds of fault and of places in `graph_numbers`.
#![tactic(auto)]

mod counts;
mod evaluate;
mod exports;
mod filter;
mod formed;
mod in_place;
mod names;
mod refusal;
mod samples;
mod sinks;
mod told;
mod written;
