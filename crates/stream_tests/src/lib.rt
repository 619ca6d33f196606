//! Tests of filters, of samples, of the tasks and lists of graphs, and of what reads and writes, by
//! public calls: of `watched_io`, `stream_filters`, `graph_lang` and `stream_job`. They stand in a
//! crate of their own, since a crate is proved anew with its tests.
#![tactic(auto)]

#[cfg(test)]
mod files;
#[cfg(test)]
mod filters;
#[cfg(test)]
mod jobs;
#[cfg(test)]
mod lists;
#[cfg(test)]
mod recursive;
#[cfg(test)]
mod registrations;
#[cfg(test)]
mod samples;
#[cfg(test)]
mod streams;
