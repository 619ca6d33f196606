//! Runs of a graph that were worked out by hand, event by event, from the opening to the end, and
//! each law of runs used once at them. There is no code that runs: the definitions compute.
#![tactic(auto)]

mod worked_blocks;
mod worked_decimator;
mod worked_events;
mod worked_faults;
mod worked_feeds;
mod worked_parts;
mod worked_run;
mod worked_stops;
mod worked_turns;
