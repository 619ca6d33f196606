//! The program `phase`, with all its commands: it replays scripts of calls on a phaser, checks,
//! evaluates and draws graphs of filters over phasers, runs them on threads, and streams them.
//!
//! `run_cli` goes by the first word to the command `run`, to `stream`, or to the others.
#![tactic(auto)]

mod cli;
mod laws;
mod run;
mod way;

use cli::run_cli;
use phase_commands::{hold_closed_streams, point_to_check};
use phase_replay::Watched;
use phase_stream::StreamFiles;
use phase_words::explain_to_person;
use std::io::IsTerminal;
use std::process::ExitCode;
use watched_io::{Status, Streams, own_words, refuse_words};
use way::is_bare;

/// What a person at a terminal is told where the input is replayed.
const READS: &[u8] = b"phase: reads a script from here, a call a line, until Control-D; \
phase --help shows one\n";

fn main(rt: HostRuntime) -> ExitCode {
    hold_closed_streams(&rt);
    let mut faults = Watched::new(rt.stderr());
    let mut words = match own_words(&rt) {
        Ok(words) => words,
        Err(error) => return ExitCode::from(refuse_words(&error, &mut faults).code()),
    };
    let is_person = rt.stderr().is_terminal();
    if is_person {
        let _ = explain_to_person(rt.alloc(), &mut words);
        if is_bare(words.as_slice()) && rt.stdin().is_terminal() {
            let _ = faults.send(READS);
        }
    }
    let mut input = Watched::new(rt.stdin());
    let mut streams = Streams {
        output: Watched::new(rt.stdout()),
        faults,
        files: StreamFiles::new(&rt, rt.stdin()),
    };
    let mut made = Vec::new(rt.alloc());
    let status = run_cli(
        &rt,
        rt.alloc(),
        words.as_slice(),
        &mut input,
        &mut streams,
        &mut made,
    );
    if is_person && status == Status::Done {
        point_to_check(&rt, rt.alloc(), words.as_slice(), &mut streams.faults);
    }
    ExitCode::from(status.code())
}
