//! The program `phase` without its commands `run` and `stream`: it replays scripts of calls on a
//! phaser, from its input to its output, and checks, evaluates and draws graphs of filters over
//! phasers.
#![tactic(auto)]

use graph_commands::TellingFiles;
use phase_commands::{hold_closed_streams, point_to_check, run_cli};
use phase_replay::Watched;
use phase_words::explain_to_person;
use std::io::IsTerminal;
use std::process::ExitCode;
use watched_io::{Status, Streams, own_words, refuse_words};

fn main(rt: HostRuntime) -> ExitCode {
    hold_closed_streams(&rt);
    let mut faults = Watched::new(rt.stderr());
    let mut words = match own_words(&rt) {
        Ok(words) => words,
        Err(error) => return ExitCode::from(refuse_words(&error, &mut faults).code()),
    };
    let is_person = rt.stderr().is_terminal();
    if is_person {
        let _ = explain_to_person(rt.alloc(), &mut words);
    }
    let mut input = Watched::new(rt.stdin());
    let mut streams = Streams {
        output: Watched::new(rt.stdout()),
        faults,
        files: TellingFiles::new(&rt),
    };
    let status = run_cli(rt.alloc(), words.as_slice(), &mut input, &mut streams);
    if is_person && status == Status::Done {
        point_to_check(&rt, rt.alloc(), words.as_slice(), &mut streams.faults);
    }
    ExitCode::from(status.code())
}
