//! The program behind `phase replay`: it replays a script of calls on a phaser, from its input to
//! its output. It reads no words.
#![tactic(auto)]

use phase_replay::{Watched, replay_and_report};
use std::process::ExitCode;

fn main(rt: HostRuntime) -> ExitCode {
    let status = replay_and_report(
        rt.alloc(),
        &mut Watched::new(rt.stdin()),
        &mut Watched::new(rt.stdout()),
        &mut Watched::new(rt.stderr()),
    );
    ExitCode::from(status.code())
}
