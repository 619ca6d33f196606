//! What a person is told of a stall: what each task that is left waits for.
ghost use Rattle.graph_commands.specs.Explained.{AreFurtherLines};

use crate::further::further_lines;
use graph_base::Place;
use itoa::Buffer;
use std::alloc::{AllocError, Global};
use stream_lists::{Job, NextCall, Stand};

/// The name of a task.
fn task_name(job: &Job, t: usize) -> &str {
    if t < job.graph().tasks() {
        job.graph().name(Place::Task(t))
    } else {
        ""
    }
}

/// The name of a phaser.
fn phaser_name(job: &Job, p: usize) -> &str {
    if p < job.graph().phasers() {
        job.graph().name(Place::Phaser(p))
    } else {
        ""
    }
}

/// The waiter on a phaser that has come least far.
fn slowest(stands: &[Stand], p: usize) -> Option<Stand> {
    let mut found: Option<Stand> = None;
    for stand in stands {
        let is_behind = match found {
            None => true,
            Some(other) => stand.entry.wait_phase < other.entry.wait_phase,
        };
        if stand.phaser == p && stand.entry.mode.waits() && is_behind {
            found = Some(*stand);
        }
    }
    found
}

/// Puts these texts behind a line.
fn put(line: &mut Vec<u8>, parts: &[&str]) -> Result<(), AllocError> {
    for part in parts {
        line.extend_from_slice(part.as_bytes())?;
    }
    Ok(())
}

/// Puts a number behind a line.
fn put_number(line: &mut Vec<u8>, number: u64) -> Result<(), AllocError> {
    let mut digits = Buffer::new();
    line.extend_from_slice(digits.format(number).as_bytes())
}

/// Why a task may not signal: how far the slowest waiter is behind.
fn unsignalled(
    alloc: Global,
    job: &Job,
    stands: &[Stand],
    at: Stand,
) -> Result<Vec<u8>, AllocError> {
    let mut line = Vec::new(alloc);
    put(&mut line, &[task_name(job, at.task), " may not signal "])?;
    if let Some(slow) = slowest(stands, at.phaser) {
        let first = at.entry.signal_phase;
        let behind = slow.entry.wait_phase;
        let bound = bound_of(job, at.phaser);
        let is_block = first.saturating_sub(behind) < bound;
        put(
            &mut line,
            &[if is_block {
                "a block from phase "
            } else {
                "phase "
            }],
        )?;
        put_number(&mut line, first)?;
        put(
            &mut line,
            &[" of ", phaser_name(job, at.phaser), ": bound "],
        )?;
        put_number(&mut line, bound)?;
        put(
            &mut line,
            &[", and ", task_name(job, slow.task), " stands at "],
        )?;
        put_number(&mut line, behind)?;
    }
    Ok(line)
}

/// The bound of a phaser.
fn bound_of(job: &Job, p: usize) -> u64 {
    if p < job.graph().phasers() {
        job.graph().phaser(p).bound
    } else {
        0
    }
}

/// What a task waits for: who has not signalled it.
fn waited(alloc: Global, job: &Job, stands: &[Stand], at: Stand) -> Result<Vec<u8>, AllocError> {
    let phase = at.entry.wait_phase;
    let mut line = Vec::new(alloc);
    put(&mut line, &[task_name(job, at.task), " waits for phase "])?;
    put_number(&mut line, phase)?;
    put(&mut line, &[" of ", phaser_name(job, at.phaser), ", which"])?;
    let mut late = 0usize;
    for stand in stands {
        let signals = stand.phaser == at.phaser && stand.entry.mode.signals();
        if signals && stand.entry.signal_phase <= phase {
            let before = if late == 0 { " " } else { " and " };
            put(&mut line, &[before, task_name(job, stand.task)])?;
            late = late.saturating_add(1);
        }
    }
    let have = if late > 1 { " have" } else { " has" };
    put(&mut line, &[have, " not signalled"])?;
    Ok(line)
}

/// How far the waiters of phaser `p` have come.
fn waiters(alloc: Global, job: &Job, stands: &[Stand], p: usize) -> Result<Vec<u8>, AllocError> {
    let mut line = Vec::new(alloc);
    put(&mut line, &[phaser_name(job, p), ":"])?;
    let mut is_first = true;
    for stand in stands {
        if stand.phaser == p && stand.entry.mode.waits() {
            let before = if is_first { " " } else { ", " };
            let name = task_name(job, stand.task);
            put(&mut line, &[before, name, " has come to phase "])?;
            put_number(&mut line, stand.entry.wait_phase)?;
            is_first = false;
        }
    }
    Ok(line)
}

/// A line for each task that is left, and one for each phaser on which one may not signal.
fn stall_lines(alloc: Global, job: &Job, stands: &[Stand]) -> Result<Vec<Vec<u8>>, AllocError> {
    let mut lines = Vec::new(alloc);
    let mut full = Vec::new(alloc);
    for stand in stands {
        match stand.next {
            Some(NextCall::Signal) => {
                lines.push(unsignalled(alloc, job, stands, *stand)?)?;
                full.push(stand.phaser)?;
            }
            Some(NextCall::Wait) => lines.push(waited(alloc, job, stands, *stand)?)?,
            None => {}
        }
    }
    push_waiters(alloc, job, stands, &full, &mut lines)?;
    Ok(lines)
}

/// A line for each of these phasers.
fn push_waiters(
    alloc: Global,
    job: &Job,
    stands: &[Stand],
    phasers: &[usize],
    lines: &mut Vec<Vec<u8>>,
) -> Result<(), AllocError> {
    for k in 0..phasers.len() {
        if !phasers[..k].contains(&phasers[k]) {
            lines.push(waiters(alloc, job, stands, phasers[k])?)?;
        }
    }
    Ok(())
}

/// Says what each task that is left waits for, where the tasks of a job stood so at a stall, and
/// how far the waiters are of each phaser that a task may not signal. It takes memory for the
/// lines, and is nothing where memory runs out.
pub fn stall_told(alloc: Global, job: &Job, stands: &[Stand]) -> Vec<u8>
    ensures { AreFurtherLines result.items }
{
    further_lines(alloc, stall_lines(alloc, job, stands))
}
