//! What each task of a run did: its steps, where it waited, and its share of the workers' time.
ghost use Rattle.std.specs.Prelude.{◌<◌, length};
ghost use Rattle.graph_commands.specs.Explained.{AreFurtherLines};

use graph_commands::further_lines;
use graph_lang::Place;
use itoa::Buffer;
use std::alloc::{AllocError, Global};
use std::sync::atomic::AtomicU64;
use std::sync::atomic::Ordering::Relaxed;
use std::time::{Clock, Instant};
use stream_lists::{Job, input_number};
use stream_workers::{Gate, Watch, Went};

/// What one task did so far.
#[derive(Drop)]
struct Did {
    turns: AtomicU64,
    // nanoseconds in its turns
    spent: AtomicU64,
    // how often it was refused on each phaser, by the phasers' numbers
    waits: Vec<AtomicU64>,
}

impl Did {
    fn new(alloc: Global, phasers: usize) -> Result<Did, AllocError> {
        let mut waits = Vec::with_capacity(alloc, phasers)?;
        for _ in 0..phasers {
            waits.push(AtomicU64::new(0))?;
        }
        Ok(Did {
            turns: AtomicU64::new(0),
            spent: AtomicU64::new(0),
            waits,
        })
    }

    /// How often it was refused on a phaser.
    fn waits_on(&self, phaser: usize) -> u64 {
        match self.waits.get(phaser) {
            Some(waits) => waits.load(Relaxed),
            None => 0,
        }
    }

    /// Notes a turn that went so, and how long it took.
    fn note(&self, went: Went, nanoseconds: u64) {
        self.turns.fetch_add(1, Relaxed);
        self.spent.fetch_add(nanoseconds, Relaxed);
        if let Went::Blocked(phaser) = went {
            if let Some(waits) = self.waits.get(phaser) {
                waits.fetch_add(1, Relaxed);
            }
        }
    }
}

/// A gate that counts what each task of a job does, by a clock, where that is asked for.
#[derive(Drop)]
pub(crate) struct Counts<'a, C> {
    clock: &'a C,
    began: Option<Instant>,
    tasks: Vec<Did>,
}

/// The nanoseconds from a reading of a clock on; 0 where there is none.
fn since<C: Clock>(clock: &C, reading: Option<Instant>) -> u64 {
    let Some(reading) = reading else {
        return 0;
    };
    match reading.elapsed(clock) {
        Ok(time) => time.as_nanos().min(u64::MAX as u128) as u64,
        Err(_) => 0,
    }
}

impl<'a, C: Clock> Counts<'a, C> {
    /// Makes one for a run that begins now. It takes memory for the counts, where they are asked
    /// for.
    pub fn new(
        clock: &'a C,
        alloc: Global,
        job: &Job,
        is_asked: bool,
    ) -> Result<Counts<'a, C>, AllocError> {
        let mut tasks = Vec::new(alloc);
        if is_asked {
            for _ in 0..job.graph().tasks() {
                tasks.push(Did::new(alloc, job.graph().phasers())?)?;
            }
        }
        Ok(Counts {
            clock,
            began: Instant::now(clock).ok(),
            tasks,
        })
    }

    /// Returns this, where counts are asked for.
    pub fn asked(&self) -> Option<&Counts<'a, C>> {
        if self.tasks.is_empty() {
            None
        } else {
            Some(self)
        }
    }

    /// Returns a line for each task of a run that has ended, by so many workers; nothing where they
    /// were not counted, or memory runs out.
    pub fn lines(&self, alloc: Global, job: &Job, workers: usize) -> Vec<u8>
        ensures { AreFurtherLines result.items }
    {
        let time = since(self.clock, self.began).saturating_mul(workers as u64);
        further_lines(alloc, self.texts(alloc, job, time))
    }

    // The text of each line, where the workers had so much time.
    fn texts(&self, alloc: Global, job: &Job, time: u64) -> Result<Vec<Vec<u8>>, AllocError> {
        let mut texts = Vec::with_capacity(alloc, self.tasks.len())?;
        for t in 0..self.tasks.len() {
            if t < job.graph().tasks() {
                texts.push(task_text(alloc, job, t, &self.tasks[t], time)?)?;
            }
        }
        Ok(texts)
    }
}

impl<'a, C: Clock> Gate for Counts<'a, C> {
    fn at(&self, _task: usize, _step: u64) {}

    fn is_open(&self) -> bool {
        true
    }
}

impl<'a, C: Clock> Watch for Counts<'a, C> {
    fn begins(&self) -> Option<Instant> {
        Instant::now(self.clock).ok()
    }

    fn ends(&self, task: usize, began: Option<Instant>, went: Went) {
        if let Some(did) = self.tasks.get(task) {
            did.note(went, since(self.clock, began));
        }
    }
}

/// Puts a number behind a text.
fn put_number(text: &mut Vec<u8>, number: u128) -> Result<(), AllocError> {
    let mut digits = Buffer::new();
    text.extend_from_slice(digits.format(number).as_bytes())
}

/// What a task did: `fir: 20 steps, 11 turns, 2 waits for x, 1 for room on y, 31.4 % of the time`.
fn task_text(
    alloc: Global,
    job: &Job,
    t: usize,
    did: &Did,
    time: u64,
) -> Result<Vec<u8>, AllocError>
    requires { t < length job.now.graph.tasks }
{
    let mut text = Vec::from_slice(alloc, job.graph().name(Place::Task(t)).as_bytes())?;
    text.extend_from_slice(b": ")?;
    put_number(&mut text, job.span(t).steps)?;
    text.extend_from_slice(b" steps, ")?;
    put_number(&mut text, did.turns.load(Relaxed) as u128)?;
    text.extend_from_slice(b" turns")?;
    put_waits(&mut text, job, t, did)?;
    put_share(&mut text, did.spent.load(Relaxed), time)?;
    Ok(text)
}

/// Puts how often a task waited, and on which phasers of its line, behind a text.
fn put_waits(text: &mut Vec<u8>, job: &Job, t: usize, did: &Did) -> Result<(), AllocError> {
    let mut is_first = true;
    for p in 0..did.waits.len() {
        let waits = did.waits_on(p);
        if waits > 0 {
            text.extend_from_slice(if is_first { b", waits: " } else { b", " })?;
            put_number(text, waits as u128)?;
            text.extend_from_slice(if takes(job, t, p) {
                b" for "
            } else {
                b" for room on "
            })?;
            text.extend_from_slice(phaser_name(job, p).as_bytes())?;
            is_first = false;
        }
    }
    Ok(())
}

/// Whether a task takes from a phaser.
fn takes(job: &Job, t: usize, p: usize) -> bool {
    t < job.graph().tasks() && input_number(job.graph().task(t), p).is_some()
}

/// The name of a phaser.
fn phaser_name(job: &Job, p: usize) -> &str {
    if p < job.graph().phasers() {
        job.graph().name(Place::Phaser(p))
    } else {
        ""
    }
}

/// Puts a share of the workers' time behind a text, in tenths of a hundredth; nothing where no
/// clock told it.
fn put_share(text: &mut Vec<u8>, spent: u64, time: u64) -> Result<(), AllocError> {
    if time == 0 {
        return Ok(());
    }
    let tenths = spent as u128 * 1000 / time as u128;
    text.extend_from_slice(b", ")?;
    put_number(text, tenths / 10)?;
    text.extend_from_slice(b".")?;
    put_number(text, tenths % 10)?;
    text.extend_from_slice(b" % of the time")
}
