//! What a line declares, by its words.

use phase_base::Op;

/// What a line declares, by its words. Names, files and numbers stand as they are written.
#[derive(Clone, Copy)]
pub enum Line<'w, 'a> {
    /// A phaser.
    Phaser(PhaserWords<'a>),
    /// A task.
    Task(TaskWords<'w, 'a>),
}

/// The words of a phaser's line.
#[derive(Clone, Copy)]
pub struct PhaserWords<'a> {
    /// The name that it declares.
    pub name: &'a [u8],
    /// The operation on the sends of a phase.
    pub operation: Op,
    /// The bound, in phases.
    pub bound: &'a [u8],
    /// What is applied to the value of each phase.
    pub single: Option<Function<'a>>,
}

/// The function of a single.
#[derive(Clone, Copy)]
pub enum Function<'a> {
    /// Each value times -1.
    Neg,
    /// The magnitude.
    Abs,
    /// The half.
    Halve,
    /// The clamp, with its low end and its high end.
    Clamp(&'a [u8], &'a [u8]),
}

/// The words of a task's line.
#[derive(Clone, Copy)]
pub struct TaskWords<'w, 'a> {
    /// The name that it declares.
    pub name: &'a [u8],
    /// What the task does, with its phasers.
    pub body: Body<'w, 'a>,
    /// The optional ends.
    pub ends: Ends<'a>,
}

/// What a task does, with its phasers.
#[derive(Clone, Copy)]
pub enum Body<'w, 'a> {
    /// `FILE -> Y`: the file, and the output.
    Source(&'a [u8], &'a [u8]),
    /// `X -> Y of D shift S plus C taps T1 T2 .. again A1 A2 .. single FN`: the input, the output,
    /// and what the filter does.
    Fir(&'a [u8], &'a [u8], Filter<'w, 'a>),
    /// `X -> Y of N`, in a text of version 3: the input, the output and the number of steps.
    Delay(&'a [u8], &'a [u8], &'a [u8]),
    /// `X -> Y every N`, in a text of version 3: the input, the output, and of how many values one
    /// is put.
    Decimate(&'a [u8], &'a [u8], &'a [u8]),
    /// `X -> Y0 Y1 ..`: the input, and the outputs.
    Split(&'a [u8], &'w [&'a [u8]]),
    /// `X0 X1 .. -> Y`: the inputs, and the output.
    Join(&'w [&'a [u8]], &'a [u8]),
    /// `X <-> E -> Y mul A`: the input, the phaser of the exchange, the output and the factor.
    Peer(&'a [u8], &'a [u8], &'a [u8], &'a [u8]),
    /// `X`: the input.
    Sink(&'a [u8]),
}

/// What a filter does. In a text of version 1 or 2 it has a shift and taps alone.
#[derive(Clone, Copy)]
pub struct Filter<'w, 'a> {
    /// The number after `of`: how many samples before the newest one the first tap weighs.
    pub delay: Option<&'a [u8]>,
    /// The number after `shift`.
    pub shift: &'a [u8],
    /// The number after `plus`, which is added to each sum.
    pub plus: Option<&'a [u8]>,
    /// The numbers after `taps`, at least one.
    pub taps: &'w [&'a [u8]],
    /// The numbers after `again`, which weigh what the filter put; none where there is no such
    /// word.
    pub again: &'w [&'a [u8]],
    /// What is applied to each output.
    pub single: Option<Function<'a>>,
}

/// The optional ends of a task's line.
#[derive(Clone, Copy)]
pub struct Ends<'a> {
    /// `by P at N`, perhaps with `now`, where a task registers this one.
    pub by: Option<By<'a>>,
    /// The number after `until`.
    pub until: Option<&'a [u8]>,
    /// The number after `block=`, in a text of version 2 or 3.
    pub block: Option<&'a [u8]>,
}

/// Which task registers a child, and when.
#[derive(Clone, Copy)]
pub struct By<'a> {
    /// The name of the task that registers it.
    pub parent: &'a [u8],
    /// How many steps that task makes before.
    pub at: &'a [u8],
    /// Whether `now` stands behind it, in a text of version 2 or 3: the child joins at the first
    /// phase that is not complete then.
    pub now: bool,
}
