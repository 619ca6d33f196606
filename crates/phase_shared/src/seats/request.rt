//! What a task asks others for.
ghost use Rattle.std.specs.Prelude.{◌<◌, ◌+◌, ◌^◌};

/// A task's next phase, which it signals and waits for, with the word for what it sends in it; and
/// the lane to ask in, where that is its own.
#[derive(Clone, Copy)]
pub struct Request {
    pub task: u64,
    pub lane: u64,
    pub phase: u64,
    pub send: u64,
    ghost low: { lane < 16 },
    ghost known: { task + 1 < 2 ^ 64 },
    ghost small: { phase + 1 < 2 ^ 64 },
}
