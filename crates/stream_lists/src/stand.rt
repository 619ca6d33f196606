//! Where a task stands on a phaser.
ghost use Rattle.std.specs.Prelude.{◌≡◌};
ghost use Rattle.stream_lists.specs.Stands.{call_on};

use phase_base::Entry;

/// Where a task stands on a phaser, as it is told of a run that stalled.
#[derive(Clone, Copy, Debug, PartialEq, Eq)]
pub struct Stand {
    /// The number of the task.
    pub task: usize,
    /// The number of the phaser.
    pub phaser: usize,
    /// The task's mode and phases there.
    pub entry: Entry,
    /// What the task does next, where it does it on this phaser.
    pub next: Option<NextCall>,
}

/// A call of a task on a phaser.
#[derive(Clone, Copy, Debug, PartialEq, Eq)]
pub enum NextCall {
    /// It signals its signal phase.
    Signal,
    /// It waits for its wait phase.
    Wait,
}

/// The end of a task at which it makes its next call.
#[derive(Clone, Copy, Debug, PartialEq, Eq)]
pub enum End {
    /// It waits on this input.
    Input(usize),
    /// It signals on this output.
    Output(usize),
    /// It leaves, registers a child, or makes no call.
    Nowhere,
}

impl End {
    /// The call that is made at this end, where it is on a registration of this input and this
    /// output.
    pub fn call_on(self, input: Option<usize>, output: Option<usize>) -> Option<NextCall>
        ensures { result ≡ call_on self input output }
    {
        match self {
            End::Input(k) if input == Some(k) => Some(NextCall::Wait),
            End::Output(j) if output == Some(j) => Some(NextCall::Signal),
            _ => None,
        }
    }
}
