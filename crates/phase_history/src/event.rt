//! What happens on a phaser. The code keeps no events: contracts speak of lists of them.
use phase_accum::Single;
use phase_base::Mode;
use std::collections::LinkedList;

/// What one call did on a phaser. A refused call makes no event, nor does a wait that is answered
/// `Ended`.
#[derive(Drop)]
pub enum Event {
    /// The task made the phaser.
    Made {
        task: u64,
    },
    /// The parent registered the child in the mode, at the parent's own phases.
    Registered {
        parent: u64,
        child: u64,
        mode: Mode,
    },
    /// The parent registered the child as a waiter from the first phase that was not complete.
    RegisteredNow {
        parent: u64,
        child: u64,
    },
    /// The task signalled as many phases as there are lists of sends, and named a single or none.
    Signalled {
        task: u64,
        lists: LinkedList<LinkedList<i64>>,
        single: Option<Single>,
    },
    /// The task waited for this many phases, and got their values.
    Waited {
        task: u64,
        phases: u64,
    },
    /// The task dropped its registration.
    Dropped {
        task: u64,
    },
}
