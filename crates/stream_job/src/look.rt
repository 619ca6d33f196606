//! What a look at the tasks of a run that is fed tells.

use graph_lang::Place;

/// What a look at the tasks of a run that is fed tells.
#[derive(Clone, Copy)]
pub enum Look {
    /// Some task moved.
    Moved,
    /// No task can move but those that stand before a value out of range.
    Still {
        /// Where the first of these stands.
        before: Option<(Place, u64)>,
    },
}
