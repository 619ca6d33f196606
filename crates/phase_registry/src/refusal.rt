//! Why a task was not added.
use thiserror::Error;

/// Why a task was not added. The variants stand in the order in which they are checked.
#[derive(Clone, Copy, Debug, PartialEq, Eq, Hash, Error)]
pub enum AddRefusal {
    /// The number is not above every number that was ever added.
    #[error("the task number was used, or a greater one")]
    NotNew,
    /// `MEMBERS_MAX` tasks are registered.
    #[error("as many tasks are registered as may be")]
    TooManyTasks,
    /// A growth was refused.
    #[error("no memory is left for one more task")]
    OutOfMemory,
}
