//! Whether a fault is explained to a person.

/// Whether a fault is explained, behind its line.
#[derive(Clone, Copy, Debug, PartialEq, Eq)]
pub enum Explain {
    /// The fault's line stands alone.
    No,
    /// Lines for a person stand behind it.
    Yes,
}
