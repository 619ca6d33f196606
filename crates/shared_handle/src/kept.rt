//! What lies on the heap behind a handle.
use crate::any_asked::AnyAsked;
use crate::any_member::AnyMember;

/// What a handle has.
#[derive(Drop)]
pub enum Held {
    /// Nothing, while the block waits for a child or its registration leaves.
    Nothing,
    /// A registration at rest.
    Rests(AnyMember),
    /// One that asks for its next phase.
    Asks(AnyAsked),
}

/// The block on the heap.
#[derive(Drop)]
pub struct Kept {
    pub held: Held,
}
