//! A registration with the phaser that it is on, under any of the operations: for tasks of a graph
//! that go from thread to thread, each with its registrations.
//!
//! A `Member` is a registration with a reference to its phaser, so its calls name no phaser and
//! have no condition. It puts one value a phase, for one phase or for several in a row, and gets
//! those of the phases that are complete. A `Left` is what it has seen, once it has left.
//! `AnyMember` and `AnyLeft` are these under one of the five operations, `AnyPhaser` is such a
//! phaser, and `Places` have the sends of a block. In contracts a member is its phaser's place, its
//! number, its mode and the history that it has seen.
//!
//! ```text
//! let (phaser, founder) = AnyPhaser::make(alloc, Op::Sum, Spec::new(1, 100)?)?;
//! let mut member = phaser.member(founder);                    // as `Member::of` of one operation
//! let phase = member.try_put(4, None);                        // signals with one value
//! let got = member.try_get(&mut out);                         // values, or the end
//! let child = member.try_add(Mode::Sig);                      // on the same phaser
//! let left = member.leave(&rt);                               // what it has seen
//! ```
//!
//! Proved: what the clauses say, for any number of threads. Only tested: that a call succeeds where
//! it can. Not promised: that a `Busy` could not have been avoided, and that `add` and `leave`,
//! which wait for their turn, come back.
#![tactic(auto)]

mod any_left;
mod any_member;
mod any_phaser;
mod left;
mod member;
mod places;
mod refusal;

pub use any_left::AnyLeft;
pub use any_member::AnyMember;
pub use any_phaser::{AnyPhaser, AnyReg};
pub use left::Left;
pub use member::Member;
pub use places::Places;
pub use refusal::PutRefusal;
