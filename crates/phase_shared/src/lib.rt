//! A phaser between threads: a stream of phases that threads complete together, in which what they
//! send in a phase becomes one value for all that wait.
//!
//! ```text
//! thread 1 (Sig)           thread 2 (Sig)           thread 3 (Wait)
//!
//! send 4, signal: 0                                 wait ..
//! send 5, signal: 1        send 3, signal: 0        .. gets phase 0: 7
//! leave                    leave                    gets phase 1: 5, and then: ended
//! ```
//!
//! A **registration**, `Reg`, is what a thread acts by: it has a mode, two phases and the sends
//! that it holds. The first one comes with the phaser, by `Phaser::make`, and each registers
//! others. **Sends** become a value by an operation of `phase_accum`, as `Sum`. A **past** is what
//! a registration that left has seen.
//!
//! **What a call tells.** Each registration has seen a history: a list of the events on its phaser.
//! Each call makes it longer, by what the others did up to the moment of the call and then by the
//! call's own event, and its answer is the one that the definitions give at that point. So all
//! answers on a phaser belong to one legal history, of which each registration has seen a
//! beginning, and the laws of `phase_core` hold of it. `Reg::meet` gives two registrations one
//! history, and `Past::join` the pasts of any threads.
//!
//! **Waiting.** The calls that begin with `try_` answer at once. The others spin briefly, then
//! yield, and then sleep for some milliseconds at a time, until the phase that they wait for is
//! complete or there is room for theirs. A signal that is ahead spins and yields for room for half
//! the bound, and sleeps for its own.
//!
//! **Who is missing.** `Reg::standing` counts who is registered and who has signalled the first
//! phase that is not complete, and `Reg::missing` also names those that have not. They make no
//! event.
//!
//! **When a task fails** the others would wait for it for ever, so it closes the phaser
//! (`Phaser::close`). The calls whose name ends in `_or_closed` wait as those without do, but no
//! longer than until then: each gets what is complete, and is answered `Closed` in place of
//! waiting. Such an answer makes no event, and every other call goes on as before.
//!
//! **Asking.** A registration that has a lane, whose `next` names no single, and that holds one
//! send or none, may ask others to do both: it writes what it sends in its **lane**, two words
//! beside the lock. Who has the turn makes the signals that others ask for; and where that
//! completes its phase, their waits too, writes the value on the **board**, and gives the turn
//! back, which tells them all. Who is not answered soon takes the turn itself. No answer tells who
//! made its events. There are 16 lanes. A registration that signals and waits gets a free one when
//! it is made, and gives it back when it leaves; the founder gets its own when it first registers
//! another. `Reg::ask` makes a registration an `Asked`, for a caller who waits in a way of its own.
//!
//! **A registration in a thread.** No closure can hold one, as it cannot be thrown away. Lend it to
//! the thread, or lend an `Option` that the thread takes it from. Each call asks that the
//! registration is on the phaser that it names, so a function that is passed both has a `requires`
//! with `phaser_lock`, and so has a closure. A whole program, whose founder and its child each
//! send a value in a thread of its own, and leave:
//!
//! ```text
//! ghost use Rattle.std.specs.Prelude.{◌≡◌, None, IfSome};
//! ghost use Rattle.phase_shared.specs.Regs.{phaser_lock};
//!
//! use phase_accum::Sum;
//! use phase_base::{Mode, Spec};
//! use phase_shared::{NoRule, Phaser, Reg};
//! use std::io;
//! use std::sync::Wait;
//! use std::thread::{Threads, join_mut};
//!
//! // Sends a value, signals and waits, and leaves.
//! fn take_part<R: Wait>(
//!     rt: &R,
//!     phaser: &Phaser<Sum, NoRule>,
//!     slot: &mut Option<Reg<Sum, NoRule>>,
//!     value: i64,
//! )
//!     requires { IfSome slot.old (λ reg. reg.at ≡ phaser_lock phaser.now) }
//!     ensures { slot.new ≡ None }
//! {
//!     let Some(mut reg) = slot.take() else { return };
//!     let _held = reg.send(value);
//!     let _next = reg.next(rt, phaser, None);
//!     let _past = reg.leave(rt, phaser);
//! }
//!
//! // Lends a registration to each of two threads.
//! fn run<R: Threads + Wait + Sync>(
//!     rt: &R,
//!     phaser: &Phaser<Sum, NoRule>,
//!     mut one: Option<Reg<Sum, NoRule>>,
//!     mut other: Option<Reg<Sum, NoRule>>,
//! )
//!     requires one { IfSome one (λ reg. reg.at ≡ phaser_lock phaser.now) }
//!     requires other { IfSome other (λ reg. reg.at ≡ phaser_lock phaser.now) }
//! {
//!     let _both = join_mut(
//!         rt,
//!         &mut ||
//!             requires { IfSome one (λ reg. reg.at ≡ phaser_lock phaser.now) }
//!             ensures { one.exit ≡ None }
//!         { take_part(rt, phaser, &mut one, 4) },
//!         &mut ||
//!             requires { IfSome other (λ reg. reg.at ≡ phaser_lock phaser.now) }
//!             ensures { other.exit ≡ None }
//!         { take_part(rt, phaser, &mut other, 3) },
//!     );
//!     let None = one else { unreachable!() };
//!     let None = other else { unreachable!() };
//! }
//!
//! fn main(rt: HostRuntime) -> io::Result<()> {
//!     let Ok(limits) = Spec::new(2, 1000) else { return Ok(()) };
//!     let made = Phaser::<Sum, NoRule>::make(rt.alloc(), limits, NoRule);
//!     let Ok((phaser, mut founder)) = made else { return Ok(()) };
//!     let child = founder.register(&rt, &phaser, Mode::SigWait).ok();
//!     run(&rt, &phaser, Some(founder), child);
//!     println!(rt; "both left")
//! }
//! ```
//!
//! **What a thread got** is said by the laws in `laws`, of each call's record. `phase_received` has
//! registrations with the list of what they got, and pasts with such lists.
//!
//! Proved: what the clauses say, for any number of threads. Only tested: that a call succeeds where
//! it can, and that a waiting call comes back. Not promised: that a phase is ever complete, that a
//! `Busy` could not have been avoided, when the turn of the lock is free, when a pause ends, and
//! any order of the events of threads that never told each other anything.
//!
//! **Inside** is a phaser under a lock, `LockedPhaser`. A **seat** of the lock speaks for a
//! registration. Its view, which stands in proofs alone, is the history that it has seen, and the
//! numbers that it speaks for. The **rule** of the lock is that there is one legal history that the
//! phaser stands for, of which each seat has seen a beginning that holds all events of its numbers.
//! A **step** takes the turn, calls the phaser of one thread, and gives the turn back; or it finds
//! the turn taken, and then nothing changed. The rule also says of each lane that its registration
//! may signal with what stands there, so a turn that read it may; and of the board that it has the
//! value of the phase that was told, until each whose events were made so has read it. A word says
//! whose a lane is: who asks reads it first, and who has the turn alone gives a free one away.
//!
//! A call of `next` goes from `nexts` to `turns`, to `serving` and to `lanes`, and its answers come
//! back as results. Its seat and its turns are the types of `desk`: each has its phaser with it,
//! and says how far the call is.
#![tactic(auto)]

mod asked;
mod blocks;
mod closing;
mod closing_blocks;
mod closing_next;
mod held;
mod lane_words;
pub mod laws;
mod loose;
mod next;
pub mod one_send;
mod past;
mod patience;
mod phaser;
mod putting;
mod refusal;
mod reg;
mod rule;
mod seats;
mod standing;
mod stopped;
mod tried;
mod trying;
mod until;
mod waiting;
mod waiting_blocks;

pub use asked::Asked;
pub use loose::{Loose, LooseAsked};
pub use next::Next;
pub use past::Past;
pub use phase_core::Standing;
pub use phaser::Phaser;
pub use refusal::SendRefusal;
pub use reg::Reg;
pub use rule::{NoRule, SignalRule, Terms, Unwoken};
pub use stopped::Stopped;
pub use tried::Tried;
