//! The founder of a phaser, which registers the tasks that begin there and leaves.
ghost use Rattle.std.specs.Prelude.{◌≡◌, [], IfOk};
ghost use Rattle.stream_members.specs.AnyPhasers.{IsFounderOf, phaser_op, phaser_spot};
ghost use Rattle.stream_tasks.specs.Founders.{IsRoot, IsLeftOfFounder};

use phase_base::Mode;
use phase_core::RegisterRefusal;
use std::marker::Model;
use std::sync::Wait;
use stream_members::{AnyLeft, AnyMember, AnyPhaser, AnyReg};

/// The founder of a phaser, with the numbers that it gave to tasks.
///
/// **End.** It cannot be thrown away. `leave` ends it.
pub struct Founder<'a> {
    member: AnyMember<'a>,
    gave: Vec<u64>,
}

impl<'a> Model for Founder<'a> {
    ghost use Rattle.stream_members.specs.AnyMembers.{member_in};
    ghost use Rattle.stream_tasks.specs.Founders.{FounderState, founder_state, IsFounder};

    ghost Value = { FounderState };

    ghost view = { λ f. founder_state f.member f.gave.items };

    ghost invariant = { λ f. IsFounder (member_in f.member) f.gave.items };
}

/// What a founder that left has seen, and the numbers that it gave. It may be thrown away.
#[derive(Drop)]
pub struct FounderLeft<'a> {
    /// What it has seen.
    pub left: AnyLeft<'a>,
    /// The numbers that it gave, in the order of the registrations.
    pub gave: Vec<u64>,
}

impl<'a> Founder<'a> {
    /// Makes one of the registration of a phaser's founder, and an empty list.
    pub fn of(phaser: &'a AnyPhaser, reg: AnyReg, gave: Vec<u64>) -> Founder<'a>
        requires founder { IsFounderOf phaser.now reg }
        requires none { gave.items ≡ [] }
        ensures op { result.op ≡ phaser_op phaser.now }
        ensures at { result.at ≡ phaser_spot phaser.now }
    {
        Founder {
            member: phaser.member(reg),
            gave,
        }
    }

    /// Registers a task in a mode. It takes memory, and waits for its turn.
    pub fn register<W: Wait>(
        &mut self,
        rt: &W,
        mode: Mode,
    ) -> Result<AnyMember<'a>, RegisterRefusal>
        ensures root { IfOk result (IsRoot mode self.new) }
        ensures same { (self.new.op ≡ self.old.op) × (self.new.at ≡ self.old.at) }
    {
        if self.gave.reserve(1).is_err() {
            return Err(RegisterRefusal::OutOfMemory);
        }
        let child = self.member.add(rt, mode)?;
        child.look();
        self.gave.push_reserved(child.number());
        Ok(child)
    }

    /// Leaves the phaser. It waits for its turn.
    pub fn leave<W: Wait>(self, rt: &W) -> FounderLeft<'a>
        ensures left { IsLeftOfFounder self.entry result.left }
        ensures gave { result.gave.items ≡ self.entry.gave }
    {
        let Founder { member, gave } = self;
        FounderLeft {
            left: member.leave(rt),
            gave,
        }
    }
}
