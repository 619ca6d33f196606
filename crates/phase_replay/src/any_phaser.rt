//! A session's phaser, under any of the operations.
ghost use Rattle.std.specs.Prelude.{◌≡◌, [], ◌∷◌, IfOk, OnOk, OnErr};
ghost use Rattle.phase_base.specs.Limits.{Limits};
ghost use Rattle.phase_accum.specs.Values.{value_by};
ghost use Rattle.phase_history.specs.Histories.{History};
ghost use Rattle.phase_script.specs.Commands.{whole_command, IsCommand};
ghost use Rattle.phase_script.specs.ReplyLines.{whole_reply};
ghost use Rattle.phase_replay.specs.Scripts.{Held, IsOkReply, MayWantMemory, phaser_reply, history_after, held_after};

use crate::script_phaser::ScriptPhaser;
use phase_accum::{Any, Greatest, Least, Product, Sum};
use phase_base::Spec;
use phase_script::{Command, Op, Outcomes, Reply, Values};
use std::alloc::{AllocError, Global};

/// A phaser that a script made, by its operation.
pub enum AnyPhaser {
    Sum(ScriptPhaser<Sum>),
    Product(ScriptPhaser<Product>),
    Least(ScriptPhaser<Least>),
    Greatest(ScriptPhaser<Greatest>),
    Any(ScriptPhaser<Any>),
}

#[tactic(auto, unfolding(crate::specs::Session::AnyStandsFor))]
impl AnyPhaser {
    ghost use Rattle.phase_history.specs.declared.event.Event.TheVariants.{Made};
    ghost use Rattle.phase_replay.specs.Session.{AnyStandsFor};

    /// Makes a phaser whose founder, task 0, holds no sends.
    pub fn new(alloc: Global, operation: Op, spec: Spec) -> Result<AnyPhaser, AllocError>
        ensures { IfOk result (λ phaser. AnyStandsFor phaser operation spec (Made 0 ∷ []) []) }
    {
        match operation {
            Op::Sum => Ok(AnyPhaser::Sum(ScriptPhaser::new(alloc, spec)?)),
            Op::Product => Ok(AnyPhaser::Product(ScriptPhaser::new(alloc, spec)?)),
            Op::Least => Ok(AnyPhaser::Least(ScriptPhaser::new(alloc, spec)?)),
            Op::Greatest => Ok(AnyPhaser::Greatest(ScriptPhaser::new(alloc, spec)?)),
            Op::Any => Ok(AnyPhaser::Any(ScriptPhaser::new(alloc, spec)?)),
        }
    }

    /// The reply to a command with these values. What a block of phases gave comes into `outcomes`.
    pub fn obey(
        &mut self,
        command: Command,
        values: &Values,
        outcomes: &mut Outcomes,
    ) -> Result<Reply, AllocError>
        requires { IsCommand (whole_command values.now command) }
        ensures reply { IfOk result (λ reply. (operation : Op) (limits : Limits)
            (h : History) (held : Held) → AnyStandsFor self.old operation limits h held
            → whole_reply outcomes.new reply ≡ phaser_reply (value_by operation) limits h held
            (whole_command values.now command)) }
        ensures after { OnOk result ((operation : Op) (limits : Limits) (h : History)
            (held : Held) → AnyStandsFor self.old operation limits h held
            → AnyStandsFor self.new operation limits
            (history_after (value_by operation) limits h held (whole_command values.now command))
            (held_after limits h held (whole_command values.now command))) }
        ensures err { OnErr result (self.new ≡ self.old) }
        ensures memory { OnErr result ((operation : Op) (limits : Limits) (h : History)
            (held : Held) → AnyStandsFor self.old operation limits h held
            → IsOkReply (phaser_reply (value_by operation) limits h held
            (whole_command values.now command))) }
        ensures asks { OnErr result (MayWantMemory (Some (whole_command values.now command))) }
    {
        match self {
            AnyPhaser::Sum(phaser) => phaser.obey(command, values, outcomes),
            AnyPhaser::Product(phaser) => phaser.obey(command, values, outcomes),
            AnyPhaser::Least(phaser) => phaser.obey(command, values, outcomes),
            AnyPhaser::Greatest(phaser) => phaser.obey(command, values, outcomes),
            AnyPhaser::Any(phaser) => phaser.obey(command, values, outcomes),
        }
    }
}

// By hand: the walk of a derived drop is written out, and proved, wherever a value is let go.
impl Drop for AnyPhaser {
    fn drop(self) {
        match self {
            AnyPhaser::Sum(phaser) => drop(phaser),
            AnyPhaser::Product(phaser) => drop(phaser),
            AnyPhaser::Least(phaser) => drop(phaser),
            AnyPhaser::Greatest(phaser) => drop(phaser),
            AnyPhaser::Any(phaser) => drop(phaser),
        }
    }
}
