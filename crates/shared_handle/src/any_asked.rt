//! A registration that asks, under any of the five operations.
ghost use Rattle.std.specs.Prelude.{◌≡◌, ◌≢◌, None, IfOk, IfErr};
ghost use Rattle.phase_accum.specs.Values.{value_by};
ghost use Rattle.shared_handle.specs.Members.{IsInItsHistory, sent_value};
ghost use Rattle.shared_handle.specs.Calls.{NextCall};
ghost use Rattle.shared_handle.specs.AnyMembers.{op_in, op_asked, state_in, asked_state};
ghost use Rattle.shared_handle.specs.Told.{next_status, tried_status};
ghost use Rattle.handle_numbers.specs.declared.numbers.TheConstants.{GOOD, ENDED, SIGNALLED};

use crate::any_member::AnyMember;
use crate::asked_member::AskedMember;
use phase_accum::{Any, Greatest, Least, Op, Product, Sum};
use phase_base::Entry;
use phase_core::{Got, SignalRefusal};
use phase_shared::Tried;

/// A registration that asks, with its phaser, by the operation of the phaser. Each call is the one
/// of `AskedMember` of the same name.
#[derive(Drop)]
pub enum AnyAsked {
    Sum(AskedMember<Sum>),
    Product(AskedMember<Product>),
    Least(AskedMember<Least>),
    Greatest(AskedMember<Greatest>),
    Any(AskedMember<Any>),
}

// The call on the registration, whichever operation it has.
macro_rules! each {
    ($asked:expr, $one:ident => $call:expr) => {
        match $asked {
            AnyAsked::Sum($one) => $call,
            AnyAsked::Product($one) => $call,
            AnyAsked::Least($one) => $call,
            AnyAsked::Greatest($one) => $call,
            AnyAsked::Any($one) => $call,
        }
    };
}

// A call that ends the ask, or leaves it.
macro_rules! each_end {
    ($asked:expr, $one:ident => $call:expr) => {
        match $asked {
            AnyAsked::Sum($one) => match $call {
                Ok((member, answer)) => Ok((AnyMember::Sum(member), answer)),
                Err(asked) => Err(AnyAsked::Sum(asked)),
            },
            AnyAsked::Product($one) => match $call {
                Ok((member, answer)) => Ok((AnyMember::Product(member), answer)),
                Err(asked) => Err(AnyAsked::Product(asked)),
            },
            AnyAsked::Least($one) => match $call {
                Ok((member, answer)) => Ok((AnyMember::Least(member), answer)),
                Err(asked) => Err(AnyAsked::Least(asked)),
            },
            AnyAsked::Greatest($one) => match $call {
                Ok((member, answer)) => Ok((AnyMember::Greatest(member), answer)),
                Err(asked) => Err(AnyAsked::Greatest(asked)),
            },
            AnyAsked::Any($one) => match $call {
                Ok((member, answer)) => Ok((AnyMember::Any(member), answer)),
                Err(asked) => Err(AnyAsked::Any(asked)),
            },
        }
    };
}

// A turn of one that asks, with what it tells where it asks still.
macro_rules! each_turn {
    ($asked:expr, $one:ident => $call:expr) => {
        match $asked {
            AnyAsked::Sum($one) => match $call {
                Ok((member, answer)) => Ok((AnyMember::Sum(member), answer)),
                Err((asked, is_made)) => Err((AnyAsked::Sum(asked), is_made)),
            },
            AnyAsked::Product($one) => match $call {
                Ok((member, answer)) => Ok((AnyMember::Product(member), answer)),
                Err((asked, is_made)) => Err((AnyAsked::Product(asked), is_made)),
            },
            AnyAsked::Least($one) => match $call {
                Ok((member, answer)) => Ok((AnyMember::Least(member), answer)),
                Err((asked, is_made)) => Err((AnyAsked::Least(asked), is_made)),
            },
            AnyAsked::Greatest($one) => match $call {
                Ok((member, answer)) => Ok((AnyMember::Greatest(member), answer)),
                Err((asked, is_made)) => Err((AnyAsked::Greatest(asked), is_made)),
            },
            AnyAsked::Any($one) => match $call {
                Ok((member, answer)) => Ok((AnyMember::Any(member), answer)),
                Err((asked, is_made)) => Err((AnyAsked::Any(asked), is_made)),
            },
        }
    };
}

// A registration at rest that asks, or comes back.
macro_rules! each_ask {
    ($member:expr, $one:ident => $call:expr) => {
        match $member {
            AnyMember::Sum($one) => $call.map(AnyAsked::Sum).map_err(AnyMember::Sum),
            AnyMember::Product($one) => $call.map(AnyAsked::Product).map_err(AnyMember::Product),
            AnyMember::Least($one) => $call.map(AnyAsked::Least).map_err(AnyMember::Least),
            AnyMember::Greatest($one) => $call.map(AnyAsked::Greatest).map_err(AnyMember::Greatest),
            AnyMember::Any($one) => $call.map(AnyAsked::Any).map_err(AnyMember::Any),
        }
    };
}

impl AnyMember {
    /// Asks others for its next phase, with this send or none, where it can. It takes no turn and
    /// no memory.
    pub fn ask(self, value: Option<i64>) -> Result<AnyAsked, AnyMember>
        ensures ok { IfOk result (λ asked. ((asked_state asked).reg ≡ state_in self)
            × ((asked_state asked).values ≡ sent_value value)
            × (op_asked asked ≡ op_in self)) }
        ensures err { IfErr result (λ back. back ≡ self) }
    {
        each_ask!(self, one => one.ask(value))
    }
}

impl AnyAsked {
    /// Returns the operation of its phaser.
    pub fn op(&self) -> Op
        ensures { result ≡ op_asked self.now }
    {
        match self {
            AnyAsked::Sum(_) => Op::Sum,
            AnyAsked::Product(_) => Op::Product,
            AnyAsked::Least(_) => Op::Least,
            AnyAsked::Greatest(_) => Op::Greatest,
            AnyAsked::Any(_) => Op::Any,
        }
    }

    /// Returns its number, which nobody else has on its phaser.
    pub fn number(&self) -> u64
        ensures { result ≡ (asked_state self.now).reg.number }
    {
        each!(self, one => one.number())
    }

    /// Returns its mode and its phases before the one that it asked for. It takes no turn.
    pub fn entry(&self) -> Entry
        ensures value { result ≡ (asked_state self.now).reg.entry }
        ensures member { IsInItsHistory (asked_state self.now).reg }
    {
        each!(self, one => one.entry())
    }

    /// Returns how far the phaser is, as far as the turns that have ended tell.
    pub fn told(&self) -> (u64, u64) {
        each!(self, one => one.told())
    }

    /// Closes its phaser, for ever.
    pub fn close(&self) {
        each!(self, one => one.close())
    }

    /// Returns whether its phaser was closed.
    pub fn is_closed(&self) -> bool {
        each!(self, one => one.is_closed())
    }

    /// Looks whether its next phase was made. Else it asks still. It takes no turn.
    pub fn look(
        self,
    ) -> Result<(AnyMember, Result<(u64, Option<Got>), Tried<SignalRefusal>>), AnyAsked>
        ensures ok { IfOk result (λ end. NextCall (value_by (op_asked self))
            (asked_state self).values None (asked_state self).reg (state_in end.0) end.1) }
        ensures op { IfOk result (λ end. op_in end.0 ≡ op_asked self) }
        ensures status { IfOk result (λ end. tried_status next_status end.1 ≡ GOOD) }
        ensures err { IfErr result (λ asked. asked ≡ self) }
    {
        each_end!(self, one => one.look())
    }

    /// Takes the turn, where it is free, and serves those that asked for so many looks. Where it
    /// asks still, it tells whether its signal is made.
    pub fn serve(
        self,
        looks: u32,
    ) -> Result<(AnyMember, Result<(u64, Option<Got>), Tried<SignalRefusal>>), (AnyAsked, bool)>
        ensures ok { IfOk result (λ end. NextCall (value_by (op_asked self))
            (asked_state self).values None (asked_state self).reg (state_in end.0) end.1) }
        ensures op { IfOk result (λ end. op_in end.0 ≡ op_asked self) }
        ensures status { IfOk result (λ end. (tried_status next_status end.1 ≢ SIGNALLED)
            × (tried_status next_status end.1 ≢ ENDED)) }
        ensures err { IfErr result (λ asked. asked.0 ≡ self) }
    {
        each_turn!(self, one => one.serve(looks))
    }

    /// Takes back what it asked for, where the turn is free. Else it asks still.
    pub fn take_back(
        self,
    ) -> Result<(AnyMember, Result<(u64, Option<Got>), Tried<SignalRefusal>>), AnyAsked>
        ensures ok { IfOk result (λ end. NextCall (value_by (op_asked self))
            (asked_state self).values None (asked_state self).reg (state_in end.0) end.1) }
        ensures op { IfOk result (λ end. op_in end.0 ≡ op_asked self) }
        ensures status { IfOk result (λ end. tried_status next_status end.1 ≢ ENDED) }
        ensures err { IfErr result (λ asked. asked ≡ self) }
    {
        each_end!(self, one => one.take_back())
    }
}
