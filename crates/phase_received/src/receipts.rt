//! A past with what each registration that went into it got.
ghost use Rattle.std.specs.Prelude.{◌≡◌, ◌∷◌, ◌++◌, [], map, true, IfOk, IfErr};
ghost use Rattle.phase_history.specs.Others.{OthersCame};
ghost use Rattle.phase_base.specs.Lists.{is_distinct};
ghost use Rattle.phase_shared.specs.Rule.{IsGoodAt};
ghost use Rattle.phase_shared.specs.Regs.{phaser_lock, phaser_terms};
ghost use Rattle.phase_received.specs.Received.{all_received};

use phase_accum::{Accumulate, Outcome};
use phase_shared::{Past, Phaser, SignalRule};
use std::alloc::Global;
use std::marker::Model;

/// A past, and what each registration that went into it got, in the order of their numbers.
///
/// In contracts it is its past: `all_received` says what its registrations have received, by its
/// history, and `lists` that this is what is kept here.
#[derive(Drop)]
pub struct Receipts<A: Accumulate, K: SignalRule> {
    past: Past<A, K>,
    first: Vec<Outcome>,
    others: Vec<Vec<Outcome>>,
}

impl<A: Accumulate, K: SignalRule> Model for Receipts<A, K> {
    ghost use Rattle.std.specs.Prelude.{◌≡◌, ◌∷◌, map};
    ghost use Rattle.phase_shared.specs.Regs.{PastState};

    ghost Value = { PastState K };

    ghost use Rattle.phase_received.specs.Received.{all_received};

    ghost view = { λ r. r.past };

    ghost invariant = { λ r. r.first.items ∷ map (λ list. list.items) r.others.items
        ≡ all_received A.operation r.past };
}

impl<A: Accumulate, K: SignalRule> Receipts<A, K> {
    /// Makes those of one registration, of its past and what it got. It takes no memory.
    pub fn of(alloc: Global, past: Past<A, K>, values: Vec<Outcome>) -> Receipts<A, K>
        requires { values.items ∷ [] ≡ all_received A.operation past }
        ensures { result ≡ past }
    {
        Receipts {
            past,
            first: values,
            others: Vec::new(alloc),
        }
    }

    /// Returns what the first registration got, the first value first, and then what each other one
    /// did.
    pub fn lists(&self) -> (&[Outcome], &[Vec<Outcome>])
        ensures { result.0.now ∷ map (λ list. list.items) result.1.now
            ≡ all_received A.operation self.now }
    {
        (self.first.as_slice(), self.others.as_slice())
    }

    /// Returns the past, what the first registration got, and what each other one did.
    pub fn into_parts(self) -> (Past<A, K>, Vec<Outcome>, Vec<Vec<Outcome>>)
        ensures past { result.0 ≡ self }
        ensures lists { result.1.items ∷ map (λ list. list.items) result.2.items
            ≡ all_received A.operation self }
    {
        let Receipts {
            past,
            first,
            others,
        } = self;
        (past, first, others)
    }

    /// Joins both pasts, and puts their lists one behind the other. It waits for nobody, and may
    /// take memory; where there is none, both come back.
    ///
    /// Who has received a whole stream still has, by `laws::whole`.
    pub fn join(
        self,
        phaser: &Phaser<A, K>,
        other: Receipts<A, K>,
    ) -> Result<Receipts<A, K>, (Receipts<A, K>, Receipts<A, K>)>
        requires at { (self.at ≡ phaser_lock phaser.now) × (other.at ≡ phaser_lock phaser.now) }

        ensures first { IfOk result (λ both. OthersCame self.numbers self.seen both.seen) }
        ensures second { IfOk result (λ both. OthersCame other.numbers other.seen both.seen) }
        ensures numbers { IfOk result (λ both. both.numbers ≡ self.numbers ++ other.numbers) }
        ensures distinct { IfOk result (λ both. is_distinct both.numbers ≡ true) }

        ensures at { IfOk result (λ both. both.at ≡ self.at) }
        ensures good { IfOk result (λ both. IsGoodAt K.allows (phaser_terms phaser.now) both.seen) }
        ensures err { IfErr result (λ back. (back.0 ≡ self) × (back.1 ≡ other)) }
    {
        phase_shared::laws::parts_stay();
        let mut one = self;
        if one.others.reserve(other.others.len() + 1).is_err() {
            return Err((one, other));
        }
        let Receipts {
            past,
            first,
            mut others,
        } = one;
        let Receipts {
            past: second,
            first: then,
            others: mut rest,
        } = other;
        others.push_reserved(then);
        let Ok(()) = others.append(&mut rest) else {
            unreachable!()
        };
        Ok(Receipts {
            past: past.join(phaser, second),
            first,
            others,
        })
    }
}
