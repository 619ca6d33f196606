//! Registrations that may be thrown away.
ghost use Rattle.std.specs.Prelude.{◌≡◌};

use crate::asked::Asked;
use crate::reg::Reg;
use crate::rule::SignalRule;
use phase_accum::Accumulate;

/// A registration that may be thrown away. It then stays registered for ever, and no phase that
/// lacks its signal is ever complete.
///
/// It is for who keeps registrations where nothing can be proved of them, as behind a pointer that
/// another language has.
pub struct Loose<A: Accumulate, K: SignalRule> {
    pub reg: Reg<A, K>,
}

impl<A: Accumulate, K: SignalRule> Loose<A, K> {
    /// Returns the registration, which cannot be thrown away.
    pub fn into_reg(self) -> Reg<A, K>
        ensures { result ≡ self.reg }
    {
        let Loose { reg } = self;
        reg
    }
}

impl<A: Accumulate, K: SignalRule> Drop for Loose<A, K> {
    fn drop(self) {
        let Loose { reg } = self;
        let Reg {
            seat,
            number: _,
            entry: _,
            pending: _,
            spins: _,
        } = reg;
        drop(seat);
    }
}

/// A registration that asks and may be thrown away. It then stays registered for ever, as a `Loose`
/// does; the signal that it asked for may still be made.
pub struct LooseAsked<A: Accumulate, K: SignalRule> {
    pub asked: Asked<A, K>,
}

impl<A: Accumulate, K: SignalRule> LooseAsked<A, K> {
    /// Returns the registration that asks, which cannot be thrown away.
    pub fn into_asked(self) -> Asked<A, K>
        ensures { result ≡ self.asked }
    {
        let LooseAsked { asked } = self;
        asked
    }
}

impl<A: Accumulate, K: SignalRule> Drop for LooseAsked<A, K> {
    fn drop(self) {
        let LooseAsked { asked } = self;
        let Asked {
            seat,
            entry: _,
            pending: _,
            request: _,
            spins: _,
        } = asked;
        drop(seat);
    }
}
