//! Until when a waiting call waits.
ghost use Rattle.std.specs.Prelude.{◌≡◌, false};

use crate::phaser::Phaser;
use crate::rule::SignalRule;
use phase_accum::Accumulate;

// Until when a waiting call waits.
#[derive(Clone, Copy, PartialEq, Eq)]
pub(crate) enum Until {
    // Until it has its answer.
    Answered,
    // The same, but no longer than until the phaser is closed.
    Closed,
}

impl Until {
    // Whether the call waits no longer: a look that takes no turn.
    pub(crate) fn is_past<A: Accumulate, K: SignalRule>(self, phaser: &Phaser<A, K>) -> bool
        ensures { self ≡ Until.Answered → result ≡ false }
    {
        self == Until::Closed && phaser.is_closed()
    }
}
