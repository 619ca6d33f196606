//! The modes in which a task is registered on a phaser.
ghost use Rattle.std.specs.Prelude.{◌≡◌};
ghost use Rattle.phase_base.specs.Modes.{holds, mode_signals, mode_waits};

/// What a registered task may do on a phaser. The four modes, and which of them a mode holds, are
/// those of Habanero-Java's phasers (ICS 2008).
#[derive(Clone, Copy, Debug, PartialEq, Eq, Hash)]
pub enum Mode {
    /// The task signals and never waits.
    Sig,
    /// The task waits and never signals.
    Wait,
    /// The task signals and waits, in turn.
    SigWait,
    /// The task signals and waits, in turn, and may name a single at a signal.
    Single,
}

impl Mode {
    /// Returns whether a task in this mode may register a child in the mode `other`: the capability
    /// rule of phasers (ICS 2008).
    pub fn holds(self, other: Mode) -> bool
        ensures { result ≡ holds self other }
    {
        match self {
            Mode::Single => true,
            Mode::SigWait => other != Mode::Single,
            Mode::Sig => other == Mode::Sig,
            Mode::Wait => other == Mode::Wait,
        }
    }

    /// Returns whether a task in this mode is a signaller.
    pub fn signals(self) -> bool
        ensures { result ≡ mode_signals self }
    {
        self.holds(Mode::Sig)
    }

    /// Returns whether a task in this mode is a waiter.
    pub fn waits(self) -> bool
        ensures { result ≡ mode_waits self }
    {
        self.holds(Mode::Wait)
    }
}
