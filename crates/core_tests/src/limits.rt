//! The mode table.
use phase_base::Mode;

/// Whether a mode holds each of the four in their order, and signals, and waits.
fn held_by(mode: Mode) -> [bool; 6] {
    [
        mode.holds(Mode::Sig),
        mode.holds(Mode::Wait),
        mode.holds(Mode::SigWait),
        mode.holds(Mode::Single),
        mode.signals(),
        mode.waits(),
    ]
}

#[test]
fn modes_hold_what_the_rule_says(rt: HostRuntime) {
    for (mode, held) in [
        (Mode::Sig, [true, false, false, false, true, false]),
        (Mode::Wait, [false, true, false, false, false, true]),
        (Mode::SigWait, [true, true, true, false, true, true]),
        (Mode::Single, [true, true, true, true, true, true]),
    ] {
        assert_eq!(rt; held_by(mode), held, "{mode:?}");
    }
}
