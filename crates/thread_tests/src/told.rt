//! What a phaser tells without a turn.

use crate::calls::{goes_on, left, made_with_child, signalled};
use phase_base::Mode;
use phase_core::SignalRefusal;
use phase_shared::Tried;
use std::test::Fail;

// A phase is complete once both have signalled it, and then the founder gets it.
#[test]
fn a_phaser_tells_which_phases_are_complete(rt: HostRuntime) -> Result<(), Fail> {
    let made = made_with_child(&rt, rt.alloc(), 2, Mode::Sig);
    let Some((phaser, mut founder, mut child)) = made else {
        panic!(rt; "there is memory")
    };
    let _first = signalled(&phaser, &mut child);
    let ahead = phaser.told();
    let _turned = goes_on(&rt, &phaser, &mut founder, None);
    let complete = phaser.told();
    left(&rt, &phaser, child);
    left(&rt, &phaser, founder);
    let ended = phaser.told();
    assert_eq!(rt; ahead, (0, 0));
    assert_eq!(rt; complete, (1, 1));
    assert_eq!(rt; ended.1, u64::MAX);
    Ok(())
}

// At bound 2 the third signal is ahead until the founder has got phase 0.
#[test]
fn room_is_told_where_a_signal_was_ahead(rt: HostRuntime) -> Result<(), Fail> {
    let made = made_with_child(&rt, rt.alloc(), 2, Mode::Sig);
    let Some((phaser, mut founder, mut child)) = made else {
        panic!(rt; "there is memory")
    };
    let _first = signalled(&phaser, &mut child);
    let _second = signalled(&phaser, &mut child);
    let third = signalled(&phaser, &mut child);
    let _turned = goes_on(&rt, &phaser, &mut founder, None);
    let room = child.room(&phaser);
    left(&rt, &phaser, child);
    left(&rt, &phaser, founder);
    assert_eq!(rt; third, Err(Tried::Refused(SignalRefusal::Ahead)));
    assert_eq!(rt; room, 1);
    Ok(())
}
