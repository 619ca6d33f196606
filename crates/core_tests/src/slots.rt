//! A ring of two slots.
use phase_accum::{Outcome, Pending, Sum};
use phase_ring::{MergeRefusal, Role, SlotRing};
use std::test::Fail;

#[test]
fn a_sealed_phase_has_the_value_of_its_sends(rt: HostRuntime) -> Result<(), Fail> {
    let mut ring = SlotRing::<Sum>::with_bound(rt.alloc(), 1)?;
    let mut pending = Pending::new();
    pending.send(5)?;
    if let Err((refusal, _)) = ring.merge(0, pending, None) {
        return Err(Fail::from(refusal));
    }
    ring.seal(0);
    assert_eq!(rt; ring.value(0), Outcome::Value(5));
    Ok(())
}

#[test]
fn tasks_come_and_go(rt: HostRuntime) -> Result<(), Fail> {
    let mut ring = SlotRing::<Sum>::with_bound(rt.alloc(), 1)?;
    ring.enter(0, Role::Waiter);
    assert_eq!(rt; ring.standing(0, Role::Waiter), 1);
    assert_eq!(rt; ring.standing(0, Role::Signaller), 0);
    ring.leave(0, Role::Waiter);
    ring.release();
    assert_eq!(rt; ring.base(), 1);
    ring.clear();
    assert_eq!(rt; ring.base(), 1);
    Ok(())
}

#[test]
fn a_phase_takes_so_many_sends(rt: HostRuntime) -> Result<(), Fail> {
    let ring = SlotRing::<Sum>::with_bound(rt.alloc(), 1)?;
    assert_eq!(rt; ring.can_merge(0, 65536, None), Ok(()));
    assert_eq!(rt;
        ring.can_merge(0, 65537, None),
        Err(MergeRefusal::PhaseFull)
    );
    Ok(())
}
