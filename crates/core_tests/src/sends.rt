//! A task's pending sends, and each other public function once.
use phase_accum::{
    Accumulate, BadClamp, NO_VALUE, Outcome, Pending, Range, SendFault, Single, Sum, apply,
};

#[test]
fn a_full_task_takes_no_more_sends(rt: HostRuntime) {
    let mut pending = Pending::<Sum>::new();
    for _ in 0..65536 {
        assert_eq!(rt; pending.send(1), Ok(()));
    }
    assert_eq!(rt; pending.send(1), Err(SendFault::TooManySends));
    assert_eq!(rt; pending.send(NO_VALUE), Err(SendFault::BadValue));
    assert_eq!(rt; pending.count(), 65536);
    assert_eq!(rt; pending.part().finish(), Outcome::Value(65536));
}

#[test]
fn absorbed_sends_are_added(rt: HostRuntime) {
    let mut pending = Pending::<Sum>::new();
    let mut other = Pending::<Sum>::new();
    assert_eq!(rt; pending.send(2), Ok(()));
    assert_eq!(rt; other.send(3), Ok(()));
    assert_eq!(rt; other.send(4), Ok(()));
    assert!(rt; pending.count() + other.count() <= 65536);
    pending.absorb(other);
    assert_eq!(rt; pending.count(), 3);
    assert_eq!(rt; pending.part().finish(), Outcome::Value(9));
}

/// The ends of the range that is made of these.
fn ends_of(low: i64, high: i64) -> Result<(i64, i64), BadClamp> {
    let range = Range::new(low, high)?;
    Ok((range.low(), range.high()))
}

#[test]
fn a_range_has_its_ends_in_order(rt: HostRuntime) {
    assert_eq!(rt; ends_of(5, 4), Err(BadClamp));
    assert_eq!(rt; ends_of(-10, 10), Ok((-10, 10)));
}

/// How a single is made.
#[derive(Clone, Copy)]
enum Made {
    Halve,
    Neg,
    Abs,
    Clamp(i64, i64),
    /// The clamp that holds the range of these ends.
    ClampOf(i64, i64),
}

/// What the single makes of an outcome. A value below the least, which no phase has, stays.
fn applied(made: Made, outcome: Outcome) -> Result<Outcome, BadClamp> {
    if outcome == Outcome::Value(NO_VALUE) {
        return Ok(outcome);
    }
    let single = match made {
        Made::Halve => Single::halve(),
        Made::Neg => Single::neg(),
        Made::Abs => Single::abs(),
        Made::Clamp(low, high) => Single::clamp(low, high)?,
        Made::ClampOf(low, high) => Single::Clamp(Range::new(low, high)?),
    };
    Ok(apply(single, outcome))
}

/// What a single makes of an outcome, or that there is no such single.
struct Application {
    name: &'static str,
    made: Made,
    outcome: Outcome,
    want: Result<Outcome, BadClamp>,
}

static APPLICATIONS: [Application; 12] = [
    Application {
        name: "a half is whole",
        made: Made::Halve,
        outcome: Outcome::Value(5),
        want: Ok(Outcome::Value(2)),
    },
    Application {
        name: "a half is rounded down",
        made: Made::Halve,
        outcome: Outcome::Value(-5),
        want: Ok(Outcome::Value(-3)),
    },
    Application {
        name: "a negation",
        made: Made::Neg,
        outcome: Outcome::Value(13),
        want: Ok(Outcome::Value(-13)),
    },
    Application {
        name: "an absolute value",
        made: Made::Abs,
        outcome: Outcome::Value(-7),
        want: Ok(Outcome::Value(7)),
    },
    Application {
        name: "a clamp takes what is above to its high end",
        made: Made::ClampOf(0, 10),
        outcome: Outcome::Value(15),
        want: Ok(Outcome::Value(10)),
    },
    Application {
        name: "a clamp takes what is below to its low end",
        made: Made::ClampOf(0, 10),
        outcome: Outcome::Value(-3),
        want: Ok(Outcome::Value(0)),
    },
    Application {
        name: "a clamp leaves no value",
        made: Made::ClampOf(0, 10),
        outcome: Outcome::Empty,
        want: Ok(Outcome::Empty),
    },
    Application {
        name: "a clamp leaves what is too big",
        made: Made::ClampOf(0, 10),
        outcome: Outcome::TooBig,
        want: Ok(Outcome::TooBig),
    },
    Application {
        name: "a clamp of one value",
        made: Made::Clamp(-3, -3),
        outcome: Outcome::Value(8),
        want: Ok(Outcome::Value(-3)),
    },
    Application {
        name: "a clamp has its ends in order",
        made: Made::Clamp(1, 0),
        outcome: Outcome::Value(8),
        want: Err(BadClamp),
    },
    Application {
        name: "a clamp's low end is a value",
        made: Made::Clamp(NO_VALUE, 0),
        outcome: Outcome::Value(8),
        want: Err(BadClamp),
    },
    Application {
        name: "a clamp's high end is a value",
        made: Made::Clamp(0, NO_VALUE),
        outcome: Outcome::Value(8),
        want: Err(BadClamp),
    },
];

#[test]
fn a_single_is_applied_to_an_outcome(rt: HostRuntime) {
    for case in &APPLICATIONS {
        assert_eq!(rt;
            applied(case.made, case.outcome),
            case.want,
            "{}",
            case.name
        );
    }
}
