//! Filters, splitters, joiners and peers step by step.
use std::alloc::AllocError;
use std::test::*;
use stream_filters::{
    FilterFault, Fir, FirFault, Form, Join, Peer, Split, TooBigValue, VALUE_MAX, VALUE_MIN,
    filter_list,
};

/// The filter, or that memory ran out.
fn made(fir: Result<Fir, FirFault>) -> Result<Fir, AllocError> {
    fir.map_err(|_fault| AllocError)
}

/// By how many bits a form shifts, what it adds before, and its delay.
type Numbers = (u32, i64, usize);

fn by((shift, plus, delay): Numbers) -> Form {
    Form {
        shift,
        plus,
        delay,
        again: 0,
        single: None,
    }
}

/// What a step answers.
#[derive(Clone, Copy, Debug)]
enum Answer {
    Value(i64),
    TooBig,
    SomeValue,
}

fn is_so(found: Result<i64, TooBigValue>, wanted: Answer) -> bool {
    match wanted {
        Answer::Value(value) => found == Ok(value),
        Answer::TooBig => found == Err(TooBigValue),
        Answer::SomeValue => found.is_ok(),
    }
}

/// So many steps of a filter on one sample, and what each of them answers.
type Steps = (usize, i64, Answer);

struct Case {
    name: &'static str,
    taps: &'static [i64],
    form: Numbers,
    steps: &'static [Steps],
}

static CASES: [Case; 11] = [
    Case {
        name: "rounds down and not towards zero",
        taps: &[1, 2, 1],
        form: (2, 0, 0),
        steps: &[(2, -1, Answer::Value(-1)), (1, 0, Answer::Value(-1))],
    },
    Case {
        name: "one tap of one answers the sample",
        taps: &[1],
        form: (0, 0, 0),
        steps: &[(1, 7, Answer::Value(7))],
    },
    Case {
        name: "only a sum out of range is too big",
        taps: &[2],
        form: (0, 0, 0),
        steps: &[(1, VALUE_MAX, Answer::TooBig), (1, 1, Answer::Value(2))],
    },
    Case {
        name: "a sum that is halved is in range",
        taps: &[2],
        form: (1, 0, 0),
        steps: &[
            (1, VALUE_MAX, Answer::Value(VALUE_MAX)),
            (1, VALUE_MIN, Answer::Value(VALUE_MIN)),
        ],
    },
    Case {
        name: "sixty-four greatest taps meet the extremes",
        taps: &[2_147_483_647; 64],
        form: (62, 0, 0),
        steps: &[
            (1, VALUE_MAX, Answer::Value(4_294_967_293)),
            (62, VALUE_MAX, Answer::SomeValue),
            (1, VALUE_MAX, Answer::Value(274_877_906_815)),
            (63, VALUE_MIN, Answer::SomeValue),
            (1, VALUE_MIN, Answer::Value(-274_877_906_816)),
        ],
    },
    Case {
        name: "a sample that is no value is weighed too",
        taps: &[1, 1],
        form: (0, 0, 0),
        steps: &[
            (1, i64::MIN, Answer::TooBig),
            (1, 1, Answer::Value(VALUE_MIN)),
        ],
    },
    Case {
        name: "half of the divisor rounds to the nearest",
        taps: &[1, 2, 1],
        form: (2, 2, 0),
        steps: &[
            (1, -1, Answer::Value(0)),
            (1, -1, Answer::Value(-1)),
            (1, 0, Answer::Value(-1)),
        ],
    },
    Case {
        name: "what is added counts for the range",
        taps: &[1],
        form: (0, 1, 0),
        steps: &[
            (1, VALUE_MAX, Answer::TooBig),
            (1, VALUE_MIN, Answer::Value(VALUE_MIN + 1)),
        ],
    },
    Case {
        name: "a delay answers what came two samples before",
        taps: &[1],
        form: (0, 0, 2),
        steps: &[
            (1, 3, Answer::Value(0)),
            (1, 1, Answer::Value(0)),
            (1, VALUE_MAX, Answer::Value(3)),
            (1, 1, Answer::Value(1)),
            (1, 5, Answer::Value(VALUE_MAX)),
        ],
    },
    Case {
        name: "a delay weighs each tap as many samples before",
        taps: &[1, 10],
        form: (0, 0, 1),
        steps: &[
            (1, 1, Answer::Value(0)),
            (1, 2, Answer::Value(1)),
            (1, 3, Answer::Value(12)),
        ],
    },
    Case {
        name: "the longest delay answers zeros first",
        taps: &[1],
        form: (0, 0, 65_536),
        steps: &[(65_536, 7, Answer::Value(0)), (1, 8, Answer::Value(7))],
    },
];

#[test]
fn a_filter_answers_its_steps(rt: HostRuntime) -> Result<(), Fail> {
    for case in &CASES {
        let mut fir = made(Fir::with_form(rt.alloc(), case.taps, by(case.form)))?;
        for (count, sample, wanted) in case.steps {
            for _ in 0..*count {
                let found = fir.step(*sample);
                assert!(rt;
                    is_so(found, *wanted),
                    "{}: {found:?} on {sample}, and not {wanted:?}",
                    case.name
                );
            }
        }
    }
    Ok(())
}

/// Forty samples, of which one may be too large for 64 bits, through a filter of two taps.
#[test]
fn a_filter_answers_a_list(rt: HostRuntime) -> Result<(), Fail> {
    let mut samples = [5; 40];
    let mut wanted = [2; 40];
    wanted[0] = 7;
    let found = filter_list(rt.alloc(), &[3, -2], by((1, 0, 0)), &samples).map_err(
        |_fault| AllocError,
    )?;
    assert_eq!(rt; found.as_slice(), wanted.as_slice());
    samples[33] = VALUE_MAX;
    let found = filter_list(rt.alloc(), &[3, -2], by((1, 0, 0)), &samples);
    assert!(rt;
        matches!(found, Err(FilterFault::TooBig(33))),
        "the first output too big"
    );
    let found = filter_list(rt.alloc(), &[3, -2], by((2, 0, 0)), &samples);
    assert!(rt; found.is_ok(), "a large output in range");
    let samples = [1, 2, 3, 4, 5, 6, 7, 8, 9, 10];
    let delayed = filter_list(rt.alloc(), &[1], by((0, 0, 7)), &samples).map_err(
        |_fault| AllocError,
    )?;
    assert_eq!(rt;
        delayed.as_slice(),
        [0, 0, 0, 0, 0, 0, 0, 1, 2, 3].as_slice()
    );
    Ok(())
}

#[test]
fn peers_and_turns(rt: HostRuntime) -> Result<(), Fail> {
    assert_eq!(rt; Peer::mix(2, 1, 11), Ok(-9));
    let mut split = Split::new(2);
    let mut join = Join::new(3);
    assert_eq!(rt; (split.turn(), split.turn(), split.turn()), (0, 1, 0));
    assert_eq!(rt;
        (join.turn(), join.turn(), join.turn(), join.turn()),
        (0, 1, 2, 0)
    );
    Ok(())
}

/// Taps and a form that no filter has.
static BAD: [(&str, &[i64], Numbers); 6] = [
    ("no taps", &[], (0, 0, 0)),
    ("too many taps", &[0; 1025], (0, 0, 0)),
    ("a tap past its limit", &[2_147_483_648], (0, 0, 0)),
    ("a shift past its limit", &[1], (63, 0, 0)),
    (
        "a sum past its limit",
        &[1],
        (0, -4_611_686_018_427_387_905, 0),
    ),
    ("a delay past its limit", &[1], (0, 0, 65_537)),
];

#[test]
fn bad_taps_are_refused(rt: HostRuntime) {
    for (name, taps, form) in &BAD {
        let fir = Fir::with_form(rt.alloc(), taps, by(*form));
        assert!(rt; matches!(fir, Err(FirFault::BadTaps)), "{name}");
        let list = filter_list(rt.alloc(), taps, by(*form), &[]);
        assert!(rt;
            matches!(list, Err(FilterFault::BadTaps)),
            "{name}, of a list"
        );
    }
}
