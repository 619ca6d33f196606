//! Filters that weigh what they put, and those with a single.
use phase_accum::Single;
use std::alloc::AllocError;
use std::test::*;
use stream_filters::{
    FilterFault, Fir, FirFault, Form, TooBigValue, VALUE_MAX, VALUE_MIN, filter_list,
};

/// The single of a row.
#[derive(Clone, Copy, Debug)]
enum Named {
    Nothing,
    Neg,
    Abs,
    Halve,
    Clamp(i64, i64),
}

/// A filter, and what it answers at each sample, 0 where that is out of range.
struct Case {
    name: &'static str,
    taps: &'static [i64],
    again: usize,
    shift: u32,
    plus: i64,
    delay: usize,
    single: Named,
    samples: [i64; 6],
    wanted: [i64; 6],
    /// The first step at which the answer is out of range.
    too_big: Option<usize>,
}

static CASES: [Case; 14] = [
    Case {
        name: "a running sum",
        taps: &[1, 1],
        again: 1,
        shift: 0,
        plus: 0,
        delay: 0,
        single: Named::Nothing,
        samples: [1, 2, 3, 4, 5, 6],
        wanted: [1, 3, 6, 10, 15, 21],
        too_big: None,
    },
    Case {
        name: "a running sum within 16 bits",
        taps: &[1, 1],
        again: 1,
        shift: 0,
        plus: 0,
        delay: 0,
        single: Named::Clamp(-32_768, 32_767),
        samples: [30_000, 30_000, -1, -32_767, -32_767, -32_767],
        wanted: [30_000, 32_767, 32_766, -1, -32_768, -32_768],
        too_big: None,
    },
    Case {
        name: "a mean that forgets, rounded, rests at 100",
        taps: &[1, 255],
        again: 1,
        shift: 8,
        plus: 128,
        delay: 0,
        single: Named::Nothing,
        samples: [25_600, 0, 0, 0, 0, 0],
        wanted: [100, 100, 100, 100, 100, 100],
        too_big: None,
    },
    Case {
        name: "a mean that forgets half rests at -1",
        taps: &[1, 1],
        again: 1,
        shift: 1,
        plus: 0,
        delay: 0,
        single: Named::Nothing,
        samples: [-8, 0, 0, 0, 0, 0],
        wanted: [-4, -2, -1, -1, -1, -1],
        too_big: None,
    },
    Case {
        name: "what is constant is taken away",
        taps: &[32_768, -32_768, 32_604],
        again: 1,
        shift: 15,
        plus: 16_384,
        delay: 0,
        single: Named::Nothing,
        samples: [1_000, 1_000, 1_000, 0, 0, 0],
        wanted: [1_000, 995, 990, -15, -15, -15],
        too_big: None,
    },
    Case {
        name: "a biquad",
        taps: &[1, 2, 1, 1, -1],
        again: 2,
        shift: 1,
        plus: 0,
        delay: 0,
        single: Named::Nothing,
        samples: [4, 0, 0, 0, 0, 0],
        wanted: [2, 5, 3, -1, -2, -1],
        too_big: None,
    },
    Case {
        name: "a sum of delayed samples",
        taps: &[1, 1],
        again: 1,
        shift: 0,
        plus: 0,
        delay: 2,
        single: Named::Nothing,
        samples: [1, 2, 3, 4, 5, 6],
        wanted: [0, 0, 1, 3, 6, 10],
        too_big: None,
    },
    Case {
        name: "a rectifier",
        taps: &[1],
        again: 0,
        shift: 0,
        plus: 0,
        delay: 0,
        single: Named::Abs,
        samples: [3, -3, 0, VALUE_MIN, VALUE_MAX, -1],
        wanted: [3, 3, 0, VALUE_MAX, VALUE_MAX, 1],
        too_big: None,
    },
    Case {
        name: "the other sign",
        taps: &[1],
        again: 0,
        shift: 0,
        plus: 0,
        delay: 0,
        single: Named::Neg,
        samples: [3, -3, 0, VALUE_MIN, VALUE_MAX, -1],
        wanted: [-3, 3, 0, VALUE_MAX, VALUE_MIN, 1],
        too_big: None,
    },
    Case {
        name: "a half, rounded down behind the shift",
        taps: &[1],
        again: 0,
        shift: 1,
        plus: 0,
        delay: 0,
        single: Named::Halve,
        samples: [10, 11, -1, -10, 3, 0],
        wanted: [2, 2, -1, -3, 0, 0],
        too_big: None,
    },
    Case {
        name: "a clamp comes before the range",
        taps: &[3],
        again: 0,
        shift: 0,
        plus: 0,
        delay: 0,
        single: Named::Clamp(-32_768, 32_767),
        samples: [VALUE_MAX, VALUE_MIN, 1, -1, 20_000, -20_000],
        wanted: [32_767, -32_768, 3, -3, 32_767, -32_768],
        too_big: None,
    },
    Case {
        name: "half of what is twice too large is in range",
        taps: &[2],
        again: 0,
        shift: 0,
        plus: 0,
        delay: 0,
        single: Named::Halve,
        samples: [VALUE_MAX, VALUE_MIN, 1, -1, 0, 2],
        wanted: [VALUE_MAX, VALUE_MIN, 1, -1, 0, 2],
        too_big: None,
    },
    Case {
        name: "nothing is put where an answer is out of range",
        taps: &[2, 1],
        again: 1,
        shift: 0,
        plus: 0,
        delay: 0,
        single: Named::Nothing,
        samples: [1, VALUE_MAX, 1, 0, 0, 5],
        wanted: [2, 0, 2, 2, 2, 12],
        too_big: Some(1),
    },
    Case {
        name: "what it puts grows until it is out of range",
        taps: &[1, 1 << 20],
        again: 1,
        shift: 0,
        plus: 0,
        delay: 0,
        single: Named::Nothing,
        samples: [1, 0, 0, 0, 0, 0],
        wanted: [1, 1 << 20, 1 << 40, 1 << 60, 0, 0],
        too_big: Some(4),
    },
];

/// The single of a row, where there is one.
fn single_of(named: Named) -> Option<Single> {
    match named {
        Named::Nothing => None,
        Named::Neg => Some(Single::Neg),
        Named::Abs => Some(Single::Abs),
        Named::Halve => Some(Single::Halve),
        Named::Clamp(low, high) => Single::clamp(low, high).ok(),
    }
}

fn form_of(case: &Case) -> Form {
    Form {
        shift: case.shift,
        plus: case.plus,
        delay: case.delay,
        again: case.again,
        single: single_of(case.single),
    }
}

/// The filter, or that memory ran out.
fn made(fir: Result<Fir, FirFault>) -> Result<Fir, AllocError> {
    fir.map_err(|_fault| AllocError)
}

#[test]
fn a_filter_that_weighs_what_it_put_answers_its_steps(rt: HostRuntime) -> Result<(), Fail> {
    for case in &CASES {
        let mut fir = made(Fir::with_form(rt.alloc(), case.taps, form_of(case)))?;
        for n in 0..6 {
            let wanted = case.wanted[n];
            let found = fir.step(case.samples[n]).unwrap_or(0);
            assert!(rt;
                found == wanted,
                "{}: {found} at step {n}, and not {wanted}",
                case.name
            );
        }
    }
    Ok(())
}

#[test]
fn a_list_is_made_one_by_one(rt: HostRuntime) -> Result<(), Fail> {
    for case in &CASES {
        let found = filter_list(rt.alloc(), case.taps, form_of(case), &case.samples);
        let is_so = match (&found, case.too_big) {
            (Ok(list), None) => list.as_slice() == case.wanted.as_slice(),
            (Err(FilterFault::TooBig(step)), Some(wanted)) => *step == wanted,
            _ => false,
        };
        assert!(rt; is_so, "{}: {found:?}", case.name);
    }
    Ok(())
}

/// Steps over many samples go on where the ones before ended, and end with the first answer that is
/// out of range.
#[test]
fn a_block_goes_on_behind_the_last(rt: HostRuntime) -> Result<(), Fail> {
    for case in &CASES {
        let mut fir = made(Fir::with_form(rt.alloc(), case.taps, form_of(case)))?;
        let mut list = Vec::with_capacity(rt.alloc(), 6)?;
        let first = fir.steps(&case.samples[..3], &mut list);
        let rest = match first {
            Ok(()) => fir.steps(&case.samples[3..], &mut list),
            Err(TooBigValue) => Err(TooBigValue),
        };
        let end = case.too_big.unwrap_or(6);
        assert!(rt; rest.is_ok() == case.too_big.is_none(), "{}", case.name);
        assert!(rt;
            Some(list.as_slice()) == case.wanted.get(..end),
            "{}: {list:?}",
            case.name
        );
    }
    Ok(())
}

/// A running sum over more samples than there is room for in its windows.
#[test]
fn a_long_sum(rt: HostRuntime) -> Result<(), Fail> {
    let form = Form {
        shift: 0,
        plus: 0,
        delay: 0,
        again: 1,
        single: None,
    };
    let mut fir = made(Fir::with_form(rt.alloc(), &[1, 1], form))?;
    let ones = [1; 100];
    let mut last = None;
    for _ in 0..30 {
        let mut list = Vec::with_capacity(rt.alloc(), 100)?;
        assert!(rt; fir.steps(&ones, &mut list).is_ok(), "a small sum");
        last = list.get(99).copied();
    }
    assert_eq!(rt; last, Some(3000));
    fir.take(7);
    assert_eq!(rt; fir.step(1), Ok(3008));
    Ok(())
}

/// Taps, and how many of them weigh what was put: too many, or as many as there are taps.
static BAD_TAPS: [(&'static [i64], usize); 5] = [
    (&[0; 66], 65),
    (&[0; 64], 64),
    (&[0], 1),
    (&[0], 2),
    (&[0; 1089], 64),
];

#[test]
fn bad_taps_again(rt: HostRuntime) {
    for (taps, again) in &BAD_TAPS {
        let form = Form {
            shift: 0,
            plus: 0,
            delay: 0,
            again: *again,
            single: None,
        };
        let fir = Fir::with_form(rt.alloc(), taps, form);
        assert!(rt; matches!(fir, Err(FirFault::BadTaps)), "{again} again");
    }
    let few = Fir::new(rt.alloc(), &[0; 65], 0);
    assert!(rt; matches!(few, Err(FirFault::BadTaps)), "65 taps by a shift");
}
