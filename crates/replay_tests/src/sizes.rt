//! Scripts with phasers of many bounds: where there is memory none is wanted.
ghost use Rattle.std.specs.Prelude.{◌≤◌, IfOk};

use crate::scripts::{Rows, follow};
use phase_replay::Session;
use std::alloc::{AllocError, Global};
use std::process::Abort;
use std::test::Fail;

/// Bounds past 1,100, beside powers of 2 and others.
const BOUNDS: [u64; 19] = [
    2047, 2048, 2049, 4095, 4096, 4097, 8191, 8192, 8193, 10000, 16383, 16384, 16385, 32767, 32768,
    32769, 50000, 65535, 65536,
];

// How many bytes the reply to a line has, whatever was done with the session before.
fn size_of_reply(session: &mut Session, line: &[u8]) -> Result<usize, AllocError>
    ensures { IfOk result (λ size. size ≤ 363) }
{
    let reply = session.line(line)?;
    Ok(reply.bytes().len())
}

// A phaser of this bound is made, and its founder sends, signals and waits.
fn works_at(rt: &impl Abort, alloc: Global, operator: &str, bound: u64) -> Result<(), Fail> {
    let make = format!(in alloc; "make {operator} {bound} 10")?;
    let rows: Rows<'_> = &[
        (make.as_str(), "ok"),
        ("send 0 5", "ok"),
        ("signal 0", "ok 0"),
        ("wait 0", "value 0 5"),
    ];
    let mut session = Session::new(alloc);
    follow(rt, &mut session, &make, rows)?;
    assert_eq!(rt; size_of_reply(&mut session, b"wait 0")?, 16);
    Ok(())
}

#[test]
fn phasers_of_all_bounds_are_made(rt: HostRuntime) -> Result<(), Fail> {
    for operator in ["sum", "product", "least", "greatest", "any"] {
        for bound in 1..1100u64 {
            works_at(&rt, rt.alloc(), operator, bound)?;
        }
        for bound in BOUNDS {
            works_at(&rt, rt.alloc(), operator, bound)?;
        }
    }
    Ok(())
}
