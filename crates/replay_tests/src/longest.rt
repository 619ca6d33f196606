//! How long the longest line is that is read, and the longest reply.
use phase_accum::Outcome;
use phase_replay::{Outcomes, Reply, ReplyLine};
use phase_script::{LINE_MAX, REPLY_MAX, VALUES_MAX};
use std::alloc::Global;
use std::test::Fail;

// The text, and the least value as often as a block has phases at most.
fn with_values(alloc: Global, start: &str) -> Result<String, Fail> {
    let mut text = String::new(alloc);
    text.push_str(start)?;
    for _ in 0..VALUES_MAX {
        text.push_str(" -9223372036854775807")?;
    }
    Ok(text)
}

// The reply with the least value in each of as many phases as a block has at most.
fn longest_reply() -> ReplyLine {
    let mut outcomes = Outcomes::new();
    for _ in 0..VALUES_MAX {
        if outcomes.as_slice().len() < VALUES_MAX {
            outcomes.push(Outcome::Value(-9223372036854775807));
        }
    }
    let phase = 9223372036854775807;
    let mut reply = ReplyLine::new();
    reply.write(Reply::Values { phase }, &outcomes);
    reply
}

#[test]
fn the_longest_line_and_reply(rt: HostRuntime) -> Result<(), Fail> {
    let line = with_values(rt.alloc(), "block 9223372036854775807")?;
    assert_eq!(rt; (line.len(), LINE_MAX), (361, 361));
    let mut text = with_values(rt.alloc(), "values 9223372036854775807")?;
    text.push_str("\n")?;
    assert_eq!(rt; longest_reply().bytes(), text.as_bytes());
    assert_eq!(rt; (text.len(), REPLY_MAX), (363, 363));
    Ok(())
}
