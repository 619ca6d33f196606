//! Scripts, and sessions that are handed them line by line.
use phase_replay::{ReplyLine, Session};
use std::process::Abort;
use std::test::Fail;

/// Lines, each beside its reply.
pub type Rows<'a> = &'a [(&'a str, &'a str)];

fn reply_to(session: &mut Session, line: &str) -> Result<ReplyLine, Fail> {
    Ok(session.line(line.as_bytes())?)
}

// The reply without its line end.
fn text_of(reply: &ReplyLine) -> &[u8] {
    reply.bytes().strip_suffix(b"\n").unwrap_or(b"no line end")
}

// Hands the line to the session, which must answer with the reply.
fn answers(
    rt: &impl Abort,
    session: &mut Session,
    name: &str,
    (line, reply): (&str, &str),
) -> Result<(), Fail> {
    let got = reply_to(session, line)?;
    assert_eq!(rt; text_of(&got), reply.as_bytes(), "{name} at '{line}'");
    Ok(())
}

/// Hands the lines to the session, each of which must have its reply.
pub fn follow(
    rt: &impl Abort,
    session: &mut Session,
    name: &str,
    rows: Rows<'_>,
) -> Result<(), Fail> {
    for row in rows {
        answers(rt, session, name, *row)?;
    }
    Ok(())
}
