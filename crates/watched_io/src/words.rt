//! The words of the process, without the program's own name.
ghost use Rattle.std.specs.Prelude.{◌≡◌, ◌≢◌, codes};
ghost use Rattle.std.specs.IoError.{error_kind};
ghost use Rattle.watched_io.specs.declared.fault.IoFault.TheVariants as fault;
ghost use Rattle.watched_io.specs.Statuses.{Reports, Says};
ghost use Rattle.watched_io.specs.States.{writer_state};

use crate::status::{Status, report};
use crate::{IoFault, Watched};
use std::env::Env;
use std::io::{ErrorKind, Write};
use std::{env, io};

/// The words of the process, without the program's own name.
pub fn own_words<R: Env + Alloc>(rt: &R) -> io::Result<Vec<String<R::A>, R::A>> {
    let mut words = env::args(rt)?;
    let _own_name = words.next();
    Ok(words.collect(rt.alloc())?)
}

/// Reports that the process's own words could not be read, and answers the status: 5 where memory
/// ran out, and 2 elsewhere, with the text that a word is not UTF-8.
pub fn refuse_words<E: Write>(error: &io::Error, faults: &mut Watched<E>) -> Status
    ensures memory { error_kind error.now ≡ ErrorKind.OutOfMemory → result ≡ Status.Failed }
    ensures refused { error_kind error.now ≢ ErrorKind.OutOfMemory → result ≡ Status.Refused }
    ensures fault { result ≡ Status.Failed → Reports fault.OutOfMemory
        (writer_state E.contents faults.old) (writer_state E.contents faults.new) }
    ensures text { result ≡ Status.Refused
        → Says (codes "error: a word of the command line is not UTF-8\n")
        (writer_state E.contents faults.old) (writer_state E.contents faults.new) }
{
    if error.kind() == ErrorKind::OutOfMemory {
        return report(IoFault::OutOfMemory, faults);
    }
    let _ = faults.send(b"error: a word of the command line is not UTF-8\n");
    Status::Refused
}
