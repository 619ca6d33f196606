//! Which word of a line a fault marks, and what was expected there.

use crate::above::{Above, declares};
use crate::below::Below;
use crate::explain_parts::Part;
use crate::grammar::{Known, Reading};
use crate::limits::{count_passed, limit_passed, steps_of};
use crate::meeting_place::MeetingPlace;
use crate::wanted::Wanted;
use graph_lang::FaultKind;
use graph_text::Version;
use phase_accum::MAGNITUDE_MAX;
use phase_base::int;
use std::alloc::{AllocError, Global};

/// The number of a word of the line, counted from 0, and what was expected in its place.
#[derive(Clone, Copy)]
pub(crate) struct Mark<'a> {
    pub(crate) word: usize,
    pub(crate) wanted: Wanted<'a>,
}

impl<'a> Mark<'a> {
    /// This word, and this text.
    fn text(word: usize, text: &'static str) -> Mark<'a> {
        Mark {
            word,
            wanted: Wanted::text(text),
        }
    }
}

/// The first word of these that fails a test of words, or the first word of the line. Where tasks
/// meet, `meeting` tells where they do, if it is known.
pub(crate) fn mark_of<'a>(
    alloc: Global,
    kind: FaultKind,
    reading: &Reading<'_, 'a>,
    above: &Above<'a>,
    below: &Below<'_, 'a>,
    meeting: Option<MeetingPlace<'a>>,
) -> Result<Mark<'a>, AllocError> {
    let found = reading.found.as_slice();
    let mark = match kind {
        FaultKind::Syntax => syntax_mark(reading),
        FaultKind::Limit => limit_mark(found, above.version()),
        FaultKind::Twice => twice_mark(found, above),
        FaultKind::Unknown => return unknown_mark(alloc, found, above, below),
        FaultKind::OutBeforeIn => order_mark(found, above),
        FaultKind::BadParent => parent_mark(found, parent_wanted(above.version())),
        FaultKind::NotHeld => held_mark(found, above),
        FaultKind::OverBound => block_mark(found, above),
        FaultKind::AnyMeets => meeting_mark(found, above, meeting),
    };
    Ok(mark)
}

/// Whether the last of these words is an arrow that was taken for the name of a file.
fn is_behind_file_arrow(found: &[Known<'_>]) -> bool {
    match found.last() {
        Some((part, word)) => matches!(*part, Part::File) && *word == b"->".as_slice(),
        None => false,
    }
}

/// Whether the last of these words is the name of a file.
fn is_behind_file(found: &[Known<'_>]) -> bool {
    match found.last() {
        Some((part, _)) => matches!(*part, Part::File),
        None => false,
    }
}

/// The first word that is not in the grammar, or an arrow that was taken for the name of a file.
fn syntax_mark<'a>(reading: &Reading<'_, 'a>) -> Mark<'a> {
    let word = reading.found.len();
    if is_behind_file_arrow(&reading.found) {
        return Mark::text(word.saturating_sub(1), "the name of a file before `->`");
    }
    if is_behind_file(&reading.found) && reading.has_arrow() {
        return Mark::text(word, "`->`: the name of a file is one word, without blanks");
    }
    if reading.wants_two() {
        return Mark::text(word, "text 2 for this word: `graph 2` as the first line");
    }
    if reading.wants_three() {
        return Mark::text(word, "text 3 for this word: `graph 3` as the first line");
    }
    if let Some(wanted) = misplaced(reading) {
        return Mark::text(word, wanted);
    }
    let wanted = reading.wanted.wanted_for(reading.next());
    Mark { word, wanted }
}

/// What is said of a word that stands elsewhere in other lines, or in other languages.
fn misplaced(reading: &Reading<'_, '_>) -> Option<&'static str> {
    let word = reading.next();
    match reading.wanted {
        Part::Kind | Part::LaterKind if word == b"graph".as_slice() => {
            Some("no `graph` here: it is the first line of a text alone")
        }
        Part::Input if reading.is_of(b"sink") && word == b"->".as_slice() => {
            Some("the name of a phaser: a sink's line has no arrow")
        }
        Part::End(_) if reading.has(b"until") && word == b"by".as_slice() => {
            Some("the end of the line: `by` stands before `until`")
        }
        _ => None,
    }
}

/// How many words of a line are counted together with this part.
fn count_of(found: &[Known<'_>], part: Part) -> usize {
    let mut count = 0usize;
    for (other, _) in found {
        if part.is_repeated() && other.is_repeated() {
            count = count.saturating_add(1);
        }
    }
    count
}

/// The first number past its limit, or the first of too many or too few words.
fn limit_mark<'a>(found: &[Known<'a>], version: Version) -> Mark<'a> {
    let mut number = 0usize;
    for word in 0..found.len() {
        let (part, text) = found[word];
        if let Some(wanted) = limit_passed(part, text) {
            return Mark::text(word, wanted);
        }
        if let Some(wanted) = count_passed(part, number, count_of(found, part), version) {
            return Mark::text(word, wanted);
        }
        number = if part.is_repeated() {
            number.saturating_add(1)
        } else {
            0
        };
    }
    end_mark(found)
}

/// The value of this word, or 0 where it is past the limit of a value.
fn value_of(word: &[u8]) -> i64 {
    int(word, MAGNITUDE_MAX).unwrap_or(0)
}

/// The high end of a clamp that is below the low one, or the first word of a line for which the
/// graph has no room.
fn end_mark<'a>(found: &[Known<'a>]) -> Mark<'a> {
    let mut low = 0;
    for word in 0..found.len() {
        match found[word] {
            (Part::Low, end) => low = value_of(end),
            (Part::High, end) if value_of(end) < low => {
                return Mark::text(word, "an end that is not below the other");
            }
            _ => {}
        }
    }
    Mark::text(0, "at most 64 phasers and 64 tasks")
}

/// Whether one of these words is the same phaser.
fn is_among(found: &[Known<'_>], name: &[u8]) -> bool {
    for (part, word) in found {
        if (part.is_input() || part.is_output()) && *word == name {
            return true;
        }
    }
    false
}

/// The name that was declared before, or the phaser that stands twice.
fn twice_mark<'a>(found: &[Known<'a>], above: &Above<'a>) -> Mark<'a> {
    for word in 0..found.len() {
        let (part, name) = found[word];
        if matches!(part, Part::Own) && above.place_of(name).is_some() {
            let line = above.line_of(name);
            let wanted = Wanted::with_line(
                "a name that no line above declares",
                line,
                " declares it",
            );
            return Mark { word, wanted };
        }
        if (part.is_input() || part.is_output()) && is_among(&found[..word], name) {
            return Mark::text(word, "a phaser that does not stand on the line already");
        }
    }
    Mark::text(1, "another name")
}

/// The phaser or the parent that no line above declares.
fn unknown_mark<'a>(
    alloc: Global,
    found: &[Known<'a>],
    above: &Above<'a>,
    below: &Below<'_, 'a>,
) -> Result<Mark<'a>, AllocError> {
    for word in 0..found.len() {
        let (part, name) = found[word];
        if (part.is_input() || part.is_output()) && !above.is_phaser(name) {
            let wanted = if declares(found, name) {
                task_for_phaser(name)
            } else {
                phaser_wanted(alloc, name, above, below)?
            };
            return Ok(Mark { word, wanted });
        }
        if matches!(part, Part::Parent) && !above.is_task(name) {
            let wanted = task_wanted(alloc, name, above, below)?;
            return Ok(Mark { word, wanted });
        }
    }
    Ok(Mark::text(1, "names that lines above declare"))
}

/// What is wanted of a phaser, where the name is that of a task.
fn task_for_phaser(name: &[u8]) -> Wanted<'_> {
    Wanted::with_word(
        "a phaser that a line above declares",
        ": ",
        name,
        " is a task",
    )
}

/// What is wanted of a phaser, where no line above declares one of this name.
fn phaser_wanted<'a>(
    alloc: Global,
    name: &'a [u8],
    above: &Above<'a>,
    below: &Below<'_, 'a>,
) -> Result<Wanted<'a>, AllocError> {
    let wanted = "a phaser that a line above declares";
    if above.is_task(name) {
        return Ok(task_for_phaser(name));
    }
    if let Some(found) = below.declared(alloc, name)? {
        let behind = if found.is_phaser {
            " declares it, below"
        } else {
            " declares it, as a task"
        };
        return Ok(Wanted::with_line(wanted, found.line, behind));
    }
    Ok(nearest_wanted(wanted, above.nearest(name, true)))
}

/// What is wanted of a parent, where no line above declares a task of this name.
fn task_wanted<'a>(
    alloc: Global,
    name: &'a [u8],
    above: &Above<'a>,
    below: &Below<'_, 'a>,
) -> Result<Wanted<'a>, AllocError> {
    let wanted = "a task that a line above declares";
    if above.is_phaser(name) {
        return Ok(Wanted::with_word(wanted, ": ", name, " is a phaser"));
    }
    if let Some(found) = below.declared(alloc, name)? {
        let behind = if found.is_phaser {
            " declares it, as a phaser"
        } else {
            " declares it, below"
        };
        return Ok(Wanted::with_line(wanted, found.line, behind));
    }
    Ok(nearest_wanted(wanted, above.nearest(name, false)))
}

/// This text, and the name that is near, where there is one.
fn nearest_wanted<'a>(wanted: &'static str, near: Option<&'a [u8]>) -> Wanted<'a> {
    match near {
        Some(name) => Wanted::with_word(wanted, ": is `", name, "` meant?"),
        None => Wanted::text(wanted),
    }
}

/// The lowest line that declares an input of a task, or E of a peer where `exchange` is asked for.
fn lowest_input(found: &[Known<'_>], above: &Above<'_>) -> usize {
    let mut lowest = 0usize;
    for (part, name) in found {
        if part.is_input() {
            if let Some(place) = above.place_of(name) {
                if place > lowest {
                    lowest = place;
                }
            }
        }
    }
    lowest
}

/// What is wanted of an output.
const NO_FEEDBACK: &str =
    "a phaser that is declared below those before it on the line: a graph has no feedback";

/// The output that is declared above an input.
fn order_mark<'a>(found: &[Known<'a>], above: &Above<'_>) -> Mark<'a> {
    let mut lowest = lowest_input(found, above);
    for word in 0..found.len() {
        let (part, name) = found[word];
        if part.is_output() {
            let place = above.place_of(name).unwrap_or(0);
            if place < lowest {
                return Mark::text(word, NO_FEEDBACK);
            }
            if matches!(part, Part::Exchange) {
                lowest = place;
            }
        }
    }
    Mark::text(1, "outputs that are declared below the inputs")
}

/// The parent.
fn parent_mark<'a>(found: &[Known<'a>], wanted: &'static str) -> Mark<'a> {
    for word in 0..found.len() {
        if let (Part::Parent, _) = found[word] {
            return Mark::text(word, wanted);
        }
    }
    Mark::text(1, wanted)
}

/// What is wanted of a parent in a text of this version.
fn parent_wanted(version: Version) -> &'static str {
    match version {
        Version::One => "a source, a filter or a sink, which have children",
        Version::Two => "a source, a filter, or a sink that does not join now, which have children",
        Version::Three => {
            "a source, a filter, a delay, or a sink that does not join now, which have children"
        }
    }
}

/// What is wanted of a block of so many steps, and the first phaser of its line with a lower bound.
fn block_wanted<'a>(found: &[Known<'a>], above: &Above<'_>, steps: u64) -> Wanted<'a> {
    let wanted = "at most as many steps as the bound of each phaser of the line";
    for (part, name) in found {
        let bound = above.bound_of(name);
        if (part.is_input() || part.is_output()) && bound < steps {
            return Wanted::with_number(wanted, ": ", name, " has bound ", bound.into());
        }
    }
    Wanted::text(wanted)
}

/// The block that is above a bound.
fn block_mark<'a>(found: &[Known<'a>], above: &Above<'_>) -> Mark<'a> {
    for word in 0..found.len() {
        if let (Part::Block, block) = found[word] {
            let wanted = block_wanted(found, above, steps_of(block));
            return Mark { word, wanted };
        }
    }
    Mark::text(
        1,
        "at most as many steps as the bound of each phaser of the line",
    )
}

/// The output with a single, or the parent that lacks what its child needs.
fn held_mark<'a>(found: &[Known<'a>], above: &Above<'_>) -> Mark<'a> {
    for word in 0..found.len() {
        let (part, name) = found[word];
        if matches!(part, Part::Output | Part::Outputs) && above.has_single(name) {
            let wanted = "a phaser with no single";
            return Mark::text(word, wanted);
        }
    }
    parent_mark(
        found,
        "a task that waits for what this one waits for, and signals what it signals",
    )
}

/// How many outputs of a task there are on which it may meet another.
fn meeting_count(found: &[Known<'_>], above: &Above<'_>) -> usize {
    let mut count = 0usize;
    for (part, name) in found {
        if part.is_output() && above.may_meet(*name) {
            count = count.saturating_add(1);
        }
    }
    count
}

/// This word and this text, and where tasks meet there, if it is known, or else the line that
/// signals the phaser, where its number is not 0.
fn met_mark<'a>(
    word: usize,
    text: &'static str,
    line: usize,
    meeting: Option<MeetingPlace<'a>>,
) -> Mark<'a> {
    if let Some(place) = meeting {
        let wanted = Wanted::with_meeting(text, place);
        return Mark { word, wanted };
    }
    if line == 0 {
        return Mark::text(word, text);
    }
    let wanted = Wanted::with_line(text, line, " signals it");
    Mark { word, wanted }
}

/// The output on which the task meets another, where it is known, or the only one on which it may;
/// else the task.
fn meeting_mark<'a>(
    found: &[Known<'a>],
    above: &Above<'_>,
    meeting: Option<MeetingPlace<'a>>,
) -> Mark<'a> {
    let is_only = meeting_count(found, above) == 1;
    for word in 0..found.len() {
        let (part, name) = found[word];
        let is_known = match meeting {
            Some(place) => place.phaser.as_bytes() == name,
            None => is_only && above.may_meet(name),
        };
        if part.is_output() && is_known {
            let wanted = "a phaser that no task of a line above signals in the same phase";
            return met_mark(word, wanted, above.only_signaller(name), meeting);
        }
    }
    Mark::text(
        1,
        "outputs that no task of a line above signals in the same phase",
    )
}
