//! Reading the lines of a graph's text.
ghost use Rattle.std.specs.Prelude.{◌≡◌, IfOk, IfErr, IfSome, OnOk, Ok, Err, Some, None, is_some, not, false};
ghost use Rattle.graph_text.specs.Decls.{IsWellFormedBy};
ghost use Rattle.phase_base.specs.Words.{is_name};
ghost use Rattle.graph_text.specs.Lines.{decl_of, single_of, body_of, ends_of};
ghost use Rattle.graph_text.specs.Plain.{plain};
ghost use Rattle.graph_text.specs.Texts.{lines_of, words_of_line, is_ignored};
ghost use Rattle.graph_text.specs.declared.version.Version.TheVariants.{Three};
ghost use Rattle.graph_text.specs.declared.line.Line.TheVariants as line;
ghost use Rattle.graph_lang.specs.WordValues.{phaser_line};
ghost use Rattle.graph_lang.specs.Faults.{kind_of, is_past_limit};
ghost use Rattle.graph_lang.specs.Reading.{AreNumbersOf, steps_in, TellsDecl, TellsFault, version_in, version_behind, version_at, line_read};
ghost use Rattle.graph_lang.specs.Reads.{Steps, Tells};

use crate::body::phaser_words;
use crate::draft::{Draft, place_of};
use crate::fault::{FaultKind, GraphRefusal, fault};
use crate::within::{EndNumbers, Numbers, numbers_of, phaser_line, steps_of};
use graph_base::{Graph, PHASERS_MAX, PhaserLine, TASKS_MAX};
use graph_text::{
    Line, PhaserWords, TaskWords, Version, are_printable, begins_comment, heading_of, line_at,
    lines_of, name_text, without_cr, words_of,
};
use std::alloc::{AllocError, Global};

impl Draft {
    /// The line of a phaser, or the first kind of fault of its words.
    fn phaser_line(&self, words: PhaserWords<'_>, version: Version) -> Result<PhaserLine, FaultKind>
        requires { IsWellFormedBy is_name Three (decl_of (line.Phaser words)) }
        ensures ok { IfOk result (λ found. found ≡ phaser_line words.entry.operation
            words.entry.bound.now (single_of words.entry.single)) }
        ensures none { IfOk result (λ found.
            kind_of version self.now (decl_of (line.Phaser words.entry)) ≡ None) }
        ensures err { IfErr result (λ kind.
            Some kind ≡ kind_of version self.now (decl_of (line.Phaser words.entry))) }
    {
        let Some(line) = phaser_line(words) else {
            return Err(FaultKind::Limit);
        };
        if self.phasers.len() >= PHASERS_MAX {
            return Err(FaultKind::Limit);
        }
        if place_of(&self.names, name_text(words.name)).is_some() {
            return Err(FaultKind::Twice);
        }
        Ok(line)
    }

    /// The numbers of a task's line, where each is within its limit and there is room for the task.
    fn numbers(
        &self,
        alloc: Global,
        words: TaskWords<'_, '_>,
        version: Version,
    ) -> Result<Option<(Numbers, EndNumbers)>, AllocError>
        requires { IsWellFormedBy is_name Three (decl_of (line.Task words)) }
        ensures within { IfOk result (λ found. is_some found
            ≡ not (is_past_limit version self.now (decl_of (line.Task words.entry)))) }
        ensures numbers { IfOk result (λ found. IfSome found (λ both.
            AreNumbersOf both.0 (body_of words.entry.body))) }
        ensures steps { IfOk result (λ found. IfSome found (λ both.
            both.1 ≡ steps_in (ends_of words.entry.ends))) }
    {
        if self.tasks.len() >= TASKS_MAX {
            return Ok(None);
        }
        let Some(steps) = steps_of(words.ends) else {
            return Ok(None);
        };
        match numbers_of(alloc, words.body, version)? {
            None => Ok(None),
            Some(numbers) => Ok(Some((numbers, steps))),
        }
    }

    /// Declares a phaser as line `number`.
    fn declare_phaser(
        &mut self,
        alloc: Global,
        number: u64,
        words: PhaserWords<'_>,
        version: Version,
    ) -> Result<(), GraphRefusal>
        requires { IsWellFormedBy is_name Three (decl_of (line.Phaser words)) }
        ensures ok { OnOk result
            (TellsDecl version number self.old (decl_of (line.Phaser words.entry)) (Ok self.new)) }
        ensures fault { IfErr result (λ e.
            TellsDecl version number self.old (decl_of (line.Phaser words.entry)) (Err e)) }
    {
        match self.phaser_line(words, version) {
            Err(kind) => Err(fault(number, kind)),
            Ok(line) => {
                self.add_phaser(alloc, words.name, line.op, line.bound, line.single)?;
                Ok(())
            }
        }
    }

    /// Declares a task as line `number`.
    fn declare_task(
        &mut self,
        alloc: Global,
        number: u64,
        words: TaskWords<'_, '_>,
        version: Version,
    ) -> Result<(), GraphRefusal>
        requires { IsWellFormedBy is_name Three (decl_of (line.Task words)) }
        ensures ok { OnOk result
            (TellsDecl version number self.old (decl_of (line.Task words.entry)) (Ok self.new)) }
        ensures fault { IfErr result (λ e.
            TellsDecl version number self.old (decl_of (line.Task words.entry)) (Err e)) }
    {
        let Some((numbers, steps)) = self.numbers(alloc, words, version)? else {
            return Err(fault(number, FaultKind::Limit));
        };
        let phasers = phaser_words(alloc, words.body)?;
        if self.is_twice(words.name, &phasers) {
            return Err(fault(number, FaultKind::Twice));
        }
        let Some(task) = self.task_line(alloc, number, words, numbers, steps)? else {
            return Err(fault(number, FaultKind::Unknown));
        };
        if let Some(kind) = self.last_kind(&task) {
            return Err(fault(number, kind));
        }
        self.add_task(alloc, words.name, words.body, task)?;
        Ok(())
    }

    /// Declares what a line of a text of this version, as line `number`, says.
    fn declare(
        &mut self,
        alloc: Global,
        number: u64,
        line: Line<'_, '_>,
        version: Version,
    ) -> Result<(), GraphRefusal>
        requires { IsWellFormedBy is_name Three (decl_of line) }
        ensures ok { OnOk result
            (TellsDecl version number self.old (decl_of line.entry) (Ok self.new)) }
        ensures fault { IfErr result (λ e.
            TellsDecl version number self.old (decl_of line.entry) (Err e)) }
    {
        match line {
            Line::Phaser(words) => self.declare_phaser(alloc, number, words, version),
            Line::Task(words) => self.declare_task(alloc, number, words, version),
        }
    }

    /// Reads line `number` of a text of this version, by its words; it is not ignored.
    fn read_words(
        &mut self,
        alloc: Global,
        number: u64,
        line: &[u8],
        words: &[&[u8]],
        version: Version,
    ) -> Result<(), GraphRefusal>
        requires words { plain words.now ≡ words_of_line line.now }
        requires read { is_ignored line.now ≡ false }
        ensures ok { OnOk result (Steps version number self.old line.now (Ok self.new)) }
        ensures fault { IfErr result (TellsFault version number self.old line.now) }
    {
        if !are_printable(line) {
            return Err(fault(number, FaultKind::Syntax));
        }
        match line_at(words, version) {
            None => Err(fault(number, FaultKind::Syntax)),
            Some(declared) => self.declare(alloc, number, declared, version),
        }
    }

    /// Reads line `number`, where the version of the text is known from the lines above or not yet,
    /// and answers what is known then.
    fn read_line(
        &mut self,
        alloc: Global,
        number: u64,
        line: &[u8],
        known: Option<Version>,
    ) -> Result<Option<Version>, GraphRefusal>
        ensures version { IfOk result (λ next. next ≡ version_behind known line.now) }
        ensures ok { OnOk result
            (Steps (version_at known) number self.old (line_read known line.now) (Ok self.new)) }
        ensures fault { IfErr result
            (TellsFault (version_at known) number self.old (line_read known line.now)) }
    {
        let words = words_of(alloc, line)?;
        if begins_comment(&words) {
            return Ok(known);
        }
        let Some(version) = version_in(known, &words) else {
            return Ok(heading_of(&words));
        };
        self.read_words(alloc, number, line, &words, version)?;
        Ok(Some(version))
    }
}

/// The version in which a line of these words is read, where this one is known from the lines
/// above; none of a heading, which tells it.
fn version_in(known: Option<Version>, words: &[&[u8]]) -> Option<Version>
    ensures { result ≡ version_in known (plain words.now) }
{
    match known {
        Some(version) => Some(version),
        None if heading_of(words).is_some() => None,
        None => Some(Version::One),
    }
}

/// Reads the graph that the lines of a text declare, or tells the first line with a fault and the
/// first kind of fault that it has.
///
/// Lines are counted from 1 on, with those that are empty or a comment. A text may have any length.
/// It takes memory for the graph, and until it answers for the places of the lines and words.
///
/// ```text
/// phaser X sum 4              phaser 0, with a bound of 4
/// source s s.csv -> X         task 0, and source 0
/// sink out X                  task 1
/// sink late X by out at 2     task 2, which task 1 registers after 2 steps
/// sink early Y                Fault(GraphFault { line: 5, kind: FaultKind::Unknown })
/// ```
///
/// The first line of a text of the second version is `graph 2`, but for those that are ignored. Its
/// tasks may have blocks, and its sinks may join now.
///
/// ```text
/// graph 2                     the heading: no phaser, and no task
/// phaser X sum 4
/// source s s.csv -> X block=4 task 0, whose blocks have at most 4 steps
/// sink out X
/// sink late X by out at 2 now task 2, which joins now
/// sink wide X block=5         Fault(GraphFault { line: 6, kind: FaultKind::OverBound })
/// ```
///
/// One of the third version begins with `graph 3`. It may have all of these, filters that add to
/// their sums before they shift, weigh older samples and what they put, and apply a single, with up
/// to 1,024 taps, delays, which are filters, and decimators.
///
/// ```text
/// graph 3
/// phaser X sum 4
/// phaser Y sum 4
/// fir f X -> Y shift 2 plus 2 taps 1
/// delay d X -> Y of 1000      task 1, a filter of one tap
/// decimate e X -> Y every 3   task 2
/// fir sum X -> Y shift 0 taps 1 again 1 single clamp -9 9     a running sum
/// delay of X -> Y of 2        Fault(GraphFault { line: 8, kind: FaultKind::Syntax })
/// ```
pub fn read_graph(alloc: Global, text: &[u8]) -> Result<Graph, GraphRefusal>
    ensures { Tells (lines_of text.now) result }
{
    let mut draft = Draft::new(alloc);
    let lines = lines_of(alloc, text)?;
    let mut number = 1u64;
    let mut version = None;
    for line in &lines {
        version = draft.read_line(alloc, number, without_cr(line), version)?;
        number += 1;
    }
    Ok(draft.into_graph())
}
