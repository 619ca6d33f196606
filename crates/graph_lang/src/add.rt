//! What a line adds to the graph.
ghost use Rattle.std.specs.Prelude.{◌≡◌, ◌++◌, ◌∷◌, [], IsTrue, IfOk, IfSome, OnOk, None, length, true, is_some, ◌&&◌};
ghost use Rattle.std.specs.Option.{option_map_or};
ghost use Rattle.std.specs.List.{list_all};
ghost use Rattle.phase_base.specs.Numbers.{is_nat};
ghost use Rattle.phase_base.specs.Words.{is_name, is_file};
ghost use Rattle.graph_text.specs.Decls.{IsBody, IsBy};
ghost use Rattle.graph_text.specs.Lines.{body_of, ends_of, by_of, word_of};
ghost use Rattle.graph_text.specs.declared.version.Version.TheVariants.{Three};
ghost use Rattle.graph_base.specs.GraphFields.{task_of};
ghost use Rattle.graph_base.specs.Names.{files_of, place_of};
ghost use Rattle.graph_lang.specs.WordValues.{files_in, task_line, inputs_of, outputs_of};
ghost use Rattle.graph_lang.specs.Faults.{is_phaser, is_parent_known, phasers_of};
ghost use Rattle.graph_lang.specs.Reading.{AreNumbersOf, steps_in};

use crate::body::{input_numbers, kind_of, output_numbers};
use crate::draft::{Draft, add_name};
use crate::parents::{joins_now, parent_of};
use crate::within::{EndNumbers, Numbers};
use graph_base::{Op, PhaserLine, Place, TaskLine};
use graph_text::{Body, TaskWords, file_text, name_text};
use phase_accum::Single;
use std::alloc::{AllocError, Global};

/// Adds the file of a task, where it is a source.
fn add_file(alloc: Global, files: &mut Vec<String>, body: Body<'_, '_>) -> Result<(), AllocError>
    requires { IsBody Three (body_of body) }
    ensures { OnOk result (files_of files.new.items
        ≡ files_of files.old.items ++ files_in (body_of body.entry)) }
{
    if let Body::Source(file, _) = body {
        let file = String::from_str(alloc, file_text(file))?;
        files.push(file)?;
    }
    Ok(())
}

impl Draft {
    /// Adds a phaser of a new name.
    pub(crate) fn add_phaser(
        &mut self,
        alloc: Global,
        name: &[u8],
        op: Op,
        bound: u64,
        single: Option<Single>,
    ) -> Result<(), AllocError>
        requires name { IsTrue (is_name name.now) }
        requires new { place_of self.old.names name.now ≡ None }
        ensures { OnOk result (self.new ≡ record self.old {
          names = self.old.names ++ (name.now, Place.Phaser (length self.old.phasers)) ∷ [];
          phasers = self.old.phasers ++ record { op = op; bound = bound; single = single } ∷ [];
        }) }
    {
        let place = Place::Phaser(self.phasers.len());
        self.phasers.push(PhaserLine { op, bound, single })?;
        add_name(alloc, &mut self.names, name_text(name), place)
    }

    /// The line of a task with these numbers, as line `number`, where its phasers and its parent
    /// were declared.
    pub(crate) fn task_line(
        &self,
        alloc: Global,
        number: u64,
        words: TaskWords<'_, '_>,
        numbers: Numbers,
        steps: EndNumbers,
    ) -> Result<Option<TaskLine>, AllocError>
        requires body { IsBody Three (body_of words.body) }
        requires inputs { IsTrue (list_all is_name (inputs_of (body_of words.body))) }
        requires outputs { IsTrue (list_all is_name (outputs_of (body_of words.body))) }
        requires by { IfSome (by_of words.ends.by) IsBy }
        requires numbers { AreNumbersOf numbers (body_of words.body) }
        requires steps { steps ≡ steps_in (ends_of words.ends) }
        ensures known { IfOk result (λ found. is_some found
            ≡ (list_all (is_phaser self.now.names) (phasers_of (body_of words.entry.body))
            && is_parent_known self.now.names (by_of words.entry.ends.by))) }
        ensures line { IfOk result (λ found. IfSome found (λ line. task_of line
            ≡ task_line self.now.names number (body_of words.entry.body)
            (ends_of words.entry.ends))) }
    {
        let Some(parent) = parent_of(&self.names, words.ends.by, steps.at) else {
            return Ok(None);
        };
        let Some(inputs) = input_numbers(alloc, &self.names, words.body)? else {
            return Ok(None);
        };
        let Some(outputs) = output_numbers(alloc, &self.names, words.body)? else {
            return Ok(None);
        };
        Ok(Some(TaskLine {
            line: number,
            kind: kind_of(words.body),
            inputs,
            outputs,
            parent,
            until: steps.until,
            taps: numbers.taps,
            form: numbers.form,
            mul: numbers.factor,
            every: numbers.every,
            block: steps.block,
            joins_now: joins_now(words.ends.by),
        }))
    }

    /// Adds a task of a new name, and its file where it is a source.
    pub(crate) fn add_task(
        &mut self,
        alloc: Global,
        name: &[u8],
        body: Body<'_, '_>,
        line: TaskLine,
    ) -> Result<(), AllocError>
        requires name { IsTrue (is_name name.now) }
        requires body { IsBody Three (body_of body) }
        requires new { place_of self.old.names name.now ≡ None }
        ensures { OnOk result (self.new ≡ record self.old {
          names = self.old.names ++ (name.now, Place.Task (length self.old.tasks)) ∷ [];
          tasks = self.old.tasks ++ task_of line ∷ [];
          files = self.old.files ++ files_in (body_of body.entry);
        }) }
    {
        let place = Place::Task(self.tasks.len());
        add_name(alloc, &mut self.names, name_text(name), place)?;
        self.tasks.push(line)?;
        add_file(alloc, &mut self.files, body)
    }
}
