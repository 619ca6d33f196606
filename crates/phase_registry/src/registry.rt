//! The registered tasks with their entries.
ghost use Rattle.std.specs.Prelude.{◌≡◌, ◌≢◌, ◌<◌, ◌≤◌, ◌+◌, ◌^◌, ◌∷◌, [], None, Some, IsSome, IfSome, is_some, OnOk, OnErr, IfOk, IfErr, length, if◌then◌else◌};
ghost use Rattle.phase_base.specs.declared.entry.Entry.{Entry};
ghost use Rattle.phase_base.specs.Members.{entry_of, changed_at, without, signalled, waited, signal_phases, wait_phases, least, lesser};
ghost use Rattle.phase_registry.specs.Rosters.{Roster, roster, add_refusal, added, next_after, AreRising};
ghost use Rattle.phase_registry.specs.NumberPlaces.{IsAt, IsGapFor};

use crate::refusal::AddRefusal;
use phase_base::{Entry, MEMBERS_MAX, Member, Mode};
use std::alloc::Global;
use std::marker::Model;

/// The registered tasks of a phaser, by their numbers, with their entries.
///
/// A number is used once: each task that is added has a number above all before it. A look-up is a
/// binary search, or where no number between the first one's and it is missing, one step.
#[derive(Drop)]
pub struct Registry {
    members: Vec<Member>,
    greatest: Option<u64>,
    signallers: u64,
    waiters: u64,
}

impl Model for Registry {
    ghost use Rattle.phase_registry.specs.Rosters.{Roster, roster, IsRoster};

    ghost Value = { Roster };

    ghost view = { λ r. roster r.members.items r.greatest };

    ghost invariant = { λ r. IsRoster r.members.items r.greatest r.signallers r.waiters };
}

/// 1 where it is so, else 0.
fn one_if(is_so: bool) -> u64
    ensures { result ≡ (if is_so then 1 else 0) }
{
    if is_so { 1 } else { 0 }
}

/// The least of what was least so far and a phase, where the phase counts.
fn lower(least: Option<u64>, counts: bool, phase: u64) -> Option<u64>
    ensures { result ≡ (if counts then Some (lesser phase least) else least) }
{
    if !counts {
        return least;
    }
    match least {
        Some(other) => Some(phase.min(other)),
        None => Some(phase),
    }
}

impl Registry {
    /// Makes a registry of no task. It takes no memory.
    pub fn new(alloc: Global) -> Registry
        ensures { result ≡ roster [] None }
    {
        Registry {
            members: Vec::new(alloc),
            greatest: None,
            signallers: 0,
            waiters: 0,
        }
    }

    /// Returns the registered tasks with their entries, in the order in which they joined.
    pub fn members(&self) -> &[Member]
        ensures members { result.now ≡ self.now.members }
        ensures few { length self.now.members ≤ MEMBERS_MAX }
    {
        &self.members
    }

    /// Where a task is, or where it would be. While no number between is missing, each stands as
    /// far behind the first as its number is above that one's, so this place is looked at first.
    fn search(&self, number: u64) -> Result<usize, usize>
        ensures found { IfOk result (IsAt self.now.members number) }
        ensures absent { IfErr result (IsGapFor self.now.members number) }
    {
        let first = match self.members.first() {
            Some(member) => member.task,
            None => 0,
        };
        let place = number.saturating_sub(first) as usize;
        if place < self.members.len() && self.members[place].task == number {
            return Ok(place);
        }
        self.members
            .binary_search_by_key(&number, |member| member.task)
    }

    /// Returns a task's entry, where it is registered.
    pub fn get(&self, number: u64) -> Option<Entry>
        ensures entry { result ≡ entry_of self.now.members number }
        ensures few { length self.now.members ≤ MEMBERS_MAX }
        ensures rising { AreRising self.now.members }
    {
        match self.search(number) {
            Ok(place) => Some(self.members[place].entry),
            Err(_) => None,
        }
    }

    /// Why a number would not be added, memory apart.
    fn refusal(&self, number: u64) -> Option<AddRefusal>
        ensures { result ≡ add_refusal self.now number }
    {
        if let Some(greatest) = self.greatest
            && number <= greatest
        {
            return Some(AddRefusal::NotNew);
        }
        if self.members.len() as u64 >= MEMBERS_MAX {
            return Some(AddRefusal::TooManyTasks);
        }
        None
    }

    /// Registers a task, in a mode and at a signal phase and a wait phase. It may take memory,
    /// which it asks for last.
    pub fn add(
        &mut self,
        number: u64,
        mode: Mode,
        signal_phase: u64,
        wait_phase: u64,
    ) -> Result<(), AddRefusal>
        ensures ok { OnOk result (add_refusal self.old number ≡ None) }
        ensures added { OnOk result (self.new ≡ added number
            (record { mode = mode; signal_phase = signal_phase; wait_phase = wait_phase })
            self.old) }
        ensures refused { IfErr result (λ e. e ≢ AddRefusal.OutOfMemory
            → add_refusal self.old number ≡ Some e) }
        // Want of memory is answered last: only where the task would be added.
        ensures out_of_memory { IfErr result (λ e. e ≡ AddRefusal.OutOfMemory
            → add_refusal self.old number ≡ None) }
        ensures err { OnErr result (self.new ≡ self.old) }
    {
        if let Some(refusal) = self.refusal(number) {
            return Err(refusal);
        }
        let member = Member {
            task: number,
            entry: Entry {
                mode,
                signal_phase,
                wait_phase,
            },
        };
        let Ok(()) = self.members.push(member) else {
            return Err(AddRefusal::OutOfMemory);
        };
        self.greatest = Some(number);
        self.signallers += one_if(mode.signals());
        self.waiters += one_if(mode.waits());
        Ok(())
    }

    /// Ends a task's registration, and tells whether it was registered. Its number stays used.
    pub fn remove(&mut self, number: u64) -> bool
        ensures found { result ≡ is_some (entry_of self.old.members number) }
        ensures members { self.new
            ≡ roster (without number self.old.members) self.old.greatest }
    {
        let Ok(place) = self.search(number) else {
            return false;
        };
        let Member { entry, .. } = self.members.remove(place);
        self.signallers -= one_if(entry.mode.signals());
        self.waiters -= one_if(entry.mode.waits());
        true
    }

    /// Counts so many more signalled phases of a task.
    pub fn signalled(&mut self, number: u64, phases: u64)
        requires member { IsSome (entry_of self.old.members number) }
        requires below { IfSome (entry_of self.old.members number)
            (λ entry. entry.signal_phase + phases < 2 ^ 64) }
        ensures { self.new
            ≡ roster (changed_at number (signalled phases) self.old.members) self.old.greatest }
    {
        if let Ok(place) = self.search(number) {
            self.members[place].entry.signal_phase += phases;
        }
    }

    /// Counts so many more phases that a task waited for.
    pub fn waited(&mut self, number: u64, phases: u64)
        requires member { IsSome (entry_of self.old.members number) }
        requires below { IfSome (entry_of self.old.members number)
            (λ entry. entry.wait_phase + phases < 2 ^ 64) }
        ensures { self.new
            ≡ roster (changed_at number (waited phases) self.old.members) self.old.greatest }
    {
        if let Ok(place) = self.search(number) {
            self.members[place].entry.wait_phase += phases;
        }
    }

    /// Returns how many tasks are registered.
    pub fn tasks(&self) -> u64
        ensures { result ≡ length self.now.members }
    {
        self.members.len() as u64
    }

    /// Returns how many tasks are registered that signal.
    pub fn signallers(&self) -> u64
        ensures { result ≡ length (signal_phases self.now.members) }
    {
        self.signallers
    }

    /// Returns how many tasks are registered that wait.
    pub fn waiters(&self) -> u64
        ensures { result ≡ length (wait_phases self.now.members) }
    {
        self.waiters
    }

    /// Returns the least signal phase of the tasks that signal, where one is registered. It looks
    /// at each task.
    pub fn least_signal(&self) -> Option<u64>
        ensures { result ≡ least (signal_phases self.now.members) }
    {
        let mut least = None;
        for member in &self.members {
            least = lower(
                least,
                member.entry.mode.signals(),
                member.entry.signal_phase,
            );
        }
        least
    }

    /// Returns the least wait phase of the tasks that wait, where one is registered. It looks at
    /// each task.
    pub fn least_wait(&self) -> Option<u64>
        ensures { result ≡ least (wait_phases self.now.members) }
    {
        let mut least = None;
        for member in &self.members {
            least = lower(least, member.entry.mode.waits(), member.entry.wait_phase);
        }
        least
    }

    /// Returns the number above every number that was ever added, where one is left: 0 at first,
    /// and none once 2^64 - 1 was added.
    pub fn next_number(&self) -> Option<u64>
        ensures { result ≡ next_after self.now.greatest }
    {
        match self.greatest {
            Some(greatest) => greatest.checked_add(1),
            None => Some(0),
        }
    }
}
