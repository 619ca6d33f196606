//! Which statuses come of which words. The contract of the function is the law.
ghost use Rattle.std.specs.Prelude.{◌≡◌, ◌≢◌, ℕ, List};
ghost use Rattle.phase.specs.Ends.{MayEndAsRun};
ghost use Rattle.phase_words.specs.Answers.{MayEnd};
ghost use Rattle.phase_words.specs.RunLine.{AreRunTaken, run_kinds_of};

use watched_io::Status;

/// Whatever the words are, those that are taken are not refused, and these alone stall.
pub fn statuses()
    ensures taken { (words : List (List ℕ)) (status : Status)
        → MayEnd (run_kinds_of words) MayEndAsRun status
        → AreRunTaken words → status ≢ Status.Refused }
    ensures stalled { (words : List (List ℕ)) (status : Status)
        → MayEnd (run_kinds_of words) MayEndAsRun status
        → status ≡ Status.Stalled → AreRunTaken words }
{}
