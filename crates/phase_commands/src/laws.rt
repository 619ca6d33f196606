//! Which statuses never come. The contract of the function is the law.
ghost use Rattle.std.specs.Prelude.{◌≢◌, ℕ, List};
ghost use Rattle.phase_commands.specs.Ends.{MayEndAsked};
ghost use Rattle.phase_words.specs.Answers.{MayEnd};
ghost use Rattle.phase_words.specs.CommandLine.{AreTaken, kinds_of};

use watched_io::Status;

/// Whatever the words ask for, nothing stalls, and words that are taken are not refused.
pub fn statuses()
    ensures any { (words : List (List ℕ)) (status : Status)
        → MayEnd (kinds_of words) (MayEndAsked words) status → status ≢ Status.Stalled }
    ensures taken { (words : List (List ℕ)) (status : Status)
        → MayEnd (kinds_of words) (MayEndAsked words) status
        → AreTaken words → status ≢ Status.Refused }
{}
