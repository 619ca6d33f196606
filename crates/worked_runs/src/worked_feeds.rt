//! Runs whose samples come in pieces: what was taken is sure, where the whole lists are not.
ghost use Rattle.std.specs.Prelude.{◌≡◌, [], ◌∷◌, None, Some, Ok, pos, true};
ghost use Rattle.graph_runs.specs.Answers.{turn_tells, Moved, Blocked};
ghost use Rattle.graph_runs.specs.Feeds.{call_of, is_starved, hungers, calls};
ghost use Rattle.graph_runs.specs.Nexts.{registers, samples};
ghost use Rattle.stream_lists.specs.Jobs.{with_samples};
ghost use Rattle.stream_lists.specs.Ranges.{answer_of};
ghost use Rattle.worked_runs.specs.WorkedFeeds.{all_open, one_of_b, one_taken, two_of_b, helped_once, before_the_child, behind_the_child};

/// With one sample of b the list of out is 11 2 3, and with two it is 11 22 3: neither begins the
/// other. What out has taken begins both, as long as b may get samples: it waits for phase 1, and b
/// is hungry. The second sample lets b signal.
fn what_was_taken_begins_both_lists()
    ensures fewer { answer_of one_of_b ≡ Ok ((2, pos 11 ∷ pos 2 ∷ pos 3 ∷ []) ∷ []) }
    ensures more { answer_of (with_samples two_of_b one_of_b)
        ≡ Ok ((2, pos 11 ∷ pos 22 ∷ pos 3 ∷ []) ∷ []) }
    ensures taken { one_taken.taken 2 0 ≡ pos 11 ∷ [] }
    ensures waits { turn_tells one_of_b None one_taken 2 ≡ Some Blocked }
    ensures hungry { call_of one_of_b all_open one_taken 1 ≡ hungers }
    ensures not_hungry { call_of one_of_b all_open one_taken 0 ≡ calls samples }
    ensures fed { call_of (with_samples two_of_b one_of_b) all_open one_taken 1 ≡ calls samples }
    ensures goes_on { turn_tells (with_samples two_of_b one_of_b) None one_taken 1 ≡ Some Moved }
{}

/// A source that has signalled its only sample registers the child that is due there, and only then
/// is it hungry. The child has samples.
fn a_child_comes_before_hunger()
    ensures starved { is_starved helped_once before_the_child 0 ≡ true }
    ensures child { call_of helped_once all_open before_the_child 0 ≡ calls (registers 1) }
    ensures hungry { call_of helped_once all_open behind_the_child 0 ≡ hungers }
    ensures there { call_of helped_once all_open behind_the_child 1 ≡ calls samples }
{}
