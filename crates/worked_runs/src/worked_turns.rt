//! The table of turns at the worked runs: what each turn makes, and what it tells.
ghost use Rattle.std.specs.Prelude.{◌≡◌, ◌≢◌, ℕ, [], ◌∷◌, Some, None, IsSome, Ok, map, pos, true, false};
ghost use Rattle.graph_base.specs.declared.place.Place.TheVariants as place;
ghost use Rattle.graph_runs.specs.Moments.{HasRun};
ghost use Rattle.graph_runs.specs.TaskEvents.{IsNext, sample};
ghost use Rattle.graph_runs.specs.Answers.{answers_in_turn, makes, turn_tells, is_stalled, answer_of_turn, after_answer, after_turns, is_refused, Moved, Ended, Blocked, Gone, TooBig};
ghost use Rattle.graph_runs.specs.Beginnings.{opening};
ghost use Rattle.graph_runs.specs.Reached.{HasBegun, IsReachable};
ghost use Rattle.graph_runs.specs.Nexts.{first_kept};
ghost use Rattle.graph_runs.specs.TaskPlaces.{StandsAt, registration_at, values};
ghost use Rattle.worked_runs.specs.Worked.{worked, worked_opening, worked_sample, worked_turns, worked_order, after_signal_on_e, with_late, before_end, worked_end, before_late, late_registers, founded, founded_exchange};
ghost use Rattle.worked_runs.specs.WorkedFaults.{faulty, faulty_moment, before_fault};
ghost use Rattle.worked_runs.specs.WorkedPlaces.{source_start, peer_start, after_peer_wait};
ghost use Rattle.worked_runs.specs.WorkedTurns.{late, late_after, with_child, child_after, crossed, crossed_after, six, seven, by_two, two_opening, two_order, two_answers};

use crate::worked_run::a_run_from_its_opening_to_its_end;
use graph_runs::turns;

/// By turns of the tasks in this order each turn makes the event that the run has next.
fn turns_make_the_run()
    ensures { answers_in_turn worked worked_opening worked_order ≡ map makes worked_turns }
{}

/// By the law the source's first sample is its next event, and late's drop, the last event of all,
/// leaves a moment that has run. So does the event by which out registers late.
fn turns_make_next_events()
    ensures childless { IsNext worked worked_opening (sample 0 0 0 1 (pos 5 ∷ [])) }
    ensures end { HasRun worked worked_end }
    ensures next { IsNext worked before_late late_registers }
    ensures keeps { HasRun worked with_late }
{
    a_run_from_its_opening_to_its_end();
    turns::turns_make_next_events();
}

/// By the laws the opening of that run is reached, as its founders have left and its tasks have the
/// modes of their lines; so are the moment after the source's first turn and the end. So no turn is
/// refused: not that of the peer at the opening, which waits, nor any of late, once it is there.
fn the_run_is_reached()
    ensures begun { HasBegun worked worked_opening }
    ensures opening { IsReachable worked worked_opening }
    ensures turn { IsReachable worked
        (after_answer worked (answer_of_turn worked worked_opening 0) worked_opening) }
    ensures turns { IsReachable worked (after_turns worked worked_opening worked_order) }
    ensures answered { answer_of_turn worked worked_opening 1 ≢ is_refused }
    ensures told { IsSome (turn_tells worked None
        (after_turns worked worked_opening worked_order) 5) }
{
    a_run_from_its_opening_to_its_end();
    turns::turns_stay_reached();
    turns::no_turn_is_refused();
}

/// The opening of its job is the one that was worked out: the founder has registered a task that
/// signals and a task that waits, and on E the peer, which does both. On Z out is number 2, and
/// late, which begins a step after it, is not there yet. By the law it is reached.
fn the_run_begins()
    ensures on_x { (opening worked).history 0 ≡ founded }
    ensures on_e { (opening worked).history 1 ≡ founded_exchange }
    ensures on_z { (opening worked).history 5 ≡ founded }
    ensures out { (opening worked).number 5 4 ≡ Some 2 }
    ensures late { (opening worked).number 5 5 ≡ None }
    ensures offset { (opening worked).offset 5 ≡ 1 }
    ensures begun { HasBegun worked (opening worked) }
    ensures reached { IsReachable worked (opening worked) }
{
    a_run_from_its_opening_to_its_end();
    turns::runs_begin();
}

/// At the opening of that run the source is registered as 1 and has begun nothing. By the laws it
/// has begun a step after its sample, while the peer, which is registered as 2, 1 and 1, stays
/// where it was; and once the peer has taken the sample 5, it owes 5 on E, its output 0.
fn places_follow_the_run()
    ensures source { StandsAt worked worked_opening 0 source_start }
    ensures peer { StandsAt worked worked_opening 1 peer_start }
    ensures begun { StandsAt worked worked_sample 0 (record source_start { begun = 1 }) }
    ensures waits { StandsAt worked worked_sample 1 peer_start }
    ensures owes { StandsAt worked after_peer_wait 1
        (record peer_start { begun = 1; owed = values 0 (Ok (pos 5) ∷ []) }) }
    ensures leaves_first { first_kept worked worked_opening 1 ≡ Some (registration_at worked 1 0) }
{
    a_run_from_its_opening_to_its_end();
    the_run_is_reached();
    turns::turns_stay_reached();
    turns::places_follow();
    turns::places_tell();
}

/// What single turns of that run tell.
fn turns_tell()
    ensures sample { turn_tells worked None worked_opening 0 ≡ Some Moved }
    ensures not_yet { turn_tells worked None worked_opening 1 ≡ Some Blocked }
    ensures not_there_yet { turn_tells worked None worked_opening 5 ≡ Some Gone }
    ensures no_such_task { turn_tells worked None worked_opening 6 ≡ Some Gone }
    ensures exchange { turn_tells worked None after_signal_on_e 1 ≡ Some Moved }
    ensures there { turn_tells worked None with_late 5 ≡ Some Blocked }
    ensures last_drop { turn_tells worked None before_end 5 ≡ Some Ended }
    ensures ended { turn_tells worked None worked_end 5 ≡ Some Gone }
{}

/// A wait for a value that is too big makes its event and tells the phase; a filter's value that is
/// too big makes none and tells the step. After it each turn tells it again.
fn values_that_are_too_big_are_told()
    ensures taken { turn_tells faulty None before_fault 2 ≡ Some (TooBig (place.Phaser 0, 0)) }
    ensures made { turn_tells faulty None faulty_moment 4 ≡ Some (TooBig (place.Task 4, 0)) }
    ensures again { turn_tells faulty (Some (place.Task 4, 0)) faulty_moment 0
        ≡ Some (TooBig (place.Task 4, 0)) }
{}

/// A sink that comes after two steps of its parent, and one that leaves after two of its own. The
/// child also comes where its parent ends with that step, and then not at all.
fn late_and_early_sinks_get_theirs()
    ensures out { (late_after 2 14).taken 1 0 ≡ pos 1 ∷ pos 2 ∷ pos 3 ∷ pos 4 ∷ [] }
    ensures late { (late_after 2 14).taken 2 0 ≡ pos 3 ∷ pos 4 ∷ [] }
    ensures early { (late_after 2 14).taken 3 0 ≡ pos 1 ∷ pos 2 ∷ [] }
    ensures gone { turn_tells (late 2) None (late_after 2 14) 1 ≡ Some Gone }
    ensures at_the_end { ((late_after 4 14).number 0 2 ≡ Some 4)
        × ((late_after 4 14).taken 2 0 ≡ []) }
    ensures past_the_end { (late_after 5 14).number 0 2 ≡ None }
{}

/// A filter's child adds its values to those of the filter, for one step.
fn a_filter_and_its_child_add_up()
    ensures out { (child_after 20).taken 3 0 ≡ pos 1 ∷ pos 3 ∷ pos 8 ∷ pos 7 ∷ [] }
    ensures gone { turn_tells with_child None (child_after 20) 3 ≡ Some Gone }
{}

/// A splitter's half and the whole of a stream on one phaser of bound 1: six samples go through,
/// and with seven each task comes to wait for another.
fn the_seventh_sample_stalls()
    ensures six { (crossed_after six 30).taken 4 0
        ≡ pos 2 ∷ pos 5 ∷ pos 8 ∷ pos 4 ∷ pos 5 ∷ pos 6 ∷ [] }
    ensures gone { turn_tells (crossed six) None (crossed_after six 30) 4 ≡ Some Gone }
    ensures over { is_stalled (crossed six) (crossed_after six 30) ≡ false }
    ensures stalled { is_stalled (crossed seven) (crossed_after seven 20) ≡ true }
{}

/// On a phaser of bound 2 a source of blocks of two signals 1 and 2 in one event. It is blocked
/// until the sink has waited, and then signals 3, which alone is left.
fn a_block_waits_for_its_room()
    ensures { answers_in_turn by_two two_opening two_order ≡ two_answers }
{}
