//! The peer of the worked run alone, by the laws of parts: from its beginning to where it owes its
//! value on Y.
ghost use Rattle.std.specs.Prelude.{pos, [], ◌∷◌};
ghost use Rattle.phase_history.specs.declared.event.Event.TheVariants.{Waited};
ghost use Rattle.graph_runs.specs.Moments.{Moment};
ghost use Rattle.graph_runs.specs.Parts.{AreNextValues};
ghost use Rattle.worked_runs.specs.Worked.{worked};
ghost use Rattle.worked_runs.specs.WorkedParts.{PeerKnows, peer_seen, x_before, e_before, e_signalled, peer_begins, peer_owes_e, peer_exchanges, peer_owes_y};

use graph_runs::{beginnings, parts as laws, places};

/// Registered on X, E and Y, it begins.
fn the_peer_begins()
    ensures { (m : Moment) × PeerKnows m peer_begins (peer_seen 0) (peer_seen 1) }
{
    beginnings::roots_begin();
}

/// It waits on X, takes 5, and owes it on E.
fn the_peer_waits_on_x()
    ensures { (m : Moment) → PeerKnows m peer_begins (peer_seen 0) (peer_seen 1)
        → (after : Moment) × PeerKnows after peer_owes_e (Waited 2 1 ∷ x_before) (peer_seen 1) }
{
    laws::gets();
    places::tells_next();
    places::follow();
}

/// It signals 5 on E, and waits there next.
fn the_peer_signals_e()
    ensures { (m : Moment) → PeerKnows m peer_owes_e (Waited 2 1 ∷ x_before) (peer_seen 1)
        → (after : Moment) × PeerKnows after peer_exchanges (Waited 2 1 ∷ x_before) e_signalled }
{
    laws::puts();
    places::tells_next();
    places::follow();
}

/// It waits on E, gets 5, and owes 10 on Y, which is its next value there.
fn the_peer_waits_on_e()
    ensures place { (m : Moment) → PeerKnows m peer_exchanges (Waited 2 1 ∷ x_before) e_signalled
        → (after : Moment)
        × PeerKnows after peer_owes_y (Waited 2 1 ∷ x_before) (Waited 1 1 ∷ e_signalled) }
    ensures next { (m : Moment)
        → PeerKnows m peer_owes_y (Waited 2 1 ∷ x_before) (Waited 1 1 ∷ e_signalled)
        → AreNextValues worked m 1 1 2 (pos 10 ∷ []) }
{
    laws::gets();
    places::tells_next();
    places::follow();
}
