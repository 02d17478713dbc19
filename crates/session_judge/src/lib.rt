// What a call asks of a session before anything else, in the paper's order.
#![tactic(auto)]

ghost use Rattle.std.specs.Prelude.{◌≡◌};
ghost use Rattle.rules.specs.Rooms.{lengths_of};
ghost use Rattle.limits.specs.Lent.{lengths_by};
ghost use Rattle.session_check.specs.Lodged.{rooms_in};
ghost use Rattle.session_judge.specs.Checks.{check_of, checked_says};

use limits::Lent;
use rules::{Refusal, Session};
use session_check::SessionRooms;

// How long the rooms are that a session lies in. No rooms to work in are among them.
pub fn lengths_of(rooms: &SessionRooms) -> Lent
    ensures { lengths_by result ≡ lengths_of (rooms_in rooms.now) }
{
    Lent {
        labels: rooms.labels.len(),
        equations: rooms.equations.len(),
        values: rooms.values.len(),
        marks: rooms.marks.len(),
        moves: rooms.moves.len(),
        index: 0,
        queue: 0,
    }
}

// What a batch and a writing ask of a session, in order: 12 for the sizes, 13 for the rooms, 12 for the rest. `work` says whether
// the rooms to work in are long enough; a writing has none and says yes.
#[tactic(auto, unfolding(rules::specs::Session::counts_ok, session_check::specs::Tested::counts_by))]
pub fn session_refusal(session: Session, rooms: &SessionRooms, work: bool) -> Result<(), Refusal>
    ensures { checked_says result ≡ check_of work session (rooms_in rooms.now) }
{
    let sizes = session.sizes;
    if !session_check::counts_ok(session, rooms.moves.len()) {
        return Err(Refusal::NotAModel);
    }
    if !(limits::rooms_ok(lengths_of(rooms), sizes) & work) {
        return Err(Refusal::ShortRoom);
    }
    if !session_check::rest_ok(session, rooms) {
        return Err(Refusal::NotAModel);
    }
    Ok(())
}
