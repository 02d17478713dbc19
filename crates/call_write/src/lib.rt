// The call that writes the model a session holds, whole: for any rooms, what is answered and what the output holds after.
#![tactic(auto)]

ghost use Rattle.std.specs.Prelude.{◌≡◌};
ghost use Rattle.rules.specs.Calls.{leaves, write};
ghost use Rattle.rules.specs.Answers.{says};
ghost use Rattle.rules.specs.Rooms.{rooms_of};

use rules::{Refusal, Refused, Session};
use session_check::SessionRooms;

// The model's spelling, written into the front of the output. It is refused 12 for the counts, 13 for the rooms, 12 for the
// rest of the session and 13 for the room of the output; where it is refused, the output stays. The rooms are cut to their lengths
// here.
//
// The rooms are parameters, as C lends them.
pub fn write<'a>(
    session: Session,
    labels: &'a [u32],
    equations: &'a [u32],
    values: &'a [u8],
    marks: &'a [u8],
    moves: &'a [u32],
    out: &mut [u8],
) -> Result<usize, Refused>
    ensures { leaves (says result) out.new ≡ write session (rooms_of labels.now equations.now values.now marks.now moves.now) out.old }
{
    let rooms = SessionRooms {
        labels,
        equations,
        values,
        marks,
        moves,
    };
    session_judge::session_refusal(session, &rooms, true)?;
    let states = session.sizes.states as usize;
    let variables = session.sizes.variables as usize;
    let count = session.moves as usize;
    let n = model_write::spelled_length(session, &labels[..states]);
    if out.len() < n {
        return Err(Refusal::ShortRoom.into());
    }
    model_write::write_model(
        &mut out[..n],
        session,
        &labels[..states],
        &equations[..variables],
        &moves[..count],
    );
    Ok(n)
}
