// The call that loads a model: read and judged, stored in the rooms lent, and its values found.
#![tactic(auto)]

ghost use Rattle.std.specs.Prelude.{◌≡◌};
ghost use Rattle.rules.specs.Rooms.{rooms_with};
ghost use Rattle.rules.specs.Calls.{load, leaves};
ghost use Rattle.rules.specs.Answers.{says};

use limits::Lent;
use rules::{Refused, Session};

// A model loaded: refused where the reading refuses it, with the rooms left as they were; else its session, with the values
// found and the marks and the rooms to work in cleared.
// The rooms are parameters, as C lends them: behind a `&mut` to a struct of `&mut` slices the check covers no call that is lent two of them.
pub fn load(
    bytes: &[u8],
    labels: &mut [u32],
    equations: &mut [u32],
    values: &mut [u8],
    marks: &mut [u8],
    moves: &mut [u32],
    index: &mut [u16],
    queue: &mut [u16],
) -> Result<Session, Refused>
    ensures { leaves (says result) (rooms_with labels.new equations.new values.new marks.new moves.new index.new queue.new)
        ≡ load (rooms_with labels.old equations.old values.old marks.old moves.old index.old queue.old) bytes.now }
{
    let lent = Lent {
        labels: labels.len(),
        equations: equations.len(),
        values: values.len(),
        marks: marks.len(),
        moves: moves.len(),
        index: index.len(),
        queue: queue.len(),
    };
    let found = model_store::read_model(bytes, lent, labels, equations, moves)?;
    let sizes = found.sizes;
    let n = found.moves as usize;
    engine::load_values(
        sizes, labels, equations, moves, n, values, marks, index, queue,
    );
    let stamp = moves::stamp_of(&moves[..n]);
    Ok(Session {
        sizes,
        live: found.live,
        moves: found.moves,
        stamp,
    })
}
