// The four calls for other languages. A session lies in a room as eight numbers, an answer is one number, and a report is
// three numbers in a room; what the calls leave stands in specs/Boundary.antt.
#![tactic(auto)]

ghost use Rattle.std.specs.Prelude.{◌≡◌};
ghost use Rattle.rules.specs.Rooms.{rooms_of, rooms_with};
ghost use Rattle.boundary.specs.Boundary.{loaded_to, batched_to, wrote_to, load_call, batch_call, write_call, ask_call};

use rules::{State, Variable};

// The answer of a call whose room for the session or the report is too short: 13 at place 0, a number as C's functions answer it.
const SHORT: u64 = 13;

// How many numbers a session is.
const SESSION: usize = 8;

// How many numbers a report is.
const REPORT: usize = 3;

// A model loaded into the rooms lent, and its session into the session's. In all four calls the rooms are parameters, as C lends them.
#[unsafe(no_mangle)]
pub extern "C" fn huepaxochi_load(
    bytes: &[u8],
    session: &mut [u32],
    labels: &mut [u32],
    equations: &mut [u32],
    values: &mut [u8],
    marks: &mut [u8],
    moves: &mut [u32],
    index: &mut [u16],
    queue: &mut [u16],
) -> u64
    ensures { loaded_to result session.new (rooms_with labels.new equations.new values.new marks.new moves.new index.new queue.new)
        ≡ load_call session.old (rooms_with labels.old equations.old values.old marks.old moves.old index.old queue.old) bytes.now }
{
    if session.len() < SESSION {
        return SHORT;
    }
    let found = call_load::load(bytes, labels, equations, values, marks, moves, index, queue);
    boundary_numbers::keep_loaded(found, session)
}

// A batch of changes applied to the session lent; what it came to goes into the room of the report.
#[unsafe(no_mangle)]
pub extern "C" fn huepaxochi_batch(
    session: &mut [u32],
    bytes: &[u8],
    labels: &[u32],
    equations: &[u32],
    values: &mut [u8],
    marks: &mut [u8],
    moves: &mut [u32],
    index: &mut [u16],
    queue: &mut [u16],
    report: &mut [i64],
) -> u64
    ensures { batched_to result session.new (rooms_with labels.now equations.now values.new marks.new moves.new index.new queue.new) report.new
        ≡ batch_call session.old (rooms_with labels.now equations.now values.old marks.old moves.old index.old queue.old) report.old bytes.now }
{
    if (session.len() < SESSION) | (report.len() < REPORT) {
        return SHORT;
    }
    let before = boundary_numbers::session_of(session);
    let found = call_batch::batch(
        before, bytes, labels, equations, values, marks, moves, index, queue,
    );
    boundary_numbers::keep_updated(found, session, report)
}

// The model that the session holds, written into the front of the output.
#[unsafe(no_mangle)]
pub extern "C" fn huepaxochi_write(
    session: &[u32],
    labels: &[u32],
    equations: &[u32],
    values: &[u8],
    marks: &[u8],
    moves: &[u32],
    out: &mut [u8],
) -> u64
    ensures { wrote_to result out.new
        ≡ write_call session.now (rooms_of labels.now equations.now values.now marks.now moves.now) out.old }
{
    if session.len() < SESSION {
        return SHORT;
    }
    let held = boundary_numbers::session_of(session);
    let found = call_write::write(held, labels, equations, values, marks, moves, out);
    boundary_numbers::tell_written(found)
}

// The value of one pair.
#[unsafe(no_mangle)]
pub extern "C" fn huepaxochi_ask(session: &[u32], values: &[u8], state: u16, variable: u8) -> u64
    ensures { result ≡ ask_call session.now values.now state variable }
{
    if session.len() < SESSION {
        return SHORT;
    }
    let asked = call_ask::ask(
        boundary_numbers::session_of(session),
        values,
        State(state),
        Variable(variable),
    );
    boundary_numbers::tell_asked(asked)
}
