// The update: a batch of changes, whole. The session is checked, the bytes are read and judged, and then the moves, the
// values, the marks and the stamp follow the changes.
#![tactic(auto)]

ghost use Rattle.std.specs.Prelude.{◌≡◌, true, ◌≤◌, length};
ghost use Rattle.rules.specs.Limits.{most_changes};
ghost use Rattle.rules.specs.Batch.{changes_ok};
ghost use Rattle.rules.specs.Records.{accepted};
ghost use Rattle.rules.specs.Answers.{says};
ghost use Rattle.rules.specs.Calls.{batch, leaves};
ghost use Rattle.words.specs.Words.{changes_of};
ghost use Rattle.batch_judge.specs.Judging.{batch_in};
ghost use Rattle.rules.specs.Rooms.{rooms_with};
ghost use Rattle.call_batch.specs.Moving.{Sane, Able};
ghost use Rattle.call_batch.specs.Reports.{batch_of, batch_read, batch_bytes};

use limits::Lent;
use rules::{Refused, Report, Session};
use session_check::SessionRooms;

// The changes made: the moves first, then the values and the marks, and the stamp.
// The rooms are parameters, as C lends them: behind a `&mut` to a struct of `&mut` slices the check covers no call that is lent two of them.
fn move_on(
    session: Session,
    changes: &[u32],
    labels: &[u32],
    equations: &[u32],
    values: &mut [u8],
    marks: &mut [u8],
    moves: &mut [u32],
    index: &mut [u16],
    queue: &mut [u16],
) -> Report
    requires { Able session (rooms_with labels.now equations.now values.old marks.old moves.old index.old queue.old) (changes_of changes.now) }
    ensures { leaves (accepted result) (rooms_with labels.now equations.now values.new marks.new moves.new index.new queue.new)
        ≡ batch_of session (rooms_with labels.now equations.now values.old marks.old moves.old index.old queue.old) (changes_of changes.now) }
{
    let n = batch_apply::apply(changes, moves, session.moves as usize);
    let done = engine::update(
        session.sizes,
        labels,
        equations,
        moves,
        n,
        changes,
        values,
        marks,
        index,
        queue,
    );
    let held = n as u32;
    let after = Session {
        sizes: session.sizes,
        live: session.live,
        moves: held,
        stamp: batch_judge::carried(session.stamp, changes),
    };
    Report {
        session: after,
        visits: done.visits,
        net: done.net,
    }
}

// A batch that was read: 11, 9, 7 and 8, 10, or 16, or it is applied.
fn judge_on(
    session: Session,
    changes: &[u32],
    stamp: u32,
    labels: &[u32],
    equations: &[u32],
    values: &mut [u8],
    marks: &mut [u8],
    moves: &mut [u32],
    index: &mut [u16],
    queue: &mut [u16],
) -> Result<Report, Refused>
    requires sane { Sane session (rooms_with labels.now equations.now values.old marks.old moves.old index.old queue.old) }
    requires changes_len_bound { (length changes.now ≤ most_changes) × (changes_ok session.sizes (changes_of changes.now) ≡ true) }
    ensures { leaves (says result) (rooms_with labels.now equations.now values.new marks.new moves.new index.new queue.new)
        ≡ batch_read session (rooms_with labels.now equations.now values.old marks.old moves.old index.old queue.old)
        (batch_in stamp changes.now) }
{
    let room = moves.len();
    let n = session.moves as usize;
    batch_judge::judge_batch(session, changes, stamp, &moves[..n], room)?;
    Ok(move_on(
        session, changes, labels, equations, values, marks, moves, index, queue,
    ))
}

// The bytes read: 1 to 4, or what the batch that they spell comes to.
fn read_on(
    session: Session,
    bytes: &[u8],
    labels: &[u32],
    equations: &[u32],
    values: &mut [u8],
    marks: &mut [u8],
    moves: &mut [u32],
    index: &mut [u16],
    queue: &mut [u16],
) -> Result<Report, Refused>
    requires { Sane session (rooms_with labels.now equations.now values.old marks.old moves.old index.old queue.old) }
    ensures { leaves (says result) (rooms_with labels.now equations.now values.new marks.new moves.new index.new queue.new)
        ≡ batch_bytes session (rooms_with labels.now equations.now values.old marks.old moves.old index.old queue.old) bytes.now }
{
    let mut changes = [0u32; limits::MOST_CHANGES];
    let read = batch_read::read_batch(bytes, session.sizes, &mut changes)?;
    judge_on(
        session,
        &changes[..read.changes],
        read.stamp,
        labels,
        equations,
        values,
        marks,
        moves,
        index,
        queue,
    )
}

// A batch, whole: the answer, and what every room holds afterwards.
pub fn batch(
    session: Session,
    bytes: &[u8],
    labels: &[u32],
    equations: &[u32],
    values: &mut [u8],
    marks: &mut [u8],
    moves: &mut [u32],
    index: &mut [u16],
    queue: &mut [u16],
) -> Result<Report, Refused>
    ensures { leaves (says result) (rooms_with labels.now equations.now values.new marks.new moves.new index.new queue.new)
        ≡ batch session (rooms_with labels.now equations.now values.old marks.old moves.old index.old queue.old) bytes.now }
{
    let rooms = SessionRooms {
        labels,
        equations,
        values: &*values,
        marks: &*marks,
        moves: &*moves,
    };
    let lent = Lent {
        index: index.len(),
        queue: queue.len(),
        ..session_judge::lengths_of(&rooms)
    };
    let work = limits::work_ok(lent, session.sizes);
    let found = session_judge::session_refusal(session, &rooms, work);
    found?;
    read_on(
        session, bytes, labels, equations, values, marks, moves, index, queue,
    )
}
