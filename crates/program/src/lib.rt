// The program: a model and its batches read from bytes, and a line printed for each.
#![tactic(auto)]

ghost use Rattle.std.specs.Prelude.{◌≡◌, ◌+◌, ◌*◌, ◌≤◌, ◌<◌, length};
ghost use Rattle.io.specs.Counts.{IsPrefixLen};
ghost use Rattle.lists.specs.Lists.{fill};
ghost use Rattle.rules.specs.Answers.{says};
ghost use Rattle.program_lines.specs.Penned.{Penned};
ghost use Rattle.program.specs.Program.{fresh_rooms, session_after, printed_in, printed};
ghost use Rattle.program.specs.Steps.{rooms_in, Stepped, batches_from};

use program_lines::Pen;
use rules::{Refused, Report, Session};

// The rooms of the program's session, as long as the limits ask.
#[derive(Drop)]
pub struct SessionRooms {
    pub labels: [u32; 256],
    pub equations: [u32; 32],
    pub values: [u8; 8192],
    pub marks: [u8; 8192],
    pub moves: [u32; 1024],
    pub index: [u16; 5120],
    pub queue: [u16; 8193],
}

// The rooms before a model is loaded.
fn fresh() -> SessionRooms
    ensures { rooms_in result ≡ fresh_rooms }
{
    SessionRooms {
        labels: [0; 256],
        equations: [0; 32],
        values: [0; 8192],
        marks: [0; 8192],
        moves: [0; 1024],
        index: [0; 5120],
        queue: [0; 8193],
    }
}

// The session after a batch: a refused one leaves it.
fn session_after(session: Session, said: Result<Report, Refused>) -> Session
    ensures { result ≡ session_after session (says said) }
{
    match said {
        Err(_) => session,
        Ok(report) => report.session,
    }
}

// One batch: its part handed over, and its line written. The session after it.
fn step(session: Session, part: &[u8], rooms: &mut SessionRooms, pen: &mut Pen<'_>) -> Session
    requires { pen.old.at < 2000000 }
    ensures { Stepped session (rooms_in rooms.old) part.now pen.old result (rooms_in rooms.new) pen.new }
{
    let said = call_batch::batch(
        session,
        part,
        &rooms.labels,
        &rooms.equations,
        &mut rooms.values,
        &mut rooms.marks,
        &mut rooms.moves,
        &mut rooms.index,
        &mut rooms.queue,
    );
    program_answers::put_update(pen, said, &rooms.values);
    session_after(session, said)
}

// The batches of the bytes, one after the other.
fn print_batches(first: Session, bytes: &[u8], rooms: &mut SessionRooms, pen: &mut Pen<'_>)
    requires { pen.old.at + 16 * length bytes.now < 2000000 }
    ensures { Penned pen.old (batches_from first (rooms_in rooms.old) bytes.now) pen.new × (pen.new.at ≤ pen.old.at + 16 * length bytes.now) }
{
    let mut session = first;
    let mut rest = bytes;
    while !rest.is_empty() {
        let (part, after) = rest.split_at(program_cut::first_part(rest));
        session = step(session, part, rooms, pen);
        rest = after;
    }
}

// The whole run in the rooms lent: the model's part first, and where it is accepted the batches after it.
fn print_all(input: &[u8], rooms: &mut SessionRooms, pen: &mut Pen<'_>)
    requires { (length input.now ≤ 65536) × (pen.old.at ≡ 0) }
    ensures { Penned pen.old (printed_in (rooms_in rooms.old) input.now) pen.new × (pen.new.at ≤ 16 + 16 * length input.now) }
{
    let (model, batches) = input.split_at(program_cut::first_part(input));
    let said = call_load::load(
        model,
        &mut rooms.labels,
        &mut rooms.equations,
        &mut rooms.values,
        &mut rooms.marks,
        &mut rooms.moves,
        &mut rooms.index,
        &mut rooms.queue,
    );
    program_answers::put_load(pen, said, &rooms.values);
    if let Ok(session) = said {
        print_batches(session, batches, rooms, pen);
    }
}

// All that the program prints for its input, written into the front of the output; the answer is how many bytes that is.
pub fn run(input: &[u8], out: &mut [u8]) -> usize
    requires { (length input.now ≤ 65536) × (16 + 16 * length input.now ≤ length out.old) }
    ensures out_after { out.new ≡ fill (printed input.now) out.old }
    ensures value { result ≡ length (printed input.now) }
    ensures prefix_len { IsPrefixLen result out.new }
{
    let mut rooms = fresh();
    let mut pen = Pen { out, at: 0 };
    print_all(input, &mut rooms, &mut pen);
    pen.at
}
