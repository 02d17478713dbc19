// Sessions, answers and reports as plain numbers, for callers in other languages. What they mean stands in
// specs/Numbers.antt.
#![tactic(auto)]

ghost use Rattle.std.specs.Prelude.{◌≡◌, ◌≤◌, min, length, get_or};
ghost use Rattle.lists.specs.Lists.{bit, fill};
ghost use Rattle.rules.specs.Records.{accepted};
ghost use Rattle.rules.specs.Answers.{number_of, says};
ghost use Rattle.boundary_numbers.specs.Numbers.{session_in, session_numbers, session_after, moved_to, report_after, packed, told};

use rules::{Refusal, Refused, Report, Session, Sizes, Visits};

// The most that a field of one byte holds.
const BYTE: u16 = 255;

// A number of a room, or the most that its field holds where it is larger.
fn number_in(room: &[u32], at: usize, most: u16) -> u16
    ensures { result ≡ min (get_or room.now at 0) most }
{
    let n = rooms::at_or(room, at, 0);
    u16::try_from(n).unwrap_or(u16::MAX).min(most)
}

// The session that the numbers in a room stand for.
pub fn session_of(room: &[u32]) -> Session
    ensures { result ≡ session_in room.now }
{
    let sizes = Sizes {
        states: number_in(room, 0, u16::MAX),
        actions: number_in(room, 1, BYTE) as u8,
        propositions: number_in(room, 2, BYTE) as u8,
        variables: number_in(room, 3, BYTE) as u8,
        blocks: number_in(room, 4, BYTE) as u8,
    };
    Session {
        sizes,
        live: number_in(room, 7, BYTE) as u8,
        moves: rooms::at_or(room, 5, 0),
        stamp: rooms::at_or(room, 6, 0),
    }
}

// The paper's number for a refusal. A function and no `From`: `u32::from(why)` would not say which number it is.
pub fn number_of(why: Refusal) -> u32
    ensures { result ≡ number_of why }
{
    match why {
        Refusal::Broken => 1,
        Refusal::NotDue => 2,
        Refusal::BadSize => 3,
        Refusal::BadNumber => 4,
        Refusal::Tangled => 5,
        Refusal::OutOfOrder => 6,
        Refusal::Present => 7,
        Refusal::Absent => 8,
        Refusal::NamedTwice => 9,
        Refusal::Full => 10,
        Refusal::WrongStamp => 11,
        Refusal::NotAModel => 12,
        Refusal::ShortRoom => 13,
        Refusal::Hangs => 16,
    }
}

// Two numbers in one, of the second its low 32 bits.
fn pack(low: u32, high: usize) -> u64
    ensures { result ≡ packed low high }
{
    u64::from(low) + 4294967296 * (high as u64 % 4294967296)
}

// A refusal and its place as one number.
fn tell_refused(refused: Refused) -> u64
    ensures { result ≡ packed (number_of refused.why) refused.place }
{
    pack(number_of(refused.why), refused.place)
}

// The eight numbers of a session into the front of a room that has place for them.
fn keep_session(room: &mut [u32], session: Session)
    requires { 8 ≤ length room.old }
    ensures { room.new ≡ fill (session_numbers session) room.old }
{
    let sizes = session.sizes;
    let numbers = [
        u32::from(sizes.states),
        u32::from(sizes.actions),
        u32::from(sizes.propositions),
        u32::from(sizes.variables),
        u32::from(sizes.blocks),
        session.moves,
        session.stamp,
        u32::from(session.live),
    ];
    room[..8].copy_from_slice(&numbers);
}

// The three numbers of a report into the front of a room that has place for them.
fn keep_report(room: &mut [i64], report: Report)
    requires { 3 ≤ length room.old }
    ensures { room.new ≡ report_after room.old (accepted report) }
{
    let Visits { shift, settle } = report.visits;
    let numbers = [i64::from(shift), i64::from(settle), i64::from(report.net)];
    room[..3].copy_from_slice(&numbers);
}

// What each of the four calls answered is told by a function of its own: what is accepted is kept or told differently by each.

// What a load answered, as a number; its session is kept where there is one.
pub fn keep_loaded(found: Result<Session, Refused>, session: &mut [u32]) -> u64
    requires { 8 ≤ length session.old }
    ensures { (result ≡ told (λ _. 0) (says found)) × (session.new ≡ session_after session.old (says found)) }
{
    match found {
        Err(refused) => tell_refused(refused),
        Ok(after) => {
            keep_session(session, after);
            0
        }
    }
}

// What a batch answered, as a number; its session and its report are kept where there are any.
pub fn keep_updated(found: Result<Report, Refused>, session: &mut [u32], report: &mut [i64]) -> u64
    requires in_bounds { 8 ≤ length session.old }
    requires in_bounds_2 { 3 ≤ length report.old }
    ensures { (result ≡ told (λ _. 0) (says found)) × (session.new ≡ session_after session.old (moved_to (says found)))
        × (report.new ≡ report_after report.old (says found)) }
{
    match found {
        Err(refused) => tell_refused(refused),
        Ok(after) => {
            keep_session(session, after.session);
            keep_report(report, after);
            0
        }
    }
}

// What a writing answered, as a number.
pub fn tell_written(found: Result<usize, Refused>) -> u64
    ensures { result ≡ told (λ n. n) (says found) }
{
    match found {
        Err(refused) => tell_refused(refused),
        Ok(n) => pack(0, n),
    }
}

// What a question answered, as a number.
pub fn tell_asked(found: Result<bool, Refused>) -> u64
    ensures { result ≡ told bit (says found) }
{
    match found {
        Err(refused) => tell_refused(refused),
        Ok(v) => pack(0, usize::from(v)),
    }
}
