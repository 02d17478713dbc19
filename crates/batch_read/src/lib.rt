// A batch on the wire, read and judged up to refusal 4.
#![tactic(auto)]

ghost use Rattle.std.specs.Prelude.{◌≡◌, true, ◌+◌, ◌≤◌, ◌<◌, length};
ghost use Rattle.rules.specs.Limits.{most_changes};
ghost use Rattle.batch_read.specs.Reading.{change_turn, end_turn, ReadInto};
ghost use Rattle.batch_read.specs.Going.{put_change, Begins, Follows, Going};
ghost use Rattle.batch_read.specs.Passing.{GoodChange, with_change, change_put, ChangesPut, Within, Forwarded};
ghost use Rattle.bytes_read.specs.Places.{record_at};

use bytes_read::{Kind, Reader, refused};
use rules::{Move, Record, Refusal, Refused, Sizes};
use std::ops::ControlFlow;

// Of a batch that was read: its stamp, and how many changes it has.
#[derive(Clone, Copy, Debug, PartialEq, Eq)]
pub struct Summary {
    pub stamp: u32,
    pub changes: usize,
}

// A batch half read: its stamp, how many changes there are so far, the last of them, and where the next record stands.
#[derive(Clone, Copy, Debug, PartialEq, Eq)]
pub struct HalfRead {
    pub stamp: u32,
    pub count: usize,
    pub change: u32,
    pub at: usize,
}

// One record read and judged: the end of the reading with what it comes to, or the batch half read.
pub type ChangeTurn = ControlFlow<Result<Summary, Refused>, HalfRead>;

// Where changes are read: how many so far, and where the next record stands.
#[derive(Clone, Copy, Debug, PartialEq, Eq)]
pub struct ChangeRun {
    pub count: usize,
    pub at: usize,
}

// A change after others: not the 65th, and in range.
#[tactic(auto, unfolding(crate::specs::Reading::change_turn))]
fn change_turn(z: Sizes, h: HalfRead, m: Move, insert: bool, next: usize) -> ChangeTurn
    ensures { result ≡ change_turn z h.stamp h.count m insert h.at next }
{
    let n = h.count;
    if !(n < limits::MOST_CHANGES) {
        return refused(Refusal::BadSize, h.at);
    }
    if !limits::move_ok(z, m) {
        return refused(Refusal::BadNumber, h.at);
    }
    ControlFlow::Continue(HalfRead {
        stamp: h.stamp,
        count: n + 1,
        change: words::change_of(m, insert),
        at: next,
    })
}

// After the end record: any byte is not due.
#[tactic(auto, unfolding(crate::specs::Reading::end_turn))]
fn end_turn(h: HalfRead, next: usize, len: usize) -> ChangeTurn
    ensures { result ≡ end_turn h.stamp h.count next len }
{
    if next < len {
        return refused(Refusal::NotDue, next);
    }
    ControlFlow::Break(Ok(Summary {
        stamp: h.stamp,
        changes: h.count,
    }))
}

// What was read at the place of the turn before, judged: the turn after it. A reading that is over stays as it is.
fn turn(read: Option<(Record, usize)>, z: Sizes, t: ChangeTurn, len: usize) -> ChangeTurn
    ensures { Follows z read t len result }
{
    let h = t?;
    let Some((rec, next)) = read else {
        return refused(Refusal::Broken, h.at);
    };
    match rec {
        Record::Insert(m) => change_turn(z, h, m, true, next),
        Record::Delete(m) => change_turn(z, h, m, false, next),
        Record::End => end_turn(h, next, len),
        _ => refused(Refusal::NotDue, h.at),
    }
}

// The first record: the stamp.
fn first_turn(read: Option<(Record, usize)>) -> ChangeTurn
    ensures { (z : Sizes) → Begins z read result }
{
    let Some((rec, at)) = read else {
        return refused(Refusal::Broken, 0);
    };
    let Record::Stamp(stamp) = rec else {
        return refused(Refusal::NotDue, 0);
    };
    ControlFlow::Continue(HalfRead {
        stamp,
        count: 0,
        change: 0,
        at,
    })
}

// The change of a turn, put down after those of the turn before it.
fn put_change(changes: &mut [u32], t: ChangeTurn, u: ChangeTurn)
    ensures { changes.new ≡ put_change t u changes.old }
{
    if let (ControlFlow::Continue(h), ControlFlow::Continue(g)) = (t, u) {
        rooms::put(changes, h.count, g.change);
    }
}

// Whether a good change stands next.
fn good_change(bytes: &[u8], z: Sizes, x: ChangeRun) -> bool
    requires { x.at ≤ length bytes.now }
    ensures { result ≡ true → GoodChange bytes.now z x }
{
    let at = x.at;
    if bytes.len() - at < 6 {
        return false;
    }
    let kind = bytes[at];
    let m = bytes_read::move_at(bytes, at + 1);
    (x.count < limits::MOST_CHANGES)
        & ((kind == Kind::Insert as u8) | (kind == Kind::Delete as u8))
        & limits::move_ok(z, m)
}

// The change that stands next, put down: past it.
fn put_next(bytes: &[u8], changes: &mut [u32], x: ChangeRun) -> ChangeRun
    requires { (x.at + 6 ≤ length bytes.now) × (x.count < most_changes) }
    ensures { (result ≡ with_change x) × (changes.new ≡ change_put bytes.now x changes.old) }
{
    let at = x.at;
    let n = x.count;
    let insert = bytes[at] == Kind::Insert as u8;
    let m = bytes_read::move_at(bytes, at + 1);
    rooms::put(changes, n, words::change_of(m, insert));
    ChangeRun {
        count: n + 1,
        at: at + 6,
    }
}

// All good changes that stand next, put down: past them.
fn changes_run(bytes: &[u8], z: Sizes, changes: &mut [u32], x: ChangeRun) -> ChangeRun
    requires { x.at ≤ length bytes.now }
    ensures { ChangesPut bytes.now z x changes.old result changes.new }
{
    let mut y = x;
    while good_change(bytes, z, y) {
        y = put_next(bytes, changes, y);
    }
    y
}

// A turn, moved on past the good changes that stand next, which are put down: as many turns at once.
fn forward(bytes: &[u8], z: Sizes, changes: &mut [u32], t: ChangeTurn) -> ChangeTurn
    requires { Within bytes.now t }
    ensures { Forwarded z bytes.now t changes.old result changes.new }
{
    let h = t?;
    let start = ChangeRun {
        count: h.count,
        at: h.at,
    };
    let run = changes_run(bytes, z, changes, start);
    ControlFlow::Continue(HalfRead {
        count: run.count,
        at: run.at,
        ..h
    })
}

// The first turn, from what was read at the front of the bytes, moved on past the good changes after the stamp.
fn begin(bytes: &[u8], z: Sizes, changes: &mut [u32], read: Option<(Record, usize)>) -> ChangeTurn
    requires { read ≡ record_at bytes.now 0 }
    ensures { Going z bytes.now changes.old result changes.new }
{
    let first = first_turn(read);
    forward(bytes, z, changes, first)
}

// The whole batch, read through one reader: the stamp and the good changes after it, put down in order, then what follows them
// from record to record.
//
// It stays a function of its own in what is built, so that what it holds lies on the stack while it reads and no longer.
#[inline(never)]
pub fn read_batch(bytes: &[u8], z: Sizes, changes: &mut [u32]) -> Result<Summary, Refused>
    ensures { ReadInto z bytes.now changes.old result changes.new }
{
    let mut r = Reader::new(bytes, 0);
    let mut t = begin(bytes, z, changes, r.read());
    loop {
        let h = match t {
            ControlFlow::Break(answer) => return answer,
            ControlFlow::Continue(h) => h,
        };
        r.at = h.at;
        let u = turn(r.read(), z, t, bytes.len());
        put_change(changes, t, u);
        t = u;
    }
}
