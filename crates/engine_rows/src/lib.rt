// Rows: the pairs of one variable at all states, of which `bad` says which must turn.
#![tactic(auto)]

ghost use Rattle.std.specs.Prelude.{◌≡◌, false, cond, map, ◌++◌, ℕ, ◌+◌, ◌*◌, ◌≤◌, ◌<◌, length, get_or, take, drop, replicate, eqb};
ghost use Rattle.lists.specs.Lists.{bit, listed, some_below};
ghost use Rattle.systems.specs.machine.Machine.{next_mark};
ghost use Rattle.systems.specs.lists.Rows.{hits};
ghost use Rattle.rules.specs.Limits.{most_states, most_variables};
ghost use Rattle.words.specs.Words.{waiting_of};
ghost use Rattle.engine_rows.specs.Rooms.{Bits, hits_in};
ghost use Rattle.engine_rows.specs.RowLoops.{turn_at, mark_at, bad_at, bad_from, Queued};

use rules::{State, Variable};

// Of the places that are bad, those stay whose value in `row` is `from`. Answers whether there are any; the row itself is the caller's
// memory. The other row is read at s, here and below: of what a `zip` over `iter_mut` leaves behind its clause says nothing.
pub fn row_turns(row: &[u8], from: u8, bad: &mut [u8]) -> bool
    requires { length row.now ≡ length bad.old }
    ensures { (bad.new ≡ listed 0 (length bad.old) (λ s. bit (turn_at row.now from bad.old s)))
        × (result ≡ false → (s : ℕ) → get_or bad.new s 0 ≡ 0) }
{
    let mut any = false;
    for (s, place) in bad.iter_mut().enumerate() {
        let t = (row[s] == from) & (*place == 1);
        *place = t as u8;
        any |= t;
    }
    any
}

// The mark by which a pair waits where its place is bad, and else the mark that it has. Marks are numbers, as they lie in a lent room.
fn mark_after(bad: u8, settling: bool, mark: u8) -> u8
    ensures { result ≡ cond (eqb bad 1) (next_mark settling mark) mark }
{
    if bad != 1 {
        return mark;
    }
    if settling {
        if mark == 0 {
            return 3;
        }
        return 2;
    }
    1
}

// The pairs of a row whose places are bad get the marks by which they wait.
pub fn row_marks(bad: &[u8], settling: bool, marks: &mut [u8])
    requires { length bad.now ≡ length marks.old }
    ensures { marks.new ≡ listed 0 (length marks.old) (mark_at bad.now settling marks.old) }
{
    for (s, mark) in marks.iter_mut().enumerate() {
        *mark = mark_after(bad[s], settling, *mark);
    }
}

// How many places of a row are tested at once, before they are gone through one by one.
const TESTED_AT_ONCE: usize = 32;

// Is a place of this part of a row bad?
fn any_bad(part: &[u8]) -> bool
    ensures { result ≡ some_below (length part.now) (bad_at part.now) }
{
    let mut any = false;
    for place in part {
        any |= *place == 1;
    }
    any
}

// The pairs of the row of y at the bad places of this part of the row wait, in order. Its first place is that of the state `first`.
// Answers where the queue ends then.
fn queue_some(part: &[u8], y: Variable, first: State, queue: &mut [u16], tail: usize) -> usize
    requires bits { Bits part.now }
    requires y_lt_most_variables { (y.0 < most_variables) × (first.0 + length part.now ≤ most_states) }
    requires first_in_bounds { tail + length (hits (bad_from first.0 part.now) first.0 (length part.now)) < length queue.old }
    ensures { Queued y.0 (bad_from first.0 part.now) queue.old tail first.0 (length part.now) result queue.new }
{
    let mut top = tail;
    for (i, place) in part.iter().enumerate() {
        queue[top] = words::waiting(y, State(first.0 + i as u16));
        top += *place as usize;
    }
    top
}

// The same; where none of these places is bad they are passed over. Of a whole stretch the compiler is told how long it is, and lays its
// places out one after another.
fn queue_part(part: &[u8], y: Variable, first: State, queue: &mut [u16], tail: usize) -> usize
    requires bits { Bits part.now }
    requires y_lt_most_variables { (y.0 < most_variables) × (first.0 + length part.now ≤ most_states) }
    requires first_in_bounds { tail + length (hits (bad_from first.0 part.now) first.0 (length part.now)) < length queue.old }
    ensures { Queued y.0 (bad_from first.0 part.now) queue.old tail first.0 (length part.now) result queue.new }
{
    if !any_bad(part) {
        return tail;
    }
    if part.len() == TESTED_AT_ONCE {
        return queue_some(&part[..TESTED_AT_ONCE], y, first, queue, tail);
    }
    queue_some(part, y, first, queue, tail)
}

// The pairs of the row of y whose places are bad wait, in order. Answers where the queue ends then. Where a part begins is summed up: told
// as 32 times its number, a row took 30 % more instructions.
pub fn row_queue(bad: &[u8], y: Variable, queue: &mut [u16], tail: usize) -> usize
    requires bits { Bits bad.now }
    requires y_lt_most_variables { (y.0 < most_variables) × (length bad.now ≤ most_states) }
    requires bad_in_bounds { tail + length (hits_in bad.now) < length queue.old }
    ensures { (result ≡ tail + length (hits_in bad.now))
        × (take result queue.new ≡ take tail queue.old ++ map (waiting_of y.0) (hits_in bad.now)) }
{
    let mut top = tail;
    let mut from: usize = 0;
    for part in bad.chunks(TESTED_AT_ONCE) {
        top = queue_part(part, y, State(from as u16), queue, top);
        from += part.len();
    }
    top
}

// The row of the variable x, of what lies in a room by pairs.
pub fn row_in(room: &[u8], x: usize, states: usize) -> &[u8]
    requires { x * states + states ≤ length room.now }
    ensures { result.now ≡ take states (drop (x * states) room.now) }
{
    let from = x * states;
    let end = from + states;
    &room[from..end]
}
