// One phase of one block: all its rows are looked at, then the pairs that wait turn, first come first served.
#![tactic(auto)]

ghost use Rattle.std.specs.Prelude.{◌≡◌, true, false, not, ℕ, ◌+◌, ◌*◌, ◌/◌, ◌≤◌, ◌<◌, length, get_or, eqb};
ghost use Rattle.lists.specs.Lists.{bit};
ghost use Rattle.systems.specs.lists.ListMachine.{marks_in, turned};
ghost use Rattle.systems.specs.lists.Rows.{hits};
ghost use Rattle.rules.specs.Limits.{most_states, most_variables};
ghost use Rattle.rules.specs.Model.{blocks_of};
ghost use Rattle.rules.specs.Rooms.{pairs_of};
ghost use Rattle.rules.specs.Batch.{changes_ok};
ghost use Rattle.rules.specs.Calls.{value_at};
ghost use Rattle.rules.specs.Session.{unword};
ghost use Rattle.laws.specs.model.LookTest.{look_test};
ghost use Rattle.words.specs.Words.{changes_of};
ghost use Rattle.engine_table.specs.Sketch.{sketch};
ghost use Rattle.engine_table.specs.Table.{model_of, Drawn, own_in, pair_in, waiter};
ghost use Rattle.engine_index.specs.At.{at_labels};
ghost use Rattle.engine_index.specs.Operands.{Named};
ghost use Rattle.engine_rows.specs.Rooms.{Bits, Packed, Tells, Told};
ghost use Rattle.engine_turn.specs.Turns.{round_at};
ghost use Rattle.engine_phase.specs.Phase.{RowLeft, Somewhere, Leads, job_in, block_after};
ghost use Rattle.engine_phase.specs.PutRow.{turns_in, turns_from};
ghost use Rattle.engine_phase.specs.Levels.{Counted, Level, Levelled};
ghost use Rattle.engine_phase.specs.Rounds.{Waiting, Rounded};

use engine_index::Known;
use engine_turn::Spread;
use rules::{Sizes, Variable};

// The rooms are parameters, as C lends them: behind a `&mut` to a struct of `&mut` slices the check covers no call that is lent two of them.
// `settling` is a truth value, as the phase is in the rule's machine (Machine.free), by which each contract speaks of it.

// The pairs of the row of y that have the value `from` and whose places are bad get their marks and wait.
fn put_row(
    sizes: Sizes,
    values: &[u8],
    marks: &mut [u8],
    queue: &mut [u16],
    bad: &mut [u8],
    y: Variable,
    tail: usize,
    settling: bool,
    from: u8,
) -> usize
    requires y_lt_variables { (y.0 < sizes.variables) × ((sizes.variables ≤ most_variables) × (sizes.states ≤ most_states)) }
    requires values_len { (length values.now ≡ pairs_of sizes) × ((length marks.old ≡ pairs_of sizes) × (length bad.old ≡ sizes.states)) }
    requires packed { Packed sizes queue.old tail × (tail + length (hits (turns_in values.now from bad.old (y.0 * sizes.states)) (y.0 * sizes.states) sizes.states) < length queue.old) }
    ensures { RowLeft sizes (turns_in values.now from bad.old (y.0 * sizes.states)) settling (y.0 * sizes.states) sizes.states
        marks.old queue.old tail marks.new queue.new result }
{
    let n = sizes.states as usize;
    let at = y.0 as usize * n;
    let end = at + n;
    if !engine_rows::row_turns(&values[at..end], from, bad) {
        return tail;
    }
    engine_rows::row_marks(bad, settling, &mut marks[at..end]);
    engine_rows::row_queue(bad, y, queue, tail)
}

// Whether pairs of the row of y may have to turn, and which, in this phase.
fn tell_row(
    known: &Known,
    labels: &[u32],
    changes: &[u32],
    values: &[u8],
    marks: &[u8],
    bad: &mut [u8],
    y: Variable,
    settling: bool,
) -> bool
    requires drawn { Drawn (at_labels known.now labels.now) }
    requires changes_value { changes_ok known.now.sizes (changes_of changes.now) ≡ true }
    requires y_lt_variables { (y.0 < known.now.sizes.variables) × ((length values.now ≡ pairs_of known.now.sizes) × ((length marks.now ≡ pairs_of known.now.sizes) × (length bad.old ≡ known.now.sizes.states))) }
    requires bits { Bits values.now × ((p : ℕ) → get_or marks.now p 0 ≤ 3) }
    requires told { settling ≡ false → Told (at_labels known.now labels.now) values.now marks.now y.0 }
    ensures { Tells known.now.sizes.states (turns_from settling (own_in (at_labels known.now labels.now) y.0)) values.now (y.0 * known.now.sizes.states)
        (λ s. look_test (model_of (at_labels known.now labels.now)) (changes_of changes.now) settling (value_at values.now) (marks_in marks.now) (pair_in known.now.sizes y.0 s))
        bad.new result }
{
    if settling {
        return engine_settle::settle_row(known, labels, values, y, bad);
    }
    engine_shift::shift_row(known, changes, values, marks, y, bad)
}

// The byte of the value that pairs turn from, in a block of this kind.
fn turns_from(kind: u8, settling: bool) -> u8
    requires { kind ≤ 1 }
    ensures { result ≡ bit (turns_from settling (eqb kind 1)) }
{
    if settling {
        return kind;
    }
    1 - kind
}

// The row of y, a variable of the block, is looked at: its pairs that must turn get their marks and wait.
fn look_row(
    known: &Known,
    labels: &[u32],
    changes: &[u32],
    values: &[u8],
    marks: &mut [u8],
    queue: &mut [u16],
    bad: &mut [u8],
    y: Variable,
    block: usize,
    tail: usize,
    settling: bool,
) -> usize
    requires drawn { Drawn (at_labels known.now labels.now) }
    requires changes_value { changes_ok known.now.sizes (changes_of changes.now) ≡ true }
    requires y_lt_variables { (y.0 < known.now.sizes.variables) × ((block < blocks_of (model_of (at_labels known.now labels.now))) × ((length bad.old ≡ known.now.sizes.states) × (pairs_of known.now.sizes < length queue.old))) }
    requires packed { Packed known.now.sizes queue.old tail × ((unword (get_or known.now.equations.now y.0 0)).block ≡ block) }
    requires somewhere { Somewhere {I = ℕ × ℕ} (at_labels known.now labels.now) (changes_of changes.now) (λ v. job_in known.now.sizes block settling (y.0 * known.now.sizes.states) values.now marks.old queue.old 0 tail v.0 v.1) }
    ensures { Packed known.now.sizes queue.new result
        × Leads {I = ℕ × ℕ} (at_labels known.now labels.now) (changes_of changes.now)
        (λ v. job_in known.now.sizes block settling (y.0 * known.now.sizes.states) values.now marks.old queue.old 0 tail v.0 v.1)
        (λ v. job_in known.now.sizes block settling ((y.0 + 1) * known.now.sizes.states) values.now marks.new queue.new 0 result v.0 v.1) }
{
    let e = words::equation_in(rooms::at_or(known.equations, y.0 as usize, 0));
    if !tell_row(known, labels, changes, values, marks, bad, y, settling) {
        return tail;
    }
    let from = turns_from(e.kind, settling);
    let sizes = known.sizes;
    put_row(sizes, values, marks, queue, bad, y, tail, settling, from)
}

// All rows of the block are looked at. Answers where the queue ends then.
fn look_rows(
    known: &Known,
    labels: &[u32],
    changes: &[u32],
    values: &[u8],
    marks: &mut [u8],
    queue: &mut [u16],
    bad: &mut [u8],
    block: usize,
    settling: bool,
) -> usize
    requires drawn { Drawn (at_labels known.now labels.now) }
    requires changes_value { changes_ok known.now.sizes (changes_of changes.now) ≡ true }
    requires block_bound { (block < blocks_of (model_of (at_labels known.now labels.now))) × ((length bad.old ≡ known.now.sizes.states) × (pairs_of known.now.sizes < length queue.old)) }
    requires somewhere { Somewhere {I = ℕ × ℕ} (at_labels known.now labels.now) (changes_of changes.now) (λ v. job_in known.now.sizes block settling 0 values.now marks.old queue.old 0 0 v.0 v.1) }
    ensures { Packed known.now.sizes queue.new result
        × Leads {I = ℕ × ℕ} (at_labels known.now labels.now) (changes_of changes.now)
        (λ v. job_in known.now.sizes block settling 0 values.now marks.old queue.old 0 0 v.0 v.1)
        (λ v. job_in known.now.sizes block settling (pairs_of known.now.sizes) values.now marks.new queue.new 0 result v.0 v.1) }
{
    let mut tail: usize = 0;
    for (y, w) in known.equations.iter().enumerate() {
        let e = words::equation_in(*w);
        if e.block as usize != block {
            continue;
        }
        let x = Variable(y as u8);
        tail = look_row(
            known, labels, changes, values, marks, queue, bad, x, block, tail, settling,
        );
    }
    tail
}

// The value of the pair that is first in the queue.
fn first_value(sizes: Sizes, values: &[u8], queue: &[u16]) -> u8
    ensures { result ≡ get_or values.now (waiter sizes (get_or queue.now 0 0)) 0 }
{
    let w = rooms::at_or(queue, 0, 0);
    let p = words::pair_of(sizes, words::state_of(w), words::variable_of(w));
    rooms::at_or(values, p, 0)
}

// The pairs that wait from `front` to the end of the queue turn; whoever comes to wait by them waits behind them.
fn turn_round(
    known: &Known,
    operand: &[u64],
    values: &mut [u8],
    marks: &mut [u8],
    queue: &mut [u16],
    front: usize,
    at: Spread,
    settling: bool,
    from: u8,
) -> Spread
    requires named { Named (sketch known.now.sizes known.now.equations.now known.now.moves.now) operand.now }
    requires waiting { Waiting known.now.sizes known.now.equations.now known.now.moves.now settling from front (round_at values.old marks.old queue.old at) }
    ensures { Rounded known.now.sizes known.now.equations.now known.now.moves.now settling from front at.tail
        (round_at values.old marks.old queue.old at)
        (round_at values.new marks.new queue.new result) }
{
    let mut r = at;
    for f in front..at.tail {
        r = engine_turn::turn(known, operand, values, marks, queue, f, r, settling, from);
    }
    r
}

// What a phase counts: the visits of its kind, and a level that follows the number of true pairs.
#[derive(Clone, Copy, Debug, PartialEq, Eq)]
pub struct Counts {
    pub visits: usize,
    pub level: usize,
}

// The level after so many pairs have turned from the value `from`: true pairs fall, false ones rise.
fn levelled(level: usize, from: u8, turned: usize) -> usize
    requires { (eqb from 1 ≡ true → turned ≤ level) × (eqb from 1 ≡ false → level + turned < 4294967296) }
    ensures { Counted from turned level result }
{
    if from == 1 {
        return level - turned;
    }
    level + turned
}

// One phase of the block: all its rows are looked at, and then each pair that waits turns. All of them turn from the same value.
// Answers the visits of the phase's kind and the level.
pub fn phase(
    known: &Known,
    labels: &[u32],
    operand: &[u64],
    changes: &[u32],
    values: &mut [u8],
    marks: &mut [u8],
    queue: &mut [u16],
    bad: &mut [u8],
    block: usize,
    so_far: Counts,
    settling: bool,
) -> Counts
    requires drawn { Drawn (at_labels known.now labels.now) }
    requires named { Named (sketch known.now.sizes known.now.equations.now known.now.moves.now) operand.now × (changes_ok known.now.sizes (changes_of changes.now) ≡ true) }
    requires block_bound { (block < blocks_of (model_of (at_labels known.now labels.now))) × ((length bad.old ≡ known.now.sizes.states) × (pairs_of known.now.sizes < length queue.old)) }
    requires somewhere { Somewhere {I = ℕ} (at_labels known.now labels.now) (changes_of changes.now) (λ other. job_in known.now.sizes block settling 0 values.old marks.old queue.old 0 0 so_far.visits other) }
    requires level { Level known.now.sizes so_far.level values.old }
    ensures { Leads {I = ℕ} (at_labels known.now labels.now) (changes_of changes.now)
        (λ other. job_in known.now.sizes block settling 0 values.old marks.old queue.old 0 0 so_far.visits other)
        (λ other. job_in known.now.sizes (block_after settling block) (not settling) 0 values.new marks.new queue.new 0 0 other result.visits) × Levelled known.now.sizes so_far.level values.old result.level values.new }
{
    let tail = look_rows(
        known, labels, changes, values, marks, queue, bad, block, settling,
    );
    let from = first_value(known.sizes, values, queue);
    let mut at = Spread {
        tail,
        visits: so_far.visits,
    };
    let mut front: usize = 0;
    while front < at.tail {
        let end = at.tail;
        at = turn_round(
            known, operand, values, marks, queue, front, at, settling, from,
        );
        front = end;
    }
    let counted = at.visits;
    let reached = levelled(so_far.level, from, front);
    Counts {
        visits: counted,
        level: reached,
    }
}
