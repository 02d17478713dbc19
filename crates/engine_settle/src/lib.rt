// The row of a variable while its block settles: at which states the equation gives what the block's own value is not.
#![tactic(auto)]

ghost use Rattle.std.specs.Prelude.{◌≡◌, ◌&&◌, ◌+◌, ◌*◌, ◌≤◌, ◌<◌, length, get_or, eqb};
ghost use Rattle.lists.specs.Lists.{listed, some_below};
ghost use Rattle.rules.specs.Rooms.{pairs_of};
ghost use Rattle.rules.specs.Values.{state, holds};
ghost use Rattle.engine_table.specs.Table.{Drawn, table_in, own_in};
ghost use Rattle.engine_rows.specs.Rooms.{Bits, Tells};
ghost use Rattle.engine_settle.specs.Told.{told, one_has, leads_one, settle_test};

use engine_index::chains::Chains;
use engine_index::{Known, chains};
use engine_table::shapes;
use engine_table::shapes::Shape;
use rules::{Action, Variable};

// Has a pair of the row the value b?
fn row_has(row: &[u8], b: u8) -> bool
    ensures { result ≡ some_below (length row.now) (λ s. eqb (get_or row.now s 0) b) }
{
    let mut any = false;
    for x in row {
        any |= *x == b;
    }
    any
}

// What a place becomes: v where its equation is decided, and else the other one of 0 and 1.
fn told_by(decided: bool, v: u8) -> u8
    requires { v ≤ 1 }
    ensures { result ≡ told v decided }
{
    if decided {
        return v;
    }
    1 - v
}

// The row of a proposition. Rows are read at s, as in `engine_rows::row_turns`.
fn row_label(labels: &[u32], q: u32, v: u8, bad: &mut [u8])
    requires { (length labels.now ≡ length bad.old) × ((q < 32) × (v ≤ 1)) }
    ensures { bad.new ≡ listed 0 (length bad.old) (λ s. told v (holds labels.now (state s) q)) }
{
    for (s, place) in bad.iter_mut().enumerate() {
        *place = told_by((labels[s] >> q) % 2 == 1, v);
    }
}

// The row of an "or" or an "and", from the rows of what it names: one of them with the value c decides it.
fn row_join(f: &[u8], h: &[u8], c: u8, v: u8, bad: &mut [u8])
    requires { (length f.now ≡ length bad.old) × ((length h.now ≡ length bad.old) × (v ≤ 1)) }
    ensures { bad.new ≡ listed 0 (length bad.old) (λ s. told v (one_has f.now h.now c s)) }
{
    for (s, place) in bad.iter_mut().enumerate() {
        *place = told_by((f[s] == c) | (h[s] == c), v);
    }
}

// The row of a diamond or a box with the action a, from the row of what it names: a move to a state with the value c decides it.
// Where no state has it, no target is gone through.
fn row_step(chains: Chains, a: Action, row: &[u8], c: u8, v: u8, bad: &mut [u8])
    requires bad_len { (length bad.old ≡ chains.states) × (length row.now ≡ chains.states) }
    requires heads_in_bounds { (a.0 * chains.states + chains.states ≤ length chains.heads.now) × (v ≤ 1) }
    ensures { bad.new ≡ listed 0 (length bad.old) (λ s. told v (leads_one chains.entry.moves.now a.0 row.now c s)) }
{
    bad.fill(1 - v);
    if row_has(row, c) {
        chains::set_leading(chains, a, |t| row[t] == c, v, bad);
    }
}

// Tells which pairs of the row of y must turn while its block settles: those with the block's own value at whose states `bad` is
// 1. Where the answer is no, none must. The row is the caller's memory, so the answer says whether it was told.
pub fn settle_row(known: &Known, labels: &[u32], values: &[u8], y: Variable, bad: &mut [u8]) -> bool
    requires drawn { Drawn (table_in known.now.sizes labels.now known.now.equations.now known.now.moves.now) }
    requires y_lt_variables { (y.0 < known.now.sizes.variables) × ((length values.now ≡ pairs_of known.now.sizes) × (length bad.old ≡ known.now.sizes.states)) }
    requires bits { Bits values.now }
    ensures { Tells known.now.sizes.states (own_in (table_in known.now.sizes labels.now known.now.equations.now known.now.moves.now) y.0) values.now (y.0 * known.now.sizes.states)
        (settle_test (table_in known.now.sizes labels.now known.now.equations.now known.now.moves.now) values.now y.0) bad.new result }
{
    let x = y.0 as usize;
    let n = bad.len();
    let e = words::equation_in(known.equations[x]);
    if !row_has(engine_rows::row_in(values, x, n), e.kind) {
        return false;
    }
    let c = 1 - e.operator % 2;
    let v = (c != e.kind) as u8;
    match shapes::shape_of(e.operator) {
        Shape::Constant if e.operator == e.kind => return false,
        Shape::Constant => bad.fill(1),
        Shape::Label => row_label(labels, e.first as u32, v, bad),
        Shape::Join => {
            let first = engine_rows::row_in(values, e.first as usize, n);
            let second = engine_rows::row_in(values, e.second as usize, n);
            row_join(first, second, c, v, bad);
        }
        Shape::Step => {
            let row = engine_rows::row_in(values, e.second as usize, n);
            row_step(chains::chains_in(known), Action(e.first), row, c, v, bad);
        }
    }
    true
}
