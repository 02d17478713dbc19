// A model that was judged good, stored into the rooms lent for it.
#![tactic(auto)]

ghost use Rattle.std.specs.Prelude.{◌≡◌, List, ℕ, ◌+◌, ◌-◌, ◌/◌, ◌≤◌, ◌<◌, length, set, replicate};
ghost use Rattle.std.proofs.lemmas.List.Edits.{sets};
ghost use Rattle.rules.specs.Limits.{most_variables, most_moves};
ghost use Rattle.rules.specs.Moves.{wrap};
ghost use Rattle.rules.specs.Session.{word};
ghost use Rattle.words.specs.Words.{pack_of};
ghost use Rattle.limits.specs.Lent.{lengths_by};
ghost use Rattle.model_judge.specs.Progress.{LabelsDue, MovesDue};
ghost use Rattle.model_judge.specs.Going.{Inside, InsideTurn};
ghost use Rattle.std.specs.declared.ops.ControlFlow.TheVariants.{Continue};
ghost use Rattle.model_runs.specs.Runs.{with_label, with_equation};
ghost use Rattle.model_store.specs.Stored.{three, equation_by, put_record, put_turn, Storable, StorableTurn, StoredWhole, with_components, Spans, ReadInto, StoresAt, Stores, RunOver, label_put, LabelsPut, equation_put, EquationsPut, moves_from};

use bytes_read::Reader;
use limits::Lent;
use model_judge::{HalfRead, OneTurn, Progress, Summary};
use model_runs::{EquationRun, LabelRun};
use rules::{Equation, Move, Record, Refused, Sizes};
use std::ops::ControlFlow;

// Zeros from one place up to another.
// `fill` of std would be no plainer: the places may lie past the room, where nothing is written.
fn zeros(room: &mut [u32], from: usize, to: usize)
    ensures { room.new ≡ sets room.old from (replicate (to - from) 0) }
{
    for i in from..to {
        rooms::put(room, i, 0);
    }
}

// A label, after zeros for the states before it that have none.
fn put_label(labels: &mut [u32], from: usize, s: usize, v: u32)
    ensures { labels.new ≡ set (sets labels.old from (replicate (s - from) 0)) s v }
{
    zeros(labels, from, s);
    rooms::put(labels, s, v);
}

// The word of an equation of the block that is read.
fn equation_word(x: Progress, o: u8, a: u8, b: u8) -> u32
    ensures { result ≡ word (equation_by x o a b) }
{
    let block = x.blocks.count.saturating_sub(1) as u8;
    let kind = x.blocks.kind as u8;
    words::word_of(Equation {
        operator: o,
        first: a,
        second: b,
        block,
        kind,
    })
}

// A move as one number of four bytes.
fn packed(m: Move) -> u32
    ensures { result ≡ wrap (pack_of m) }
{
    (words::packed(m) % 4294967296) as u32
}

// What one record of a model says, stored. It is no move: moves are stored all at once.
fn put_record(labels: &mut [u32], equations: &mut [u32], x: Progress, r: Record)
    requires { Storable r }
    ensures { (ms : List ℕ) → three labels.new equations.new ms ≡ put_record x r (three labels.old equations.old ms) }
{
    match r {
        Record::Label(s, v) => {
            put_label(labels, x.labels as usize, s.0 as usize, v);
        }
        Record::Block(_, _) => {
            zeros(labels, x.labels as usize, x.sizes.states as usize);
        }
        Record::Equation(o, a, b) => {
            let w = equation_word(x, o, a, b);
            rooms::put(equations, x.blocks.equations as usize, w);
        }
        Record::Signed(k, o, a, b) => {
            zeros(labels, x.labels as usize, x.sizes.states as usize);
            let w = words::word_of(model_judge::signed_of(k, o, a, b));
            rooms::put(equations, x.blocks.equations as usize, w);
        }
        _ => {}
    }
}

// What a turn's record says, stored after what the turn before it had read.
fn put_turn(labels: &mut [u32], equations: &mut [u32], t: OneTurn, u: OneTurn)
    requires { StorableTurn u }
    ensures { (ms : List ℕ) → three labels.new equations.new ms ≡ put_turn t u (three labels.old equations.old ms) }
{
    let ControlFlow::Continue(before) = t else {
        return;
    };
    let ControlFlow::Continue(after) = u else {
        return;
    };
    put_record(labels, equations, before.so_far, after.last);
}

// The label that stands next, stored: past it.
fn put_label_at(bytes: &[u8], labels: &mut [u32], x: LabelRun) -> LabelRun
    requires { x.at + 7 ≤ length bytes.now }
    ensures { (result ≡ with_label bytes.now x) × (labels.new ≡ label_put bytes.now x labels.old) }
{
    let at = x.at;
    let s = bytes_read::u16_at(bytes, at + 1);
    let v = bytes_read::u32_at(bytes, at + 3);
    put_label(labels, x.labels as usize, s as usize, v);
    model_runs::with_label(bytes, x)
}

// Good labels that stand next, stored: past them.
// The walk is that of `model_runs::labels_run`; a closure that is lent the room there would have to be told of at each step.
fn put_labels(bytes: &[u8], labels: &mut [u32], z: Sizes, x: LabelRun) -> LabelRun
    requires { x.at ≤ length bytes.now }
    ensures { LabelsPut bytes.now z x labels.old result labels.new }
{
    let mut y = x;
    while model_runs::good_label(bytes, z, y) {
        y = put_label_at(bytes, labels, y);
    }
    y
}

// The equation of the block that stands next, stored: past it.
fn put_equation_at(bytes: &[u8], equations: &mut [u32], x: Progress, y: EquationRun) -> EquationRun
    requires { (0 < y.due) × (y.due ≤ x.blocks.due) × (y.at + 4 ≤ length bytes.now) }
    ensures { (result ≡ with_equation y) × (equations.new ≡ equation_put bytes.now x y equations.old) }
{
    let at = y.at;
    let place = x.blocks.equations + x.blocks.due - y.due;
    let w = equation_word(x, bytes[at + 1], bytes[at + 2], bytes[at + 3]);
    rooms::put(equations, place as usize, w);
    model_runs::with_equation(y)
}

// Good equations of the block that stand next, stored: past them.
// The walk is that of `model_runs::equations_run`; a closure that is lent the room there would have to be told of at each step.
fn put_equations(bytes: &[u8], equations: &mut [u32], x: Progress, at: usize) -> EquationRun
    requires { Inside bytes.now x at }
    ensures { EquationsPut bytes.now x at equations.old result equations.new }
{
    let z = x.sizes;
    let end = (x.blocks.equations + x.blocks.due) as usize;
    let mut y = EquationRun {
        due: x.blocks.due,
        at,
    };
    while model_runs::good_equation(bytes, z, end, y) {
        y = put_equation_at(bytes, equations, x, y);
    }
    y
}

// So many moves as stand whole from a place on, stored.
fn put_moves(bytes: &[u8], moves: &mut [u32], at: usize, from: usize)
    requires { (at ≤ length bytes.now) × (from ≤ most_moves) }
    ensures { moves.new ≡ sets moves.old from (moves_from bytes.now at ((length bytes.now - at) / 6)) }
{
    let n = (bytes.len() - at) / 6;
    for i in 0..n {
        let m = bytes_read::move_at(bytes, at + 6 * i + 1);
        rooms::put(moves, from + i, packed(m));
    }
}

// Where labels are due: good ones that stand next, stored, and the turn moved on past them.
fn store_labels(bytes: &[u8], labels: &mut [u32], h: HalfRead) -> OneTurn
    requires { Inside bytes.now h.so_far h.at × LabelsDue h.so_far }
    ensures { (es ms : List ℕ) → RunOver bytes.now (Continue h) (three labels.old es ms) result (three labels.new es ms) }
{
    let x = h.so_far;
    let start = LabelRun {
        labels: x.labels,
        at: h.at,
    };
    let run = put_labels(bytes, labels, x.sizes, start);
    let mut so_far = x;
    so_far.labels = run.labels;
    ControlFlow::Continue(HalfRead {
        so_far,
        at: run.at,
        ..h
    })
}

// Where moves are due: all of them, stored. That is the rest of a good model, so the reading is over.
fn store_moves(bytes: &[u8], moves: &mut [u32], h: HalfRead) -> OneTurn
    requires { Inside bytes.now h.so_far h.at × MovesDue h.so_far }
    ensures { (ls es : List ℕ) → RunOver bytes.now (Continue h) (three ls es moves.old) result (three ls es moves.new) }
{
    let x = h.so_far;
    put_moves(bytes, moves, h.at, x.moves.count as usize);
    ControlFlow::Break(Ok(Summary {
        sizes: x.sizes,
        live: x.live,
        moves: x.moves.count,
    }))
}

// Inside a block: its equations that stand next, stored, and the turn moved on past them; after the last equation of all the
// moves too.
fn store_equations(bytes: &[u8], equations: &mut [u32], moves: &mut [u32], h: HalfRead) -> OneTurn
    requires { Inside bytes.now h.so_far h.at }
    ensures { (ls : List ℕ) → RunOver bytes.now (Continue h) (three ls equations.old moves.old) result (three ls equations.new moves.new) }
{
    let run = put_equations(bytes, equations, h.so_far, h.at);
    let so_far = model_judge::with_equations(h.so_far, run);
    let on = HalfRead {
        so_far,
        at: run.at,
        ..h
    };
    if model_judge::moves_due(so_far) {
        return store_moves(bytes, moves, on);
    }
    ControlFlow::Continue(on)
}

// The labels, the equations of a block or the moves that stand next, stored, and the turn moved on past them.
fn store_run(
    bytes: &[u8],
    labels: &mut [u32],
    equations: &mut [u32],
    moves: &mut [u32],
    u: OneTurn,
) -> OneTurn
    requires { InsideTurn bytes.now u }
    ensures { RunOver bytes.now u (three labels.old equations.old moves.old) result (three labels.new equations.new moves.new) }
{
    let h = u?;
    let x = h.so_far;
    if (x.blocks.count == 0) & (x.blocks.equations == 0) {
        return store_labels(bytes, labels, h);
    }
    if 0 < x.blocks.due {
        return store_equations(bytes, equations, moves, h);
    }
    if model_judge::moves_due(x) {
        return store_moves(bytes, moves, h);
    }
    u
}

// What was read at the place of the turn before, stored: the turn after it, moved on past the labels, equations
// or moves that follow.
fn store_turn(
    bytes: &[u8],
    l: Lent,
    labels: &mut [u32],
    equations: &mut [u32],
    moves: &mut [u32],
    read: Option<(Record, usize)>,
    t: OneTurn,
) -> OneTurn
    requires { StoresAt bytes.now read t }
    ensures { Stores (lengths_by l) bytes.now t (three labels.old equations.old moves.old) result (three labels.new equations.new moves.new) }
{
    let u = model_judge::turn(read, l, t, bytes.len());
    put_turn(labels, equations, t, u);
    store_run(bytes, labels, equations, moves, u)
}

// The whole model, read through one reader from record to record, and stored. Chains are not asked again, and components are
// not put in.
fn store_model(bytes: &[u8], l: Lent, labels: &mut [u32], equations: &mut [u32], moves: &mut [u32])
    ensures { StoredWhole (lengths_by l) bytes.now (three labels.old equations.old moves.old) (three labels.new equations.new moves.new) }
{
    let mut r = Reader::new(bytes, 0);
    let mut t = model_judge::first_turn(r.read(), l);
    while let ControlFlow::Continue(h) = t {
        r.at = h.at;
        t = store_turn(bytes, l, labels, equations, moves, r.read(), t);
    }
}

// In a model with signs each equation gets the number of its component; in one with blocks nothing changes.
#[tactic(auto, unfolding(crate::specs::Stored::with_components))]
fn put_components(equations: &mut [u32], z: Sizes)
    requires { (z.variables ≤ most_variables) × (z.variables ≤ length equations.old) }
    ensures { equations.new ≡ with_components z equations.old }
{
    if limits::signed(z) {
        model_chains::number_all(equations, z.variables as usize);
    }
}

// A model read: judged first, and stored only where it is good. `lent` has the lengths of all rooms.
pub fn read_model(
    bytes: &[u8],
    lent: Lent,
    labels: &mut [u32],
    equations: &mut [u32],
    moves: &mut [u32],
) -> Result<Summary, Refused>
    requires { Spans (lengths_by lent) (three labels.old equations.old moves.old) }
    ensures { ReadInto bytes.now (lengths_by lent) (three labels.old equations.old moves.old) result (three labels.new equations.new moves.new) }
{
    let summary = model_judge::judge_model(bytes, lent)?;
    store_model(bytes, lent, labels, equations, moves);
    put_components(equations, summary.sizes);
    Ok(summary)
}
