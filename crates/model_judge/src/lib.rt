// A model on the wire, judged record by record.
#![tactic(auto)]

ghost use Rattle.std.specs.Prelude.{◌≡◌, true, false, ◌+◌, ◌≤◌, ◌<◌, min, length, get_or};
ghost use Rattle.rules.specs.Load.{started, read_model, signed_of};
ghost use Rattle.rules.specs.Limits.{most_variables, most_moves, sizes_ok};
ghost use Rattle.rules.specs.Model.{signed};
ghost use Rattle.rules.specs.Rooms.{Lengths};
ghost use Rattle.rules.specs.Session.{unword};
ghost use Rattle.limits.specs.Lent.{lengths_by};
ghost use Rattle.model_judge.specs.Progress.{sofar_of, judged_says, next_says, end_says, LabelsDue, BlockDue, SignDue, MovesDue, moves_due_in, block_fits_in, all_moving_in};
ghost use Rattle.model_judge.specs.OneRecord.{label_step, block_step, equation_step, signed_step, move_step, live_step, end_step, record_step};
ghost use Rattle.model_judge.specs.Turning.{read_says, summary, end_turn};
ghost use Rattle.model_judge.specs.Asking.{sign_at, Spelled, answered_turn, asked_turn, Askable, Ready, Asked};
ghost use Rattle.model_judge.specs.SignsRead.{Words};
ghost use Rattle.model_judge.specs.Passing.{Forwarded, EquationsKept, with_equations};
ghost use Rattle.model_judge.specs.Going.{Begins, Follows, Inside};
ghost use Rattle.std.specs.declared.ops.ControlFlow.TheVariants.{Continue};

mod progress;

use bytes_read::{Reader, refused};
use limits::Lent;
pub use model_runs::MovesRead;
use model_runs::{EquationRun, LabelRun, MoveRun};
pub use progress::{BlocksRead, Progress};
use rules::{Equation, Move, Record, Refusal, Refused, Sizes, State};
use std::ops::ControlFlow;

// A label, where labels are due: a state, a set that is not empty and not too high; in order.
fn on_label(x: Progress, s: State, v: u32) -> Result<Progress, Refusal>
    requires { LabelsDue x }
    ensures { next_says result ≡ label_step x s v }
{
    if !((s.0 < x.sizes.states) & (0 < v) & limits::label_ok(x.sizes, v)) {
        return Err(Refusal::BadNumber);
    }
    if !(x.labels <= s.0 as u32) {
        return Err(Refusal::OutOfOrder);
    }
    let mut y = x;
    y.labels = s.0 as u32 + 1;
    Ok(y)
}

// Whether a block takes 1 to all of the variables that remain, and the last block all.
fn block_fits(x: Progress, n: u8) -> bool
    ensures { result ≡ block_fits_in x n }
{
    let all = x.blocks.equations + n as u32;
    let variables = x.sizes.variables as u32;
    let more = x.blocks.count + 1 < x.sizes.blocks as u32;
    (0 < n) & (all <= variables) & (more | (all == variables))
}

// A block, where one is due: its variables fit; its kind is 0 or 1.
fn on_block(x: Progress, k: u8, n: u8) -> Result<Progress, Refusal>
    requires block_due { BlockDue x }
    ensures { next_says result ≡ block_step x k n }
{
    if !block_fits(x, n) {
        return Err(Refusal::BadSize);
    }
    if !(k <= 1) {
        return Err(Refusal::BadNumber);
    }
    let mut y = x;
    y.labels = x.sizes.states as u32;
    y.blocks.count += 1;
    y.blocks.kind = k as u32;
    y.blocks.due = n as u32;
    Ok(y)
}

// An equation, where one is due: its numbers in range; it names no variable of a later block.
fn on_equation(x: Progress, o: u8, a: u8, b: u8) -> Result<Progress, Refusal>
    requires due_nonzero { 0 < x.blocks.due }
    ensures { next_says result ≡ equation_step x o a b }
{
    if !limits::operands_ok(x.sizes, o, a, b) {
        return Err(Refusal::BadNumber);
    }
    let end = x.blocks.equations + x.blocks.due;
    if !limits::names_ok(end as usize, o, a, b) {
        return Err(Refusal::Tangled);
    }
    let mut y = x;
    y.blocks.due -= 1;
    y.blocks.equations += 1;
    Ok(y)
}

// An equation with a sign, where one is due: its sign is 0 or 1, and its numbers are in range.
fn on_signed(x: Progress, k: u8, o: u8, a: u8, b: u8) -> Result<Progress, Refusal>
    requires sign_due { SignDue x }
    ensures { next_says result ≡ signed_step x k o a b }
{
    if !((k <= 1) & limits::operands_ok(x.sizes, o, a, b)) {
        return Err(Refusal::BadNumber);
    }
    let mut y = x;
    y.labels = x.sizes.states as u32;
    y.blocks.equations += 1;
    Ok(y)
}

// A move, where moves are due: in range; in order; and there is room for it.
fn on_move(l: Lent, x: Progress, m: Move) -> Result<Progress, Refusal>
    requires moves_due { MovesDue x }
    ensures { next_says result ≡ move_step (lengths_by l) x m }
{
    let count = x.moves.count as usize;
    let q = words::packed(m);
    let moving = limits::moving_with(x.moves.moving, m.source);
    if !limits::move_ok(x.sizes, m) {
        return Err(Refusal::BadNumber);
    }
    if !(x.moves.least <= q) {
        return Err(Refusal::OutOfOrder);
    }
    if !((count < limits::MOST_MOVES) & (count < l.moves)) {
        return Err(Refusal::Full);
    }
    let mut y = x;
    y.moves = MovesRead {
        count: x.moves.count + 1,
        least: q + 1,
        moving,
    };
    Ok(y)
}

// The record of a live model, where a label is due: directly after the sizes, and once.
fn on_live(x: Progress) -> Result<Progress, Refusal>
    ensures { next_says result ≡ live_step x }
{
    if !((x.labels == 0) & (x.live == 0)) {
        return Err(Refusal::NotDue);
    }
    let mut y = x;
    y.live = 1;
    Ok(y)
}

// Whether each state of a live model has a move.
fn all_moving(x: Progress) -> bool
    ensures { result ≡ all_moving_in x }
{
    if x.live == 1 {
        return x.moves.moving == x.sizes.states as u32;
    }
    true
}

// The end, where it is due: in a live model each state has a move.
fn on_end(x: Progress) -> Result<(), Refusal>
    requires { MovesDue x }
    ensures { end_says result ≡ end_step x }
{
    if !all_moving(x) {
        return Err(Refusal::Hangs);
    }
    Ok(())
}

// Before the first block a label or a block is due, and first of all the record of a live model.
#[tactic(auto, unfolding(crate::specs::Plain::plain))]
fn before_blocks(x: Progress, rec: Record) -> Result<Progress, Refusal>
    requires count_value { (x.blocks.count ≡ 0) × (signed x.sizes ≡ false) }
    ensures { (l : Lengths) → next_says result ≡ record_step l x rec }
{
    match rec {
        Record::Label(s, v) => on_label(x, s, v),
        Record::Block(k, n) => on_block(x, k, n),
        Record::Live => on_live(x),
        _ => Err(Refusal::NotDue),
    }
}

// After the last equation a move or the end is due.
#[tactic(auto, unfolding(crate::specs::Plain::plain))]
fn after_equations(l: Lent, x: Progress, rec: Record) -> Result<Option<Progress>, Refusal>
    requires moves_due { MovesDue x }
    ensures { judged_says result ≡ record_step (lengths_by l) x rec }
{
    match rec {
        Record::Move(m) => on_move(l, x, m).map(Some),
        Record::End => on_end(x).map(|_| None),
        _ => Err(Refusal::NotDue),
    }
}

// In a model with blocks, where no equation is due: between two blocks a block and nothing else.
fn outside_block(l: Lent, x: Progress, rec: Record) -> Result<Option<Progress>, Refusal>
    requires due_value { (x.blocks.due ≡ 0) × (signed x.sizes ≡ false) }
    ensures { judged_says result ≡ record_step (lengths_by l) x rec }
{
    if x.blocks.count == 0 {
        return before_blocks(x, rec).map(Some);
    }
    if x.blocks.count == x.sizes.blocks as u32 {
        return after_equations(l, x, rec);
    }
    let Record::Block(k, n) = rec else {
        return Err(Refusal::NotDue);
    };
    on_block(x, k, n).map(Some)
}

// Before the first equation with a sign a label or such an equation is due, and first of all the record of a live model.
#[tactic(auto, unfolding(crate::specs::Plain::plain))]
fn before_signs(x: Progress, rec: Record) -> Result<Progress, Refusal>
    requires sizes_value { (signed x.sizes ≡ true) × (x.blocks.equations ≡ 0) × (0 < x.sizes.variables) }
    ensures { (l : Lengths) → next_says result ≡ record_step l x rec }
{
    match rec {
        Record::Label(s, v) => on_label(x, s, v),
        Record::Live => on_live(x),
        Record::Signed(k, o, a, b) => on_signed(x, k, o, a, b),
        _ => Err(Refusal::NotDue),
    }
}

// In a model with signs: between two equations an equation with a sign and nothing else.
fn with_signs(l: Lent, x: Progress, rec: Record) -> Result<Option<Progress>, Refusal>
    requires sizes_value { signed x.sizes ≡ true }
    ensures { judged_says result ≡ record_step (lengths_by l) x rec }
{
    if x.blocks.equations == x.sizes.variables as u32 {
        return after_equations(l, x, rec);
    }
    if x.blocks.equations == 0 {
        return before_signs(x, rec).map(Some);
    }
    let Record::Signed(k, o, a, b) = rec else {
        return Err(Refusal::NotDue);
    };
    on_signed(x, k, o, a, b).map(Some)
}

// One record after the sizes, and what it does before any chain is asked: inside a block an equation and nothing else.
#[tactic(auto, unfolding(crate::specs::Plain::plain))]
pub fn judge_record(l: Lent, x: Progress, rec: Record) -> Result<Option<Progress>, Refusal>
    ensures { judged_says result ≡ record_step (lengths_by l) x rec }
{
    if limits::signed(x.sizes) {
        return with_signs(l, x, rec);
    }
    if x.blocks.due == 0 {
        return outside_block(l, x, rec);
    }
    let Record::Equation(o, a, b) = rec else {
        return Err(Refusal::NotDue);
    };
    on_equation(x, o, a, b).map(Some)
}

// What the small part of a session takes from a model: its sizes, whether it is live, and how many moves it has.
#[derive(Clone, Copy, Debug, PartialEq, Eq)]
pub struct Summary {
    pub sizes: Sizes,
    pub live: u8,
    pub moves: u32,
}

// A model half read: the record read last, what has been read with it, and where the next record stands.
#[derive(Clone, Copy, Debug, PartialEq, Eq)]
pub struct HalfRead {
    pub last: Record,
    pub so_far: Progress,
    pub at: usize,
}

// One record read and judged: the end of the reading with what it comes to, or the model half read.
pub type OneTurn = ControlFlow<Result<Summary, Refused>, HalfRead>;

// After the end record: any byte is not due.
fn at_end(x: Progress, next: usize, len: usize) -> OneTurn
    ensures { result ≡ end_turn x next len }
{
    if next < len {
        return refused(Refusal::NotDue, next);
    }
    ControlFlow::Break(Ok(Summary {
        sizes: x.sizes,
        live: x.live,
        moves: x.moves.count,
    }))
}

// What was read at the place of the turn before, judged: the turn after it. A reading that is over stays as it is.
pub fn turn(read: Option<(Record, usize)>, l: Lent, t: OneTurn, len: usize) -> OneTurn
    ensures { Follows (lengths_by l) read t len result }
{
    let h = t?;
    let Some((last, next)) = read else {
        return refused(Refusal::Broken, h.at);
    };
    match judge_record(l, h.so_far, last) {
        Err(why) => refused(why, h.at),
        Ok(Some(so_far)) => ControlFlow::Continue(HalfRead {
            last,
            so_far,
            at: next,
        }),
        Ok(None) => at_end(h.so_far, next, len),
    }
}

// An equation with a sign. It has no component yet.
pub fn signed_of(k: u8, o: u8, a: u8, b: u8) -> Equation
    ensures { result ≡ signed_of k o a b }
{
    Equation {
        operator: o,
        first: a,
        second: b,
        block: 0,
        kind: k,
    }
}

// The equation with a sign whose record stands at a place, as one number.
fn sign_at(bytes: &[u8], at: usize) -> u32
    requires { (at + 5 ≤ length bytes.now) × (get_or bytes.now (at + 1) 0 ≤ 1) }
    ensures { unword result ≡ sign_at bytes.now at }
{
    let e = signed_of(bytes[at + 1], bytes[at + 2], bytes[at + 3], bytes[at + 4]);
    words::word_of(e)
}

// The equations with signs of n records that end at a place, each as one number, the first n of an array of fixed length.
fn signs_to(bytes: &[u8], end: usize, n: usize) -> [u32; 32]
    requires { (n ≤ most_variables) × (end ≤ length bytes.now) × Spelled bytes.now end n }
    ensures { Words bytes.now end n n result }
{
    let from = end - 5 * n;
    let mut words = [0u32; 32];
    for i in 0..n {
        words[i] = sign_at(bytes, from + 5 * i);
    }
    words
}

// The question, asked of equations with signs whose records end at a place: the turn as it was, or a refusal at the record of
// the lowest equation on a closed chain that holds both signs.
fn answered(bytes: &[u8], h: HalfRead) -> OneTurn
    requires { (h.so_far.sizes.variables ≤ most_variables) × (h.at ≤ length bytes.now) × Spelled bytes.now h.at h.so_far.sizes.variables }
    ensures { result ≡ answered_turn bytes.now h }
{
    let n = h.so_far.sizes.variables as usize;
    let words = signs_to(bytes, h.at, n);
    let low = model_chains::first_guilty(&words, n);
    if low < n {
        return refused(Refusal::Tangled, h.at - 5 * (n - low));
    }
    ControlFlow::Continue(h)
}

// A model half read, and after the last equation with a sign the question.
fn asked(bytes: &[u8], h: HalfRead) -> OneTurn
    requires { Askable bytes.now (Continue h) }
    ensures { result ≡ asked_turn bytes.now (Continue h) }
{
    let Record::Signed(_, _, _, _) = h.last else {
        return ControlFlow::Continue(h);
    };
    if h.so_far.blocks.equations == h.so_far.sizes.variables as u32 {
        return answered(bytes, h);
    }
    ControlFlow::Continue(h)
}

// Where labels are due: past good labels that stand next.
fn past_labels(bytes: &[u8], h: HalfRead) -> HalfRead
    requires { Inside bytes.now h.so_far h.at × LabelsDue h.so_far }
    ensures { (l : Lengths) → Forwarded l bytes.now (Continue h) (Continue result) }
{
    let x = h.so_far;
    let start = LabelRun {
        labels: x.labels,
        at: h.at,
    };
    let run = model_runs::labels_run(bytes, x.sizes, start);
    let mut so_far = x;
    so_far.labels = run.labels;
    HalfRead {
        so_far,
        at: run.at,
        ..h
    }
}

// Where moves are due: past good moves that stand next and have room.
fn past_moves(bytes: &[u8], l: Lent, h: HalfRead) -> HalfRead
    requires { Inside bytes.now h.so_far h.at × MovesDue h.so_far }
    ensures { Forwarded (lengths_by l) bytes.now (Continue h) (Continue result) }
{
    let x = h.so_far;
    let start = MoveRun {
        moves: x.moves,
        at: h.at,
    };
    let room = limits::MOST_MOVES.min(l.moves);
    let run = model_runs::moves_run(bytes, x.sizes, room, start);
    let mut so_far = x;
    so_far.moves = run.moves;
    HalfRead {
        so_far,
        at: run.at,
        ..h
    }
}

// Whether all equations have been read, so that moves are due.
pub fn moves_due(x: Progress) -> bool
    ensures { result ≡ moves_due_in x }
{
    (x.blocks.due == 0)
        & (x.blocks.count == x.sizes.blocks as u32)
        & (x.blocks.equations == x.sizes.variables as u32)
}

// What has been read with a run of equations of the block.
pub fn with_equations(x: Progress, run: EquationRun) -> Progress
    requires { run.due ≤ x.blocks.due }
    ensures { (p : EquationsKept x run) → result ≡ with_equations x run p }
{
    let mut y = x;
    y.blocks.equations = x.blocks.equations + x.blocks.due - run.due;
    y.blocks.due = run.due;
    y
}

// Inside a block: past good equations of it that stand next, and after the last equation of all past good moves.
fn past_equations(bytes: &[u8], l: Lent, h: HalfRead) -> HalfRead
    requires { Inside bytes.now h.so_far h.at }
    ensures { Forwarded (lengths_by l) bytes.now (Continue h) (Continue result) }
{
    let x = h.so_far;
    let start = EquationRun {
        due: x.blocks.due,
        at: h.at,
    };
    let end = x.blocks.equations + x.blocks.due;
    let run = model_runs::equations_run(bytes, x.sizes, end as usize, start);
    let y = HalfRead {
        so_far: with_equations(x, run),
        at: run.at,
        ..h
    };
    if moves_due(y.so_far) {
        return past_moves(bytes, l, y);
    }
    y
}

// A model half read, moved on past good labels, equations of a block or moves that stand next: as many turns at once.
fn forward(bytes: &[u8], l: Lent, h: HalfRead) -> HalfRead
    requires { Inside bytes.now h.so_far h.at }
    ensures { Forwarded (lengths_by l) bytes.now (Continue h) (Continue result) }
{
    let x = h.so_far;
    if (x.blocks.count == 0) & (x.blocks.equations == 0) {
        return past_labels(bytes, h);
    }
    if 0 < x.blocks.due {
        return past_equations(bytes, l, h);
    }
    if moves_due(x) {
        return past_moves(bytes, l, h);
    }
    h
}

// What was read at the place of the turn before, judged, and its question: the turn after it, moved on past labels,
// equations or moves that follow and are good.
fn judge_turn(read: Option<(Record, usize)>, l: Lent, t: OneTurn, bytes: &[u8]) -> OneTurn
    requires { Ready bytes.now read t }
    ensures { Asked (lengths_by l) bytes.now t result }
{
    let u = turn(read, l, t, bytes.len())?;
    let v = asked(bytes, u)?;
    ControlFlow::Continue(forward(bytes, l, v))
}

// What has been read after a sizes record.
fn started_with(z: Sizes) -> Progress
    requires { sizes_ok z ≡ true }
    ensures { sofar_of result ≡ started z }
{
    Progress {
        sizes: z,
        live: 0,
        labels: 0,
        blocks: BlocksRead::default(),
        moves: MovesRead::default(),
    }
}

// The first record: the sizes, inside their limits, and no room shorter than they need.
pub fn first_turn(read: Option<(Record, usize)>, l: Lent) -> OneTurn
    ensures { Begins (lengths_by l) read result }
{
    let Some((last, at)) = read else {
        return refused(Refusal::Broken, 0);
    };
    let Record::Sizes(z) = last else {
        return refused(Refusal::NotDue, 0);
    };
    if !limits::sizes_ok(z) {
        return refused(Refusal::BadSize, 0);
    }
    if !limits::lent_ok(l, z) {
        return refused(Refusal::ShortRoom, 0);
    }
    ControlFlow::Continue(HalfRead {
        last,
        so_far: started_with(z),
        at,
    })
}

// The whole model, read through one reader from record to record: what loading it would say, before anything is stored.
pub fn judge_model(bytes: &[u8], l: Lent) -> Result<Summary, Refused>
    ensures { read_says result ≡ summary (read_model (lengths_by l) bytes.now) }
{
    let mut r = Reader::new(bytes, 0);
    let mut t = first_turn(r.read(), l);
    loop {
        let h = match t {
            ControlFlow::Break(answer) => return answer,
            ControlFlow::Continue(h) => h,
        };
        r.at = h.at;
        t = judge_turn(r.read(), l, t, bytes);
    }
}
