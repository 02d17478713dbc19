// Labels, equations of a block and moves that stand one after another in the bytes of a model, each whole, in range and in
// order: some of them read in one go. What a run passes is good; that it passes all that are good is not promised.
#![tactic(auto)]

ghost use Rattle.std.specs.Prelude.{◌≡◌, true, ℕ, ◌+◌, ◌*◌, ◌^◌, ◌≤◌, ◌<◌, length, IfSome};
ghost use Rattle.rules.specs.Limits.{most_moves};
ghost use Rattle.model_runs.specs.Runs.{GoodLabel, GoodEquation, GoodMove, with_label, with_equation, with_move, Labelled, Equated, Moved};

use bytes_read::Kind;
use rules::Sizes;

// Where labels are read: they have passed the states below `labels`, and the next record stands at a place.
#[derive(Clone, Copy, Debug, PartialEq, Eq)]
pub struct LabelRun {
    pub labels: u32,
    pub at: usize,
}

// Where equations of a block are read: how many are due, and where the next record stands.
#[derive(Clone, Copy, Debug, PartialEq, Eq)]
pub struct EquationRun {
    pub due: u32,
    pub at: usize,
}

// Of the moves so far: how many, the least number that the next may have, and how many states, from the first on, have a move
// each.
#[derive(Clone, Copy, Debug, PartialEq, Eq, Default)]
pub struct MovesRead {
    pub count: u32,
    pub least: u64,
    pub moving: u32,
}

// Where moves are read: what has been read of them, and where the next record stands.
#[derive(Clone, Copy, Debug, PartialEq, Eq)]
pub struct MoveRun {
    pub moves: MovesRead,
    pub at: usize,
}

// Whether a good label stands next: where the answer is yes, it does.
pub fn good_label(bytes: &[u8], z: Sizes, x: LabelRun) -> bool
    requires { x.at ≤ length bytes.now }
    ensures { result ≡ true → GoodLabel bytes.now z x }
{
    let at = x.at;
    if bytes.len() - at < 7 {
        return false;
    }
    let s = bytes_read::u16_at(bytes, at + 1);
    let v = bytes_read::u32_at(bytes, at + 3);
    (bytes[at] == Kind::Label as u8)
        & (s < z.states)
        & (0 < v)
        & limits::label_ok(z, v)
        & (x.labels <= s as u32)
}

// Past the label that stands next.
pub fn with_label(bytes: &[u8], x: LabelRun) -> LabelRun
    requires { x.at + 7 ≤ length bytes.now }
    ensures { result ≡ with_label bytes.now x }
{
    let at = x.at;
    let labels = bytes_read::u16_at(bytes, at + 1) as u32 + 1;
    LabelRun { labels, at: at + 7 }
}

// Each of the three runs has a loop of its own: one over a trait would need three ghost members, a law and three impls, for a
// loop of one line.

// Past good labels that stand next. It may stop before the last of them; who reads on meets the next as any other record.
pub fn labels_run(bytes: &[u8], z: Sizes, x: LabelRun) -> LabelRun
    requires { x.at ≤ length bytes.now }
    ensures { Labelled bytes.now z x result }
{
    let mut y = x;
    while good_label(bytes, z, y) {
        y = with_label(bytes, y);
    }
    y
}

// Whether an equation is due and a good one stands next, in a block before the variable `end`: where the answer is yes, it does.
pub fn good_equation(bytes: &[u8], z: Sizes, end: usize, x: EquationRun) -> bool
    requires { x.at ≤ length bytes.now }
    ensures { result ≡ true → GoodEquation bytes.now z end x }
{
    let at = x.at;
    if (x.due == 0) | (bytes.len() - at < 4) {
        return false;
    }
    let o = bytes[at + 1];
    let a = bytes[at + 2];
    let b = bytes[at + 3];
    (bytes[at] == Kind::Equation as u8)
        & limits::operands_ok(z, o, a, b)
        & limits::names_ok(end, o, a, b)
}

// Past the equation that stands next.
pub fn with_equation(x: EquationRun) -> EquationRun
    requires { (0 < x.due) × (x.at + 4 < 2 ^ 64) }
    ensures { result ≡ with_equation x }
{
    EquationRun {
        due: x.due - 1,
        at: x.at + 4,
    }
}

// Past good equations of the block that stand next, not always all of them.
pub fn equations_run(bytes: &[u8], z: Sizes, end: usize, x: EquationRun) -> EquationRun
    requires { x.at ≤ length bytes.now }
    ensures { Equated bytes.now z end x result }
{
    let mut y = x;
    while good_equation(bytes, z, end, y) {
        y = with_equation(y);
    }
    y
}

// Whether the whole move that stands next is good, without a branch: where the answer is yes, it is.
fn good_move(bytes: &[u8], z: Sizes, x: MoveRun) -> bool
    requires { x.at + 6 ≤ length bytes.now }
    ensures { result ≡ true → GoodMove bytes.now z x }
{
    let at = x.at;
    let m = bytes_read::move_at(bytes, at + 1);
    (bytes[at] == Kind::Move as u8) & limits::move_ok(z, m) & (x.moves.least <= words::packed(m))
}

// Past the whole move that stands next.
fn with_move(bytes: &[u8], x: MoveRun) -> MoveRun
    requires { (x.at + 6 ≤ length bytes.now) × (x.moves.count < most_moves) }
    ensures { result ≡ with_move bytes.now x }
{
    let at = x.at;
    let m = bytes_read::move_at(bytes, at + 1);
    let least = words::packed(m) + 1;
    let moving = limits::moving_with(x.moves.moving, m.source);
    MoveRun {
        moves: MovesRead {
            count: x.moves.count + 1,
            least,
            moving,
        },
        at: at + 6,
    }
}

// Past the next n moves, each of which stands whole, where all of them are good; the loop has no branch, and all are asked at
// once after it.
fn pass_all(bytes: &[u8], z: Sizes, x: MoveRun, n: usize) -> Option<MoveRun>
    requires { (x.at + 6 * n ≤ length bytes.now) × (x.moves.count + n ≤ most_moves) }
    ensures { (room : ℕ) → x.moves.count + n ≤ room → IfSome result (λ y. Moved bytes.now z room x y) }
{
    let mut good = true;
    let mut y = x;
    for _ in 0..n {
        good = good & good_move(bytes, z, y);
        y = with_move(bytes, y);
    }
    good.then_some(y)
}

// Past good moves that stand next and have room, one after another, not always all of them.
fn one_by_one(bytes: &[u8], z: Sizes, room: usize, x: MoveRun) -> MoveRun
    requires { (x.at ≤ length bytes.now) × (room ≤ most_moves) }
    ensures { Moved bytes.now z room x result }
{
    let mut y = x;
    while ((y.moves.count as usize) < room) && (6 <= bytes.len() - y.at) && good_move(bytes, z, y) {
        y = with_move(bytes, y);
    }
    y
}

// Past good moves that stand next and have room, not always all of them: at once where all that stand there are good, one
// after another where one of them is not.
//
// It stays a function of its own in what is built, so that who calls it is small and hands no model half read from place to place.
#[inline(never)]
pub fn moves_run(bytes: &[u8], z: Sizes, room: usize, x: MoveRun) -> MoveRun
    requires { (x.at ≤ length bytes.now) × (room ≤ most_moves) }
    ensures { Moved bytes.now z room x result }
{
    let count = x.moves.count as usize;
    if room < count {
        return x;
    }
    let n = (room - count).min((bytes.len() - x.at) / 6);
    match pass_all(bytes, z, x, n) {
        Some(run) => run,
        None => one_by_one(bytes, z, room, x),
    }
}
