// A turn: the pair in front of the queue gets its other value, and the pairs that lean on it inside its block are visited: those
// that must turn too wait behind the others.
#![tactic(auto)]

ghost use Rattle.std.specs.Prelude.{◌≡◌, true, cond, [], ◌∷◌, ◌+◌, ◌*◌, ◌/◌, ◌%◌, ◌<◌, length, get_or};
ghost use Rattle.systems.specs.machine.Machine.{free, next_mark};
ghost use Rattle.rules.specs.Rooms.{pairs_of};
ghost use Rattle.laws.specs.model.ModelLeaners.{leaners_of};
ghost use Rattle.words.specs.Words.{waiting_of};
ghost use Rattle.engine_table.specs.Sketch.{sketch};
ghost use Rattle.engine_table.specs.Table.{model_of, waiter};
ghost use Rattle.engine_rows.specs.Rooms.{Bits, Packed};
ghost use Rattle.engine_index.specs.Indexed.{heads_of};
ghost use Rattle.engine_index.specs.Operands.{owner_in, Named};
ghost use Rattle.engine_turn.specs.Turns.{FromValue, round_at, RoomFor, Turned};
ghost use Rattle.engine_turn.specs.Scene.{scene_in, sizes_in, fails, line_at, visit_all, Leaner, AlongBy, Leans, HeadOf, OperandOf, BoundedAt, Room, sources_of, pairs_of_word, leaners_at};

use engine_index::Known;
use rules::{State, Variable};
use view::View;

mod view;

// Where a run of visits stands: the end of the queue, and the number of visits so far.
#[derive(Clone, Copy, Debug, PartialEq, Eq)]
pub struct Spread {
    pub tail: usize,
    pub visits: usize,
}

// Does the mark leave a pair free to wait?
fn is_free(settling: bool, mark: u8) -> bool
    ensures { result ≡ free settling mark }
{
    let settles = u8::from(settling);
    mark < 1 + settles
}

// The mark by which a pair waits that is free to.
fn next_mark(settling: bool, mark: u8) -> u8
    requires { free settling mark ≡ true }
    ensures { result ≡ next_mark settling mark }
{
    let settles = u8::from(settling);
    1 + 2 * settles - mark
}

// Has no operand of y at s, whose equation is easy, the value `from`? A diamond or a box is looked at along one of its moves, whose place
// is `way`.
fn easy_fails(view: &View, way: Option<usize>, y: Variable, s: State) -> bool
    requires leaner { Leaner (scene_in view.now) y.0 s.0 }
    requires along { AlongBy (scene_in view.now) way y.0 s.0 }
    ensures { result ≡ fails (scene_in view.now) y.0 s.0 }
{
    let known = view.known;
    let sizes = known.sizes;
    let values = view.values;
    let from = view.from;
    let at = y.0 as usize;
    let equations = known.equations;
    let e = words::equation_in(equations[at]);
    if let Some(j) = way {
        let moves = known.moves;
        return !engine_own::leads_from(sizes, moves, values, from, Variable(e.second), j);
    }
    let first = engine_own::has(sizes, values, from, Variable(e.first), s);
    let second = engine_own::has(sizes, values, from, Variable(e.second), s);
    !first & !second
}

// Must the pair at s of the operand's variable, which has the value `from`, turn where one that it leans on has turned? Its operands
// are looked at where that is asked.
fn must_turn(view: &View, asks: bool, way: Option<usize>, o: u64, s: State) -> bool
    requires leaner { Leaner (scene_in view.now) (owner_in o) s.0 }
    requires along { AlongBy (scene_in view.now) way (owner_in o) s.0 }
    ensures { result ≡ cond asks (fails (scene_in view.now) (owner_in o) s.0) true }
{
    if asks {
        return easy_fails(view, way, engine_index::owner_in(o), s);
    }
    true
}

// The rooms of marks and queue are parameters, as C lends them: behind a `&mut` to a struct of `&mut` slices the check covers no call that is
// lent two of them.

// The pair at s of the operand's variable is visited: it waits if its mark leaves it free and it must turn. A visit to a diamond or a
// box comes along its move whose place is `way`.
fn visit(
    view: &View,
    marks: &mut [u8],
    queue: &mut [u16],
    at: Spread,
    asks: bool,
    way: Option<usize>,
    o: u64,
    s: State,
) -> Spread
    requires leans { Leans (scene_in view.now) view.now.settling asks o × (s.0 < (sizes_in view.now).states) }
    requires marks_len { (length marks.old ≡ pairs_of (sizes_in view.now)) × ((at.tail < 4294967296) × (at.visits < 4294967296)) }
    requires along { AlongBy (scene_in view.now) way (owner_in o) s.0 }
    requires room { Room (scene_in view.now) view.now.settling (waiting_of (owner_in o) s.0 ∷ []) (line_at marks.old queue.old at) }
    ensures { line_at marks.new queue.new result
        ≡ visit_all (scene_in view.now) view.now.settling (waiting_of (owner_in o) s.0 ∷ []) (line_at marks.old queue.old at) }
{
    let settling = view.settling;
    let tail = at.tail;
    let count = at.visits + 1;
    let p = engine_index::pair_in(o, s);
    let values = view.values;
    if values[p] == view.from {
        let mark = marks[p];
        if is_free(settling, mark) {
            if must_turn(view, asks, way, o, s) {
                marks[p] = next_mark(settling, mark);
                queue[tail] = engine_index::waiting_in(o, s);
                let end = tail + 1;
                return Spread {
                    tail: end,
                    visits: count,
                };
            }
        }
    }
    Spread {
        tail,
        visits: count,
    }
}

// The pairs of the operand's variable at the sources of the moves in the chain of the head are visited. `engine_index::chains` walks such a
// chain too, and sets places: here each step hands on where the queue ends, and the walk ends where a link is 0.
fn visit_sources(
    view: &View,
    marks: &mut [u8],
    queue: &mut [u16],
    at: Spread,
    asks: bool,
    o: u64,
    head: usize,
) -> Spread
    requires leans { Leans (scene_in view.now) view.now.settling asks o × HeadOf (scene_in view.now) (owner_in o) head }
    requires head_bound { (head < heads_of (sizes_in view.now)) × ((length marks.old ≡ pairs_of (sizes_in view.now)) × BoundedAt at (sources_of view.now (owner_in o) head)) }
    requires room { Room (scene_in view.now) view.now.settling (sources_of view.now (owner_in o) head) (line_at marks.old queue.old at) }
    ensures { line_at marks.new queue.new result
        ≡ visit_all (scene_in view.now) view.now.settling (sources_of view.now (owner_in o) head) (line_at marks.old queue.old at) }
{
    let known = view.known;
    let moves = known.moves;
    let index = known.index;
    let links = engine_index::heads_of(known.sizes);
    let mut s = at;
    let mut k = usize::from(index[head]);
    while 0 < k {
        let j = k - 1;
        let here = words::source_of(moves[j]);
        s = visit(view, marks, queue, s, asks, Some(j), o, here);
        k = usize::from(index[links + j]);
    }
    s
}

// The pairs that lean on the state s of the variable that the operand names are visited.
fn visit_operand(
    view: &View,
    marks: &mut [u8],
    queue: &mut [u16],
    at: Spread,
    o: u64,
    s: State,
) -> Spread
    requires operand_of { OperandOf (scene_in view.now) o }
    requires s_lt_states { (s.0 < (sizes_in view.now).states) × ((length marks.old ≡ pairs_of (sizes_in view.now)) × BoundedAt at (pairs_of_word view.now s.0 (owner_in o))) }
    requires room { Room (scene_in view.now) view.now.settling (pairs_of_word view.now s.0 (owner_in o)) (line_at marks.old queue.old at) }
    ensures { line_at marks.new queue.new result
        ≡ visit_all (scene_in view.now) view.now.settling (pairs_of_word view.now s.0 (owner_in o)) (line_at marks.old queue.old at) }
{
    let asks = view.settling & engine_index::easy_in(o);
    if !engine_index::step_in(o) {
        return visit(view, marks, queue, at, asks, None, o, s);
    }
    let head = engine_index::head_in(o, s);
    visit_sources(view, marks, queue, at, asks, o, head)
}

// The pairs that lean on the pair of x and s inside its block are visited.
fn visit_leaners(
    view: &View,
    marks: &mut [u8],
    queue: &mut [u16],
    at: Spread,
    x: Variable,
    s: State,
) -> Spread
    requires x_lt_variables { (x.0 < (sizes_in view.now).variables) × ((s.0 < (sizes_in view.now).states) × ((length marks.old ≡ pairs_of (sizes_in view.now)) × BoundedAt at (leaners_at view.now x.0 s.0))) }
    requires room { Room (scene_in view.now) view.now.settling (leaners_at view.now x.0 s.0) (line_at marks.old queue.old at) }
    ensures { line_at marks.new queue.new result
        ≡ visit_all (scene_in view.now) view.now.settling (leaners_at view.now x.0 s.0) (line_at marks.old queue.old at) }
{
    let operand = view.operand;
    let to = x.0 as usize;
    let mut r = at;
    let mut o = operand[to];
    if o == 0 {
        return r;
    }
    loop {
        r = visit_operand(view, marks, queue, r, o, s);
        let next = engine_index::link_in(o);
        if next == 0 {
            return r;
        }
        o = operand[next];
    }
}

// The pair in front of the queue turns from its value, and the pairs that lean on it inside its block are visited.
pub fn turn(
    known: &Known,
    operand: &[u64],
    values: &mut [u8],
    marks: &mut [u8],
    queue: &mut [u16],
    front: usize,
    at: Spread,
    settling: bool,
    from: u8,
) -> Spread
    requires named { Named (sketch known.now.sizes known.now.equations.now known.now.moves.now) operand.now }
    requires values_len { (length values.old ≡ pairs_of known.now.sizes) × (length marks.old ≡ pairs_of known.now.sizes) }
    requires bits { Bits values.old × (Packed known.now.sizes queue.old at.tail × (front < at.tail)) }
    requires from_value { FromValue (sketch known.now.sizes known.now.equations.now known.now.moves.now) settling values.old (get_or queue.old front 0) }
    requires bounded_at { let h = known.now in BoundedAt at (leaners_of (model_of (sketch h.sizes h.equations.now h.moves.now)) (waiter h.sizes (get_or queue.old front 0))) }
    requires from_value_2 { from ≡ get_or values.old (waiter known.now.sizes (get_or queue.old front 0)) 0 }
    requires room_for { let h = known.now in RoomFor h.sizes h.equations.now h.moves.now settling front (get_or queue.old front 0) (round_at values.old marks.old queue.old at) }
    ensures { let h = known.now in Turned h.sizes h.equations.now h.moves.now settling front (get_or queue.old front 0)
        (round_at values.old marks.old queue.old at)
        (round_at values.new marks.new queue.new result) }
{
    let w = queue[front];
    let x = words::variable_of(w);
    let s = words::state_of(w);
    let p = words::pair_of(known.sizes, s, x);
    values[p] = 1 - from;
    let view = View {
        known,
        operand,
        values,
        from,
        settling,
    };
    visit_leaners(&view, marks, queue, at, x, s)
}
