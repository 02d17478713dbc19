// The update of the values that follows a batch, and the values of a model that is loaded.
#![tactic(auto)]

ghost use Rattle.std.specs.Prelude.{◌≡◌, true, ℕ, ◌+◌, ◌≤◌, ◌<◌, get_or, length, take, replicate};
ghost use Rattle.rules.specs.Limits.{most_changes};
ghost use Rattle.rules.specs.Batch.{changes_ok};
ghost use Rattle.rules.specs.Rooms.{pairs_of, index_needs, queue_needs, index_after, queue_after};
ghost use Rattle.rules.specs.Calls.{value_at, bits};
ghost use Rattle.rules.specs.Update.{turn_all};
ghost use Rattle.rules.specs.Values.{solve};
ghost use Rattle.lists.specs.Lists.{fill};
ghost use Rattle.lists.specs.Smallest.{at};
ghost use Rattle.words.specs.Words.{changes_of};
ghost use Rattle.engine_table.specs.Sketch.{sketch};
ghost use Rattle.engine_table.specs.Table.{model_of};
ghost use Rattle.engine_table.specs.Table as cut;
ghost use Rattle.engine_table.specs.Lent.{table_of, Drawn};
ghost use Rattle.engine_index.specs.At.{at_labels};
ghost use Rattle.engine_index.specs.Indexed.{heads_of};
ghost use Rattle.engine_index.specs.Operands.{Named};
ghost use Rattle.engine_phase.specs.Started.{Started};
ghost use Rattle.engine_phase.specs.Levels.{Levelled};
ghost use Rattle.engine.specs.Held.{model_in};
ghost use Rattle.engine.specs.Updates.{Moved, MovedIn, Leaves};

use engine_index::Known;
use engine_phase::Counts;
use held::Held;
use rules::{Sizes, Visits};

mod held;

// What the turns of an update count: the visits, and a level that is as many as there are pairs at first and follows the number of
// true pairs.
#[derive(Clone, Copy, Debug, PartialEq, Eq)]
pub struct Turns {
    pub visits: Visits,
    pub level: usize,
}

// The rooms are parameters, as C lends them: behind a `&mut` to a struct of `&mut` slices the check covers no call that is lent two of them.
// The moves come whole to `update` and `load_values`, with their number beside them, since the length of their room says how far the rooms
// to work in are cleared.

// All blocks in order, each shifted and then settled.
fn turn_blocks(
    known: &Known,
    labels: &[u32],
    operand: &[u64],
    changes: &[u32],
    values: &mut [u8],
    marks: &mut [u8],
    queue: &mut [u16],
    bad: &mut [u8],
) -> Turns
    requires drawn { cut.Drawn (at_labels known.now labels.now) }
    requires named { Named (sketch known.now.sizes known.now.equations.now known.now.moves.now) operand.now × (changes_ok known.now.sizes (changes_of changes.now) ≡ true) }
    requires bad_len { (length bad.old ≡ known.now.sizes.states) × (pairs_of known.now.sizes < length queue.old) }
    requires started { Started (model_of (at_labels known.now labels.now)) (changes_of changes.now) values.old × (marks.old ≡ replicate (pairs_of known.now.sizes) 0) }
    ensures { Moved (model_of (at_labels known.now labels.now)) (changes_of changes.now) values.old values.new marks.new result.visits.shift result.visits.settle × Levelled known.now.sizes (pairs_of known.now.sizes) values.old result.level values.new }
{
    let blocks = engine_values::count_blocks(known.equations);
    let mut shifts: usize = 0;
    let mut settles: usize = 0;
    let mut level = values.len();
    for i in 0..blocks {
        let before = Counts {
            visits: shifts,
            level,
        };
        let shifted = engine_phase::phase(
            known, labels, operand, changes, values, marks, queue, bad, i, before, false,
        );
        shifts = shifted.visits;
        let between = Counts {
            visits: settles,
            level: shifted.level,
        };
        let settled = engine_phase::phase(
            known, labels, operand, changes, values, marks, queue, bad, i, between, true,
        );
        settles = settled.visits;
        level = settled.level;
    }
    let shift = shifts as u32;
    let settle = settles as u32;
    let visits = Visits { shift, settle };
    Turns { visits, level }
}

// Builds the indexes, and turns all blocks by them. The heads of the index are 0 at the start.
fn index_and_turn(
    held: &Held,
    changes: &[u32],
    values: &mut [u8],
    marks: &mut [u8],
    index: &mut [u16],
    queue: &mut [u16],
) -> Turns
    requires changes_value { changes_ok held.now.sizes (changes_of changes.now) ≡ true }
    requires started { Started (model_in held.now) (changes_of changes.now) values.old × (marks.old ≡ replicate (pairs_of held.now.sizes) 0) }
    requires moves_in_bounds { ((heads_of held.now.sizes + length held.now.moves.now ≤ length index.old) × ((k : ℕ) → k < heads_of held.now.sizes → get_or index.old k 0 ≡ 0)) × (pairs_of held.now.sizes < length queue.old) }
    ensures { Moved (model_in held.now) (changes_of changes.now) values.old values.new marks.new result.visits.shift result.visits.settle × Levelled held.now.sizes (pairs_of held.now.sizes) values.old result.level values.new }
{
    let mut operand = [0u64; 96];
    let mut bad = [0u8; 256];
    let sizes = held.sizes;
    let equations = held.equations;
    let moves = held.moves;
    let states = sizes.states as usize;
    engine_index::name_operands(sizes, equations, &mut operand);
    engine_index::index_moves(sizes, moves, index);
    let known = Known {
        sizes,
        equations,
        moves,
        index,
    };
    let part = &mut bad[..states];
    turn_blocks(
        &known,
        held.labels,
        &operand,
        changes,
        values,
        marks,
        queue,
        part,
    )
}

// The values follow the changes in rooms that may be longer than the model; the marks are cleared first. The heads of the index are 0.
fn move_values(
    held: &Held,
    changes: &[u32],
    values: &mut [u8],
    marks: &mut [u8],
    index: &mut [u16],
    queue: &mut [u16],
) -> Turns
    requires changes_value { changes_ok held.now.sizes (changes_of changes.now) ≡ true }
    requires started { Started (model_in held.now) (changes_of changes.now) (take (pairs_of held.now.sizes) values.old) }
    requires sizes_in_bounds { (pairs_of held.now.sizes ≤ length values.old) × (pairs_of held.now.sizes ≤ length marks.old) }
    requires moves_in_bounds { ((heads_of held.now.sizes + length held.now.moves.now ≤ length index.old) × ((k : ℕ) → k < heads_of held.now.sizes → get_or index.old k 0 ≡ 0)) × (pairs_of held.now.sizes < length queue.old) }
    ensures { MovedIn (model_in held.now) (changes_of changes.now) values.old marks.old values.new marks.new result.visits.shift result.visits.settle result.level }
{
    let p = limits::pairs_of(held.sizes);
    engine_values::set_first(marks, p, 0);
    index_and_turn(
        held,
        changes,
        &mut values[..p],
        &mut marks[..p],
        index,
        queue,
    )
}

// The rooms to work in, cleared as far as they are used; `room` is the length of the move room.
fn clear_work(sizes: Sizes, room: usize, index: &mut [u16], queue: &mut [u16])
    requires { (index_needs sizes room ≤ length index.old) × (queue_needs sizes ≤ length queue.old) }
    ensures { (index.new ≡ index_after sizes room index.old) × (queue.new ≡ queue_after sizes queue.old) }
{
    let links = limits::index_needs(sizes, room);
    let waiting = limits::queue_needs(sizes);
    engine_values::set_first(index, links, 0);
    engine_values::set_first(queue, waiting, 0);
}

// The same, with rooms to work in that may be longer than needed: their places that are used are 0 afterwards. `room` is the length of the
// move room.
fn move_in_rooms(
    held: &Held,
    room: usize,
    changes: &[u32],
    values: &mut [u8],
    marks: &mut [u8],
    index: &mut [u16],
    queue: &mut [u16],
) -> Turns
    requires changes_value { changes_ok held.now.sizes (changes_of changes.now) ≡ true }
    requires started { Started (model_in held.now) (changes_of changes.now) (take (pairs_of held.now.sizes) values.old) }
    requires sizes_in_bounds { (pairs_of held.now.sizes ≤ length values.old) × (pairs_of held.now.sizes ≤ length marks.old) }
    requires moves_in_bounds { (length held.now.moves.now ≤ room) × ((index_needs held.now.sizes room ≤ length index.old) × (queue_needs held.now.sizes ≤ length queue.old)) }
    ensures { MovedIn (model_in held.now) (changes_of changes.now) values.old marks.old values.new marks.new result.visits.shift result.visits.settle result.level
        × ((index.new ≡ index_after held.now.sizes room index.old) × (queue.new ≡ queue_after held.now.sizes queue.old)) }
{
    let sizes = held.sizes;
    let links = limits::index_needs(sizes, room);
    let waiting = limits::queue_needs(sizes);
    engine_values::set_first(index, links, 0);
    let turns = move_values(
        held,
        changes,
        values,
        marks,
        &mut index[..links],
        &mut queue[..waiting],
    );
    clear_work(sizes, room, index, queue);
    turns
}

// The model that the sizes and the move count cut out of the rooms.
fn cut_out<'a>(
    sizes: Sizes,
    labels: &'a [u32],
    equations: &'a [u32],
    moves: &'a [u32],
    n: usize,
) -> Held<'a>
    requires { Drawn sizes labels.now equations.now moves.now n }
    ensures { model_in result ≡ table_of sizes labels.now equations.now moves.now n }
{
    let states = sizes.states as usize;
    let variables = sizes.variables as usize;
    Held {
        sizes,
        labels: &labels[..states],
        equations: &equations[..variables],
        moves: &moves[..n],
    }
}

// What an update reports: the visits, and the change in the number of true pairs.
#[derive(Clone, Copy, Debug, PartialEq, Eq)]
pub struct Effects {
    pub visits: Visits,
    pub net: i32,
}

// The values follow the changes that made the moves; the marks say what turned.
pub fn update(
    sizes: Sizes,
    labels: &[u32],
    equations: &[u32],
    moves: &[u32],
    n: usize,
    changes: &[u32],
    values: &mut [u8],
    marks: &mut [u8],
    index: &mut [u16],
    queue: &mut [u16],
) -> Effects
    requires drawn { Drawn sizes labels.now equations.now moves.now n }
    requires changes_value { changes_ok sizes (changes_of changes.now) ≡ true }
    requires started { Started (table_of sizes labels.now equations.now moves.now n) (changes_of changes.now) (take (pairs_of sizes) values.old) }
    requires sizes_in_bounds { ((pairs_of sizes ≤ length values.old) × (pairs_of sizes ≤ length marks.old)) × (length changes.now ≤ most_changes) }
    requires moves_in_bounds { (index_needs sizes (length moves.now) ≤ length index.old) × (queue_needs sizes ≤ length queue.old) }
    ensures { (Leaves (table_of sizes labels.now equations.now moves.now n) (turn_all (table_of sizes labels.now equations.now moves.now n) (changes_of changes.now) (value_at values.old))
        values.old marks.old values.new marks.new result.visits.shift result.visits.settle result.net)
        × ((index.new ≡ index_after sizes (length moves.now) index.old) × (queue.new ≡ queue_after sizes queue.old)) }
{
    let p = limits::pairs_of(sizes);
    let held = cut_out(sizes, labels, equations, moves, n);
    let room = moves.len();
    let turns = move_in_rooms(&held, room, changes, values, marks, index, queue);
    let visits = turns.visits;
    Effects {
        visits,
        net: engine_values::net(p, turns.level),
    }
}

// The values of the model, found from each block's own value with no change; the marks are cleared.
pub fn load_values(
    sizes: Sizes,
    labels: &[u32],
    equations: &[u32],
    moves: &[u32],
    n: usize,
    values: &mut [u8],
    marks: &mut [u8],
    index: &mut [u16],
    queue: &mut [u16],
)
    requires drawn { Drawn sizes labels.now equations.now moves.now n }
    requires sizes_in_bounds { (pairs_of sizes ≤ length values.old) × (pairs_of sizes ≤ length marks.old) }
    requires moves_in_bounds { (index_needs sizes (length moves.now) ≤ length index.old) × (queue_needs sizes ≤ length queue.old) }
    ensures { ((values.new ≡ fill (bits (pairs_of sizes) (at (solve (table_of sizes labels.now equations.now moves.now n)))) values.old)
        × (marks.new ≡ fill (replicate (pairs_of sizes) 0) marks.old))
        × ((index.new ≡ index_after sizes (length moves.now) index.old) × (queue.new ≡ queue_after sizes queue.old)) }
{
    let p = limits::pairs_of(sizes);
    engine_values::own_values(sizes, equations, p, values);
    let held = cut_out(sizes, labels, equations, moves, n);
    move_in_rooms(&held, moves.len(), &[], values, marks, index, queue);
    engine_values::set_first(marks, p, 0);
}
