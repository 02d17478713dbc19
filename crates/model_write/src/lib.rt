// A model written from its rooms, each as long as its use: the one spelling, record by record, into a room that holds it.
#![tactic(auto)]

ghost use Rattle.std.specs.Prelude.{◌≡◌, [], ◌∷◌, map, ◌+◌, ◌*◌, ◌≤◌, true, false, length};
ghost use Rattle.rules.specs.Limits.{most_states, most_variables};
ghost use Rattle.rules.specs.Model.{signed};
ghost use Rattle.rules.specs.Session.{unword};
ghost use Rattle.laws.specs.bytes.SpellingLength.{labelled, equation_size};
ghost use Rattle.model_write.specs.Spelled.{HasRoom, Wrote, live_bytes, one_label, label_bytes, in_block, equation_bytes, move_bytes, held_in, length_by};
ghost use Rattle.rules.specs.Spelling.{encode};

use rules::{Equation, Session, Sizes, State};

// The record of a live model, where it is one. `live` is a number, as C hands it over in a session, where one above 1 is refused.
#[tactic(auto, unfolding(crate::specs::Spelled::live_bytes, rules::specs::Records::widths))]
fn put_live(out: &mut [u8], at: usize, live: u8) -> usize
    requires { HasRoom out.old at (live_bytes live) }
    ensures { Wrote out.old at (live_bytes live) out.new result }
{
    if live == 1 {
        bytes_write::write_live(out, at);
        return at + 1;
    }
    at
}

// A label, where the set is not empty.
#[tactic(auto, using(crate::specs::SpelledLaws::label_laws), unfolding(rules::specs::Records::widths))]
fn put_label(out: &mut [u8], at: usize, here: State, v: u32) -> usize
    requires { HasRoom out.old at (one_label here.0 v) }
    ensures { Wrote out.old at (one_label here.0 v) out.new result }
{
    if v == 0 {
        return at;
    }
    bytes_write::write_label(out, at, here, v);
    at + 7
}

// The labels of all states.
fn write_labels(out: &mut [u8], start: usize, labels: &[u32]) -> usize
    requires { HasRoom out.old start (label_bytes labels.now 0) × (length labels.now ≤ most_states) }
    ensures { Wrote out.old start (label_bytes labels.now 0) out.new result }
{
    let mut at = start;
    for (i, v) in labels.iter().enumerate() {
        at = put_label(out, at, State(i as u16), *v);
    }
    at
}

// An equation, with a block's record before the first of each block; `rest` is what stands after it.
#[tactic(auto, unfolding(crate::specs::Spelled::in_block, rules::specs::Records::widths))]
fn put_in_block(out: &mut [u8], at: usize, e: Equation, b: u32, rest: &[u32]) -> usize
    requires { HasRoom out.old at (in_block b e (map unword rest.now)) × (length rest.now ≤ most_variables) }
    ensures { Wrote out.old at (in_block b e (map unword rest.now)) out.new result }
{
    let after = u32::from(e.block) + 1;
    if after == b {
        bytes_write::write_equation(out, at, e);
        return at + 4;
    }
    let count = model_chains::run_of(rest, after) as u8;
    bytes_write::write_block(out, at, e, count + 1);
    bytes_write::write_equation(out, at + 3, e);
    at + 7
}

// The equations, block by block.
fn write_blocks(out: &mut [u8], start: usize, equations: &[u32]) -> usize
    requires { HasRoom out.old start (equation_bytes false 0 (map unword equations.now) 0) × (length equations.now ≤ most_variables) }
    ensures { Wrote out.old start (equation_bytes false 0 (map unword equations.now) 0) out.new result }
{
    let mut at = start;
    let mut b: u32 = 0;
    for (i, w) in equations.iter().enumerate() {
        let e = words::equation_in(*w);
        at = put_in_block(out, at, e, b, &equations[i + 1..]);
        b = u32::from(e.block) + 1;
    }
    at
}

// The equations, each with its sign.
fn write_signs(out: &mut [u8], start: usize, equations: &[u32]) -> usize
    requires { HasRoom out.old start (equation_bytes true 0 (map unword equations.now) 0) }
    ensures { Wrote out.old start (equation_bytes true 0 (map unword equations.now) 0) out.new result }
{
    let mut at = start;
    for w in equations {
        bytes_write::write_signed(out, at, words::equation_in(*w));
        at += 5;
    }
    at
}

// The equations, in the style that the sizes tell.
fn write_equations(out: &mut [u8], start: usize, z: Sizes, equations: &[u32]) -> usize
    requires { HasRoom out.old start (equation_bytes (signed z) 0 (map unword equations.now) 0) × (length equations.now ≤ most_variables) }
    ensures { Wrote out.old start (equation_bytes (signed z) 0 (map unword equations.now) 0) out.new result }
{
    if limits::signed(z) {
        return write_signs(out, start, equations);
    }
    write_blocks(out, start, equations)
}

// The moves, and the end.
fn write_moves(out: &mut [u8], start: usize, moves: &[u32]) -> usize
    requires { HasRoom out.old start (move_bytes moves.now 0) }
    ensures { Wrote out.old start (move_bytes moves.now 0) out.new result }
{
    let mut at = start;
    for q in moves {
        bytes_write::write_move(out, at, *q);
        at += 6;
    }
    bytes_write::write_end(out, at);
    at + 1
}

// How many states have a label. There may be 256, so they are counted without a branch, in numbers as long as the labels.
fn count_labels(labels: &[u32]) -> u32
    requires { length labels.now ≤ most_states }
    ensures { (result ≡ labelled labels.now) × (result ≤ length labels.now) }
{
    let mut k: u32 = 0;
    for v in labels {
        k += u32::from(*v != 0);
    }
    k
}

// The length of all equations: one with a sign of its own takes a byte more.
fn equations_length(z: Sizes) -> usize
    ensures { (result ≡ equation_size z * z.variables) × (result ≤ 1275) }
{
    let each = if limits::signed(z) { 5 } else { 4 };
    each * usize::from(z.variables)
}

// The length of a model's spelling, by its labels and the counts that its session keeps. A live model takes a byte more.
pub fn spelled_length(session: Session, labels: &[u32]) -> usize
    requires { length labels.now ≤ most_states }
    ensures { result ≡ length_by session labels.now }
{
    let z = session.sizes;
    let k = count_labels(labels) as usize;
    let blocks = usize::from(z.blocks);
    let live = usize::from(session.live);
    8 + live + 7 * k + 3 * blocks + equations_length(z) + 6 * (session.moves as usize)
}

// A model's spelling, written from the front of the room on.
pub fn write_model(
    out: &mut [u8],
    session: Session,
    labels: &[u32],
    equations: &[u32],
    moves: &[u32],
) -> usize
    requires labels_len_bound { (length labels.now ≤ most_states) × (length equations.now ≤ most_variables) }
    requires has_room { HasRoom out.old 0 (encode (held_in session labels.now equations.now moves.now)) }
    ensures { Wrote out.old 0 (encode (held_in session labels.now equations.now moves.now)) out.new result }
{
    let z = session.sizes;
    bytes_write::write_sizes(out, 0, z);
    let start = put_live(out, 7, session.live);
    let a = write_labels(out, start, labels);
    let b = write_equations(out, a, z, equations);
    write_moves(out, b, moves)
}
