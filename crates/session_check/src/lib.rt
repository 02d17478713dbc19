// The check of a whole session: its counts, and whether its rooms hold a model inside the limits. The rooms are cut to their lengths
// once, where the rest is asked; below that each function takes a whole room.
#![tactic(auto)]

ghost use Rattle.std.specs.Prelude.{◌≡◌, map, ◌≤◌, ◌<◌, length, leb};
ghost use Rattle.lists.specs.Lists.{all};
ghost use Rattle.rules.specs.Limits.{most_variables};
ghost use Rattle.rules.specs.Model.{label_ok, equations_ok, moves_ok, well_formed, sign_ok, signs_ok, style_ok};
ghost use Rattle.rules.specs.Session.{unword, rest_ok};
ghost use Rattle.session_check.specs.Tested.{counts_by, model_in, goes_on, equation_ok};
ghost use Rattle.session_check.specs.Fitting.{Fits, Sized};
ghost use Rattle.session_check.specs.Lodged.{rooms_in};
ghost use Rattle.session_check.specs.LiveWalk.{live_by};
ghost use Rattle.session_check.specs.MoveWalk.{inside, in_range};
ghost use Rattle.session_check.specs.SignedWords.{each_sign};
ghost use Rattle.moves.specs.Ascending.{ascends};
ghost use Rattle.laws.specs.moves.Hanging.{moving_over};

use rules::{Equation, Session, Sizes};

// The five rooms that a session lies in, whole, as a caller lends them.
#[derive(Clone, Copy)]
pub struct SessionRooms<'a> {
    pub labels: &'a [u32],
    pub equations: &'a [u32],
    pub values: &'a [u8],
    pub marks: &'a [u8],
    pub moves: &'a [u32],
}

// 12 for the sizes: they, the flag and the move count are inside the limits, and the move room holds the moves.
#[tactic(auto, unfolding(crate::specs::Tested::counts_by))]
pub fn counts_ok(session: Session, room: usize) -> bool
    ensures { result ≡ counts_by session room }
{
    let sizes = session.sizes;
    limits::sizes_ok(sizes)
        & ((session.live <= 1) & (session.moves as usize <= limits::MOST_MOVES.min(room)))
}

// Whether the highest proposition of each set lies below the count: that of all of them together does.
fn labels_ok(sizes: Sizes, labels: &[u32]) -> bool
    ensures { result ≡ all (label_ok sizes) labels.now }
{
    let mut together: u32 = 0;
    for set in labels {
        together |= *set;
    }
    limits::label_ok(sizes, together)
}

// Whether no byte is over `most`.
fn bytes_ok(room: &[u8], most: u8) -> bool
    ensures { result ≡ all (λ v. leb v most) room.now }
{
    let mut ok = true;
    for v in room {
        ok &= *v <= most;
    }
    ok
}

// Whether source, action and target of a packed move lie below these counts of states and actions. `limits::move_ok` asks it of a move taken
// apart; the counts are widened once here for all moves, so that the loop over them has no more in it than three comparisons.
fn in_range(states: u32, actions: u32, q: u32) -> bool
    ensures { result ≡ inside states actions q }
{
    let from = words::source_of(q);
    let by = words::action_of(q);
    let to = words::target_of(q);
    ((from.0 as u32) < states) & ((by.0 as u32) < actions) & ((to.0 as u32) < states)
}

// Whether all moves are in range.
fn moves_in_range(sizes: Sizes, moves: &[u32]) -> bool
    ensures { result ≡ all (in_range sizes) moves.now }
{
    let states = sizes.states as u32;
    let actions = sizes.actions as u32;
    let mut ok = true;
    for q in moves {
        ok &= in_range(states, actions, *q);
    }
    ok
}

// Whether the moves ascend: each is over the one before it.
fn moves_ascend(moves: &[u32]) -> bool
    ensures { result ≡ ascends 0 moves.now }
{
    let mut ok = true;
    for i in 1..moves.len() {
        ok &= moves[i - 1] < moves[i];
    }
    ok
}

// Whether the moves are in range and ascend.
fn moves_ok(sizes: Sizes, moves: &[u32]) -> bool
    ensures { result ≡ moves_ok sizes 0 moves.now }
{
    moves_in_range(sizes, moves) & moves_ascend(moves)
}

// How many states, from the first on, have a move each.
fn moving(moves: &[u32]) -> u32
    ensures { result ≡ moving_over 0 moves.now }
{
    moves.iter().fold(0, |r, q| limits::moving_with(r, words::unpacked(*q).source))
}

// Whether all states of a live session are counted among those that have a move.
#[tactic(auto, unfolding(crate::specs::LiveWalk::live_by))]
fn live_ok(session: Session, moves: &[u32]) -> bool
    ensures { result ≡ live_by session moves.now }
{
    if session.live == 1 {
        return moving(moves) == session.sizes.states as u32;
    }
    true
}

// The blocks that have begun: how many, and the kind of the last, a number as in its equation.
#[derive(Clone, Copy, Debug, PartialEq, Eq)]
struct Begun {
    blocks: u32,
    kind: u8,
}

// Whether an equation goes on with the last of the blocks that have begun, or begins the next.
#[tactic(auto, unfolding(crate::specs::Tested::goes_on))]
fn goes_on(sizes: Sizes, begun: Begun, e: Equation) -> bool
    ensures { result ≡ goes_on sizes begun.blocks begun.kind e }
{
    let block = e.block as u32;
    let blocks = sizes.blocks as u32;
    if block + 1 == begun.blocks {
        return e.kind == begun.kind;
    }
    (block == begun.blocks) & (begun.blocks < blocks) & (e.kind <= 1)
}

// All that is asked of one equation, after the blocks that have begun; `end` is the first variable after its own.
#[tactic(auto, unfolding(crate::specs::Tested::equation_ok))]
fn equation_ok(sizes: Sizes, begun: Begun, end: usize, e: Equation) -> bool
    ensures { result ≡ equation_ok sizes begun.blocks begun.kind end e }
{
    goes_on(sizes, begun, e)
        & limits::operands_ok(sizes, e.operator, e.first, e.second)
        & limits::names_ok(end, e.operator, e.first, e.second)
}

// Whether the equations are those of a model with blocks.
fn equations_ok(sizes: Sizes, equations: &[u32]) -> bool
    ensures { result ≡ equations_ok sizes 0 0 0 (map unword equations.now) }
{
    let mut begun = Begun { blocks: 0, kind: 0 };
    let mut ok = true;
    for i in 0..equations.len() {
        let e = model_chains::equation_at(equations, i);
        let next = Begun {
            blocks: e.block as u32 + 1,
            kind: e.kind,
        };
        let end = i + 1 + model_chains::run_of(&equations[i + 1..], next.blocks);
        ok &= equation_ok(sizes, begun, end, e);
        begun = next;
    }
    ok & ((equations.len() == sizes.variables as usize) & (begun.blocks == sizes.blocks as u32))
}

// Whether an equation with a sign has its sign and its numbers in range.
fn sign_ok(sizes: Sizes, e: Equation) -> bool
    ensures { result ≡ sign_ok sizes e }
{
    (e.kind <= 1) & limits::operands_ok(sizes, e.operator, e.first, e.second)
}

// Whether each equation has.
fn each_sign_ok(sizes: Sizes, equations: &[u32]) -> bool
    ensures { result ≡ each_sign sizes (map unword equations.now) (length equations.now) }
{
    equations
        .iter()
        .all(|w| sign_ok(sizes, words::equation_in(*w)))
}

// Whether the equations, one for each variable, are those of a model with signs.
fn signs_ok(sizes: Sizes, equations: &[u32]) -> bool
    requires { (length equations.now ≡ sizes.variables) × (sizes.variables ≤ most_variables) }
    ensures { result ≡ signs_ok sizes (map unword equations.now) }
{
    each_sign_ok(sizes, equations) & model_chains::chains_ok(equations)
}

// Whether they are those of a model, in the style that the sizes tell.
#[tactic(auto, unfolding(rules::specs::Model::style_ok))]
fn style_ok(sizes: Sizes, equations: &[u32]) -> bool
    requires { (length equations.now ≡ sizes.variables) × (sizes.variables ≤ most_variables) }
    ensures { result ≡ style_ok sizes (map unword equations.now) }
{
    if sizes.blocks == 0 {
        return signs_ok(sizes, equations);
    }
    equations_ok(sizes, equations)
}

// Whether rooms of the right lengths hold a model inside the limits.
fn model_ok(session: Session, labels: &[u32], equations: &[u32], moves: &[u32]) -> bool
    requires { Sized session labels.now equations.now moves.now }
    ensures { result ≡ well_formed (model_in session labels.now equations.now moves.now) }
{
    let sizes = session.sizes;
    labels_ok(sizes, labels)
        & style_ok(sizes, equations)
        & moves_ok(sizes, moves)
        & live_ok(session, moves)
}

// 12 for the rest, where the counts are good and the rooms long enough: the rooms hold a model inside the limits, no value is over 1,
// no mark over 3, and the stamp is that of the moves.
#[tactic(auto, unfolding(rules::specs::Session::rest_ok))]
pub fn rest_ok(session: Session, rooms: &SessionRooms) -> bool
    requires { Fits session (rooms_in rooms.now) }
    ensures { result ≡ rest_ok session (rooms_in rooms.now) }
{
    let sizes = session.sizes;
    let pairs = limits::pairs_of(sizes);
    let states = sizes.states as usize;
    let variables = sizes.variables as usize;
    let count = session.moves as usize;
    model_ok(
        session,
        &rooms.labels[..states],
        &rooms.equations[..variables],
        &rooms.moves[..count],
    ) & bytes_ok(&rooms.values[..pairs], 1)
        & bytes_ok(&rooms.marks[..pairs], 3)
        & (session.stamp == moves::stamp_of(&rooms.moves[..count]))
}
