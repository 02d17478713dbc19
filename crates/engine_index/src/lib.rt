// The indexes of an update, built once per call: the moves by action and target, and the operands by the variable that they name.
#![tactic(auto)]

ghost use Rattle.std.specs.Prelude.{◌≡◌, true, suc, ◌+◌, ◌*◌, ◌≤◌, ◌<◌, length};
ghost use Rattle.rules.specs.Session.{unword};
ghost use Rattle.engine_index.specs.Chains.{link, linked};
ghost use Rattle.engine_table.specs.Sketch.{bare};
ghost use Rattle.engine_table.specs.Table.{Drawn};
ghost use Rattle.engine_index.specs.Indexed.{key_of, heads_of, Indexed};
ghost use Rattle.engine_index.specs.MovesIndexed.{Headed};
ghost use Rattle.rules.specs.Limits.{most_states, most_actions, most_variables};
ghost use Rattle.engine_index.specs.Operands.{is_step, slot_word, link_in, step_in, easy_in, waits_in, owner_in, row_in, heads_in, put_first, Blank, Named, NamedUpTo, Naming, Slot};

use rules::{Sizes, State, Variable};

pub mod chains;

// What an update has at hand of its model: the sizes, the equations, the moves, and the index that chains the moves. With some labels it
// is one that a load accepts, and then also with none at any state.
#[derive(Clone, Copy)]
pub struct Known<'a> {
    pub sizes: Sizes,
    pub equations: &'a [u32],
    pub moves: &'a [u32],
    pub index: &'a [u16],
    pub ghost drawn: { Drawn (bare sizes equations.now moves.now) },
    pub ghost indexed: { Indexed (bare sizes equations.now moves.now) index.now },
}

// How many heads the index of the moves has.
pub fn heads_of(sizes: Sizes) -> usize
    ensures { (result ≡ heads_of sizes) × (result < 16777216) }
{
    sizes.actions as usize * sizes.states as usize
}

// The number by which a move is chained.
fn key_of(sizes: Sizes, m: u32) -> usize
    ensures { result ≡ key_of sizes m }
{
    words::action_of(m).0 as usize * sizes.states as usize + words::target_of(m).0 as usize
}

// Puts the move at j at the head of its chain.
fn put_link(sizes: Sizes, moves: &[u32], j: usize, index: &mut [u16])
    requires headed { Headed sizes moves.now }
    requires j_in_bounds { (j < length moves.now) × (heads_of sizes + length moves.now ≤ length index.old) }
    ensures { index.new ≡ link (key_of sizes) 0 (heads_of sizes) moves.now j index.old }
{
    let head = key_of(sizes, moves[j]);
    let place = heads_of(sizes) + j;
    let last = index[head];
    index[place] = last;
    index[head] = (j + 1) as u16;
}

// Chains the moves by action and target.
pub fn index_moves(sizes: Sizes, moves: &[u32], index: &mut [u16])
    requires headed { Headed sizes moves.now }
    requires moves_in_bounds { heads_of sizes + length moves.now ≤ length index.old }
    ensures { index.new ≡ linked (key_of sizes) 0 (heads_of sizes) moves.now (length moves.now) index.old }
{
    for j in 0..moves.len() {
        put_link(sizes, moves, j, index);
    }
}

// Where the pairs of the variable x, or the heads of the action x, begin.
fn begins(sizes: Sizes, x: u64) -> u64
    requires { (x ≤ most_variables) × (sizes.states ≤ most_states) }
    ensures { (result ≡ x * sizes.states) × (result < 65536) }
{
    x * sizes.states as u64
}

// The word of the slots of the variable y without a link, where w is the word of its equation. All parts lie in one number of 64 bits, which
// a visit reads at once, and 96 of them on the stack of an update; a link of 0 is none, as `link_in` (specs/Operands) says.
#[tactic(auto, unfolding(crate::specs::Operands::slot_word))]
fn slot_word(sizes: Sizes, w: u32, y: usize) -> u64
    requires y_lt_most_variables { (y < most_variables) × (sizes.states ≤ most_states) }
    requires w_bound { is_step (unword w) ≡ true → (unword w).first < most_actions }
    ensures { result ≡ slot_word sizes (unword w) y 0 }
{
    let e = words::equation_in(w);
    let easy = (e.operator as u64 + e.kind as u64) % 2;
    let row = begins(sizes, y as u64);
    let word = 256 + 1024 * easy + 67108864 * (y as u64) + 4294967296 * row;
    if e.operator < 6 {
        return word;
    }
    word + 512 + 281474976710656 * begins(sizes, e.first as u64)
}

// Where the next word of the chain stands; 0 where there is none.
pub fn link_in(o: u64) -> usize
    ensures { (result ≡ link_in o) × (result < 256) }
{
    (o % 256) as usize
}

// Is the operand that of a diamond or a box?
pub fn step_in(o: u64) -> bool
    ensures { result ≡ step_in o }
{
    o / 512 % 2 == 1
}

// Is its variable easy?
pub fn easy_in(o: u64) -> bool
    ensures { result ≡ easy_in o }
{
    o / 1024 % 2 == 1
}

// The variable in whose equation it stands.
pub fn owner_in(o: u64) -> Variable
    ensures { result.0 ≡ owner_in o }
{
    Variable((o / 67108864 % 64) as u8)
}

// The place of that variable's pair at s.
pub fn pair_in(o: u64, s: State) -> usize
    ensures { result ≡ row_in o + s.0 }
{
    (o / 4294967296 % 65536) as usize + s.0 as usize
}

// That pair as it waits.
pub fn waiting_in(o: u64, s: State) -> u16
    requires { waits_in o + s.0 < 65536 }
    ensures { result ≡ waits_in o + s.0 }
{
    (o / 65536 % 65536) as u16 + s.0
}

// The head of the chain of the moves by its action into s.
pub fn head_in(o: u64, s: State) -> usize
    ensures { result ≡ heads_in o + s.0 }
{
    (o / 281474976710656) as usize + s.0 as usize
}

// The word comes first in the chain of x; the one that was first goes to the place of the slot.
fn put_first(x: usize, slot: usize, word: u64, operand: &mut [u64])
    requires x_in_bounds { (x < length operand.old) × (most_variables + slot < length operand.old) }
    requires slot_bound { (slot < 256) × (word + 511 < 18446744073709551616) }
    ensures { operand.new ≡ put_first x slot word operand.old }
{
    let old = operand[x];
    if old == 0 {
        operand[x] = word;
        return;
    }
    let place = limits::MOST_VARIABLES as usize + slot;
    operand[place] = old;
    operand[x] = word + place as u64;
}

// The slot, which stands for the variable x in the equation of y if y has it, is put at the head of x's chain, where x lies in
// y's own block. Whether y has it is asked here, and not twice by who calls.
fn put_operand(
    sizes: Sizes,
    equations: &[u32],
    x: usize,
    y: usize,
    has: bool,
    slot: usize,
    operand: &mut [u64],
)
    requires naming { Naming sizes equations.now }
    requires slot { Slot equations.now slot x y has }
    requires named_up_to { NamedUpTo sizes equations.now slot operand.old }
    ensures { NamedUpTo sizes equations.now (suc slot) operand.new }
{
    if has {
        let w = equations[y];
        let there = words::equation_in(equations[x]);
        let here = words::equation_in(w);
        if there.block == here.block {
            put_first(x, slot, slot_word(sizes, w, y), operand);
        }
    }
}

// The operands of the variable y are put at the heads of their chains.
fn put_operands(sizes: Sizes, equations: &[u32], y: usize, operand: &mut [u64])
    requires naming { Naming sizes equations.now }
    requires y_in_bounds { y < length equations.now }
    requires named_up_to { NamedUpTo sizes equations.now (2 * y) operand.old }
    ensures { NamedUpTo sizes equations.now (suc (suc (2 * y))) operand.new }
{
    let e = words::equation_in(equations[y]);
    let first = e.first as usize;
    let second = e.second as usize;
    let uses = 4 <= e.operator;
    let joins = uses & (e.operator < 6);
    put_operand(sizes, equations, second, y, uses, 2 * y, operand);
    put_operand(sizes, equations, first, y, joins, 2 * y + 1, operand);
}

// Chains the operands of all equations by the variable that they name.
pub fn name_operands(sizes: Sizes, equations: &[u32], operand: &mut [u64])
    requires naming { Naming sizes equations.now }
    requires equations_in_bounds { most_variables + 2 * length equations.now ≤ length operand.old }
    requires blank { Blank (length equations.now) operand.old }
    ensures { NamedUpTo sizes equations.now (2 * length equations.now) operand.new }
{
    for y in 0..equations.len() {
        put_operands(sizes, equations, y, operand);
    }
}
