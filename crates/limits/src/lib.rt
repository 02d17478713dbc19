// The most of each thing, and whether the numbers of a model lie inside their limits.
#![tactic(auto)]

ghost use Rattle.std.specs.Prelude.{◌≡◌, ◌+◌, ◌*◌, ◌<◌};
ghost use Rattle.rules.specs.Limits.{most_moves, sizes_ok};
ghost use Rattle.rules.specs.Load.{moving_with};
ghost use Rattle.rules.specs.Model.{signed, label_ok, move_ok, operands_ok, names_ok};
ghost use Rattle.rules.specs.Rooms.{pairs_of, rooms_ok, index_needs, queue_needs, work_ok, lent_ok};
ghost use Rattle.limits.specs.Lent.{lengths_by, products_end};

use rules::{Move, Sizes, State};

pub const MOST_STATES: u16 = 256;

pub const MOST_ACTIONS: u8 = 16;

pub const MOST_PROPOSITIONS: u8 = 32;

pub const MOST_VARIABLES: u8 = 32;

pub const MOST_BLOCKS: u8 = 8;

pub const MOST_MOVES: usize = 1024;

pub const MOST_CHANGES: usize = 64;

// How long the rooms are that a caller lends.
#[derive(Clone, Copy, Debug, PartialEq, Eq)]
pub struct Lent {
    pub labels: usize,
    pub equations: usize,
    pub values: usize,
    pub marks: usize,
    pub moves: usize,
    pub index: usize,
    pub queue: usize,
}

// Each size lies between its least and its most.
pub fn sizes_ok(z: Sizes) -> bool
    ensures { result ≡ sizes_ok z }
{
    ((1 <= z.states) & (z.states <= MOST_STATES))
        & ((1 <= z.actions) & (z.actions <= MOST_ACTIONS))
        & (z.propositions <= MOST_PROPOSITIONS)
        & ((1 <= z.variables) & (z.variables <= MOST_VARIABLES))
        & (z.blocks <= MOST_BLOCKS)
}

// Whether equations have signs of their own: the sizes give no blocks.
pub fn signed(z: Sizes) -> bool
    ensures { result ≡ signed z }
{
    z.blocks == 0
}

// How many states, from the first on, have a move each, with one more move of a state.
pub fn moving_with(n: u32, here: State) -> u32
    ensures { result ≡ moving_with n here.0 }
{
    if here.0 as u32 == n {
        return n + 1;
    }
    n
}

// A byte times a number of two bytes.
fn product(k: u8, n: u16) -> usize
    ensures { (result ≡ k * n) × (result < products_end) }
{
    (k as usize) * (n as usize)
}

// How many pairs there are.
pub fn pairs_of(z: Sizes) -> usize
    ensures { (result ≡ pairs_of z) × (result < products_end) }
{
    product(z.variables, z.states)
}

// No room for labels, equations, values or marks is shorter than the sizes need.
pub fn rooms_ok(l: Lent, z: Sizes) -> bool
    ensures { result ≡ rooms_ok (lengths_by l) z }
{
    let n = pairs_of(z);
    (z.states as usize <= l.labels)
        & (z.variables as usize <= l.equations)
        & (n <= l.values)
        & (n <= l.marks)
}

// The places used of the index: a head for each action and target, and a link for each move that the move room, `room` places
// long, can hold.
pub fn index_needs(z: Sizes, room: usize) -> usize
    ensures { (result ≡ index_needs z room) × (result < products_end + most_moves) }
{
    product(z.actions, z.states) + room.min(MOST_MOVES)
}

// The places used of the queue: one for each pair, and one more.
pub fn queue_needs(z: Sizes) -> usize
    ensures { (result ≡ queue_needs z) × (result < products_end + 1) }
{
    pairs_of(z) + 1
}

// Neither room to work in is shorter than needed.
pub fn work_ok(l: Lent, z: Sizes) -> bool
    ensures { result ≡ work_ok (lengths_by l) z }
{
    (index_needs(z, l.moves) <= l.index) & (queue_needs(z) <= l.queue)
}

// No room at all is shorter than needed.
pub fn lent_ok(l: Lent, z: Sizes) -> bool
    ensures { result ≡ lent_ok (lengths_by l) z }
{
    rooms_ok(l, z) & work_ok(l, z)
}

// The highest proposition of the set lies below the proposition count.
pub fn label_ok(z: Sizes, v: u32) -> bool
    ensures { result ≡ label_ok z v }
{
    32 - v.leading_zeros() <= z.propositions as u32
}

// Source, action and target lie below their counts.
pub fn move_ok(z: Sizes, m: Move) -> bool
    ensures { result ≡ move_ok z m.source.0 m.action.0 m.target.0 }
{
    (m.source.0 < z.states) & (m.action.0 < z.actions) & (m.target.0 < z.states)
}

// The operator is at most 7, what it uses lies below its count, and what it does not use is 0. It is the number that was read: any may
// stand there.
pub fn operands_ok(z: Sizes, o: u8, a: u8, b: u8) -> bool
    ensures { result ≡ operands_ok z o a b }
{
    if o < 2 {
        return (a == 0) & (b == 0);
    }
    if o < 4 {
        return (a < z.propositions) & (b == 0);
    }
    if o < 6 {
        return (a < z.variables) & (b < z.variables);
    }
    (o < 8) & (a < z.actions) & (b < z.variables)
}

// The variables that an equation names lie below `end`, the first variable after its block.
pub fn names_ok(end: usize, o: u8, a: u8, b: u8) -> bool
    ensures { result ≡ names_ok end o a b }
{
    if o < 4 {
        return true;
    }
    if o < 6 {
        return ((a as usize) < end) & ((b as usize) < end);
    }
    (b as usize) < end
}
