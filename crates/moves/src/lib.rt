// The sorted list of packed moves: its stamp, which part of it belongs to a state and an action, and what stands in it.
#![tactic(auto)]

ghost use Rattle.std.specs.Prelude.{◌≡◌, ◌+◌, ◌-◌, ◌<◌, ◌≤◌, min, true, length, drop, if◌then◌else◌, nat_lt, slice_index};
ghost use Rattle.lists.specs.Lists.{elem};
ghost use Rattle.rules.specs.Moves.{weight, wrap, stamp_of};
ghost use Rattle.laws.specs.moves.Emptied.{moves_of};
ghost use Rattle.moves.specs.Ascending.{ascends, below, leading};
ghost use Rattle.moves.specs.Halving.{tests_for};
ghost use Rattle.moves.specs.OwnMoves.{part_of};
ghost use Rattle.moves.specs.Stamps.{weight_of};

use rules::{Action, State};

// A part of the list: the place of its first move, and the place past its last.
#[derive(Clone, Copy, Debug, PartialEq, Eq)]
pub struct Part {
    pub from: usize,
    pub end: usize,
}

// What so many moves add to the stamp, wrapping, by the sums of their sources, actions and targets.
fn weighed(sources: u32, actions: u32, targets: u32, n: u32) -> u32
    ensures { result ≡ wrap (weight_of sources actions targets n) }
{
    let w = 65537 * u64::from(sources)
        + 4099 * u64::from(actions)
        + 257 * u64::from(targets)
        + u64::from(n);
    (w % 4294967296) as u32
}

// What one move adds to the stamp, wrapping.
pub fn weight_of(m: u32) -> u32
    ensures { result ≡ wrap (weight m) }
{
    let from = words::source_of(m);
    let by = words::action_of(m);
    let to = words::target_of(m);
    weighed(u32::from(from.0), u32::from(by.0), u32::from(to.0), 1)
}

// The stamp with one move more.
pub fn stamp_with(stamp: u32, m: u32) -> u32
    ensures { result ≡ wrap (stamp + weight m) }
{
    stamp.wrapping_add(weight_of(m))
}

// The stamp with one move less.
pub fn stamp_without(stamp: u32, m: u32) -> u32
    ensures { result ≡ wrap (stamp + (4294967296 - wrap (weight m))) }
{
    stamp.wrapping_sub(weight_of(m))
}

// The stamp of the moves: sources, actions and targets are summed apart, and weighed once.
pub fn stamp_of(moves: &[u32]) -> u32
    ensures { result ≡ stamp_of moves.now }
{
    let mut sources: u32 = 0;
    let mut actions: u32 = 0;
    let mut targets: u32 = 0;
    for m in moves {
        sources = sources.wrapping_add(u32::from(words::source_of(*m).0));
        actions = actions.wrapping_add(u32::from(words::action_of(*m).0));
        targets = targets.wrapping_add(u32::from(words::target_of(*m).0));
    }
    weighed(sources, actions, targets, (moves.len() % 4294967296) as u32)
}

// How far a search is: the place that it goes on from, and how many tests it took.
#[derive(Clone, Copy, Debug, PartialEq, Eq)]
struct Found {
    at: usize,
    tests: usize,
}

// One test more: where the move in the middle lies below the key, the search goes on past it.
fn tested(moves: &[u32], found: Found, middle: usize, key: u64) -> Found
    requires { (middle < length moves.now) × (found.tests < length moves.now) }
    ensures { (result.at ≡ (if nat_lt (slice_index moves.now middle) key then middle + 1 else found.at)) × (result.tests ≡ found.tests + 1) }
{
    let tests = found.tests + 1;
    if u64::from(moves[middle]) < key {
        return Found {
            at: middle + 1,
            tests: tests,
        };
    }
    Found {
        at: found.at,
        tests: tests,
    }
}

// The place of the first of the moves, from `from` on, that does not lie below the key, in an ascending list, found by halving: it is
// where the search is or one of the `left` places after it, and each test, made in the middle of these, leaves half of them.
// The contract of std's `partition_point` says nothing of the number of tests, which `tests_for` tells here.
fn search(moves: &[u32], from: usize, key: u64) -> Found
    requires { (ascends 0 moves.now ≡ true) × (from ≤ length moves.now) }
    ensures { (result.at ≡ from + leading key (drop from moves.now)) × (result.tests ≡ tests_for (length (drop from moves.now))) }
{
    let mut left = moves.len() - from;
    let mut found = Found { at: from, tests: 0 };
    while 0 < left {
        let before = (left - 1) / 2;
        found = tested(moves, found, found.at + before, key);
        left = left - before - 1;
    }
    found
}

// The place of the first of the moves that is not below q.
// That the moves ascend is a clause, here and below: each caller cuts its slice anew, so a type that says so would be built at every call.
pub fn place_of(moves: &[u32], q: u32) -> usize
    requires { ascends 0 moves.now ≡ true }
    ensures place { result ≡ below q moves.now }
    ensures inside { result ≤ length moves.now }
{
    let found = search(moves, 0, u64::from(q));
    found.at
}

// Whether q is one of the moves: the one at its place tells.
pub fn holds_move(moves: &[u32], q: u32) -> bool
    requires { ascends 0 moves.now ≡ true }
    ensures { result ≡ elem q moves.now }
{
    moves.get(place_of(moves, q)) == Some(&q)
}

// Which part of the moves belongs to a state and an action: two searches find its ends.
pub fn part_of(moves: &[u32], here: State, by: Action) -> Part
    requires { ascends 0 moves.now ≡ true }
    ensures { result ≡ part_of here.0 by.0 moves.now }
{
    let from = search(moves, 0, words::own_from(here, by));
    let end = search(moves, from.at, words::own_end(here, by));
    Part {
        from: from.at,
        end: end.at,
    }
}

// How many of the moves are of a state: two searches find the ends of its part.
pub fn moves_of(moves: &[u32], here: State) -> usize
    requires { ascends 0 moves.now ≡ true }
    ensures { (result ≡ moves_of here.0 moves.now) × (result ≤ length moves.now) }
{
    let from = search(moves, 0, words::state_from(here));
    let end = search(moves, from.at, words::state_end(here));
    end.at - from.at
}
