// The moves as chains, each of the moves with one action to one target, and the walk along a chain.
#![tactic(auto)]

ghost use Rattle.std.specs.Prelude.{◌≡◌, Bool, ℕ, ◌+◌, ◌*◌, ◌≤◌, ◌<◌, length};
ghost use Rattle.engine_index.specs.Indexed.{heads_of};
ghost use Rattle.engine_index.specs.Targets.{leads_where};
ghost use Rattle.engine_index.specs.Walks.{key_by, one_comes, Linked, SetWhere};

use super::{Known, heads_of};
use rules::Action;

// Moves between so many states: a head for each action and target, and a link for each move. Both are one more than the number of a move, or
// 0 where there is none.
#[derive(Clone, Copy)]
pub struct Chains<'a> {
    pub states: usize,
    pub moves: &'a [u32],
    pub heads: &'a [u16],
    pub links: &'a [u16],
    pub ghost linked: { Linked states moves.now heads.now links.now },
}

// The chains that the index of the moves holds.
pub fn chains_in<'a>(known: &Known<'a>) -> Chains<'a>
    ensures { (result.states ≡ known.now.sizes.states)
        × ((result.moves.now ≡ known.now.moves.now) × (length result.heads.now ≡ heads_of known.now.sizes)) }
{
    let sizes = known.sizes;
    let heads = heads_of(sizes);
    Chains {
        states: usize::from(sizes.states),
        moves: known.moves,
        heads: &known.index[..heads],
        links: &known.index[heads..],
    }
}

// The places of the sources of a chain's moves become v. The chain begins at the head `at`. The walk goes by links, and counts no index.
fn set_sources(chains: Chains, at: usize, v: u8, bad: &mut [u8])
    requires bad_len { length bad.old ≡ chains.states }
    requires at_in_bounds { at < length chains.heads.now }
    ensures { SetWhere (one_comes (key_by (length bad.old)) at chains.entry.moves.now) v bad.old bad.new }
{
    let mut k = usize::from(chains.heads[at]);
    while 0 < k {
        let j = k - 1;
        let here = words::source_of(chains.moves[j]);
        bad[usize::from(here.0)] = v;
        k = usize::from(chains.links[j]);
    }
}

// The places of the states that a move with the action a leads from, to a state that passes, become v.
pub fn set_leading<F: Fn(usize) -> bool>(
    chains: Chains,
    a: Action,
    passes: F,
    v: u8,
    bad: &mut [u8],
)
    requires bad_len { length bad.old ≡ chains.states }
    requires heads_in_bounds { a.0 * chains.states + chains.states ≤ length chains.heads.now }
    requires askable { (t : ℕ) → t < chains.states → F.pre passes t }
    ensures { (test : ℕ → Bool) → ((t : ℕ) (r : Bool) → t < chains.entry.states → F.post passes t r → r ≡ test t)
        → SetWhere (leads_where chains.entry.moves.now a.0 test) v bad.old bad.new }
{
    let first = usize::from(a.0) * chains.states;
    for t in 0..chains.states {
        if passes(t) {
            set_sources(chains, first + t, v, bad);
        }
    }
}
