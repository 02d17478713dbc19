// A state's moves with an action, looked at outwards from one of them: does one of them lead to a pair with a value?
#![tactic(auto)]

ghost use Rattle.std.specs.Prelude.{◌≡◌, true, ◌≤◌, ◌<◌, length, get_or, eqb};
ghost use Rattle.lists.specs.Lists.{any};
ghost use Rattle.rules.specs.Moves.{source, action, target};
ghost use Rattle.rules.specs.Rooms.{pairs_of};
ghost use Rattle.moves.specs.Ascending.{ascends};
ghost use Rattle.engine_table.specs.Table.{pair_in};
ghost use Rattle.engine_table.specs.Part.{own_moves};
ghost use Rattle.engine_own.specs.Looks.{Targets, reaches, says, says_at, says_before};

use rules::{Sizes, State, Variable};

// Has the pair of x and s the value `from`?
pub fn has(sizes: Sizes, values: &[u8], from: u8, x: Variable, s: State) -> bool
    requires { (x.0 < sizes.variables) × ((s.0 < sizes.states) × (length values.now ≡ pairs_of sizes)) }
    ensures { result ≡ eqb (get_or values.now (pair_in sizes x.0 s.0) 0) from }
{
    let p = words::pair_of(sizes, s, x);
    values[p] == from
}

// A look at the moves of a part: the variable and the value that are looked for, and the part.
#[derive(Clone, Copy)]
struct Look<'a> {
    sizes: Sizes,
    moves: &'a [u32],
    values: &'a [u8],
    from: u8,
    x: Variable,
    part: u32,
}

// What the move m says: nothing if it is not of the part, else whether it leads to a pair of x that has the value `from`.
fn tell(look: &Look, m: u32) -> Option<bool>
    requires { (look.now.x.0 < look.now.sizes.variables) × ((target m < look.now.sizes.states) × (length look.now.values.now ≡ pairs_of look.now.sizes)) }
    ensures { result ≡ says (reaches look.now.sizes look.now.values.now look.now.from look.now.x.0) look.now.part m }
{
    if words::own_of(m) != look.part {
        return None;
    }
    Some(has(
        look.sizes,
        look.values,
        look.from,
        look.x,
        words::target_of(m),
    ))
}

// What the move at `high` says, and nothing past the last.
fn look_up(look: &Look, high: usize) -> Option<bool>
    requires x_lt_variables { (look.now.x.0 < look.now.sizes.variables) × (length look.now.values.now ≡ pairs_of look.now.sizes) }
    requires targets { Targets look.now.sizes look.now.moves.now }
    ensures { result ≡ says_at (reaches look.now.sizes look.now.values.now look.now.from look.now.x.0) look.now.moves.now look.now.part high }
{
    if look.moves.len() <= high {
        return None;
    }
    tell(look, look.moves[high])
}

// What the move before `low` says, and nothing before the first.
fn look_down(look: &Look, low: usize) -> Option<bool>
    requires x_lt_variables { (look.now.x.0 < look.now.sizes.variables) × ((low ≤ length look.now.moves.now) × (length look.now.values.now ≡ pairs_of look.now.sizes)) }
    requires targets { Targets look.now.sizes look.now.moves.now }
    ensures { result ≡ says_before (reaches look.now.sizes look.now.values.now look.now.from look.now.x.0) look.now.moves.now look.now.part low }
{
    if low == 0 {
        return None;
    }
    tell(look, look.moves[low - 1])
}

// Does a move with the source and the action of the move at j lead to a pair of x that has the value `from`? Those at `low` and after
// it, before `high`, do not, and each turn looks at one more on either side: a look is as long as the shorter way to one that does. Where
// pairs lose the value one by one, and each look starts from the move to the one that did last, all looks at n moves pass at most about
// n times the logarithm of n of them, since what is passed on the shorter side becomes part of a stretch twice as long. An answer that
// finds one is returned at once, and not with the other: so branches tell the next places, and no place waits for a value.
pub fn leads_from(
    sizes: Sizes,
    moves: &[u32],
    values: &[u8],
    from: u8,
    x: Variable,
    j: usize,
) -> bool
    requires x_lt_variables { (x.0 < sizes.variables) × ((j < length moves.now) × (length values.now ≡ pairs_of sizes)) }
    requires targets { Targets sizes moves.now }
    requires moves_value { ascends 0 moves.now ≡ true }
    ensures { result ≡ any (λ q. eqb (get_or values.now (pair_in sizes x.0 (target q)) 0) from)
        (own_moves (source (get_or moves.now j 0)) (action (get_or moves.now j 0)) moves.now) }
{
    let look = Look {
        sizes,
        moves,
        values,
        from,
        x,
        part: words::own_of(moves[j]),
    };
    let mut low = j;
    let mut high = j;
    loop {
        let above = look_up(&look, high);
        if above == Some(true) {
            return true;
        }
        let below = look_down(&look, low);
        if below == Some(true) {
            return true;
        }
        if above.is_none() & below.is_none() {
            return false;
        }
        high = high + usize::from(above.is_some());
        low = low - usize::from(below.is_some());
    }
}
