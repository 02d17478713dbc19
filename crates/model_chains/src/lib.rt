// Chains of variables through equations with signs: what each variable leads to, as a set of bits, round after round; the
// components and their numbers; and the lowest equation on a closed chain that holds both signs. Equations and sets are cut to
// their number at the doors, so that their length tells it.
#![tactic(auto)]

ghost use Rattle.std.specs.Prelude.{◌≡◌, ◌&&◌, map, replicate, ◌+◌, ◌/◌, ◌%◌, ◌^◌, ◌≤◌, ◌<◌, eqb, ltb, get_or, length};
ghost use Rattle.lists.specs.Lists.{fill, mask, lowest};
ghost use Rattle.rules.specs.Limits.{most_variables};
ghost use Rattle.rules.specs.Model.{equation_in, run_of, guilty, placed};
ghost use Rattle.rules.specs.Session.{word, unword};
ghost use Rattle.model_chains.specs.Reaching.{row_of, Round, Reaches};
ghost use Rattle.model_chains.specs.Numbering.{stands_by, component_by, guilty_by, lowest_by, numbers_by};
ghost use Rattle.model_chains.specs.Stored.{held, chains_ok};
ghost use Rattle.laws.specs.chains.Placed.{with_block};

use rules::Equation;

// Equations, and what each of their variables leads to, as a set of bits.
#[derive(Clone, Copy)]
struct Reached<'a> {
    equations: &'a [u32],
    reach: &'a [u32],
    ghost long: { length reach.now ≡ length equations.now },
}

// The equation of variable x.
pub fn equation_at(equations: &[u32], x: usize) -> Equation
    requires { x < length equations.now }
    ensures { result ≡ equation_in (map unword equations.now) x }
{
    words::equation_in(equations[x])
}

// How many equations, from the first on, stand in the block with number b - 1.
pub fn run_of(equations: &[u32], b: u32) -> usize
    ensures { (result ≡ run_of b (map unword equations.now)) × (result ≤ length equations.now) }
{
    equations
        .iter()
        .take_while(|w| u32::from(words::equation_in(**w).block) + 1 == b)
        .count()
}

// The set of one variable.
fn only(x: usize) -> u32
    requires { x < most_variables }
    ensures { result ≡ 2 ^ x }
{
    1u32 << x
}

// What variable x with equation e leads to, where `old` has what the others lead to. The operator is asked by its number, as `row_of` does.
fn row(e: Equation, x: usize, old: &[u32]) -> u32
    requires { x < most_variables }
    ensures { result ≡ row_of old.now e x }
{
    let own = only(x);
    if e.operator < 4 {
        return own;
    }
    let first = rooms::at_or(old, usize::from(e.first), 0);
    let second = rooms::at_or(old, usize::from(e.second), 0);
    if e.operator < 6 {
        return own | first | second;
    }
    own | second
}

// One round for all variables.
fn round(equations: &[u32], old: &[u32], new: &mut [u32])
    requires { (length equations.now ≤ most_variables) × (length equations.now ≤ length new.old) }
    ensures { Round (map unword equations.now) old.now new.old (length equations.now) new.new }
{
    for x in 0..equations.len() {
        new[x] = row(equation_at(equations, x), x, old);
    }
}

// What each variable leads to, put into a room of empty sets: one round more than there are variables suffices, and the first that
// changes nothing is the last. The room is the caller's: sets handed over by value would lie twice on the stack of a call.
fn reaches(equations: &[u32], reach: &mut [u32; 32])
    requires { (length equations.now ≤ most_variables) × (reach.old ≡ replicate 32 0) }
    ensures { Reaches (map unword equations.now) reach.new }
{
    for _k in 0..equations.len() + 1 {
        let mut new = [0u32; 32];
        round(equations, &*reach, &mut new);
        if new == *reach {
            return;
        }
        *reach = new;
    }
}

// Whether x stands for its component: no variable before x has the same reach.
fn stands(reach: &[u32], x: usize) -> bool
    requires { x < length reach.now }
    ensures { result ≡ stands_by reach.now x }
{
    !reach[..x].contains(&reach[x])
}

// Those variables that stand for their components, as a set of bits.
fn standing(reach: &[u32]) -> u32
    requires { length reach.now ≤ most_variables }
    ensures { result ≡ mask (length reach.now) (stands_by reach.now) }
{
    let mut set: u32 = 0;
    for x in 0..reach.len() {
        if stands(reach, x) {
            set += only(x);
        }
    }
    set
}

// Whether y is in the set and has a smaller reach than `own`.
fn before(reach: &[u32], set: u32, own: u32, y: usize) -> bool
    requires { y < most_variables }
    ensures { result ≡ (eqb (set / 2 ^ y % 2) 1 && ltb (get_or reach.now y 0) own) }
{
    ((set >> y) % 2 == 1) & (rooms::at_or(reach, y, 0) < own)
}

// The number of x's component, where `set` has those variables that stand for theirs.
fn component_of(reach: &[u32], set: u32, x: usize) -> u8
    requires { (length reach.now ≤ most_variables) × (set ≡ mask (length reach.now) (stands_by reach.now)) }
    ensures { (result ≡ component_by reach.now x) × (result ≤ most_variables) }
{
    let own = rooms::at_or(reach, x, 0);
    let mut count: u8 = 0;
    for y in 0..reach.len() {
        count += before(reach, set, own, y) as u8;
    }
    count
}

// Whether x is on a closed chain that holds both signs. All variables are looked at, without a branch, here and above: a chain of iterators
// took a writing of the largest model with signs past its bar.
fn is_guilty(chains: &Reached, x: usize) -> bool
    requires { x < length chains.now.equations.now }
    ensures { result ≡ guilty_by (map unword chains.now.equations.now) chains.now.reach.now x }
{
    let equations = chains.equations;
    let reach = chains.reach;
    let kind = equation_at(equations, x).kind;
    let own = reach[x];
    let mut found = false;
    for y in 0..reach.len() {
        let other = equation_at(equations, y).kind;
        found |= (own == reach[y]) & (kind != other);
    }
    found
}

// The lowest equation on a closed chain that holds both signs; one past the last where there is none.
fn lowest_guilty(chains: &Reached) -> usize
    ensures { result ≡ lowest_by (map unword chains.now.equations.now) chains.now.reach.now }
{
    let n = chains.reach.len();
    (0..n).position(|x| is_guilty(chains, x)).unwrap_or(n)
}

// The same of the equations alone.
fn guilty_of(equations: &[u32]) -> usize
    requires { length equations.now ≤ most_variables }
    ensures { result ≡ lowest (length equations.now) (guilty (map unword equations.now)) }
{
    let n = equations.len();
    let mut reach = [0u32; 32];
    reaches(equations, &mut reach);
    lowest_guilty(&Reached {
        equations,
        reach: &reach[..n],
    })
}

// The lowest of the first n equations that is on a closed chain that holds both signs; n where there is none.
// n stands beside the room, since the contract speaks of the first n words of a longer one.
pub fn first_guilty(equations: &[u32], n: usize) -> usize
    requires { (n ≤ most_variables) × (n ≤ length equations.now) }
    ensures { result ≡ lowest n (guilty (held n equations.now)) }
{
    guilty_of(&equations[..n])
}

// Whether each equation holds the number of its component.
fn numbers_ok(chains: &Reached) -> bool
    requires { length chains.now.equations.now ≤ most_variables }
    ensures { result ≡ numbers_by (map unword chains.now.equations.now) chains.now.reach.now (length chains.now.reach.now) }
{
    let equations = chains.equations;
    let reach = chains.reach;
    let set = standing(reach);
    (0..reach.len()).all(|x| equation_at(equations, x).block == component_of(reach, set, x))
}

// What the session check asks of equations with signs, besides their numbers in range: no closed chain holds both signs,
// and each equation holds the number of its component.
pub fn chains_ok(equations: &[u32]) -> bool
    requires { length equations.now ≤ most_variables }
    ensures { result ≡ chains_ok (map unword equations.now) }
{
    let n = equations.len();
    let mut reach = [0u32; 32];
    reaches(equations, &mut reach);
    let chains = Reached {
        equations,
        reach: &reach[..n],
    };
    (lowest_guilty(&chains) == n) & numbers_ok(&chains)
}

// The word of an equation with another number for its component.
fn with_number(w: u32, c: u8) -> u32
    requires { c ≤ most_variables }
    ensures { result ≡ word (with_block c (unword w)) }
{
    let e = words::equation_in(w);
    words::word_of(Equation { block: c, ..e })
}

// Each equation gets the number of its component.
fn number_each(equations: &mut [u32])
    requires { length equations.old ≤ most_variables }
    ensures { equations.new ≡ map word (placed (map unword equations.old)) }
{
    let n = equations.len();
    let mut reach = [0u32; 32];
    reaches(equations, &mut reach);
    let set = standing(&reach[..n]);
    for x in 0..n {
        let c = component_of(&reach[..n], set, x);
        equations[x] = with_number(equations[x], c);
    }
}

// The first n equations do: the last thing that a load of equations with signs does.
// n stands beside the room, since the contract speaks of the first n words of a longer one.
pub fn number_all(equations: &mut [u32], n: usize)
    requires { (n ≤ most_variables) × (n ≤ length equations.old) }
    ensures { equations.new ≡ fill (map word (placed (held n equations.old))) equations.old }
{
    number_each(&mut equations[..n]);
}
