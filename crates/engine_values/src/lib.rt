// What is done once for each update, before its first unit and after its last: values, marks and work rooms are set, and blocks and
// true pairs are counted.
#![tactic(auto)]

ghost use Rattle.std.specs.Prelude.{◌≡◌, map, ◌++◌, ◌+◌, ◌≤◌, ◌<◌, max, pos, ◌-ℤ◌, length, get_or, drop, replicate, eqb};
ghost use Rattle.lists.specs.Lists.{bit, fill};
ghost use Rattle.rules.specs.Model.{blocks_in};
ghost use Rattle.rules.specs.Session.{unword};
ghost use Rattle.rules.specs.Update.{trues};
ghost use Rattle.rules.specs.Calls.{value_at, bits};
ghost use Rattle.engine_table.specs.Lent.{kind_in};

use rules::Sizes;

// Sets the first n places to v, of a room that may be longer.
pub fn set_first<T: Copy>(room: &mut [T], n: usize, v: T)
    requires { n ≤ length room.old }
    ensures { room.new ≡ replicate n v ++ drop (length (replicate n v)) room.old }
{
    // A loop and no `fill`, which asks for a clone that cannot fail: `T: Copy` says nothing of that.
    for x in room[..n].iter_mut() {
        *x = v;
    }
}

// The own value of the block of variable x, as it is written into a room.
fn own_byte(equations: &[u32], x: usize) -> u8
    ensures { result ≡ bit (eqb (unword (get_or equations.now x 0)).kind 1) }
{
    let e = words::equation_in(rooms::at_or(equations, x, 0));
    (e.kind == 1) as u8
}

// Gives each of the first n pairs the own value of its block, all pairs of a variable at once. What lies past them in the room stays.
pub fn own_values(sizes: Sizes, equations: &[u32], n: usize, values: &mut [u8])
    requires { (0 < sizes.states) × (n ≤ length values.old) }
    ensures { values.new ≡ fill (bits n (λ p. eqb (kind_in sizes equations.now p) 1)) values.old }
{
    let states = sizes.states as usize;
    for x in 0..n.div_ceil(states) {
        let p = x * states;
        let end = n.min(p + states);
        values[p..end].fill(own_byte(equations, x));
    }
}

// How many blocks or components the equations have: one more than the highest number.
pub fn count_blocks(equations: &[u32]) -> usize
    ensures { result ≡ blocks_in (map unword equations.now) }
{
    let mut r: usize = 0;
    for w in equations {
        let past = words::equation_in(*w).block as usize + 1;
        r = r.max(past);
    }
    r
}

// How many pairs are counted in one byte: not too many for it, and a multiple of what the machine takes at once.
const COUNTED_AT_ONCE: usize = 224;

// How many of these pairs are true.
fn count_some(values: &[u8]) -> u8
    requires { length values.now ≤ 255 }
    ensures { result ≡ trues (length values.now) (value_at values.now) }
{
    let mut r: u8 = 0;
    for x in values {
        r += (*x == 1) as u8;
    }
    r
}

// How many of the first n pairs are true. The room may be longer or shorter than the pairs: of a shorter one all are counted.
pub fn count_true(values: &[u8], n: usize) -> usize
    ensures { (result ≡ trues n (value_at values.now)) × (result ≤ n) }
{
    let end = n.min(values.len());
    let mut r: usize = 0;
    for some in values[..end].chunks(COUNTED_AT_ONCE) {
        r += count_some(some) as usize;
    }
    r
}

// The change from one count to another, below zero where it fell.
pub fn net(before: usize, after: usize) -> i32
    requires { (before < 65536) × (after < 65536) }
    ensures { result ≡ pos after -ℤ pos before }
{
    (after as i32) - (before as i32)
}
