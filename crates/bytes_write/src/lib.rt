// Each kind of record of a model, written from a place on in a room that holds it.
//
// A record's kind stays the number that it begins with: each stands in one function, which says its name, and the enum of the kinds is
// the reader's, on which a writer does not build.
//
// Room and place stay two parameters: a struct that held the room as a `&mut` would need one clause more in each contract, that the
// room after is the room before (`pen.new.room.ghost_name ≡ pen.old.room.ghost_name`).
#![tactic(auto)]

ghost use Rattle.std.specs.Prelude.{◌≡◌, ◌+◌, ◌≤◌, length};
ghost use Rattle.std.proofs.lemmas.List.Edits.{sets};
ghost use Rattle.rules.specs.Records.{bytes};
ghost use Rattle.rules.specs.Spelling.{sizes_rec, live_rec, block_rec, equation_rec, signed_rec, move_rec, end_rec};
ghost use Rattle.bytes_write.specs.Written.{label_rec};

use rules::{Equation, Sizes, State};

// Bytes written from a place on.
fn put<const N: usize>(out: &mut [u8], at: usize, run: [u8; N])
    requires { at + N ≤ length out.old }
    ensures { out.new ≡ sets out.old at run.entry }
{
    out[at..at + N].copy_from_slice(&run);
}

// The sizes.
#[tactic(auto, unfolding(rules::specs::Records::widths))]
pub fn write_sizes(out: &mut [u8], at: usize, z: Sizes)
    requires { at + 7 ≤ length out.old }
    ensures { out.new ≡ sets out.old at (bytes (sizes_rec z)) }
{
    let [low, high] = z.states.to_le_bytes();
    put(
        out,
        at,
        [
            1,
            low,
            high,
            z.actions,
            z.propositions,
            z.variables,
            z.blocks,
        ],
    );
}

// That the model is live.
#[tactic(auto, unfolding(rules::specs::Records::widths))]
pub fn write_live(out: &mut [u8], at: usize)
    requires { at + 1 ≤ length out.old }
    ensures { out.new ≡ sets out.old at (bytes live_rec) }
{
    put(out, at, [10]);
}

// The label v of a state.
#[tactic(auto, unfolding(rules::specs::Records::widths))]
pub fn write_label(out: &mut [u8], at: usize, here: State, v: u32)
    requires { at + 7 ≤ length out.old }
    ensures { out.new ≡ sets out.old at (bytes (label_rec here.0 v)) }
{
    let [low, high] = here.0.to_le_bytes();
    let [a, b, c, d] = v.to_le_bytes();
    put(out, at, [2, low, high, a, b, c, d]);
}

// A block of n equations, of which e is one.
#[tactic(auto, unfolding(rules::specs::Records::widths))]
pub fn write_block(out: &mut [u8], at: usize, e: Equation, n: u8)
    requires { at + 3 ≤ length out.old }
    ensures { out.new ≡ sets out.old at (bytes (block_rec e.kind n)) }
{
    put(out, at, [3, e.kind, n]);
}

// An equation in its block.
#[tactic(auto, unfolding(rules::specs::Records::widths))]
pub fn write_equation(out: &mut [u8], at: usize, e: Equation)
    requires { at + 4 ≤ length out.old }
    ensures { out.new ≡ sets out.old at (bytes (equation_rec e)) }
{
    put(out, at, [4, e.operator, e.first, e.second]);
}

// An equation with its sign.
pub fn write_signed(out: &mut [u8], at: usize, e: Equation)
    requires { at + 5 ≤ length out.old }
    ensures { out.new ≡ sets out.old at (bytes (signed_rec e)) }
{
    put(out, at, [11, e.kind, e.operator, e.first, e.second]);
}

// The move that a word holds.
pub fn write_move(out: &mut [u8], at: usize, q: u32)
    requires { at + 6 ≤ length out.old }
    ensures { out.new ≡ sets out.old at (bytes (move_rec q)) }
{
    let m = words::unpacked(q);
    let [a, b] = m.source.0.to_le_bytes();
    let [c, d] = m.target.0.to_le_bytes();
    put(out, at, [5, a, b, m.action.0, c, d]);
}

// The end.
#[tactic(auto, unfolding(rules::specs::Records::widths))]
pub fn write_end(out: &mut [u8], at: usize)
    requires { at + 1 ≤ length out.old }
    ensures { out.new ≡ sets out.old at (bytes end_rec) }
{
    put(out, at, [6]);
}
