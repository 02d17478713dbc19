// How a move, a change, an equation, a pair and a waiting pair lie in one number each. They are put together and taken apart here, and
// nowhere else.
#![tactic(auto)]

ghost use Rattle.std.specs.Prelude.{◌≡◌, Bool, ◌+◌, ◌*◌, ◌/◌, ◌%◌, ◌≤◌, ◌<◌};
ghost use Rattle.rules.specs.Moves.{pack, source, action, target};
ghost use Rattle.rules.specs.Session.{word, unword};
ghost use Rattle.rules.specs.Values.{pair};
ghost use Rattle.words.specs.Words.{pack_of, own_of, change_of, code_of, waiting_of, variable_in, state_in};

use rules::{Action, Equation, Move, Sizes, State, Variable};

// The equation that a word holds, and the word of an equation.
pub fn equation_in(w: u32) -> Equation
    ensures { result ≡ unword w }
{
    let top = w / 256 / 256 / 256;
    Equation {
        operator: (w % 256) as u8,
        first: (w / 256 % 256) as u8,
        second: (w / 256 / 256 % 256) as u8,
        block: (top / 2) as u8,
        kind: (top % 2) as u8,
    }
}

pub fn word_of(e: Equation) -> u32
    requires { (e.block < 128) × (e.kind ≤ 1) }
    ensures { result ≡ word e }
{
    let top = 2 * (e.block as u32) + e.kind as u32;
    e.operator as u32 + 256 * (e.first as u32) + 65536 * (e.second as u32) + 16777216 * top
}

// A move as one number; moves that are no moves of a model may need more than 32 bits.
pub fn packed(m: Move) -> u64
    ensures { (result ≡ pack_of m) × (result < 8589934592) }
{
    65536 * (m.source.0 as u64) + 1024 * (m.action.0 as u64) + (m.target.0 as u64)
}

// Where the move comes from, by which action, and where it leads; and the move, taken apart.
pub fn source_of(q: u32) -> State
    ensures { result.0 ≡ source q }
{
    State((q / 65536) as u16)
}

pub fn action_of(q: u32) -> Action
    ensures { result.0 ≡ action q }
{
    Action((q % 65536 / 1024) as u8)
}

pub fn target_of(q: u32) -> State
    ensures { result.0 ≡ target q }
{
    State((q % 1024) as u16)
}

pub fn unpacked(q: u32) -> Move
    ensures { (result.source.0 ≡ source q) × ((result.action.0 ≡ action q) × (result.target.0 ≡ target q)) }
{
    Move {
        source: source_of(q),
        action: action_of(q),
        target: target_of(q),
    }
}

// Source and action of a move together: moves that share it are a state's moves with one action.
pub fn own_of(q: u32) -> u32
    ensures { result ≡ own_of q }
{
    q / 1024
}

// The least number that a move of the state can have, and one past the greatest.
pub fn state_from(s: State) -> u64
    ensures { result ≡ pack s.0 0 0 }
{
    65536 * (s.0 as u64)
}

pub fn state_end(s: State) -> u64
    ensures { result ≡ pack (s.0 + 1) 0 0 }
{
    65536 * (s.0 as u64) + 65536
}

// The same, of the state's moves with the action.
pub fn own_from(s: State, a: Action) -> u64
    ensures { result ≡ pack s.0 a.0 0 }
{
    65536 * (s.0 as u64) + 1024 * (a.0 as u64)
}

pub fn own_end(s: State, a: Action) -> u64
    ensures { result ≡ pack s.0 (a.0 + 1) 0 }
{
    65536 * (s.0 as u64) + 1024 * (a.0 as u64) + 1024
}

// A change as one number; whether it inserts its move, and the move.
pub fn change_of(m: Move, insert: bool) -> u32
    ensures { result ≡ code_of (pack_of m) insert }
{
    ((2 * packed(m) + insert as u64) % 4294967296) as u32
}

pub fn inserts(w: u32) -> bool
    ensures { result ≡ (change_of w).insert }
{
    w % 2 == 1
}

pub fn move_of(w: u32) -> u32
    ensures { result ≡ (change_of w).move }
{
    w / 2
}

// The number of the pair of a state and a variable.
pub fn pair_of(z: Sizes, here: State, x: Variable) -> usize
    ensures { result ≡ pair z here x }
{
    x.0 as usize * z.states as usize + here.0 as usize
}

// A pair that waits, as one number, and its variable and its state.
pub fn waiting(x: Variable, s: State) -> u16
    requires { (x.0 < 64) × (s.0 < 1024) }
    ensures { result ≡ waiting_of x.0 s.0 }
{
    1024 * (x.0 as u16) + s.0
}

pub fn variable_of(w: u16) -> Variable
    ensures { result.0 ≡ variable_in w }
{
    Variable((w / 1024) as u8)
}

pub fn state_of(w: u16) -> State
    ensures { result.0 ≡ state_in w }
{
    State(w % 1024)
}
