// The record that stands at a place of the bytes, as an enum. The bytes are read through a reader that holds them and its
// place; the work is left to `record_at`, which takes a plain slice and a place. So do the functions for what a record holds, since
// whoever passes a run of records in one go has a slice and places, and no reader.
#![tactic(auto)]

ghost use Rattle.std.specs.Prelude.{◌≡◌, ◌+◌, ◌≤◌, ◌<◌, length, Err};
ghost use Rattle.std.specs.declared.ops.ControlFlow.TheVariants.{Break};
ghost use Rattle.bytes_read.specs.Places.{le16, le32, move_at, sizes_at, body_len, code_of, Named, record_of, record_at};

use rules::{Action, Move, Record, Refusal, Refused, Sizes, State};
use std::ops::ControlFlow;

// The lent bytes and the place in them from which the next record is read.
#[derive(Clone, Copy)]
pub struct Reader<'a> {
    pub bytes: &'a [u8],
    pub at: usize,
}

// Two bytes, the low one first.
pub fn u16_at(s: &[u8], at: usize) -> u16
    requires { at + 1 < length s.now }
    ensures { result ≡ le16 s.now at }
{
    u16::from_le_bytes([s[at], s[at + 1]])
}

// Four bytes, the low one first.
pub fn u32_at(s: &[u8], at: usize) -> u32
    requires { at + 3 < length s.now }
    ensures { result ≡ le32 s.now at }
{
    u32::from_le_bytes([s[at], s[at + 1], s[at + 2], s[at + 3]])
}

// The body of a move, an insert or a delete.
pub fn move_at(s: &[u8], at: usize) -> Move
    requires { at + 4 < length s.now }
    ensures { result ≡ move_at s.now at }
{
    Move {
        source: State(u16_at(s, at)),
        action: Action(s[at + 2]),
        target: State(u16_at(s, at + 3)),
    }
}

// The body of a sizes record.
fn sizes_at(s: &[u8], at: usize) -> Sizes
    requires { at + 5 < length s.now }
    ensures { result ≡ sizes_at s.now at }
{
    Sizes {
        states: u16_at(s, at),
        actions: s[at + 2],
        propositions: s[at + 3],
        variables: s[at + 4],
        blocks: s[at + 5],
    }
}

// The kinds of records, by the number that stands for each in the bytes.
#[derive(Clone, Copy, Debug, PartialEq, Eq)]
pub enum Kind {
    Sizes = 1,
    Label,
    Block,
    Equation,
    Move,
    End,
    Stamp,
    Insert,
    Delete,
    Live,
    Signed,
}

impl Kind {
    // The kind that a byte stands for, where it stands for one.
    fn named(byte: u8) -> Option<Kind>
        ensures { Named byte result }
    {
        match byte {
            1 => Some(Kind::Sizes),
            2 => Some(Kind::Label),
            3 => Some(Kind::Block),
            4 => Some(Kind::Equation),
            5 => Some(Kind::Move),
            6 => Some(Kind::End),
            7 => Some(Kind::Stamp),
            8 => Some(Kind::Insert),
            9 => Some(Kind::Delete),
            10 => Some(Kind::Live),
            11 => Some(Kind::Signed),
            _ => None,
        }
    }

    // How many bytes a body of this kind takes.
    #[tactic(auto, unfolding(crate::specs::Places::body_len, rules::specs::Records::widths))]
    fn body_len(self) -> usize
        ensures { result ≡ body_len (code_of self) }
    {
        match self {
            Kind::Sizes | Kind::Label => 6,
            Kind::Block => 2,
            Kind::Equation => 3,
            Kind::Move | Kind::Insert | Kind::Delete => 5,
            Kind::Stamp | Kind::Signed => 4,
            Kind::Live | Kind::End => 0,
        }
    }
}

// The record of a kind whose body stands at `at`.
#[tactic(auto, unfolding(crate::specs::Places::record_of, crate::specs::Places::body_len, rules::specs::Records::widths))]
fn body_at(s: &[u8], kind: Kind, at: usize) -> Record
    requires { at + body_len (code_of kind) ≤ length s.now }
    ensures { result ≡ record_of (code_of kind) s.now at }
{
    match kind {
        Kind::Sizes => Record::Sizes(sizes_at(s, at)),
        Kind::Label => Record::Label(State(u16_at(s, at)), u32_at(s, at + 2)),
        Kind::Block => Record::Block(s[at], s[at + 1]),
        Kind::Equation => Record::Equation(s[at], s[at + 1], s[at + 2]),
        Kind::Move => Record::Move(move_at(s, at)),
        Kind::End => Record::End,
        Kind::Stamp => Record::Stamp(u32_at(s, at)),
        Kind::Insert => Record::Insert(move_at(s, at)),
        Kind::Delete => Record::Delete(move_at(s, at)),
        Kind::Live => Record::Live,
        Kind::Signed => Record::Signed(s[at], s[at + 1], s[at + 2], s[at + 3]),
    }
}

// The record at a place of the bytes and the place after it: the work, on a part and a place. There is none at the end of the
// bytes, at an unknown kind and at a record that is cut off.
#[tactic(auto, unfolding(crate::specs::Places::record_at))]
fn record_at(bytes: &[u8], at: usize) -> Option<(Record, usize)>
    ensures { result ≡ record_at bytes.now at }
{
    let kind = Kind::named(*bytes.get(at)?)?;
    let n = kind.body_len();
    let b = at + 1;
    if bytes.len() - b < n {
        return None;
    }
    Some((body_at(bytes, kind, b), b + n))
}

impl<'a> Reader<'a> {
    // A reader of the lent bytes that stands at a place.
    pub fn new(bytes: &'a [u8], at: usize) -> Reader<'a>
        ensures { (result.bytes ≡ bytes.entry) × (result.at ≡ at) }
    {
        Reader { bytes, at }
    }

    // The record at the reader's place and the place after it.
    pub fn read(self) -> Option<(Record, usize)>
        ensures { result ≡ record_at self.entry.bytes.now self.entry.at }
    {
        record_at(self.bytes, self.at)
    }
}

// A reading from record to record ends with a refusal.
pub fn refused<S, C>(why: Refusal, place: usize) -> ControlFlow<Result<S, Refused>, C>
    ensures { result ≡ Break (Err (record { why = why; place = place })) }
{
    ControlFlow::Break(Err(Refused { why, place }))
}
