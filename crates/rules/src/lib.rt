// What every layer speaks of: the numbers of states, actions and variables, moves, sizes, sessions, refusals, and what the four
// calls answer: a `Result`, of which a refusal is the error. What all of it means stands in specs/.
#![tactic(auto)]

ghost use Rattle.std.specs.Prelude.{◌≡◌};

// A state, an action and a variable: three kinds of number that do not mix.
#[derive(Clone, Copy, Debug, PartialEq, Eq)]
pub struct State(pub u16);

#[derive(Clone, Copy, Debug, PartialEq, Eq)]
pub struct Action(pub u8);

#[derive(Clone, Copy, Debug, PartialEq, Eq)]
pub struct Variable(pub u8);

#[derive(Clone, Copy, Debug, PartialEq, Eq)]
pub struct Move {
    pub source: State,
    pub action: Action,
    pub target: State,
}

// An equation: its operator, what it names, its block or component, and whether that is greatest (1) or least (0). The numbers are kept
// as they were read: a lent word may hold any, and `unword`, `operands_ok` and `sign_ok` say what is answered of an operator above 7 and a
// kind above 1.
#[derive(Clone, Copy, Debug, PartialEq, Eq)]
pub struct Equation {
    pub operator: u8,
    pub first: u8,
    pub second: u8,
    pub block: u8,
    pub kind: u8,
}

// How many of each a model has.
#[derive(Clone, Copy, Debug, PartialEq, Eq)]
pub struct Sizes {
    pub states: u16,
    pub actions: u8,
    pub propositions: u8,
    pub variables: u8,
    pub blocks: u8,
}

// The small part of a session, kept by value: whether the model is live (1) or not (0), how many moves lie in the room lent for
// them, and their stamp. The flag is a number, since C lends a session as numbers, and `session_demands` says that one above 1 is refused.
#[derive(Clone, Copy, Debug, PartialEq, Eq)]
pub struct Session {
    pub sizes: Sizes,
    pub live: u8,
    pub moves: u32,
    pub stamp: u32,
}

// Why the checker says no, in the order of the paper's numbers (specs/Answers.antt, `number_of`).
#[derive(Clone, Copy, Debug, PartialEq, Eq)]
pub enum Refusal {
    Broken,
    NotDue,
    BadSize,
    BadNumber,
    Tangled,
    OutOfOrder,
    Present,
    Absent,
    NamedTwice,
    Full,
    WrongStamp,
    NotAModel,
    ShortRoom,
    Hangs,
}

// A refusal, and the place in the bytes for which it is given.
#[derive(Clone, Copy, Debug, PartialEq, Eq)]
pub struct Refused {
    pub why: Refusal,
    pub place: usize,
}

// What is asked of no place in the bytes is refused at place 0.
impl From<Refusal> for Refused {
    ghost from_gives = { λ w r. r ≡ record { why = w; place = 0 } };

    fn from(why: Refusal) -> Refused {
        Refused { why, place: 0 }
    }
}

// Leanings, inside one block, on shifted pairs and on settled pairs.
#[derive(Clone, Copy, Debug, PartialEq, Eq)]
pub struct Visits {
    pub shift: u32,
    pub settle: u32,
}

// What an accepted batch reports: the session after it, the visits, and the change in the number of true pairs.
#[derive(Clone, Copy, Debug, PartialEq, Eq)]
pub struct Report {
    pub session: Session,
    pub visits: Visits,
    pub net: i32,
}

// One record of the wire.
#[derive(Clone, Copy, Debug, PartialEq, Eq)]
pub enum Record {
    Sizes(Sizes),
    Label(State, u32),
    Block(u8, u8),
    Equation(u8, u8, u8),
    Move(Move),
    End,
    Stamp(u32),
    Insert(Move),
    Delete(Move),
    Live,
    Signed(u8, u8, u8, u8),
}
