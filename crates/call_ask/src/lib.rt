// The question about one pair, whole.
#![tactic(auto)]

ghost use Rattle.std.specs.Prelude.{◌≡◌};
ghost use Rattle.rules.specs.Calls.{ask};
ghost use Rattle.rules.specs.Answers.{says};
ghost use Rattle.call_ask.specs.AskLaws.{numbers_ok};

use rules::{Refusal, Refused, Session, Sizes, State, Variable};

// Whether a state and a variable lie below their counts.
fn numbers_ok(sizes: Sizes, here: State, x: Variable) -> bool
    ensures { result ≡ numbers_ok sizes here x }
{
    (here.0 < sizes.states) & (x.0 < sizes.variables)
}

// The value of one pair. It is refused 12 for the sizes, 13 for the room of the values, 4 for a state or a variable not below
// its count, and 12 for the one byte read.
#[tactic(auto, unfolding(rules::specs::Calls::ask))]
pub fn ask(session: Session, values: &[u8], here: State, x: Variable) -> Result<bool, Refused>
    ensures { says result ≡ ask session values.now here x }
{
    let sizes = session.sizes;
    if !limits::sizes_ok(sizes) {
        return Err(Refusal::NotAModel.into());
    }
    if values.len() < limits::pairs_of(sizes) {
        return Err(Refusal::ShortRoom.into());
    }
    if !numbers_ok(sizes, here, x) {
        return Err(Refusal::BadNumber.into());
    }
    let v = rooms::at_or(values, words::pair_of(sizes, here, x), 0);
    if 1 < v {
        return Err(Refusal::NotAModel.into());
    }
    Ok(v == 1)
}
