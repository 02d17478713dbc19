// The changes of a batch: judged against the moves, and carried into the stamp.
#![tactic(auto)]

ghost use Rattle.std.specs.Prelude.{◌≡◌, ℕ, true, [], ◌∷◌, ◌≤◌, ◌<◌, length, slice_index};
ghost use Rattle.lists.specs.Lists.{bit, elem};
ghost use Rattle.rules.specs.Limits.{most_changes};
ghost use Rattle.rules.specs.Batch.{inserts, deletes, repeated, misplaced, unless, judge};
ghost use Rattle.rules.specs.Answers.{number_of};
ghost use Rattle.laws.specs.moves.Edits.{carry};
ghost use Rattle.laws.specs.moves.Emptied.{moves_of, emptied, stays_in, lives_by};
ghost use Rattle.words.specs.Words.{change_of, changes_of};
ghost use Rattle.moves.specs.Ascending.{ascends};
ghost use Rattle.batch_judge.specs.Fits.{fits_by, Held};
ghost use Rattle.batch_judge.specs.Hangs.{named_by, names, hangs_by};
ghost use Rattle.batch_judge.specs.Faults.{FirstFault, wrong_in};
ghost use Rattle.batch_judge.specs.Judging.{batch_in, fault_of, verdict_says, seen_at};

use rules::{Refusal, Refused, Session, State};

// The stamp carried over one change.
fn carry_one(stamp: u32, w: u32) -> u32
    ensures { result ≡ carry stamp (change_of w ∷ []) }
{
    if words::inserts(w) {
        return moves::stamp_with(stamp, words::move_of(w));
    }
    moves::stamp_without(stamp, words::move_of(w))
}

// The stamp carried over the changes by wrapping add and subtract.
pub fn carried(stamp: u32, changes: &[u32]) -> u32
    ensures { result ≡ carry stamp (changes_of changes.now) }
{
    changes.iter().fold(stamp, |x, w| carry_one(x, *w))
}

// Whether one of the changes before place i names the move q. All of them are looked at, which needs no branch.
fn named_before(changes: &[u32], i: usize, q: u32) -> bool
    requires { i ≤ length changes.now }
    ensures { result ≡ elem q (seen_at changes.now i) }
{
    let mut found = false;
    for w in &changes[..i] {
        found = (q == words::move_of(*w)) | found;
    }
    found
}

// 1 where a change is of the kind asked for, an insert or a delete, and of a move of the state; else 0.
fn named_one(w: u32, here: State, inserting: bool) -> usize
    ensures { (result ≡ bit (names inserting here.0 (change_of w))) × (result ≤ 1) }
{
    let from = words::source_of(words::move_of(w));
    usize::from((inserting == words::inserts(w)) & (from == here))
}

// The changes of a batch, and the moves that they are judged against.
#[derive(Clone, Copy)]
struct Judgement<'a> {
    changes: &'a [u32],
    moves: &'a [u32],
    ghost few: { length changes.now ≤ most_changes },
    ghost ascending: { ascends 0 moves.now ≡ true },
}

impl<'a> Judgement<'a> {
    // The first change that has a fault is refused for it, at its record: the stamp's record has five bytes and each change six.
    fn first_fault<F: Fn(usize, u32) -> Option<Refusal>>(&self, fault: F) -> Result<(), Refused>
        requires { (i : ℕ) → i < length self.now.changes.now → F.pre fault i (slice_index self.now.changes.now i) }
        ensures { FirstFault (F.post fault) self.now.changes.now result }
    {
        for (i, w) in self.changes.iter().enumerate() {
            if let Some(why) = fault(i, *w) {
                return Err(Refused {
                    why,
                    place: 5 + 6 * i,
                });
            }
        }
        Ok(())
    }

    // 9: the first change that names a move again.
    fn repeats(&self) -> Result<(), Refused>
        ensures { fault_of result ≡ repeated [] 5 (changes_of self.now.changes.now) }
    {
        self.first_fault(|i, w| {
            if named_before(self.changes, i, words::move_of(w)) {
                Some(Refusal::NamedTwice)
            } else {
                None
            }
        })
    }

    // 7 where a change inserts a move that is present, 8 where it deletes one that is absent.
    fn wrong_in(&self, w: u32) -> Option<Refusal>
        ensures { result ≡ wrong_in self.now.moves.now w }
    {
        match (
            words::inserts(w),
            moves::holds_move(self.moves, words::move_of(w)),
        ) {
            (true, true) => Some(Refusal::Present),
            (false, false) => Some(Refusal::Absent),
            _ => None,
        }
    }

    // 7 or 8: the first change that is wrong.
    fn misplaces(&self) -> Result<(), Refused>
        ensures { fault_of result ≡ misplaced self.now.moves.now 5 (changes_of self.now.changes.now) }
    {
        self.first_fault(|_, w| self.wrong_in(w))
    }

    // How many of the changes are inserts.
    fn inserts(&self) -> usize
        ensures { (result ≡ length (inserts (changes_of self.now.changes.now))) × (result ≤ length self.now.changes.now) }
    {
        self.changes.iter().filter(|w| words::inserts(**w)).count()
    }

    // Whether the moves still fit the limit and the room, by counts alone.
    fn fits(&self, room: usize) -> bool
        ensures { result ≡ fits_by room (length self.now.moves.now) (changes_of self.now.changes.now) }
    {
        let inserted = self.inserts();
        let deleted = self.changes.len() - inserted;
        let held = self.moves.len();
        let most = limits::MOST_MOVES.min(room);
        held + inserted <= most + deleted
    }

    // How many of the changes are of the kind asked for, and of a move of the state. The kind is compared and chooses no step.
    fn named_of(&self, here: State, inserting: bool) -> usize
        ensures { (result ≡ moves_of here.0 (named_by inserting (changes_of self.now.changes.now))) × (result ≤ length self.now.changes.now) }
    {
        let mut found: usize = 0;
        for w in self.changes {
            found += named_one(*w, here, inserting);
        }
        found
    }

    // Whether the changes leave the state without a move.
    fn empties(&self, here: State) -> bool
        ensures { result ≡ emptied self.now.moves.now (changes_of self.now.changes.now) here.0 }
    {
        let held = moves::moves_of(self.moves, here);
        let inserted = self.named_of(here, true);
        let deleted = self.named_of(here, false);
        held + inserted <= deleted
    }

    // Whether a change deletes a move of a state that is left without one.
    fn hangs_by(&self, w: u32) -> bool
        ensures { result ≡ hangs_by self.now.moves.now (changes_of self.now.changes.now) (change_of w) }
    {
        if words::inserts(w) {
            return false;
        }
        self.empties(words::source_of(words::move_of(w)))
    }

    // Whether no change does.
    fn none_hangs(&self) -> bool
        ensures { result ≡ stays_in self.now.moves.now (changes_of self.now.changes.now) (deletes (changes_of self.now.changes.now)) }
    {
        self.changes.iter().all(|w| !self.hangs_by(*w))
    }

    // Whether a live model stays one, each state of which has a move: told before any move is made.
    fn lives(&self, live: u8) -> bool
        ensures { result ≡ lives_by live self.now.moves.now (changes_of self.now.changes.now) }
    {
        if live == 1 {
            return self.none_hangs();
        }
        true
    }
}

// A refusal at place 0, unless the test holds.
fn refused_unless(why: Refusal, test: bool) -> Result<(), Refused>
    ensures { fault_of result ≡ unless (number_of why) test }
{
    if test { Ok(()) } else { Err(why.into()) }
}

// A batch that was read, judged against a session and its moves, of which there may be as many as their room has places: 11, then 9,
// then 7 and 8, then 10, then 16.
pub fn judge_batch<'a>(
    session: Session,
    changes: &'a [u32],
    stamp: u32,
    moves: &'a [u32],
    room: usize,
) -> Result<(), Refused>
    requires changes_len_bound { length changes.now ≤ most_changes }
    requires held { Held session moves.now }
    ensures { verdict_says (batch_in stamp changes.now) result ≡ judge session room moves.now (batch_in stamp changes.now) }
{
    let drawn = refused_unless(Refusal::WrongStamp, stamp == session.stamp);
    let asked = Judgement { changes, moves };
    let named = asked.repeats();
    let placed = asked.misplaces();
    let small = refused_unless(Refusal::Full, asked.fits(room));
    let live = refused_unless(Refusal::Hangs, asked.lives(session.live));
    drawn.and(named).and(placed).and(small).and(live)
}
