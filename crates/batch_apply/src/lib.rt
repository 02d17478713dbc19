// The changes of a batch made in the room of the moves, which stay sorted: first all deletes, then all inserts. Each finds its
// place by halving, and shifts the moves behind it; the deletes of several changes are made in one pass over the room.
#![tactic(auto)]

ghost use Rattle.std.specs.Prelude.{◌≡◌, true, false, ◌≤◌, ◌<◌, length};
ghost use Rattle.rules.specs.Limits.{most_moves};
ghost use Rattle.moves.specs.Ascending.{ascends};
ghost use Rattle.words.specs.Words.{change_of, changes_of};
ghost use Rattle.batch_apply.specs.Kept.{kept, removed_from, inserted_into, deleted_by, inserted_by, changed_all, applied_to, Orderly, AllOrderly, Ready};
ghost use Rattle.batch_apply.specs.Striking.{noted, noted_by, noted_all, struck_at, closing};

// The move p taken out of the first n; the place that is freed becomes 0. What is left is the number of moves.
fn remove_move(moves: &mut [u32], n: usize, p: u32) -> usize
    requires { Orderly (kept moves.old n) }
    ensures { kept moves.new result ≡ removed_from p (kept moves.old n) }
{
    let at = moves::place_of(&moves[..n], p);
    if n <= at {
        return n;
    }
    let last = n - 1;
    moves.copy_within(at + 1..n, at);
    moves[last] = 0;
    last
}

// The move p put in among the first n, if there is room.
fn insert_move(moves: &mut [u32], n: usize, p: u32) -> usize
    requires { Orderly (kept moves.old n) }
    ensures { kept moves.new result ≡ inserted_into p (kept moves.old n) }
{
    if moves.len() <= n {
        return n;
    }
    let at = moves::place_of(&moves[..n], p);
    moves.copy_within(at..n, at + 1);
    moves[at] = p;
    n + 1
}

// One change, where it is a delete.
fn delete_one(w: u32, moves: &mut [u32], n: usize) -> usize
    requires { Orderly (kept moves.old n) }
    ensures { kept moves.new result ≡ deleted_by (change_of w) (kept moves.old n) }
{
    if words::inserts(w) {
        return n;
    }
    remove_move(moves, n, words::move_of(w))
}

// One change, where it is an insert.
fn insert_one(w: u32, moves: &mut [u32], n: usize) -> usize
    requires { Orderly (kept moves.old n) }
    ensures { kept moves.new result ≡ inserted_by (change_of w) (kept moves.old n) }
{
    if words::inserts(w) {
        return insert_move(moves, n, words::move_of(w));
    }
    n
}

// All deletes one by one, from the last change to the first.
fn delete_each(changes: &[u32], moves: &mut [u32], n: usize) -> usize
    requires { AllOrderly false (changes_of changes.now) (kept moves.old n) }
    ensures { kept moves.new result ≡ changed_all false (changes_of changes.now) (kept moves.old n) }
{
    let mut held = n;
    for w in changes.iter().rev() {
        held = delete_one(*w, moves, held);
    }
    held
}

// All inserts, from the last change to the first.
// A loop of its own: of what a closure changes a proof knows nothing after a fold, so the step cannot be handed in.
fn insert_each(changes: &[u32], moves: &mut [u32], n: usize) -> usize
    requires { AllOrderly true (changes_of changes.now) (kept moves.old n) }
    ensures { kept moves.new result ≡ changed_all true (changes_of changes.now) (kept moves.old n) }
{
    let mut held = n;
    for w in changes.iter().rev() {
        held = insert_one(*w, moves, held);
    }
    held
}

// From so many changes on the deleted moves are taken out in one pass.
const SEVERAL: usize = 5;

// What is written over a move that is struck: no move is this word.
const MARK: u32 = 4294967295;

// The place of the move that a change deletes, noted in front of those from `top` on. Answers where the first note is then.
fn note_one(w: u32, moves: &[u32], places: &mut [u16], top: usize) -> usize
    requires moves_value { (ascends 0 moves.now ≡ true) × (length moves.now ≤ most_moves) }
    requires top_nonzero { (0 < top) × (top ≤ length places.old) }
    ensures { noted places.new result ≡ noted_by moves.now (change_of w) (noted places.old top) }
{
    if words::inserts(w) {
        return top;
    }
    let at = moves::place_of(moves, words::move_of(w));
    places[top - 1] = at as u16;
    top - 1
}

// The places of all moves that the changes delete, noted at the end of the room. Answers where the first note is.
fn note_all(changes: &[u32], moves: &[u32], places: &mut [u16]) -> usize
    requires moves_value { (ascends 0 moves.now ≡ true) × (length moves.now ≤ most_moves) }
    requires changes_in_bounds { length changes.now ≤ length places.old }
    ensures notes { noted places.new result ≡ noted_all moves.now (changes_of changes.now) (noted places.old (length places.old)) }
    ensures inside { result ≤ length places.old }
{
    let mut top = places.len();
    for w in changes.iter().rev() {
        top = note_one(*w, moves, places, top);
    }
    top
}

// The moves at the places are struck.
fn strike(moves: &mut [u32], places: &[u16])
    ensures { moves.new ≡ struck_at places.now moves.old }
{
    for at in places {
        rooms::put(moves, usize::from(*at), MARK);
    }
}

// The first n words without those that are struck, closed up to the front. Answers how many stay.
fn close_up(moves: &mut [u32], n: usize) -> usize
    requires { n ≤ length moves.old }
    ensures closed { kept moves.new result ≡ closing n 0 0 moves.old }
    ensures few { result ≤ n }
{
    let mut to = 0;
    for i in 0..n {
        let w = moves[i];
        moves[to] = w;
        to += usize::from(w != MARK);
    }
    to
}

// All deletes in one pass: the places of their moves are noted while the table is whole, these moves are struck, the others
// close up, and the places that are free then become 0.
//
// It stays a function of its own in what is built, so that its places lie on the stack while it runs and no longer.
#[inline(never)]
fn delete_at_once(changes: &[u32], moves: &mut [u32], n: usize) -> usize
    requires { Ready (changes_of changes.now) (kept moves.old n) }
    ensures { kept moves.new result ≡ changed_all false (changes_of changes.now) (kept moves.old n) }
{
    let mut places = [0u16; limits::MOST_CHANGES];
    let from = note_all(changes, &moves[..n], &mut places);
    strike(moves, &places[from..]);
    let left = close_up(moves, n);
    moves[left..n].fill(0);
    left
}

// All deletes: in one pass where there are several changes, else one by one.
fn delete_all(changes: &[u32], moves: &mut [u32], n: usize) -> usize
    requires { Ready (changes_of changes.now) (kept moves.old n) }
    ensures { kept moves.new result ≡ changed_all false (changes_of changes.now) (kept moves.old n) }
{
    if SEVERAL <= changes.len() {
        return delete_at_once(changes, moves, n);
    }
    delete_each(changes, moves, n)
}

// The changes made in the room: the moves become old less deletes plus inserts. What comes back is their number. The room is longer than
// the n moves in it, since inserts take its next places: memory is fixed.
pub fn apply(changes: &[u32], moves: &mut [u32], n: usize) -> usize
    requires { Ready (changes_of changes.now) (kept moves.old n) }
    ensures { kept moves.new result ≡ applied_to (changes_of changes.now) (kept moves.old n) }
{
    let left = delete_all(changes, moves, n);
    insert_each(changes, moves, left)
}
